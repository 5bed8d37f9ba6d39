//! The limits on what is made.
ghost use Rattle.std.specs.Prelude.{◌↔◌, IfOk, IsTrue};
ghost use Rattle.fc_model.specs.NamelessView.{nmodule_of};
ghost use Rattle.fc_rows.specs.ResultLimits.{IsWithinLimits};

use fc_nameless_measures::measures_of_module;
use fc_syntax::{Limits, Memory, NModule};

/// Whether a module is within the limits on what is made: no declaration is too deep, and all together are not too large. Fails only where a number has no 32 bits;
/// takes no memory.
pub fn is_within_limits(module: &NModule) -> Result<bool, Memory>
    ensures { IfOk result (λ b. IsTrue b ↔ IsWithinLimits (nmodule_of module.now)) }
{
    let measures = measures_of_module(module)?;
    let limits = Limits::standard();
    Ok(measures.depth <= limits.depth && measures.size <= limits.result_size)
}
