//! Names of types as they are written in a module.
ghost use Rattle.std.specs.Prelude.{◌≡◌, IfOk, Ok};
ghost use Rattle.fc_type_names.specs.Meant.{name_meant};
ghost use Rattle.fc_type_table.specs.Names.{name_of};

use fc_syntax::{Memory, Name, Text};
use fc_type_table::NameKey;
use std::alloc::Global;

/// A name as it is written in the module `own`: a word alone where that module declares it, else behind its module. Fails where memory
/// runs out, and at a name without a module, which no type of a resolved module has.
#[tactic(auto, using(crate::proofs::Meanings::name_rules))]
pub fn written(alloc: Global, own: &Text, name: &NameKey) -> Result<Name, Memory>
    ensures { IfOk result (λ n. name_meant own.now n ≡ Ok (name_of name.now)) }
{
    match name.qualifier() {
        None => Err(Memory),
        Some(module) => {
            let text = Text::from_str(alloc, name.text.as_str())?;
            if module == own.as_str() {
                return Ok(Name { module: None, text });
            }
            let module = Text::from_str(alloc, module)?;
            Ok(Name {
                module: Some(module),
                text,
            })
        }
    }
}
