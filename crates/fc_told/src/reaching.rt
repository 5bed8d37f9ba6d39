//! The modules that the imports of a module reach.
ghost use Rattle.std.specs.Prelude.{◌≡◌, IfOk};
ghost use Rattle.fc_model.specs.NamelessView.{nmodule_of, nmodules_of};
ghost use Rattle.fc_rows.specs.Telling.{reached_by_imports};

use fc_copies::nameless::copy_module;
use fc_model::WordSet;
use fc_syntax::{Memory, NModule};
use std::alloc::Global;

/// Of modules, the last built first, copies of those that the imports of a module reach, directly or through others. Fails only where memory runs out.
pub fn reached(alloc: Global, m: &NModule, before: &[NModule]) -> Result<Vec<NModule>, Memory>
    ensures { IfOk result (λ xs. nmodules_of xs.items ≡ reached_by_imports (nmodule_of m.now) (nmodules_of before.now)) }
{
    let mut words = WordSet::new(alloc);
    words.add_all(alloc, m.imports.as_slice())?;
    let mut all = Vec::new(alloc);
    for x in before {
        if words.has(&x.name) {
            words.add_all(alloc, x.imports.as_slice())?;
            all.push(copy_module(alloc, x)?)?;
        }
    }
    Ok(all)
}
