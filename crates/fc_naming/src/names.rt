//! Words of variables, and names of declarations, as they are written in a module.
ghost use Rattle.std.specs.Prelude.{◌≡◌, IfOk};
ghost use Rattle.std.specs.Option.{option_copied};
ghost use Rattle.fc_used_words.specs.Standing.{short};
ghost use Rattle.fc_naming.specs.Named.{IsWritten};

use fc_model::Declared;
use fc_syntax::{Memory, Name, Text};
use std::alloc::Global;

/// The word of a variable. No variable of a scoped module is without one.
#[tactic(auto, using(crate::proofs::Lower::word_rules))]
pub fn word_or_other(alloc: Global, word: Option<&Text>) -> Result<Text, Memory>
    ensures { IfOk result (λ v. IsWritten (option_copied word.entry) v) }
{
    match word {
        Some(word) => word.copy(alloc),
        None => Text::from_str(alloc, "unbound"),
    }
}

/// A name as it is written: without its module where that is this one.
pub fn written(alloc: Global, top: &Declared, name: &Name) -> Result<Name, Memory>
    ensures { IfOk result (λ n. n ≡ short top.now.own name.now) }
{
    if let Some(module) = &name.module {
        if module.as_str() != top.own.as_str() {
            return name.copy(alloc);
        }
    }
    let text = name.text.copy(alloc)?;
    Ok(Name { module: None, text })
}
