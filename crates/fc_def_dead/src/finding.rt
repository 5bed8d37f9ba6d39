//! Which definitions of a module nothing needs.
ghost use Rattle.std.specs.Prelude.{◌≡◌, ◌++◌, IfOk, OnOk, map};
ghost use Rattle.fc_model.specs.NamelessView.{nmodule_of};
ghost use Rattle.fc_def_dead.specs.Dead.{AreDead, offered_words};

use fc_reaching::unreached;
use fc_syntax::{Memory, NModule, Text};
use std::alloc::Global;

/// Puts words behind the others.
fn add_words<'a>(words: &'a [Text], to: &mut Vec<&'a str>) -> Result<(), Memory>
    ensures { OnOk result (map (λ w. w.now) to.new.items ≡ map (λ w. w.now) to.old.items ++ words.now) }
{
    for word in words {
        to.push(word.as_str())?;
    }
    Ok(())
}

/// The words that others may use: the exported and the hidden ones.
fn offered(alloc: Global, m: &NModule) -> Result<Vec<&str>, Memory>
    ensures { IfOk result (λ words. map (λ w. w.now) words.items ≡ offered_words (nmodule_of m.now)) }
{
    let mut words = Vec::new(alloc);
    add_words(m.exports.as_slice(), &mut words)?;
    add_words(m.hidden.as_slice(), &mut words)?;
    Ok(words)
}

/// For each declaration of a module, in declared order, whether it is a definition that nothing needs: others may not use it, and none that
/// they may use reaches it. Takes time in declarations, mentions and offered words. Fails only where memory runs out.
pub(crate) fn dead(alloc: Global, m: &NModule) -> Result<Vec<bool>, Memory>
    ensures { IfOk result (λ marks. AreDead (nmodule_of m.now) marks.items) }
{
    let words = offered(alloc, m)?;
    unreached(alloc, m, words.as_slice())
}
