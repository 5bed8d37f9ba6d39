//! Names, each once.
ghost use Rattle.std.specs.Prelude.{◌≡◌, IfOk, map};
ghost use Rattle.fc_free.specs.Free.{each_once};
ghost use Rattle.fc_free.specs.Keys.{named};

use fc_syntax::{Memory, Name, Seq};
use indexmap::IndexSet;
use std::alloc::Global;

/// A name as it is looked for: its module, if it has one, and its word.
#[derive(Clone, Copy, PartialEq, Eq, Hash)]
struct Key<'a> {
    module: Option<&'a str>,
    text: &'a str,
}

/// The key of a name.
fn key_of(name: &Name) -> Key<'_>
    ensures { named result ≡ name.now }
{
    Key {
        module: match &name.module {
            Some(module) => Some(module.as_str()),
            None => None,
        },
        text: name.text.as_str(),
    }
}

/// Names, each where it stands first. Fails only where memory runs out.
pub(crate) fn once_each(alloc: Global, names: &[&Name]) -> Result<Seq<Name>, Memory>
    ensures { IfOk result (λ all. all ≡ each_once (map (λ n. n.now) names.now)) }
{
    let mut seen = IndexSet::new(alloc);
    let mut all = Seq::new(alloc);
    for name in names {
        if seen.insert(key_of(*name))? {
            all.push(name.copy(alloc)?)?;
        }
    }
    Ok(all)
}
