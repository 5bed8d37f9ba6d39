//! Words that are not in scope.
ghost use Rattle.std.specs.Prelude.{IfOk};
ghost use Rattle.fc_naming.specs.Named.{IsChosen};
ghost use Rattle.fc_named_subst.specs.Scopes.{in_scope};

use crate::scope::Scope;
use fc_naming::first_free;
use fc_syntax::{Memory, Text};
use std::alloc::Global;

/// `x` itself if no name of the scope has this word, else the first of `x_1`, `x_2` and so on that none has. Fails only where memory runs out, or where 2^32 - 1 of these
/// are in scope.
pub fn freshen(alloc: Global, x: &Text, scope: &Scope) -> Result<Text, Memory>
    ensures { IfOk result (λ v. IsChosen (in_scope scope.now) x.now v) }
{
    let taken = scope.texts(alloc)?;
    first_free(alloc, x, &taken)
}
