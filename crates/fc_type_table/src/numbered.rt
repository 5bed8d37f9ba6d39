//! The kinds of the type variables in scope, by their numbers.
ghost use Rattle.std.specs.Prelude.{◌≡◌};
ghost use Rattle.fc_model.specs.Faulting.{at_distance};
ghost use Rattle.fc_model.specs.Typing.{answered};
ghost use Rattle.fc_type_table.specs.InScope.{numbered_of};

use crate::node::TypeId;
use fc_syntax::Kind;

/// The kind of a type variable, with its number in a table, so that no use of the variable looks at the kind again.
#[derive(Clone, Copy)]
pub struct NumberedKind<'a> {
    /// The kind.
    pub kind: &'a Kind,
    /// Its number.
    pub id: TypeId,
}

/// The kinds of the type variables in scope. They stand on the stack of the walk, so a binder's variable ends with its scope.
#[derive(Clone, Copy)]
pub enum NumberedKinds<'a> {
    /// None.
    End,
    /// The kind of the innermost one, and those around it.
    Kind(NumberedKind<'a>, &'a NumberedKinds<'a>),
    /// Those of variables that stand together, the last one the innermost, and those around them.
    Group(&'a [NumberedKind<'a>], &'a NumberedKinds<'a>),
}

/// The kind of the type variable at a distance, if there is one.
#[tactic(auto, using(crate::proofs::KindsInScope::distance_rules))]
pub(crate) fn number_at<'x>(kinds: &'x NumberedKinds<'x>, distance: u32) -> Option<NumberedKind<'x>>
    ensures { result ≡ answered (at_distance (numbered_of kinds.now) distance) }
{
    match kinds {
        NumberedKinds::End => None,
        NumberedKinds::Kind(kind, rest) => {
            if distance == 0 {
                Some(*kind)
            } else {
                number_at(*rest, distance - 1)
            }
        }
        NumberedKinds::Group(own, rest) => {
            let count = own.len();
            let place = distance as usize;
            if place < count {
                Some(own[count - 1 - place])
            } else {
                number_at(*rest, (place - count) as u32)
            }
        }
    }
}
