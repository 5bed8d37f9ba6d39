//! Whether the variables of a type have places in a table, and how many there are.
ghost use Rattle.std.specs.Prelude.{◌≡◌, ◌+◌, true, length, IfOk};
ghost use Rattle.fc_model.specs.NamelessView.{nty_of};
ghost use Rattle.fc_model.specs.Substituting.{IsScopedType};
ghost use Rattle.fc_type_table.specs.InScope.{kinds_of};

use fc_syntax::{Memory, NTy};
use fc_type_table::NumberedKinds;

/// Whether each variable of a type has a binder there, or is one of so many outside. Takes no memory.
#[tactic(auto, using(fc_syntax::proofs::View::view_rules))]
pub(crate) fn is_scoped(t: &NTy, variables: u32) -> bool
    ensures { result ≡ true → IsScopedType variables (nty_of t.now) }
{
    match t {
        NTy::Var(index) => *index < variables,
        NTy::Con(_) => true,
        NTy::IntHash => true,
        NTy::App(head, argument) => is_scoped(head, variables) && is_scoped(argument, variables),
        NTy::Fun(from, to) => is_scoped(from, variables) && is_scoped(to, variables),
        NTy::Forall(_, _, body) => variables < u32::MAX && is_scoped(body, variables + 1),
        NTy::CoForall(_, left, right, body) => {
            is_scoped(left, variables) && is_scoped(right, variables) && is_scoped(body, variables)
        }
    }
}

/// So many more, where the number can be told.
fn more(count: u32, more: usize) -> Result<u32, Memory>
    ensures { IfOk result (λ n. n ≡ count + more) }
{
    let Ok(more) = u32::try_from(more) else {
        return Err(Memory);
    };
    match count.checked_add(more) {
        Some(all) => Ok(all),
        None => Err(Memory),
    }
}

/// How many type variables are in scope. Fails where the number has no 32 bits; this is answered as out of memory.
pub(crate) fn variables(kinds: &NumberedKinds) -> Result<u32, Memory>
    ensures { IfOk result (λ n. n ≡ length (kinds_of kinds.now)) }
{
    match kinds {
        NumberedKinds::End => Ok(0),
        NumberedKinds::Kind(_, rest) => {
            let count = variables(rest)?;
            more(count, 1)
        }
        NumberedKinds::Group(own, rest) => {
            let count = variables(rest)?;
            more(count, own.len())
        }
    }
}
