//! Whether two named types are the same.
ghost use Rattle.std.specs.Prelude.{◌≡◌, List, false, Ok};
ghost use Rattle.fc_syntax.specs.Tree.{Word};
ghost use Rattle.fc_syntax.specs.View.{ty_of};
ghost use Rattle.fc_model.specs.Kinding.{same_type};
ghost use Rattle.fc_model.specs.Nameless.{NTy};
ghost use Rattle.fc_model.specs.Resolution.{Top, resolved_ty};
ghost use Rattle.fc_typing.specs.Equality as walk;
ghost use Rattle.fc_typing.specs.Equality.{bound_words};

use fc_syntax::{Text, Ty};
use fc_types::{same_kind, same_name, same_role};

/// The words that one of the two types binds around a part, the innermost first. They stand on the stack of the walk.
#[derive(Clone, Copy)]
enum Bound<'a> {
    /// None.
    End,
    /// A word, and those around it.
    More(&'a Text, &'a Bound<'a>),
}

/// Whether two type variables are the same, each inside of the words that are bound around it: both are bound at one distance, or
/// neither is bound there and both are one word. As many words are bound on the left as on the right.
fn same_variable(lefts: &Bound<'_>, rights: &Bound<'_>, left: &Text, right: &Text) -> bool
    ensures { result ≡ walk.same_variable (bound_words lefts.now) (bound_words rights.now) left.now right.now }
{
    match (lefts, rights) {
        (Bound::End, Bound::End) => left.as_str() == right.as_str(),
        (Bound::More(x, lefts), Bound::More(y, rights)) => {
            if x.as_str() == left.as_str() {
                y.as_str() == right.as_str()
            } else {
                y.as_str() != right.as_str() && same_variable(lefts, rights, left, right)
            }
        }
        (Bound::End, Bound::More(_, _)) => false,
        (Bound::More(_, _), Bound::End) => false,
    }
}

/// Whether two types are the same, each inside of the words that are bound around it.
#[tactic(auto, using(fc_syntax::proofs::View::view_rules), unfolding(fc_syntax::specs::View::ty_of))]
fn equal_in(left: &Ty, right: &Ty, lefts: &Bound, rights: &Bound) -> bool
    ensures { result ≡ walk.equal_in (bound_words lefts.now) (bound_words rights.now) (ty_of left.now) (ty_of right.now) }
{
    match (left, right) {
        (Ty::Var(v), Ty::Var(w)) => same_variable(&*lefts, &*rights, v, w),
        (Ty::Con(m), Ty::Con(n)) => same_name(m, n),
        (Ty::IntHash, Ty::IntHash) => true,
        (Ty::App(a, b), Ty::App(c, d)) => {
            equal_in(a, c, &*lefts, &*rights) && equal_in(b, d, &*lefts, &*rights)
        }
        (Ty::Fun(a, b), Ty::Fun(c, d)) => {
            equal_in(a, c, &*lefts, &*rights) && equal_in(b, d, &*lefts, &*rights)
        }
        (Ty::Forall(x, j, a), Ty::Forall(y, k, b)) => {
            let lefts = Bound::More(&*x, &*lefts);
            let rights = Bound::More(&*y, &*rights);
            same_kind(j, k) && equal_in(a, b, &lefts, &rights)
        }
        (Ty::CoForall(r, a, b, t), Ty::CoForall(s, c, d, u)) => {
            (same_role(*r, *s) && equal_in(a, c, &*lefts, &*rights))
                && (equal_in(b, d, &*lefts, &*rights) && equal_in(t, u, &*lefts, &*rights))
        }
        _ => false,
    }
}

/// Whether two types are the same, up to the words of the variables that they bind: in every scope where both have a meaning, it is the
/// same one. A name without a dot and one with a dot are two names, as they are where no module imports itself. Takes no memory.
#[tactic(auto, using(crate::proofs::EqualityLemmas::equal_is_same))]
pub fn equal(left: &Ty, right: &Ty) -> bool
    ensures { (top : Top) (tys : List Word) (m n : NTy) → top.imports top.own ≡ false → resolved_ty top tys (ty_of left.now) ≡ Ok m → resolved_ty top tys (ty_of right.now) ≡ Ok n → result ≡ same_type m n }
{
    equal_in(left, right, &Bound::End, &Bound::End)
}
