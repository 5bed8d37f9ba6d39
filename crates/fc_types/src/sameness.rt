//! Whether two types are the same.
ghost use Rattle.std.specs.Prelude.{◌≡◌};
ghost use Rattle.fc_syntax.specs.View.{kind_of};
ghost use Rattle.fc_model.specs.Kinding as words;
ghost use Rattle.fc_model.specs.NamelessView.{nty_of};

use fc_syntax::{Kind, NTy, Name, Role, Text};

/// Whether both are the same word, or both are none. Takes no memory.
pub fn same_word(left: &Option<Text>, right: &Option<Text>) -> bool
    ensures { result ≡ words.same_word left.now right.now }
{
    match (left, right) {
        (None, None) => true,
        (Some(left), Some(right)) => left.as_str() == right.as_str(),
        (None, Some(_)) => false,
        (Some(_), None) => false,
    }
}

/// Whether two names have the same module and the same word. Takes no memory.
pub fn same_name(left: &Name, right: &Name) -> bool
    ensures { result ≡ words.same_name left.now right.now }
{
    same_word(&left.module, &right.module) && left.text.as_str() == right.text.as_str()
}

/// Whether two kinds are the same. Takes no memory.
#[tactic(auto, using(fc_syntax::proofs::View::view_rules))]
pub fn same_kind(left: &Kind, right: &Kind) -> bool
    ensures { result ≡ words.same_kind (kind_of left.now) (kind_of right.now) }
{
    match (left, right) {
        (Kind::Star, Kind::Star) => true,
        (Kind::Hash, Kind::Hash) => true,
        (Kind::Arrow(a, b), Kind::Arrow(c, d)) => same_kind(a, c) && same_kind(b, d),
        _ => false,
    }
}

/// Whether two roles are the same. Takes no memory.
pub fn same_role(left: Role, right: Role) -> bool
    ensures { result ≡ words.same_role left right }
{
    left.below(right) && right.below(left)
}

/// Whether two types are the same, up to the words of their binders. Takes no memory.
#[tactic(auto, using(fc_syntax::proofs::View::view_rules), unfolding(fc_syntax::specs::View::ty_of))]
pub fn same_type(left: &NTy, right: &NTy) -> bool
    ensures { result ≡ words.same_type (nty_of left.now) (nty_of right.now) }
{
    match (left, right) {
        (NTy::Var(i), NTy::Var(j)) => *i == *j,
        (NTy::Con(m), NTy::Con(n)) => same_name(m, n),
        (NTy::IntHash, NTy::IntHash) => true,
        (NTy::App(a, b), NTy::App(c, d)) => same_type(a, c) && same_type(b, d),
        (NTy::Fun(a, b), NTy::Fun(c, d)) => same_type(a, c) && same_type(b, d),
        (NTy::Forall(_, j, a), NTy::Forall(_, k, b)) => same_kind(j, k) && same_type(a, b),
        (NTy::CoForall(r, a, b, t), NTy::CoForall(s, c, d, u)) => {
            (same_role(*r, *s) && same_type(a, c)) && (same_type(b, d) && same_type(t, u))
        }
        _ => false,
    }
}
