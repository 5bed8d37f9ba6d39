//! What kinds of type variables may be.
ghost use Rattle.std.specs.Prelude.{◌≡◌, ◌&&◌};
ghost use Rattle.fc_syntax.specs.View.{kind_of};
ghost use Rattle.fc_model.specs.Kinding as words;

use fc_syntax::Kind;

/// Whether a kind has no `#`. Takes no memory.
#[tactic(auto, using(fc_syntax::proofs::View::view_rules))]
pub fn is_lifted(kind: &Kind) -> bool
    ensures { result ≡ words.is_lifted (kind_of kind.now) }
{
    match kind {
        Kind::Star => true,
        Kind::Hash => false,
        Kind::Arrow(from, to) => is_lifted(from) && is_lifted(to),
    }
}
