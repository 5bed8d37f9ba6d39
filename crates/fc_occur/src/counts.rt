//! What is said of how often a word occurs.
ghost use Rattle.std.specs.Prelude.{◌≡◌};
ghost use Rattle.fc_occur.specs.Counts.{count_of as count_said};

use fc_rows::Occurrence;

/// How often a word occurs in an expression.
#[derive(Clone, Copy, Debug, PartialEq, Eq)]
pub enum Count {
    /// Not at all.
    Dead,
    /// Once, where it runs at most once.
    Once,
    /// Once, inside of a lambda over a value or a coercion, or of the right side of a recursive join point, which may run more than once.
    OnceInside,
    /// More than once.
    Many,
}

/// What a count says of an occurrence.
pub(crate) fn count_of(occurrence: Occurrence) -> Count
    ensures { result ≡ count_said occurrence }
{
    match occurrence {
        Occurrence::Dead => Count::Dead,
        Occurrence::Once => Count::Once,
        Occurrence::OnceAsField => Count::Once,
        Occurrence::OnceInside => Count::OnceInside,
        Occurrence::Many => Count::Many,
    }
}
