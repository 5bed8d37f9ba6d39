//! The alternatives of heads.
ghost use Rattle.std.specs.Prelude.{◌≡◌};
ghost use Rattle.std.specs.Option.{option_map};
ghost use Rattle.fc_model.specs.Calling.{first_of};
ghost use Rattle.fc_model.specs.NamelessView.{nalts_of};
ghost use Rattle.fc_rows.specs.Shrinking.{alternative_of, same_head};
ghost use Rattle.fc_syntax.specs.declared.expr.Head.TheVariants.{Default, Lit};
ghost use Rattle.fc_case_known.specs.Alternatives.{branch_of, head_of};

use fc_syntax::{Head, NAlt, Name};
use fc_types::same_name;

/// The head that an alternative is sought for.
#[derive(Clone, Copy)]
pub(crate) enum Sought<'a> {
    /// Every head that has no alternative of its own.
    Rest,
    /// A literal.
    Number(i64),
    /// A constructor.
    Named(&'a Name),
}

/// Whether an alternative is for the head that is sought.
fn is_for(alternative: &NAlt, sought: &Sought<'_>) -> bool
    ensures { result ≡ same_head (head_of sought.now) alternative.now.head }
{
    match (sought, &alternative.head) {
        (Sought::Rest, Head::Default) => true,
        (Sought::Number(m), Head::Lit(n)) => m == n,
        (Sought::Named(m), Head::Con(n)) => same_name(m, n),
        _ => false,
    }
}

/// The first alternative for a head.
pub(crate) fn alternative_for<'a>(alternatives: &'a [NAlt], sought: &Sought<'_>) -> Option<&'a NAlt>
    ensures { option_map (λ a. branch_of a.now) result ≡ alternative_of (head_of sought.now) (nalts_of alternatives.now) }
{
    for alternative in alternatives {
        if is_for(alternative, sought) {
            return Some(alternative);
        }
    }
    None
}

/// The default.
pub(crate) fn default_of<'a>(alternatives: &'a [NAlt]) -> Option<&'a NAlt>
    ensures { option_map (λ a. branch_of a.now) result ≡ alternative_of Default (nalts_of alternatives.now) }
{
    alternative_for(alternatives, &Sought::Rest)
}

/// The first alternative for a literal, else the default.
pub(crate) fn alternative_at<'a>(alternatives: &'a [NAlt], literal: i64) -> Option<&'a NAlt>
    ensures { option_map (λ a. branch_of a.now) result ≡ first_of (alternative_of (Lit literal) (nalts_of alternatives.now)) (alternative_of Default (nalts_of alternatives.now)) }
{
    match alternative_for(alternatives, &Sought::Number(literal)) {
        Some(own) => Some(own),
        None => default_of(alternatives),
    }
}
