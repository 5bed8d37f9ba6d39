//! Heads of alternatives.
ghost use Rattle.std.specs.Prelude.{◌≡◌, ◌∷◌, []};
ghost use Rattle.std.specs.List.{list_any};
ghost use Rattle.fc_model.specs.NamelessView.{nalts_of};
ghost use Rattle.fc_rows.specs.Shrinking.{heads_excluded, is_evaluated as spec_is_evaluated, same_head as spec_same_head};
ghost use Rattle.fc_rows.specs.Surroundings.{listed_heads};
ghost use Rattle.fc_known.specs.Told.{told};

use fc_forms::is_value;
use fc_known::Fact;
use fc_syntax::{Head, NAlt};
use fc_types::same_name;

/// Whether two heads are the same.
fn same_head(a: &Head, b: &Head) -> bool
    ensures { result ≡ spec_same_head a.now b.now }
{
    match (a, b) {
        (Head::Default, Head::Default) => true,
        (Head::Lit(m), Head::Lit(n)) => m == n,
        (Head::Con(m), Head::Con(n)) => same_name(m, n),
        _ => false,
    }
}

/// Whether an alternative that is no default has a head.
fn has_head(alternative: &NAlt, head: &Head) -> bool
    ensures { result ≡ list_any (spec_same_head head.now) (listed_heads (nalts_of (alternative.now ∷ []))) }
{
    match &alternative.head {
        Head::Default => false,
        own => same_head(head, own),
    }
}

/// Whether one of alternatives, but for a default, has a head.
fn lists_head(alternatives: &[NAlt], head: &Head) -> bool
    ensures { result ≡ list_any (spec_same_head head.now) (listed_heads (nalts_of alternatives.now)) }
{
    for alternative in alternatives {
        if has_head(alternative, head) {
            return true;
        }
    }
    false
}

/// Whether it is known that something has not this head: it is looked at by a case around, in the default of which this is.
pub(crate) fn is_excluded(fact: &Fact, head: &Head) -> bool
    ensures { result ≡ list_any (spec_same_head head.now) (heads_excluded (told fact.now)) }
{
    match fact {
        Fact::Nothing => false,
        Fact::Bound(_, _) => false,
        Fact::Found(branch, _) => match &branch.alternative.head {
            Head::Default => lists_head(branch.alternatives, head),
            Head::Lit(_) => false,
            Head::Con(_) => false,
        },
    }
}

/// Whether it is known that something is evaluated: it is a value, or is looked at by a case around.
pub(crate) fn is_evaluated(fact: &Fact) -> bool
    ensures { result ≡ spec_is_evaluated (told fact.now) }
{
    match fact {
        Fact::Nothing => false,
        Fact::Bound(e, _) => is_value(e),
        Fact::Found(_, _) => true,
    }
}
