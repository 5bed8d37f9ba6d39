//! What a step names.
ghost use Rattle.std.specs.Prelude.{◌≡◌};
ghost use Rattle.std.specs.Option.{option_map};
ghost use Rattle.fc_rows.specs.Rewriting.{looked_at};
ghost use Rattle.fc_apply.specs.Steps.{case_around as spec_case_around, placed as spec_placed};

use fc_log::{Row, Step};
use fc_syntax::{Place, Text, part};

/// The definition and the place that a step names, where it is one of a row at a place.
pub(crate) fn placed<'a>(step: &'a Step) -> Option<(&'a Text, &'a [u32])>
    ensures { option_map (λ p. (p.0.now, p.1.now)) result ≡ spec_placed step.now }
{
    match (&step.def, &step.path, &step.answer) {
        (Some(word), Place::Parts(place), None) => Some((word, place.as_slice())),
        _ => None,
    }
}

/// A place of a case and the number of an alternative of it, by the place of the alternative.
fn case_around(place: &[u32]) -> Option<(&[u32], usize)>
    ensures { option_map (λ q. (q.0.now, q.1)) result ≡ spec_case_around place.now }
{
    let (last, before) = place.split_last()?;
    if *last < part::FIRST_ALTERNATIVE {
        None
    } else {
        Some((before, (*last - part::FIRST_ALTERNATIVE) as usize))
    }
}

/// Where a row looks, and the number of the alternative that it is for: the place of alt-dead is that of an alternative, and the row looks at the case around it.
pub(crate) fn aimed(row: Row, place: &[u32]) -> Option<(&[u32], usize)>
    ensures { option_map (λ q. (q.0.now, q.1)) result ≡ looked_at row place.now }
{
    match row {
        Row::AltDead => case_around(place),
        _ => Some((place, 0)),
    }
}
