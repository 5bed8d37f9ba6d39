//! How many binders stand together.
ghost use Rattle.std.specs.Prelude.{◌≡◌, IfOk};
ghost use Rattle.fc_model.specs.NamelessView.{nbinders_of};
ghost use Rattle.fc_known.specs.Counts.{counts, together};

use fc_numbers::sum;
use fc_subst::{NO_BINDERS, Shift};
use fc_syntax::{Memory, NBinder};

/// The binders of both counts. Fails where a number has no 32 bits; this is answered as out of memory.
pub(crate) fn both(a: Shift, b: Shift) -> Result<Shift, Memory>
    ensures { IfOk result (λ p. p ≡ together a b) }
{
    let types = sum(a.types, b.types)?;
    let coercions = sum(a.coercions, b.coercions)?;
    let values = sum(a.values, b.values)?;
    let joins = sum(a.joins, b.joins)?;
    Ok(Shift {
        types,
        coercions,
        values,
        joins,
    })
}

/// How many of the binders that stand together are of each space. Fails where a number has no 32 bits; this is answered as out of memory.
pub fn counted(binders: &[NBinder]) -> Result<Shift, Memory>
    ensures { IfOk result (λ p. p ≡ counts (nbinders_of binders.now)) }
{
    let mut own = NO_BINDERS;
    for binder in binders {
        own = match binder {
            NBinder::Value(_, _) => Shift {
                values: sum(own.values, 1)?,
                ..own
            },
            NBinder::OfType(_, _) => Shift {
                types: sum(own.types, 1)?,
                ..own
            },
            NBinder::OfCo(_, _, _, _) => Shift {
                coercions: sum(own.coercions, 1)?,
                ..own
            },
        };
    }
    Ok(own)
}
