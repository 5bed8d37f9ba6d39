//! Prints an item for each declaration.
ghost use Rattle.std.specs.Prelude.{◌≡◌, ◌++◌, OnOk};
ghost use Rattle.fc_syntax.specs.View.{decls_of};
ghost use Rattle.fc_model.specs.InterfaceTexts.{items_text};
ghost use Rattle.fc_lattice.specs.View.{sigs_of};

use crate::values::put_value;
use fc_lattice::Sig;
use fc_printer::put_decl;
use fc_syntax::{Decl, Memory};

/// Appends each item on a line of its own after one space. A definition takes the next signature and the next truth value; where one of
/// these lists has ended, nothing more is put. Where memory runs out, the bytes before stand and a part of the text may follow.
pub(crate) fn put_items(
    decls: &[Decl],
    sigs: &[Sig],
    told: &[bool],
    to: &mut Vec<u8>,
) -> Result<(), Memory>
    ensures { OnOk result (to.new.items ≡ to.old.items ++ items_text (decls_of decls.now) (sigs_of sigs.now) told.now) }
{
    let mut next_sigs = sigs;
    let mut next_told = told;
    for d in decls {
        match d {
            Decl::Def(x, t, _) | Decl::Wrap(x, t, _) => match (next_sigs, next_told) {
                ([sig, later_sigs @ ..], [is_told, later_told @ ..]) => {
                    to.extend_from_slice(b"\n ")?;
                    put_value(x, t, sig, *is_told, d, to)?;
                    next_sigs = later_sigs;
                    next_told = later_told;
                }
                _ => return Ok(()),
            },
            _ => {
                to.extend_from_slice(b"\n ")?;
                put_decl(d, to)?;
            }
        }
    }
    Ok(())
}
