//! The interface of a module: what it tells, its text, and how that is read.
#![tactic(auto)]

mod demands;
mod items;
mod telling;
mod values;

ghost use Rattle.std.specs.Prelude.{◌≡◌, IfOk};
ghost use Rattle.fc_model.specs.Formed.{IsInterfaceFormed};
ghost use Rattle.fc_model.specs.InterfaceTexts.{interface_text};
ghost use Rattle.fc_model.specs.Texts.{SpellsInterface};
ghost use Rattle.fc_lattice.specs.View.{as_interface};

pub use crate::telling::interface;
use fc_lattice::Interface;
use fc_printer::put_header;
pub use fc_read_interface::read_interface;
use fc_syntax::Memory;
use items::put_items;
use std::alloc::Global;

/// The text of an interface, in the layout of a module's text. It reads back to the interface where the interface is formed. Of one with too few
/// signatures or truth values, the items end in front of the definition that has none. Fails only where memory runs out.
pub fn print_interface(alloc: Global, i: &Interface) -> Result<Vec<u8>, Memory>
    ensures text { IfOk result (λ v. v.items ≡ interface_text (as_interface i.now)) }
    ensures reads_back { IfOk result (λ v. IsInterfaceFormed (as_interface i.now) → SpellsInterface v.items (as_interface i.now)) }
{
    let mut text = Vec::new(alloc);
    let decls = i.module.decls.as_slice();
    text.extend_from_slice(b"(interface 1 ")?;
    put_header(&mut text, &i.module)?;
    put_items(decls, i.sigs.as_slice(), i.unfold.as_slice(), &mut text)?;
    text.extend_from_slice(b")\n")?;
    Ok(text)
}
