//! Prints modules in their canonical text.
#![tactic(auto)]

mod alternatives;
mod binders;
mod coercions;
mod decls;
mod exprs;
mod header;
mod kinds;
mod types;
mod words;

ghost use Rattle.std.specs.Prelude.{◌≡◌, IfOk};
ghost use Rattle.fc_syntax.specs.View.{module_of};
ghost use Rattle.fc_model.specs.Canonical.{canonical};
ghost use Rattle.fc_model.specs.Formed.{IsFormed};
ghost use Rattle.fc_model.specs.Texts.{Spells};

pub use decls::put_decl;
pub use exprs::put_expr;
use fc_syntax::{Memory, Module};
pub use header::put_header;
use std::alloc::Global;
pub use types::put_type;
pub use words::{put_name, put_word};

/// The canonical text of a module, which reads back to the module where each of its words is one of its form.
pub fn print_module(alloc: Global, m: &Module) -> Result<Vec<u8>, Memory>
    ensures text { IfOk result (λ v. v.items ≡ canonical (module_of m.now)) }
    ensures reads_back { IfOk result (λ v. IsFormed (module_of m.now) → Spells v.items (module_of m.now)) }
{
    let mut text = Vec::new(alloc);
    text.extend_from_slice(b"(module ")?;
    put_header(&mut text, m)?;
    decls::put_decls(m.decls.as_slice(), &mut text)?;
    text.extend_from_slice(b")\n")?;
    Ok(text)
}
