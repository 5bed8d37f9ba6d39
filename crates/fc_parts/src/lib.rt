//! Where a row may look: what is asked of the part of an expression at a place, with what stands around it (`specs/PartsAt`), and that what a row makes of the part is what
//! it makes of the whole there (`proofs/RowsAtParts`). In code which alternatives have binders.
#![tactic(auto)]

mod alternatives;

pub use alternatives::head_binds;
