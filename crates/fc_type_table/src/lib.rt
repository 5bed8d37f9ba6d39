//! Types in a table in which equal types have equal numbers, and which tells the kind of each type when it is made. What is done to a
//! type is done once for each part that types share, so that a type whose tree is far larger than the text that it was written with
//! costs no more than that text.
#![tactic(auto)]

mod building;
mod closing;
mod faults;
mod instance;
mod judging;
mod kinds;
mod naming;
mod node;
mod numbered;
mod opening;
mod over;
mod parts;
mod reading;
mod spot;
mod table;

pub use node::{NameKey, Piece, TypeId};
pub use numbered::{NumberedKind, NumberedKinds};
pub use table::TypeTable;
