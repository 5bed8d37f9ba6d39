//! Readers of the items of an interface: each takes what it reads from the tokens ahead, or says where it stops.
#![tactic(auto)]

mod demands;
mod items;
mod words;

pub use items::{Item, Unfolding, read_item};
pub use words::{read_this, read_this_number};
