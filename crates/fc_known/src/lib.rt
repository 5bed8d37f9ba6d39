//! What is known of the variables of values in scope and of the join points in tail reach at a place, by what stands around it.
#![tactic(auto)]

mod around;
mod counts;
mod knowing;
mod points;

pub use around::{Around, Branch};
pub use counts::counted;
pub use knowing::{Fact, known, known_name};
pub use points::{KnownPoint, known_point};
