//! How often variables and join points occur in nameless expressions, and words in named ones.
#![tactic(auto)]

mod counting;
mod counts;
mod named;
mod sought;

pub use counting::{jumps_to_innermost, occurrences_of_innermost};
pub use counts::Count;
pub use named::count;
