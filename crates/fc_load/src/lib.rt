//! Reads the files of a set of modules, one after the other and within the limits of a set.
#![tactic(auto)]

mod amount;
mod loading;
mod one_file;

pub use loading::{Loaded, load};
