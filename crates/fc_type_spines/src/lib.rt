//! Types as heads that are applied to types. Types are numbers in a table, where type variables are in scope.
#![tactic(auto)]

mod spines;

pub use spines::{Spine, is_at, is_data_of, spine_of};
