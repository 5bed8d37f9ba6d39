//! What a build makes of a module of a set: the module that is written, its interface and the log of what was done.
#![tactic(auto)]

mod making;

pub use making::{Product, make};
