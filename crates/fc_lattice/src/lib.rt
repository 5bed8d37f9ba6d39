//! Demands and signatures of functions, and the interfaces of modules that tell them.
#![tactic(auto)]

mod copy;
mod demand;
mod interface;

pub use demand::{Demand, Sig};
pub use interface::{Imports, Interface};
