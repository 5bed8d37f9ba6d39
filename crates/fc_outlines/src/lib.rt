//! Outlines of nameless modules: what a module declares, without right sides. Kinds, coercions and types are the same among outlines as among the modules.
#![tactic(auto)]

mod outlining;

pub use outlining::{outline, outlines};
