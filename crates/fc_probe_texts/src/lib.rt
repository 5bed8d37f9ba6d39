//! The calls of the probe on texts and on the named tree: tokens, readers and printers, interfaces, logs, substitution, judgements of pieces, and what occurs.
#![tactic(auto)]

pub mod interfaces;
pub mod logs;
pub mod named;
pub mod occurring;
pub mod pieces;
pub mod texts;
