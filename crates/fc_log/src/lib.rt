//! Logs: what a build did to a module, line by line, printed and read.
//!
//! The first line is `log 1` and the name of the module. Each other line is an entry: `mark` and a phase, or `step`, a row, a definition, a
//! path of part numbers with dots between them, and for `fold` its answer. A step of the whole module has `-` in place of a definition
//! and of a path. One space parts the words of a line, and a line feed ends each line.
#![tactic(auto)]

mod cut;
mod laws;
mod log;
mod names;
mod numbers;
mod printing;
mod reading;
mod steps;
mod tokens;
mod whole;
mod words;

pub use laws::{a_log_goes_on, a_text_of_a_log_has_one_answer};
pub use log::{Answer, Entry, Log, Phase, Row, Step};
pub use printing::print;
pub use whole::read;
