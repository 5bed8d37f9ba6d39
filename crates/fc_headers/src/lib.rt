//! The header that is written, of nameless modules.
#![tactic(auto)]

mod laws;
mod mentioned;
mod types;
mod written;

pub use laws::headers_agree;
pub use written::form_written;
