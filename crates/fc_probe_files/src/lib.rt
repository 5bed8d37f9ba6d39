//! The files of the probe: what is read from them, and how a call ends.
#![tactic(auto)]

mod answers;
mod reading;

pub use answers::{NoAnswer, flawed_in, line, line_of, put_joined, tell};
pub use reading::{
    File, form_in, form_of, interface_in, interface_in_room, log_in, module_in, module_in_room,
    number_in, read_all,
};
