//! Readers of the pieces of which texts are made: each answers what it read and the tokens behind it, or says where it stops.
#![tactic(auto)]

mod parts;
mod refusing;
mod terminal;
mod words;

pub use parts::{
    Stop, Tokens, closes, opens_hidden, read_close, read_equality_role, read_lower,
    read_module_name, read_name, read_number, read_open, read_operator, read_role, read_upper,
    read_upper_name, read_word, takes_co, takes_type,
};
pub use refusing::refusal_at;
pub use terminal::{Terminal, module_text, name_text, terminals};
pub use words::keyword_of;
