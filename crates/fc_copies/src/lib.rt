//! Copies of expressions, declarations and modules, which equal what they copy: the words of binders are copied too. Those of the named and of the nameless
//! tree are the same but for their types; what has no expression in it is written once for both.
#![tactic(auto)]

mod constructors;
pub mod named;
pub mod nameless;

pub use constructors::copy_con;
