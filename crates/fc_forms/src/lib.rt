//! The forms of expressions that rows ask for: the parts of an expression where it is of a form, what is trivial, what is a value and which types are
//! unlifted; and a let of one binding.
#![tactic(auto)]

mod forms;
mod kinds;
mod making;

pub use forms::{
    Application, Binding, Case, Cast, Construction, Joining, Lambda, SingleBinding, as_application,
    as_binding, as_case, as_cast, as_construction, as_joining, as_lambda, as_single_binding,
    is_innermost, only_default,
};
pub use kinds::{are_trivial, is_trivial, is_unlifted, is_value};
pub use making::let_of;
