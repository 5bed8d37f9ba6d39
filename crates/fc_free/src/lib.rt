//! Which names of values and definitions occur free in an expression of the named tree.
#![tactic(auto)]

mod around;
mod binding;
mod collecting;
mod mentioning;
mod once;

pub use binding::{binder_binds, binders_bind, binds_bind, joins_bind};
pub use collecting::free;
pub use mentioning::mentions;
