//! Types, coercions and expressions of the named tree, judged where binders are in scope. Each call finds the nameless form of its piece,
//! judges that, and writes its answer with words again.
#![tactic(auto)]

mod asking;
mod coercions;
mod environment;
mod equality;
mod expressions;
mod instances;
mod kinds;
mod naming;
mod reading;

pub use coercions::ends;
pub use environment::TypeEnv;
pub use equality::equal;
pub use expressions::lint;
pub use instances::instantiate;
pub use kinds::kind_of;
pub use naming::Ends;
pub use reading::type_of;
