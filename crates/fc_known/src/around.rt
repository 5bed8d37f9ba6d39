//! What stands around a place.
use fc_subst::Shift;
use fc_syntax::{NAlt, NArg, NBind, NBinder, NExpr, NJoinBind, NTy};

/// An alternative of a case.
#[derive(Clone, Copy)]
pub struct Branch<'x> {
    /// What the case looks at.
    pub scrutinee: &'x NExpr,
    /// The type of its binder.
    pub ty: &'x NTy,
    /// All its alternatives.
    pub alternatives: &'x [NAlt],
    /// The one that the place is in.
    pub alternative: &'x NAlt,
    /// How many binders of each space that one has.
    pub own: Shift,
}

/// What stands around a place, the innermost first. It stands on the stack of who walks there.
#[derive(Clone, Copy)]
pub enum Around<'x> {
    /// Nothing: the place is the right side of a definition.
    Outside,
    /// Binders of which nothing is known, as those of a lambda and of a join point, with how many there are of each space.
    Binders(&'x [NBinder], Shift, &'x Around<'x>),
    /// The bindings of a let, which are recursive or not.
    Group(bool, &'x [NBind], &'x Around<'x>),
    /// Join points, which are recursive or not, with the type of what they answer.
    Joins(bool, &'x NTy, &'x [NJoinBind], &'x Around<'x>),
    /// A case, of which the place is in an alternative.
    Alternative(Branch<'x>, &'x Around<'x>),
    /// An expression whose answer is not that of the part.
    Apart(&'x Around<'x>),
    /// An application, of which the place is in the head.
    Head(&'x NArg, &'x Around<'x>),
    /// Something that is not applied, though what stands around it is.
    Unapplied(&'x Around<'x>),
}
