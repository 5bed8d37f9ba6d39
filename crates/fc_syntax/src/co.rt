//! Coercions: proofs that two types are equal at a role.
use crate::seq::Seq;
use crate::text::Text;
use crate::ty::{Kind, Name, Role, Ty};

/// A coercion (the coercions of core-spec), whose variables are `L`, as those of a type.
pub enum Co<L> {
    /// A coercion variable.
    Var(L),
    /// `(refl role t)`: a type is equal to itself.
    Refl(Role, Ty<L>),
    /// `(sym g)`: the ends swapped.
    Sym(Box<Co<L>>),
    /// `(trans g h)`: one after the other.
    Trans(Box<Co<L>>, Box<Co<L>>),
    /// `(tc role T g..)`: a type constructor at equal arguments.
    Tc(Role, Name, Seq<Co<L>>),
    /// `(capp g h)`: an application of equal parts.
    Capp(Box<Co<L>>, Box<Co<L>>),
    /// `(funco g h)`: functions of equal parts.
    FunCo(Box<Co<L>>, Box<Co<L>>),
    /// `(allco (a kind) g)`: equal bodies under a `forall`.
    AllCo(Text, Kind, Box<Co<L>>),
    /// `(coallco role role g g g)`: equal ends and bodies under a `coforall`; the second role is that of its ends.
    CoAllCo(Role, Role, Box<Co<L>>, Box<Co<L>>, Box<Co<L>>),
    /// `(inst g h)`: equal `forall`s at equal types.
    Inst(Box<Co<L>>, Box<Co<L>>),
    /// `(nth i g)`: the part number i of both ends.
    Nth(u32, Box<Co<L>>),
    /// `(left g)`: the heads of two applications.
    Left(Box<Co<L>>),
    /// `(right g)`: the arguments of two applications.
    Right(Box<Co<L>>),
    /// `(sub g)`: from role N to role R.
    Sub(Box<Co<L>>),
    /// `(ax C g..)`: an axiom at equal arguments.
    Ax(Name, Seq<Co<L>>),
    /// `(univ t u)`: any two types of one kind, at role P.
    Univ(Ty<L>, Ty<L>),
}

impl<L: Drop> Drop for Co<L> {
    fn drop(self) {
        match self {
            Co::Var(_) => {}
            Co::Refl(_, _) => {}
            Co::Sym(_) => {}
            Co::Trans(_, _) => {}
            Co::Tc(_, _, _) => {}
            Co::Capp(_, _) => {}
            Co::FunCo(_, _) => {}
            Co::AllCo(_, _, _) => {}
            Co::CoAllCo(_, _, _, _, _) => {}
            Co::Inst(_, _) => {}
            Co::Nth(_, _) => {}
            Co::Left(_) => {}
            Co::Right(_) => {}
            Co::Sub(_) => {}
            Co::Ax(_, _) => {}
            Co::Univ(_, _) => {}
        }
    }
}
