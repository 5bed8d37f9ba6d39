//! The two instances of the tree.
use crate::copy::Variable;
use crate::fault::Memory;
use crate::text::Text;
use crate::ty::{Name, Ref};
use crate::{co, expr, module, ty};
use std::alloc::Global;

/// A type, named.
pub type Ty = ty::Ty<Text>;

/// A coercion, named.
pub type Co = co::Co<Text>;

/// A binder, named.
pub type Binder = expr::Binder<Text>;

/// An argument, named.
pub type Arg = expr::Arg<Text, Name>;

/// A binding of a let, named.
pub type Bind = expr::Bind<Text, Name>;

/// A join point, named.
pub type JoinBind = expr::JoinBind<Text, Name>;

/// An alternative of a case, named.
pub type Alt = expr::Alt<Text, Name>;

/// An expression, named.
pub type Expr = expr::Expr<Text, Name>;

/// A constructor of a data type, named.
pub type ConDecl = module::ConDecl<Text>;

/// A declaration, named.
pub type Decl = module::Decl<Text, Name>;

/// A module, named.
pub type Module = module::Module<Text, Name>;

/// A type, nameless: a variable is its distance among the binders of types.
pub type NTy = ty::Ty<u32>;

/// A coercion, nameless: a variable is its distance among the binders of coercions.
pub type NCo = co::Co<u32>;

/// A binder, nameless.
pub type NBinder = expr::Binder<u32>;

/// An argument, nameless.
pub type NArg = expr::Arg<u32, Ref>;

/// A binding of a let, nameless.
pub type NBind = expr::Bind<u32, Ref>;

/// A join point, nameless.
pub type NJoinBind = expr::JoinBind<u32, Ref>;

/// An alternative of a case, nameless.
pub type NAlt = expr::Alt<u32, Ref>;

/// An expression, nameless: a local variable is its distance among the binders of values, a join point among the join points.
pub type NExpr = expr::Expr<u32, Ref>;

/// A constructor of a data type, nameless.
pub type NConDecl = module::ConDecl<u32>;

/// A declaration, nameless.
pub type NDecl = module::Decl<u32, Ref>;

/// A module, nameless: the words of its header and of what it declares are as in the named one.
pub type NModule = module::Module<u32, Ref>;

impl Variable for Text {
    fn again(&self, alloc: Global) -> Result<Text, Memory> {
        self.copy(alloc)
    }
}

impl Variable for Name {
    fn again(&self, alloc: Global) -> Result<Name, Memory> {
        self.copy(alloc)
    }
}

impl Variable for u32 {
    fn again(&self, _alloc: Global) -> Result<u32, Memory> {
        Ok(*self)
    }
}

impl Variable for Ref {
    fn again(&self, alloc: Global) -> Result<Ref, Memory> {
        self.copy(alloc)
    }
}
