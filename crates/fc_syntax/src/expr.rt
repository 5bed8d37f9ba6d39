//! Expressions and what stands in them. `L` is what a variable of a type, a coercion or a join point is, `V` what a variable of a term is.
ghost use Rattle.std.specs.Prelude.{◌≡◌};
ghost use Rattle.fc_syntax.specs.Primitives.{operator_text};

use crate::co::Co;
use crate::seq::Seq;
use crate::text::Text;
use crate::ty::{Kind, Name, Role, Ty};

/// A primitive on two integers of 64 bits.
#[derive(Clone, Copy, Debug, PartialEq, Eq)]
pub enum PrimOp {
    /// `+#`
    Plus,
    /// `-#`
    Minus,
    /// `*#`
    Times,
    /// `quotInt#`
    Quot,
    /// `remInt#`
    Rem,
    /// `==#`
    Eq,
    /// `/=#`
    Ne,
    /// `<#`
    Lt,
    /// `<=#`
    Le,
    /// `>#`
    Gt,
    /// `>=#`
    Ge,
}

impl PrimOp {
    /// How the primitive is written: its sign, or its word.
    pub fn text(self) -> &'static str
        ensures { result.now ≡ operator_text self }
    {
        match self {
            PrimOp::Plus => "+#",
            PrimOp::Minus => "-#",
            PrimOp::Times => "*#",
            PrimOp::Quot => "quotInt#",
            PrimOp::Rem => "remInt#",
            PrimOp::Eq => "==#",
            PrimOp::Ne => "/=#",
            PrimOp::Lt => "<#",
            PrimOp::Le => "<=#",
            PrimOp::Gt => ">#",
            PrimOp::Ge => ">=#",
        }
    }
}

/// A binder with what it binds.
#[derive(Drop)]
pub enum Binder<L> {
    /// `(x t)`: a value of a type.
    Value(Text, Ty<L>),
    /// `(type a kind)`: a type of a kind.
    OfType(Text, Kind),
    /// `(co c role left right)`: a coercion between two types.
    OfCo(Text, Role, Ty<L>, Ty<L>),
}

/// What an alternative of a case is for.
#[derive(Debug, Drop)]
pub enum Head {
    /// Every head that has no alternative of its own.
    Default,
    /// A literal.
    Lit(i64),
    /// A constructor.
    Con(Name),
}

/// An argument of an application, a constructor or a jump.
#[cycle(ast)]
#[derive(Drop)]
pub enum Arg<L, V> {
    /// A term.
    Term(Expr<L, V>),
    /// A type.
    OfType(Ty<L>),
    /// A coercion.
    OfCo(Co<L>),
}

/// A binding of a let.
#[cycle(ast)]
#[derive(Drop)]
pub struct Bind<L, V> {
    /// The word that it binds.
    pub name: Text,
    /// The type of its right side.
    pub ty: Ty<L>,
    /// Its right side.
    pub rhs: Expr<L, V>,
}

/// A join point ("Compiling without continuations").
#[cycle(ast)]
#[derive(Drop)]
pub struct JoinBind<L, V> {
    /// The word that jumps name.
    pub name: Text,
    /// Its parameters, the outermost first.
    pub params: Seq<Binder<L>>,
    /// Its right side.
    pub rhs: Expr<L, V>,
}

/// An alternative of a case.
#[cycle(ast)]
#[derive(Drop)]
pub struct Alt<L, V> {
    /// What it is for.
    pub head: Head,
    /// The binders of a constructor's parts, the outermost first.
    pub binders: Seq<Binder<L>>,
    /// What it answers.
    pub body: Expr<L, V>,
}

/// An expression.
#[cycle(ast)]
pub enum Expr<L, V> {
    /// A variable.
    Var(V),
    /// A literal of type `Int#`.
    Lit(i64),
    /// An application to one argument.
    App(Box<Expr<L, V>>, Box<Arg<L, V>>),
    /// A lambda over one binder.
    Lam(Box<Binder<L>>, Box<Expr<L, V>>),
    /// A let of one binding, or where the truth value is true a recursive group.
    Let(bool, Seq<Bind<L, V>>, Box<Expr<L, V>>),
    /// A case: scrutinee, case binder and its type, type of the result, alternatives.
    Case(Box<Expr<L, V>>, Text, Ty<L>, Ty<L>, Seq<Alt<L, V>>),
    /// A cast by a coercion.
    Cast(Box<Expr<L, V>>, Co<L>),
    /// A constructor with all its arguments: universal types, existential types, coercions, terms.
    Con(Name, Seq<Arg<L, V>>),
    /// A primitive with its operands.
    Prim(PrimOp, Seq<Expr<L, V>>),
    /// An error of a type.
    Fail(Ty<L>),
    /// A join point, or where the truth value is true a recursive group; the type is that of the whole.
    Join(bool, Ty<L>, Seq<JoinBind<L, V>>, Box<Expr<L, V>>),
    /// A jump to a join point.
    Jump(L, Seq<Arg<L, V>>),
}

// An application, a lambda or a chain of lets may have as many parts as a text has, so what they go on with is dropped in a loop.
impl<L: Drop, V: Drop> Drop for Expr<L, V> {
    #[cycle(ast_drop)]
    fn drop(mut self) {
        loop {
            match self {
                Expr::Var(_) => return,
                Expr::Lit(_) => return,
                Expr::App(head, _) => self = Box::into_inner(head),
                Expr::Lam(_, body) => self = Box::into_inner(body),
                Expr::Let(_, _, body) => self = Box::into_inner(body),
                Expr::Case(_, _, _, _, _) => return,
                Expr::Cast(inner, _) => self = Box::into_inner(inner),
                Expr::Con(_, _) => return,
                Expr::Prim(_, _) => return,
                Expr::Fail(_) => return,
                Expr::Join(_, _, _, body) => self = Box::into_inner(body),
                Expr::Jump(_, _) => return,
            }
        }
    }
}
