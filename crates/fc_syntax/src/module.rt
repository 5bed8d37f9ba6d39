//! Modules and what they declare, with the variables of the trees in them: `L` in types, `V` in terms.
use crate::expr::{Binder, Expr};
use crate::seq::Seq;
use crate::text::Text;
use crate::ty::{Kind, Role, Ty};

/// A parameter of a data type or newtype.
#[derive(Debug, Drop)]
pub struct Param {
    /// The type variable.
    pub name: Text,
    /// Its kind.
    pub kind: Kind,
    /// The role at which arguments are compared.
    pub role: Role,
}

/// A parameter of a family or an axiom.
#[derive(Debug, Drop)]
pub struct Plain {
    /// The type variable.
    pub name: Text,
    /// Its kind.
    pub kind: Kind,
}

/// A constructor of a data type.
#[derive(Drop)]
pub struct ConDecl<L> {
    /// Its word.
    pub name: Text,
    /// Its existential types, then its coercions.
    pub binders: Seq<Binder<L>>,
    /// The types of its terms.
    pub fields: Seq<Ty<L>>,
}

/// A declaration of a module.
#[derive(Drop)]
pub enum Decl<L, V> {
    /// `(data T (param..) constructor..)`
    DataType(Text, Seq<Param>, Seq<ConDecl<L>>),
    /// `(newtype T (param..) type C)`: `C` is the axiom that relates the newtype to its type.
    NewType(Text, Seq<Param>, Ty<L>, Text),
    /// `(family F (param..) kind)`: a type family with the kind of its results.
    Family(Text, Seq<Plain>, Kind),
    /// `(axiom C (param..) left right)`: an equation of a family.
    Axiom(Text, Seq<Plain>, Ty<L>, Ty<L>),
    /// `(def x type expr)`
    Def(Text, Ty<L>, Expr<L, V>),
    /// `(wrap x type expr)`: a definition that may always be unfolded.
    Wrap(Text, Ty<L>, Expr<L, V>),
}

/// A module: its header and its declarations in their order.
#[derive(Drop)]
pub struct Module<L, V> {
    /// Its name.
    pub name: Text,
    /// The names of the modules that it imports.
    pub imports: Seq<Text>,
    /// The words that other modules and main expressions may use.
    pub exports: Seq<Text>,
    /// The words that importing modules may use and main expressions may not.
    pub hidden: Seq<Text>,
    /// The declarations.
    pub decls: Seq<Decl<L, V>>,
}
