//! Makers of trees, which put their parts in boxes.
ghost use Rattle.std.specs.Prelude.{◌≡◌, IfOk};
ghost use Rattle.fc_syntax.specs.GenericTree.{KArrow, TApp, TFun, TForall, TCoForall};
ghost use Rattle.fc_syntax.specs.GenericTree.{GSym, GTrans, GCapp, GFun, GAll, GCoAll, GInst, GNth, GLeft, GRight, GSub};
ghost use Rattle.fc_syntax.specs.GenericTree.{EApp, ELam, ELet, ECase, ECast, EJoin};
ghost use Rattle.fc_syntax.specs.View.{kind_of, ty_of, co_of, arg_of, binder_of, binds_of, joins_of, expr_of, alts_of};

use crate::boxes::boxed;
use crate::co::Co;
use crate::copy::Variable;
use crate::expr::{Alt, Arg, Bind, Binder, Expr, JoinBind};
use crate::fault::Memory;
use crate::seq::Seq;
use crate::text::Text;
use crate::ty::{Kind, Role, Ty};
use std::alloc::Global;

impl Kind {
    /// The kind of what takes a type of one kind and gives one of another. Fails only where memory runs out.
    #[tactic(auto, using(crate::proofs::View::view_rules))]
    #[inline(never)]
    pub fn arrow(alloc: Global, from: Kind, to: Kind) -> Result<Kind, Memory>
        ensures { IfOk result (λ k. kind_of k ≡ KArrow (kind_of from) (kind_of to)) }
    {
        Ok(Kind::Arrow(boxed(alloc, from)?, boxed(alloc, to)?))
    }
}

impl<L: Variable> Ty<L> {
    /// The type of functions from one type to another. Fails only where memory runs out.
    #[tactic(auto, using(crate::proofs::View::view_rules))]
    #[inline(never)]
    pub fn function(alloc: Global, from: Ty<L>, to: Ty<L>) -> Result<Ty<L>, Memory>
        ensures { IfOk result (λ t. ty_of t ≡ TFun (ty_of from) (ty_of to)) }
    {
        Ok(Ty::Fun(boxed(alloc, from)?, boxed(alloc, to)?))
    }

    /// A type applied to another. Fails only where memory runs out.
    #[tactic(auto, using(crate::proofs::View::view_rules))]
    #[inline(never)]
    pub fn applied(alloc: Global, head: Ty<L>, argument: Ty<L>) -> Result<Ty<L>, Memory>
        ensures { IfOk result (λ t. ty_of t ≡ TApp (ty_of head) (ty_of argument)) }
    {
        Ok(Ty::App(boxed(alloc, head)?, boxed(alloc, argument)?))
    }

    /// A type for each type of a kind. Fails only where memory runs out.
    #[tactic(auto, using(crate::proofs::View::view_rules))]
    #[inline(never)]
    pub fn for_all(alloc: Global, word: Text, kind: Kind, body: Ty<L>) -> Result<Ty<L>, Memory>
        ensures { IfOk result (λ t. ty_of t ≡ TForall word (kind_of kind) (ty_of body)) }
    {
        Ok(Ty::Forall(word, kind, boxed(alloc, body)?))
    }

    /// The type of what takes a coercion between two types. Fails only where memory runs out.
    #[tactic(auto, using(crate::proofs::View::view_rules))]
    #[inline(never)]
    pub fn for_all_coercions(
        alloc: Global,
        role: Role,
        left: Ty<L>,
        right: Ty<L>,
        body: Ty<L>,
    ) -> Result<Ty<L>, Memory>
        ensures { IfOk result (λ t. ty_of t ≡ TCoForall role (ty_of left) (ty_of right) (ty_of body)) }
    {
        let left = boxed(alloc, left)?;
        let right = boxed(alloc, right)?;
        Ok(Ty::CoForall(role, left, right, boxed(alloc, body)?))
    }
}

impl<L: Variable> Co<L> {
    /// The coercion from right to left. Fails only where memory runs out.
    #[tactic(auto, using(crate::proofs::View::view_rules))]
    #[inline(never)]
    pub fn symmetric(alloc: Global, part: Co<L>) -> Result<Co<L>, Memory>
        ensures { IfOk result (λ g. co_of g ≡ GSym (co_of part)) }
    {
        Ok(Co::Sym(boxed(alloc, part)?))
    }

    /// One coercion, and then another. Fails only where memory runs out.
    #[tactic(auto, using(crate::proofs::View::view_rules))]
    #[inline(never)]
    pub fn transitive(alloc: Global, first: Co<L>, second: Co<L>) -> Result<Co<L>, Memory>
        ensures { IfOk result (λ g. co_of g ≡ GTrans (co_of first) (co_of second)) }
    {
        Ok(Co::Trans(boxed(alloc, first)?, boxed(alloc, second)?))
    }

    /// The coercion between two applications, by one of their heads and one of their arguments. Fails only where memory runs out.
    #[tactic(auto, using(crate::proofs::View::view_rules))]
    #[inline(never)]
    pub fn applied(alloc: Global, first: Co<L>, second: Co<L>) -> Result<Co<L>, Memory>
        ensures { IfOk result (λ g. co_of g ≡ GCapp (co_of first) (co_of second)) }
    {
        Ok(Co::Capp(boxed(alloc, first)?, boxed(alloc, second)?))
    }

    /// The coercion between two types of functions, by one of each part. Fails only where memory runs out.
    #[tactic(auto, using(crate::proofs::View::view_rules))]
    #[inline(never)]
    pub fn function(alloc: Global, first: Co<L>, second: Co<L>) -> Result<Co<L>, Memory>
        ensures { IfOk result (λ g. co_of g ≡ GFun (co_of first) (co_of second)) }
    {
        Ok(Co::FunCo(boxed(alloc, first)?, boxed(alloc, second)?))
    }

    /// The coercion between two types that begin with `forall`. Fails only where memory runs out.
    #[tactic(auto, using(crate::proofs::View::view_rules))]
    #[inline(never)]
    pub fn for_all(alloc: Global, word: Text, kind: Kind, body: Co<L>) -> Result<Co<L>, Memory>
        ensures { IfOk result (λ g. co_of g ≡ GAll word (kind_of kind) (co_of body)) }
    {
        Ok(Co::AllCo(word, kind, boxed(alloc, body)?))
    }

    /// The coercion between two types that begin with `coforall`. Fails only where memory runs out.
    #[tactic(auto, using(crate::proofs::View::view_rules))]
    #[inline(never)]
    pub fn for_all_coercions(
        alloc: Global,
        roles: (Role, Role),
        left: Co<L>,
        right: Co<L>,
        body: Co<L>,
    ) -> Result<Co<L>, Memory>
        ensures { IfOk result (λ g. co_of g ≡ GCoAll roles.0 roles.1 (co_of left) (co_of right) (co_of body)) }
    {
        let (first, second) = roles;
        let left = boxed(alloc, left)?;
        let right = boxed(alloc, right)?;
        Ok(Co::CoAllCo(first, second, left, right, boxed(alloc, body)?))
    }

    /// A coercion between types that begin with `forall`, at what their variable stands for. Fails only where memory runs out.
    #[tactic(auto, using(crate::proofs::View::view_rules))]
    #[inline(never)]
    pub fn instance(alloc: Global, first: Co<L>, second: Co<L>) -> Result<Co<L>, Memory>
        ensures { IfOk result (λ g. co_of g ≡ GInst (co_of first) (co_of second)) }
    {
        Ok(Co::Inst(boxed(alloc, first)?, boxed(alloc, second)?))
    }

    /// The coercion between the parts of this number, counted from 0. Fails only where memory runs out.
    #[tactic(auto, using(crate::proofs::View::view_rules))]
    #[inline(never)]
    pub fn nth(alloc: Global, number: u32, part: Co<L>) -> Result<Co<L>, Memory>
        ensures { IfOk result (λ g. co_of g ≡ GNth number (co_of part)) }
    {
        Ok(Co::Nth(number, boxed(alloc, part)?))
    }

    /// The coercion between the heads of two applications. Fails only where memory runs out.
    #[tactic(auto, using(crate::proofs::View::view_rules))]
    #[inline(never)]
    pub fn left(alloc: Global, part: Co<L>) -> Result<Co<L>, Memory>
        ensures { IfOk result (λ g. co_of g ≡ GLeft (co_of part)) }
    {
        Ok(Co::Left(boxed(alloc, part)?))
    }

    /// The coercion between the arguments of two applications. Fails only where memory runs out.
    #[tactic(auto, using(crate::proofs::View::view_rules))]
    #[inline(never)]
    pub fn right(alloc: Global, part: Co<L>) -> Result<Co<L>, Memory>
        ensures { IfOk result (λ g. co_of g ≡ GRight (co_of part)) }
    {
        Ok(Co::Right(boxed(alloc, part)?))
    }

    /// A nominal coercion where a representational one is asked for. Fails only where memory runs out.
    #[tactic(auto, using(crate::proofs::View::view_rules))]
    #[inline(never)]
    pub fn weaker(alloc: Global, part: Co<L>) -> Result<Co<L>, Memory>
        ensures { IfOk result (λ g. co_of g ≡ GSub (co_of part)) }
    {
        Ok(Co::Sub(boxed(alloc, part)?))
    }
}

impl<L: Variable, V: Variable> Expr<L, V> {
    /// The application of a head to an argument. Fails only where memory runs out.
    #[tactic(auto, using(crate::proofs::View::view_rules))]
    #[inline(never)]
    pub fn application(
        alloc: Global,
        head: Expr<L, V>,
        argument: Arg<L, V>,
    ) -> Result<Expr<L, V>, Memory>
        ensures { IfOk result (λ e. expr_of e ≡ EApp (expr_of head) (arg_of argument)) }
    {
        Ok(Expr::App(boxed(alloc, head)?, boxed(alloc, argument)?))
    }

    /// A lambda. Fails only where memory runs out.
    #[tactic(auto, using(crate::proofs::View::view_rules))]
    #[inline(never)]
    pub fn lambda(alloc: Global, binder: Binder<L>, body: Expr<L, V>) -> Result<Expr<L, V>, Memory>
        ensures { IfOk result (λ e. expr_of e ≡ ELam (binder_of binder) (expr_of body)) }
    {
        Ok(Expr::Lam(boxed(alloc, binder)?, boxed(alloc, body)?))
    }

    /// A let, recursive or not. Fails only where memory runs out.
    #[tactic(auto, using(crate::proofs::View::view_rules))]
    #[inline(never)]
    pub fn binding(
        alloc: Global,
        recursive: bool,
        binds: Seq<Bind<L, V>>,
        body: Expr<L, V>,
    ) -> Result<Expr<L, V>, Memory>
        ensures { IfOk result (λ e. expr_of e ≡ ELet recursive (binds_of binds) (expr_of body)) }
    {
        Ok(Expr::Let(recursive, binds, boxed(alloc, body)?))
    }

    /// A case: its scrutinee, the word and the type of that, the type of the answer, and the alternatives. Fails only where memory
    /// runs out.
    #[tactic(auto, using(crate::proofs::View::view_rules))]
    #[inline(never)]
    pub fn case_of(
        alloc: Global,
        scrutinee: Expr<L, V>,
        word: Text,
        ty: Ty<L>,
        answer: Ty<L>,
        alts: Seq<Alt<L, V>>,
    ) -> Result<Expr<L, V>, Memory>
        ensures { IfOk result (λ e. expr_of e ≡ ECase (expr_of scrutinee) word (ty_of ty) (ty_of answer) (alts_of alts)) }
    {
        Ok(Expr::Case(boxed(alloc, scrutinee)?, word, ty, answer, alts))
    }

    /// An expression at another type. Fails only where memory runs out.
    #[tactic(auto, using(crate::proofs::View::view_rules))]
    #[inline(never)]
    pub fn cast(alloc: Global, e: Expr<L, V>, coercion: Co<L>) -> Result<Expr<L, V>, Memory>
        ensures { IfOk result (λ x. expr_of x ≡ ECast (expr_of e) (co_of coercion)) }
    {
        Ok(Expr::Cast(boxed(alloc, e)?, coercion))
    }

    /// Join points, recursive or not, with the type of the whole and the expression that they are for. Fails only where memory
    /// runs out.
    #[tactic(auto, using(crate::proofs::View::view_rules))]
    #[inline(never)]
    pub fn joined(
        alloc: Global,
        recursive: bool,
        ty: Ty<L>,
        joins: Seq<JoinBind<L, V>>,
        body: Expr<L, V>,
    ) -> Result<Expr<L, V>, Memory>
        ensures { IfOk result (λ e. expr_of e ≡ EJoin recursive (ty_of ty) (joins_of joins) (expr_of body)) }
    {
        Ok(Expr::Join(recursive, ty, joins, boxed(alloc, body)?))
    }
}
