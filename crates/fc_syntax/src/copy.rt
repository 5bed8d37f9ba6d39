//! Copies, which equal what they copy: of words, names, kinds, types, coercions, binders and parameters.
ghost use Rattle.std.specs.Prelude.{◌≡◌, IfOk};
ghost use Rattle.fc_syntax.specs.View.{kind_of, ty_of, co_of, cos_of, binder_of, binders_of, param_of, params_of, plain_of, plains_of};

use crate::boxes::boxed_copy;
use crate::co::Co;
use crate::expr::{Binder, Head};
use crate::fault::Memory;
use crate::module::{Param, Plain};
use crate::seq::Seq;
use crate::text::Text;
use crate::ty::{Kind, Name, Ref, Ty};
use std::alloc::Global;

/// What a variable of a tree may be.
pub trait Variable: Drop {
    /// The same variable again. Fails only where memory runs out.
    fn again(&self, alloc: Global) -> Result<Self, Memory>
        ensures { IfOk result (λ x. x ≡ self.now) };
}

impl Name {
    /// The same name again. Fails only where memory runs out.
    pub fn copy(&self, alloc: Global) -> Result<Name, Memory>
        ensures { IfOk result (λ n. n ≡ self.now) }
    {
        let text = self.text.copy(alloc)?;
        match &self.module {
            None => Ok(Name { module: None, text }),
            Some(module) => Ok(Name {
                module: Some(module.copy(alloc)?),
                text,
            }),
        }
    }
}

impl Ref {
    /// The same reference again. Fails only where memory runs out.
    pub fn copy(&self, alloc: Global) -> Result<Ref, Memory>
        ensures { IfOk result (λ r. r ≡ self.now) }
    {
        match self {
            Ref::Local(distance) => Ok(Ref::Local(*distance)),
            Ref::Top(name) => Ok(Ref::Top(name.copy(alloc)?)),
        }
    }
}

impl Kind {
    /// The same kind again. Fails only where memory runs out.
    #[tactic(auto, using(crate::proofs::View::view_rules))]
    pub fn copy(&self, alloc: Global) -> Result<Kind, Memory>
        ensures { IfOk result (λ k. kind_of k ≡ kind_of self.now) }
    {
        match self {
            Kind::Star => Ok(Kind::Star),
            Kind::Hash => Ok(Kind::Hash),
            Kind::Arrow(from, to) => {
                let from = boxed_copy(alloc, from.copy(alloc))?;
                let to = boxed_copy(alloc, to.copy(alloc))?;
                Ok(Kind::Arrow(from, to))
            }
        }
    }
}

impl<L: Variable> Ty<L> {
    /// The same type again. Fails only where memory runs out.
    #[tactic(auto, using(crate::proofs::View::view_rules))]
    pub fn copy(&self, alloc: Global) -> Result<Ty<L>, Memory>
        ensures { IfOk result (λ t. ty_of t ≡ ty_of self.now) }
    {
        match self {
            Ty::Var(a) => Ok(Ty::Var(a.again(alloc)?)),
            Ty::Con(name) => Ok(Ty::Con(name.copy(alloc)?)),
            Ty::IntHash => Ok(Ty::IntHash),
            Ty::App(t, u) => {
                let t = boxed_copy(alloc, t.copy(alloc))?;
                let u = boxed_copy(alloc, u.copy(alloc))?;
                Ok(Ty::App(t, u))
            }
            Ty::Fun(t, u) => {
                let t = boxed_copy(alloc, t.copy(alloc))?;
                let u = boxed_copy(alloc, u.copy(alloc))?;
                Ok(Ty::Fun(t, u))
            }
            Ty::Forall(a, kind, body) => {
                let a = a.copy(alloc)?;
                let kind = kind.copy(alloc)?;
                let body = boxed_copy(alloc, body.copy(alloc))?;
                Ok(Ty::Forall(a, kind, body))
            }
            Ty::CoForall(role, left, right, body) => {
                let left = boxed_copy(alloc, left.copy(alloc))?;
                let right = boxed_copy(alloc, right.copy(alloc))?;
                let body = boxed_copy(alloc, body.copy(alloc))?;
                Ok(Ty::CoForall(*role, left, right, body))
            }
        }
    }
}

impl<L: Variable> Co<L> {
    /// The same coercion again. Fails only where memory runs out.
    #[cycle(copy_co)]
    #[tactic(auto, using(crate::proofs::View::view_rules))]
    pub fn copy(&self, alloc: Global) -> Result<Co<L>, Memory>
        ensures { IfOk result (λ g. co_of g ≡ co_of self.now) }
    {
        match self {
            Co::Var(c) => Ok(Co::Var(c.again(alloc)?)),
            Co::Refl(role, t) => Ok(Co::Refl(*role, t.copy(alloc)?)),
            Co::Sym(g) => {
                let g = boxed_copy(alloc, g.copy(alloc))?;
                Ok(Co::Sym(g))
            }
            Co::Trans(g, h) => {
                let g = boxed_copy(alloc, g.copy(alloc))?;
                let h = boxed_copy(alloc, h.copy(alloc))?;
                Ok(Co::Trans(g, h))
            }
            Co::Tc(role, name, parts) => {
                let name = name.copy(alloc)?;
                let parts = copy_all(alloc, parts.as_slice())?;
                Ok(Co::Tc(*role, name, parts))
            }
            Co::Capp(g, h) => {
                let g = boxed_copy(alloc, g.copy(alloc))?;
                let h = boxed_copy(alloc, h.copy(alloc))?;
                Ok(Co::Capp(g, h))
            }
            Co::FunCo(g, h) => {
                let g = boxed_copy(alloc, g.copy(alloc))?;
                let h = boxed_copy(alloc, h.copy(alloc))?;
                Ok(Co::FunCo(g, h))
            }
            Co::AllCo(a, kind, g) => {
                let a = a.copy(alloc)?;
                let kind = kind.copy(alloc)?;
                let g = boxed_copy(alloc, g.copy(alloc))?;
                Ok(Co::AllCo(a, kind, g))
            }
            Co::CoAllCo(role, ends, g, h, k) => {
                let g = boxed_copy(alloc, g.copy(alloc))?;
                let h = boxed_copy(alloc, h.copy(alloc))?;
                let k = boxed_copy(alloc, k.copy(alloc))?;
                Ok(Co::CoAllCo(*role, *ends, g, h, k))
            }
            Co::Inst(g, h) => {
                let g = boxed_copy(alloc, g.copy(alloc))?;
                let h = boxed_copy(alloc, h.copy(alloc))?;
                Ok(Co::Inst(g, h))
            }
            Co::Nth(number, g) => {
                let g = boxed_copy(alloc, g.copy(alloc))?;
                Ok(Co::Nth(*number, g))
            }
            Co::Left(g) => {
                let g = boxed_copy(alloc, g.copy(alloc))?;
                Ok(Co::Left(g))
            }
            Co::Right(g) => {
                let g = boxed_copy(alloc, g.copy(alloc))?;
                Ok(Co::Right(g))
            }
            Co::Sub(g) => {
                let g = boxed_copy(alloc, g.copy(alloc))?;
                Ok(Co::Sub(g))
            }
            Co::Ax(name, parts) => {
                let name = name.copy(alloc)?;
                let parts = copy_all(alloc, parts.as_slice())?;
                Ok(Co::Ax(name, parts))
            }
            Co::Univ(left, right) => {
                let left = left.copy(alloc)?;
                let right = right.copy(alloc)?;
                Ok(Co::Univ(left, right))
            }
        }
    }
}

#[cycle(copy_co)]
#[tactic(auto, using(crate::proofs::Snoc::cos_step))]
fn copy_all<L: Variable>(alloc: Global, cos: &[Co<L>]) -> Result<Seq<Co<L>>, Memory>
    ensures { IfOk result (λ s. cos_of s ≡ cos_of cos.now) }
{
    let mut all = Seq::new(alloc);
    for g in cos {
        all.push(g.copy(alloc)?)?;
    }
    Ok(all)
}

impl<L: Variable> Binder<L> {
    /// The same binder again. Fails only where memory runs out.
    #[tactic(auto, using(crate::proofs::View::view_rules))]
    pub fn copy(&self, alloc: Global) -> Result<Binder<L>, Memory>
        ensures { IfOk result (λ b. binder_of b ≡ binder_of self.now) }
    {
        match self {
            Binder::Value(x, t) => {
                let x = x.copy(alloc)?;
                Ok(Binder::Value(x, t.copy(alloc)?))
            }
            Binder::OfType(a, kind) => {
                let a = a.copy(alloc)?;
                Ok(Binder::OfType(a, kind.copy(alloc)?))
            }
            Binder::OfCo(c, role, left, right) => {
                let c = c.copy(alloc)?;
                let left = left.copy(alloc)?;
                Ok(Binder::OfCo(c, *role, left, right.copy(alloc)?))
            }
        }
    }
}

impl Head {
    /// The same head again. Fails only where memory runs out.
    pub fn copy(&self, alloc: Global) -> Result<Head, Memory>
        ensures { IfOk result (λ h. h ≡ self.now) }
    {
        match self {
            Head::Default => Ok(Head::Default),
            Head::Lit(n) => Ok(Head::Lit(*n)),
            Head::Con(name) => Ok(Head::Con(name.copy(alloc)?)),
        }
    }
}

/// The same binders again. Fails only where memory runs out.
#[tactic(auto, using(std::proofs::lemmas::List::map_push, std::proofs::lemmas::Grind::common_steps))]
pub fn copy_binders<L: Variable>(
    alloc: Global,
    items: &[Binder<L>],
) -> Result<Seq<Binder<L>>, Memory>
    ensures { IfOk result (λ s. binders_of s ≡ binders_of items.now) }
{
    let mut all = Seq::new(alloc);
    for x in items {
        all.push(x.copy(alloc)?)?;
    }
    Ok(all)
}

impl Param {
    /// The same parameter again. Fails only where memory runs out.
    pub fn copy(&self, alloc: Global) -> Result<Param, Memory>
        ensures { IfOk result (λ p. param_of p ≡ param_of self.now) }
    {
        let name = self.name.copy(alloc)?;
        let kind = self.kind.copy(alloc)?;
        Ok(Param {
            name,
            kind,
            role: self.role,
        })
    }
}

impl Plain {
    /// The same parameter without a role again. Fails only where memory runs out.
    pub fn copy(&self, alloc: Global) -> Result<Plain, Memory>
        ensures { IfOk result (λ p. plain_of p ≡ plain_of self.now) }
    {
        let name = self.name.copy(alloc)?;
        let kind = self.kind.copy(alloc)?;
        Ok(Plain { name, kind })
    }
}

/// The same words again. Fails only where memory runs out.
pub fn copy_words(alloc: Global, items: &[Text]) -> Result<Seq<Text>, Memory>
    ensures { IfOk result (λ s. s ≡ items.now) }
{
    let mut all = Seq::new(alloc);
    for x in items {
        all.push(x.copy(alloc)?)?;
    }
    Ok(all)
}

/// The same parameters again. Fails only where memory runs out.
#[tactic(auto, using(std::proofs::lemmas::List::map_push, std::proofs::lemmas::Grind::common_steps))]
pub fn copy_params(alloc: Global, items: &[Param]) -> Result<Seq<Param>, Memory>
    ensures { IfOk result (λ s. params_of s ≡ params_of items.now) }
{
    let mut all = Seq::new(alloc);
    for x in items {
        all.push(x.copy(alloc)?)?;
    }
    Ok(all)
}

/// The same parameters without roles again. Fails only where memory runs out.
#[tactic(auto, using(std::proofs::lemmas::List::map_push, std::proofs::lemmas::Grind::common_steps))]
pub fn copy_plains(alloc: Global, items: &[Plain]) -> Result<Seq<Plain>, Memory>
    ensures { IfOk result (λ s. plains_of s ≡ plains_of items.now) }
{
    let mut all = Seq::new(alloc);
    for x in items {
        all.push(x.copy(alloc)?)?;
    }
    Ok(all)
}
