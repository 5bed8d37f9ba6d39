//! Copies of constructors, of either tree.
ghost use Rattle.std.specs.Prelude.{◌≡◌, IfOk};
ghost use Rattle.fc_syntax.specs.View.{tys_of, con_of, cons_of};

use fc_syntax::generic::{ConDecl, Ty};
use fc_syntax::{Memory, Seq, Variable, copy_binders};
use std::alloc::Global;

#[tactic(auto, using(std::proofs::lemmas::List::map_push, std::proofs::lemmas::Grind::common_steps))]
fn copy_tys<L: Variable>(alloc: Global, items: &[Ty<L>]) -> Result<Seq<Ty<L>>, Memory>
    ensures { IfOk result (λ s. tys_of s ≡ tys_of items.now) }
{
    let mut all = Seq::new(alloc);
    for x in items {
        all.push(x.copy(alloc)?)?;
    }
    Ok(all)
}

/// The same constructor again. Fails only where memory runs out.
pub fn copy_con<L: Variable>(alloc: Global, c: &ConDecl<L>) -> Result<ConDecl<L>, Memory>
    ensures { IfOk result (λ r. con_of r ≡ con_of c.now) }
{
    let name = c.name.copy(alloc)?;
    let binders = copy_binders(alloc, c.binders.as_slice())?;
    let fields = copy_tys(alloc, c.fields.as_slice())?;
    Ok(ConDecl {
        name,
        binders,
        fields,
    })
}

#[tactic(auto, using(std::proofs::lemmas::List::map_push, std::proofs::lemmas::Grind::common_steps))]
pub(crate) fn copy_cons<L: Variable>(
    alloc: Global,
    items: &[ConDecl<L>],
) -> Result<Seq<ConDecl<L>>, Memory>
    ensures { IfOk result (λ s. cons_of s ≡ cons_of items.now) }
{
    let mut all = Seq::new(alloc);
    for x in items {
        all.push(copy_con(alloc, x)?)?;
    }
    Ok(all)
}
