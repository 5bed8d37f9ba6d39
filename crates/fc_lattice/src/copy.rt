//! Copies of demands and signatures.
ghost use Rattle.std.specs.Prelude.{◌≡◌, IfOk};
ghost use Rattle.fc_lattice.specs.View.{demand_of, demands_of, sig_of};

use crate::demand::{Demand, Sig};
use fc_syntax::{Memory, Seq};
use std::alloc::Global;

impl Demand {
    /// The same demand again. Fails only where memory runs out.
    #[cycle(copy_demand)]
    #[tactic(auto, using(crate::proofs::View::demand_rules))]
    pub fn copy(&self, alloc: Global) -> Result<Demand, Memory>
        ensures { IfOk result (λ d. demand_of d ≡ demand_of self.now) }
    {
        match self {
            Demand::B => Ok(Demand::B),
            Demand::A => Ok(Demand::A),
            Demand::P(constructor, fields) => {
                let constructor = constructor.copy(alloc)?;
                let fields = copy_demands(alloc, fields.as_slice())?;
                Ok(Demand::P(constructor, fields))
            }
            Demand::S => Ok(Demand::S),
            Demand::L => Ok(Demand::L),
        }
    }
}

#[cycle(copy_demand)]
#[tactic(auto, using(crate::proofs::View::demands_step))]
fn copy_demands(alloc: Global, demands: &[Demand]) -> Result<Seq<Demand>, Memory>
    ensures { IfOk result (λ ds. demands_of ds ≡ demands_of demands.now) }
{
    let mut all = Seq::new(alloc);
    for d in demands {
        all.push(d.copy(alloc)?)?;
    }
    Ok(all)
}

impl Sig {
    /// The same signature again. Fails only where memory runs out.
    pub fn copy(&self, alloc: Global) -> Result<Sig, Memory>
        ensures { IfOk result (λ s. sig_of s ≡ sig_of self.now) }
    {
        let args = copy_demands(alloc, self.args.as_slice())?;
        Ok(Sig {
            args,
            diverges: self.diverges,
        })
    }
}
