//! The definitions of a module that reach themselves.
ghost use Rattle.std.specs.Prelude.{IfOk};
ghost use Rattle.fc_model.specs.NamelessView.{nmodule_of};
ghost use Rattle.fc_reaching.specs.Recursion.{AreRecursive};

use crate::definitions::Definitions;
use crate::reaching::graph_of;
use fc_graph::on_cycles;
use fc_syntax::{Memory, NModule};
use std::alloc::Global;

/// For each declaration of a module, in declared order, whether it is a definition that reaches itself: its right side mentions it, or
/// mentions one that reaches it. Of several definitions of one word the first counts. Takes time in declarations and mentions. Fails only
/// where memory runs out.
pub fn recursive(alloc: Global, m: &NModule) -> Result<Vec<bool>, Memory>
    ensures { IfOk result (λ marks. AreRecursive (nmodule_of m.now) marks.items) }
{
    let definitions = Definitions::new(alloc, m)?;
    let graph = graph_of(alloc, &definitions, m.decls.as_slice())?;
    on_cycles(alloc, graph.as_slice())
}
