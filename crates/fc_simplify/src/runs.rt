//! Runs of lets behind a let-atom.
ghost use Rattle.std.specs.Prelude.{IfOk, IfSome};
ghost use Rattle.fc_model.specs.NamelessView.{nexpr_of};
ghost use Rattle.fc_simplify.specs.Taking.{HasRun};

use fc_forms::as_single_binding;
use fc_let_runs::{Run, let_atoms};
use fc_log::Row;
use fc_nameless_measures::measures_of_expr;
use fc_syntax::{Memory, NExpr};
use std::alloc::Global;

/// Whether an expression is an atom.
fn is_atom(e: &NExpr) -> bool {
    matches!(e, NExpr::Var(_) | NExpr::Lit(_))
}

/// How many lets of atoms stand one in the body of the other.
fn lets_of(e: &NExpr) -> u32 {
    let mut at = e;
    for number in 0..u32::MAX {
        let Some(parts) = as_single_binding(at) else {
            return number;
        };
        if !is_atom(&parts.binding.rhs) {
            return number;
        }
        at = parts.body;
    }
    u32::MAX
}

/// Whether the lets of an expression are better put in at once. Then the log, which has so many lines, is copied once; else the expression is copied once for each let.
fn pays(e: &NExpr, lines: usize) -> Result<bool, Memory> {
    let lets = lets_of(e);
    if lets < 2 {
        return Ok(false);
    }
    let size = measures_of_expr(e)?.size;
    Ok(lines / (size as usize + 1) < lets as usize)
}

/// The lets of atoms that stand one in the body of the other where a let-atom was taken, all put in, where that is better. Fails as `let_atoms` does.
fn run_behind(alloc: Global, row: Row, new: &NExpr, lines: usize) -> Result<Option<Run>, Memory>
    ensures { IfOk result (λ o. IfSome o (λ r. HasRun row (nexpr_of new.now) r.count (nexpr_of r.new))) }
{
    let Row::LetAtom = row else {
        return Ok(None);
    };
    if pays(new, lines)? {
        let_atoms(alloc, new)
    } else {
        Ok(None)
    }
}

/// What a row made, with all lets of a run behind it put in where that is better, and how many those are. Fails as `let_atoms` does.
pub(crate) fn with_run(alloc: Global, row: Row, new: NExpr, lines: usize) -> Result<Run, Memory>
    ensures { IfOk result (λ r. HasRun row (nexpr_of new) r.count (nexpr_of r.new)) }
{
    match run_behind(alloc, row, &new, lines)? {
        Some(run) => Ok(run),
        None => Ok(Run { count: 0, new }),
    }
}
