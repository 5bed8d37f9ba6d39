//! One step in a definition.
ghost use Rattle.std.specs.Prelude.{◌≡◌, [], ◌∷◌, ◌++◌, IfErr, IfOk, IfSome, None, OnErr, OnOk};
ghost use Rattle.std.specs.Option.{option_map};
ghost use Rattle.fc_syntax.specs.View.{decl_of, expr_of};
ghost use Rattle.fc_model.specs.NamelessView.{ndecl_of, nexpr_of, nmodules_of};
ghost use Rattle.fc_places.specs.Places.{answered};
ghost use Rattle.fc_apply.specs.Definitions.{HasDecl, exchanged_in_decl, right_side as spec_right_side};
ghost use Rattle.fc_log.specs.declared.log.Entry.TheVariants.{Step as stepped};
ghost use Rattle.fc_type_table.specs.TypeTables.{Grows};
ghost use Rattle.fc_row_at_place.specs.Sites.{AreHeaders};
ghost use Rattle.fc_simplify.specs.Phase.{Continues, FirstDefines, FirstHasSpare, IsSettled, KeepsHeaders};
ghost use Rattle.fc_simplify.specs.Steps.{lines_of};
ghost use Rattle.fc_simplify.specs.Taking.{IsNext, IsNowhere, IsPut, word_of};

use crate::lines::with_steps;
use crate::runs::with_run;
use crate::steps::step_of;
use fc_log::{Entry, Step};
use fc_nameless_measures::measures_of_expr;
use fc_numbers::sum;
use fc_places::exchange;
use fc_row_at_place::Headers;
use fc_row_search::{Applying, Search, first_row_in};
use fc_syntax::{Memory, NDecl, NExpr, NModule, Seq, Text};
use fc_type_table::TypeTable;
use std::alloc::Global;

/// How deep a right side may be: it is a part of its definition, which may be 500 deep.
const ROOM: u32 = 499;

/// Where a step was taken.
#[derive(Drop)]
pub(crate) struct Went {
    /// The place in the right side.
    pub(crate) place: Vec<u32>,
    /// By how many pieces the module may grow now.
    pub(crate) spare: u32,
}

/// The word and the right side of a declaration that is a definition.
#[tactic(auto, using(fc_syntax::proofs::View::view_rules))]
fn definition(d: &NDecl) -> Option<(&Text, &NExpr)>
    ensures right { option_map (λ p. nexpr_of p.1.now) result ≡ spec_right_side (ndecl_of d.now) }
    ensures word { option_map (λ p. p.0.now) result ≡ word_of (ndecl_of d.now) }
{
    match d {
        NDecl::Def(word, _, right) => Some((word, right)),
        NDecl::Wrap(word, _, right) => Some((word, right)),
        NDecl::DataType(_, _, _) | NDecl::NewType(_, _, _, _) => None,
        NDecl::Family(_, _, _) | NDecl::Axiom(_, _, _, _) => None,
    }
}

/// The next row that applies in the definition of a number, from a place on, with its step. Fails as `first_row_in` does.
fn next_step(
    alloc: Global,
    modules: &[NModule],
    number: usize,
    from: &[u32],
    spare: u32,
    types: &mut TypeTable,
    headers: &Headers<'_>,
) -> Result<Option<(Applying, Step)>, Memory>
    requires number { HasDecl number modules.now }
    requires headers { AreHeaders types.old headers.now (nmodules_of modules.now) }
    ensures some { IfOk result (λ o. IfSome o (λ f. IsNext spare number f.0 f.1 (nmodules_of modules.now))) }
    ensures none { from.now ≡ [] → IfOk result (λ o. o ≡ None → IsSettled spare number (nmodules_of modules.now)) }
    ensures grows { OnOk result (Grows types.old types.new) }
{
    let module = &modules[0];
    let Some((word, right)) = definition(module.decls.at(number)) else {
        return Ok(None);
    };
    let search = Search {
        right,
        modules,
        headers: &*headers,
        spare,
    };
    match first_row_in(alloc, &search, from, ROOM, types)? {
        Some(found) => {
            let step = step_of(alloc, word, &found)?;
            Ok(Some((found, step)))
        }
        None => Ok(None),
    }
}

/// Puts `by` at a place of the right side of a definition, and answers what stood there. Where no expression stands there, `by` comes back as the error, and nothing has changed.
fn put_in(d: &mut NDecl, place: &[u32], by: NExpr) -> Result<NExpr, NExpr>
    ensures { answered result (decl_of d.new) ≡ exchanged_in_decl (expr_of by) (1 ∷ place.now) (decl_of d.old) }
{
    match d {
        NDecl::Def(_, _, right) => exchange(right, place, by),
        NDecl::Wrap(_, _, right) => exchange(right, place, by),
        NDecl::DataType(_, _, _) | NDecl::NewType(_, _, _, _) => Err(by),
        NDecl::Family(_, _, _) | NDecl::Axiom(_, _, _, _) => Err(by),
    }
}

/// The same in the definition of a number of the first of some modules.
fn put_in_first(
    modules: &mut [NModule],
    number: usize,
    place: &[u32],
    by: NExpr,
) -> Result<NExpr, NExpr>
    requires { HasDecl number modules.old }
    ensures put { IfOk result (λ old. IsPut number place.now (expr_of by) (expr_of old) modules.old modules.new) }
    ensures nowhere { IfErr result (λ _. IsNowhere number place.now (expr_of by) modules.old) }
{
    let first = &mut modules[0];
    put_in(first.decls.at_mut(number), place, by)
}

/// Puts a step into a log, and so many times more. Where memory runs out, the log is as before.
fn put_lines(alloc: Global, step: Step, count: u32, log: &mut Seq<Entry>) -> Result<(), Memory>
    ensures ok { OnOk result (log.new ≡ log.old ++ (lines_of count step ++ stepped step ∷ [])) }
    ensures err { OnErr result (log.new ≡ log.old) }
{
    if count == 0 {
        log.push(Entry::Step(step))?;
        return Ok(());
    }
    let mut lines = with_steps(alloc, log.as_slice(), &step, count)?;
    lines.push(Entry::Step(step))?;
    *log = lines;
    Ok(())
}

/// Takes the next row that applies in the definition of a number, from a place on, and answers where; none where none is found, and then nothing has changed. The step is in the log
/// before what the row made is in its place, so that the lines of the log always replay to what stands. Where a let-atom is taken, the lets of atoms that then stand there one in the
/// other are taken with it, a line each, where that is better. The table has the types of what is declared; where this does not fail, it has only grown. Fails as `first_row_in` and
/// `let_atoms` do, and where a size has no 32 bits.
#[tactic(auto, using(crate::proofs::First::same_rules))]
pub(crate) fn take_next(
    alloc: Global,
    modules: &mut [NModule],
    number: usize,
    from: &[u32],
    spare: u32,
    types: &mut TypeTable,
    headers: &Headers<'_>,
    log: &mut Seq<Entry>,
) -> Result<Option<Went>, Memory>
    requires first { FirstDefines number (nmodules_of modules.old) }
    requires spare { FirstHasSpare spare (nmodules_of modules.old) }
    requires headers { AreHeaders types.old headers.now (nmodules_of modules.old) }
    ensures continues { Continues (nmodules_of modules.old) (nmodules_of modules.new) log.old log.new }
    ensures keeps { KeepsHeaders (nmodules_of modules.old) (nmodules_of modules.new) }
    ensures grows { OnOk result (Grows types.old types.new) }
    ensures spare { IfOk result (λ o. IfSome o (λ went. FirstHasSpare went.spare (nmodules_of modules.new))) }
    ensures unchanged { IfOk result (λ o. o ≡ None → modules.new ≡ modules.old) }
    ensures settled { from.now ≡ [] → IfOk result (λ o. o ≡ None → IsSettled spare number (nmodules_of modules.old)) }
{
    let Some((found, step)) = next_step(alloc, &*modules, number, from, spare, types, headers)?
    else {
        return Ok(None);
    };
    let Applying {
        row,
        place,
        new,
        ..
    } = found;
    let run = with_run(alloc, row, new, log.len())?;
    let made = measures_of_expr(&run.new)?;
    put_lines(alloc, step, run.count, log)?;
    let Ok(old) = put_in_first(modules, number, place.as_slice(), run.new) else {
        return Ok(None);
    };
    let was = measures_of_expr(&old)?;
    let spare = sum(spare, was.size)? - made.size;
    Ok(Some(Went { place, spare }))
}
