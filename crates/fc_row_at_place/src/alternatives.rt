//! A row in the alternatives of a case.
ghost use Rattle.std.specs.Prelude.{◌≡◌, IfOk, if◌then◌else◌, None, nat_lt, ◌-◌, OnOk};
ghost use Rattle.std.specs.Option.{option_map};
ghost use Rattle.fc_model.specs.NamelessView.{nalt_of, nalts_of, nbinders_of, nexpr_of, nty_of};
ghost use Rattle.fc_parts.specs.PartsAt.{at_place, at_place_of_alt, of_alt};
ghost use Rattle.fc_rows.specs.Surroundings.{listed_heads};
ghost use Rattle.fc_known.specs.Around.{behind_alternative};
ghost use Rattle.fc_known.specs.Counts.{counts};
ghost use Rattle.fc_type_scope.specs.Behind.{IsEntered};
ghost use Rattle.fc_type_scope.specs.Scopes.{scope_in};
ghost use Rattle.fc_type_table.specs.TypeTables.{Grows, IsType, nodes_of, shown};
ghost use Rattle.fc_row_at_place.specs.Sites.{IsSite, row_for, surroundings_at};

use crate::asked::Site;
use crate::places::row_at;
use fc_known::{Around, Branch, counted};
use fc_parts::head_binds;
use fc_syntax::{Memory, NAlt, NExpr, NTy, part};
use fc_type_scope::Entered;
use fc_type_table::{TypeId, TypeTable};
use std::alloc::Global;

/// The same in the alternatives of a case, which are its parts from the fourth on.
#[cycle(places)]
#[tactic(auto, using(fc_parts::proofs::PartRules::part_rules))]
pub(crate) fn row_in_case<'x>(
    alloc: Global,
    scrutinee: &'x NExpr,
    ty: &'x NTy,
    alternatives: &'x [NAlt],
    number: u32,
    rest: &[u32],
    types: &mut TypeTable,
    site: &Site<'x>,
) -> Result<Option<NExpr>, Memory>
    requires { IsSite types.old site.now }
    ensures answer { IfOk result (λ o. option_map nexpr_of o ≡ (if nat_lt number 3 then None else of_alt (number - 3) (at_place_of_alt (row_for site.now) rest.now (nexpr_of scrutinee.now) (nty_of ty.now) (listed_heads (nalts_of alternatives.now)) (surroundings_at site.now)) (nalts_of alternatives.now))) }
    ensures grows { OnOk result (Grows types.old types.new) }
{
    if number < part::FIRST_ALTERNATIVE {
        return Ok(None);
    }
    match alternatives.get((number - part::FIRST_ALTERNATIVE) as usize) {
        Some(alternative) => {
            let own = counted(alternative.binders.as_slice())?;
            let branch = Branch {
                scrutinee,
                ty,
                alternatives,
                alternative,
                own,
            };
            row_in_branch(alloc, &branch, rest, types, site)
        }
        None => Ok(None),
    }
}

/// The same in an alternative, whose right side is its last part.
#[cycle(places)]
#[tactic(auto, using(fc_syntax::proofs::View::view_rules, fc_parts::proofs::PartRules::part_rules))]
fn row_in_branch<'x>(
    alloc: Global,
    branch: &Branch<'x>,
    place: &[u32],
    types: &mut TypeTable,
    site: &Site<'x>,
) -> Result<Option<NExpr>, Memory>
    requires site { IsSite types.old site.now }
    requires own { branch.now.own ≡ counts (nbinders_of branch.now.alternative.now.binders) }
    ensures answer { IfOk result (λ o. option_map nexpr_of o ≡ at_place_of_alt (row_for site.now) place.now (nexpr_of branch.now.scrutinee.now) (nty_of branch.now.ty.now) (listed_heads (nalts_of branch.now.alternatives.now)) (surroundings_at site.now) (nalt_of branch.now.alternative.now)) }
    ensures grows { OnOk result (Grows types.old types.new) }
{
    let alternative = branch.alternative;
    match place.split_first() {
        None => Ok(None),
        Some((number, rest)) => {
            if head_binds(alternative) && *number as usize == alternative.binders.len() {
                row_behind_branch(alloc, branch, rest, types, site)
            } else {
                Ok(None)
            }
        }
    }
}

/// The same in the right side of an alternative.
#[cycle(places)]
fn row_behind_branch<'x>(
    alloc: Global,
    branch: &Branch<'x>,
    place: &[u32],
    types: &mut TypeTable,
    site: &Site<'x>,
) -> Result<Option<NExpr>, Memory>
    requires site { IsSite types.old site.now }
    requires own { branch.now.own ≡ counts (nbinders_of branch.now.alternative.now.binders) }
    ensures answer { IfOk result (λ o. option_map nexpr_of o ≡ at_place (row_for site.now) place.now (behind_alternative branch.now (surroundings_at site.now)) (nexpr_of branch.now.alternative.now.body)) }
    ensures grows { OnOk result (Grows types.old types.new) }
{
    let context = site.context;
    let alternative = branch.alternative;
    let ty = context.scope.read(branch.ty, types)?;
    let entered = context
        .scope
        .enter(alloc, alternative.binders.as_slice(), types)?;
    row_past_branch(alloc, branch, ty, &entered, place, types, site)
}

/// The same in the right side of an alternative whose case binder is of this type and whose binders were entered here.
#[cycle(places)]
fn row_past_branch<'x>(
    alloc: Global,
    branch: &Branch<'x>,
    ty: TypeId,
    entered: &Entered<'x>,
    place: &[u32],
    types: &mut TypeTable,
    site: &Site<'x>,
) -> Result<Option<NExpr>, Memory>
    requires site { IsSite types.old site.now }
    requires own { branch.now.own ≡ counts (nbinders_of branch.now.alternative.now.binders) }
    requires ty_in { IsType types.old (scope_in site.now.context.now.scope) ty }
    requires ty { shown types.old (scope_in site.now.context.now.scope) ty ≡ nty_of branch.now.ty.now }
    requires entered_in { IsEntered (nodes_of types.old) (scope_in site.now.context.now.scope) (nbinders_of branch.now.alternative.now.binders) entered.now }
    ensures answer { IfOk result (λ o. option_map nexpr_of o ≡ at_place (row_for site.now) place.now (behind_alternative branch.now (surroundings_at site.now)) (nexpr_of branch.now.alternative.now.body)) }
    ensures grows { OnOk result (Grows types.old types.new) }
{
    let outer = (&*site.context).behind_value(ty);
    let kinds = (&*entered).kinds_behind(&*outer.scope.kinds);
    let context = (&outer).behind_binders(&*entered, &kinds);
    let around = Around::Alternative(*branch, &*site.around);
    let inner = Site {
        asked: &*site.asked,
        places: &*site.places,
        context: &context,
        around: &around,
    };
    let alternative = branch.alternative;
    row_at(alloc, &alternative.body, place, types, &inner)
}
