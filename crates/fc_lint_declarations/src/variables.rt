//! The type variables of declarations: their kinds, and their roles.
ghost use Rattle.std.specs.Prelude.{Ok};
ghost use Rattle.fc_syntax.specs.View.{kind_of};
ghost use Rattle.fc_syntax.specs.Roles.{role_below};
ghost use Rattle.fc_syntax.specs.declared.fault.FaultKind.TheVariants.{RoleTooWeak, UnliftedVariable};
ghost use Rattle.fc_model.specs.Faulting.{need, under};
ghost use Rattle.fc_model.specs.Kinding as kinds;
ghost use Rattle.fc_model.specs.Linting.{done, roles_judged, variables_judged};
ghost use Rattle.fc_model.specs.NamelessView.{nparams_of};
ghost use Rattle.fc_model.specs.Says.{Says};
ghost use Rattle.fc_type_table.specs.InScope.{own_kinds};
ghost use Rattle.fc_roles.specs.NeedViews.{need_at};

use fc_model::{Flawed, deeper, flaw_here, next_part};
use fc_roles::Needs;
use fc_syntax::{FaultKind, Kind, Param, Role};
use fc_type_table::NumberedKind;
use fc_types::is_lifted;
use std::alloc::Global;

/// The type variable that is the part of this number: `UnliftedVariable` where its kind has `#`.
fn lint_variable(alloc: Global, kind: &Kind, part: u32) -> Result<(), Flawed>
    ensures { Says (λ _. done) result (under part (need (kinds.is_lifted (kind_of kind.now)) UnliftedVariable (Ok done))) }
{
    if is_lifted(kind) {
        Ok(())
    } else {
        Err(deeper(flaw_here(alloc, FaultKind::UnliftedVariable), part))
    }
}

/// The type variables of a declaration, which are its first parts; the number of the part behind them.
pub fn lint_variables(alloc: Global, variables: &[NumberedKind]) -> Result<u32, Flawed>
    ensures { Says (λ i. i) result (variables_judged 0 (own_kinds variables.now)) }
{
    let mut part = 0u32;
    for variable in variables {
        lint_variable(alloc, variable.kind, part)?;
        part = next_part(part)?;
    }
    Ok(part)
}

/// The role of the parameter that is the part of this number: `RoleTooWeak` where it is above the parameter's need.
fn lint_role(alloc: Global, role: Role, needed: Role, part: u32) -> Result<(), Flawed>
    ensures { Says (λ _. done) result (under part (need (role_below role needed) RoleTooWeak (Ok done))) }
{
    if role.below(needed) {
        Ok(())
    } else {
        Err(deeper(flaw_here(alloc, FaultKind::RoleTooWeak), part))
    }
}

/// The roles of the parameters of a declaration, which are its first parts.
pub fn lint_roles(alloc: Global, params: &[Param], needs: &Needs) -> Result<(), Flawed>
    ensures { Says (λ _. done) result (roles_judged (need_at needs.now) 0 (nparams_of params.now)) }
{
    let mut part = 0u32;
    for (number, param) in params.iter().enumerate() {
        let needed = needs.of(params.len() - 1 - number);
        lint_role(alloc, param.role, needed, part)?;
        part = next_part(part)?;
    }
    Ok(())
}
