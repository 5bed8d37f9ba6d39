//! The roles at which coercions prove.
ghost use Rattle.std.specs.Prelude.{◌≡◌, List};
ghost use Rattle.fc_syntax.specs.Tree as trees;
ghost use Rattle.fc_model.specs.Coercing as words;
ghost use Rattle.fc_model.specs.Kinding.{same_role};
ghost use Rattle.fc_model.specs.NamelessView.{nparams_of};
ghost use Rattle.fc_model.specs.Needs.{param_roles};
ghost use Rattle.fc_syntax.specs.declared.ty.Role.TheVariants.{N, P};
ghost use Rattle.fc_type_scope.specs.EndViews.{shown_all_ends_at};
ghost use Rattle.fc_type_table.specs.declared.node.Node as nodes;

use fc_roles::{later_params, next_role, role_within};
use fc_syntax::{Param, Role};
use fc_type_scope::Ends;
use fc_types::same_role;

/// Whether a role is N.
pub(crate) fn is_nominal(role: Role) -> bool
    ensures { result ≡ same_role role N }
{
    same_role(role, Role::N)
}

/// Whether a role is P.
pub(crate) fn is_phantom(role: Role) -> bool
    ensures { result ≡ same_role role P }
{
    same_role(role, Role::P)
}

/// Whether coercions are at the roles of parameters, in what stands at a role; beyond the parameters at N.
pub(crate) fn are_at_roles(role: Role, params: &[Param], group: &[Ends]) -> bool
    ensures { (ns : List nodes.Node) (ks : List trees.Kind) → result ≡ words.are_at_roles role (param_roles (nparams_of params.now)) (shown_all_ends_at ns ks group.now) }
{
    let mut left = params;
    for ends in group {
        if !same_role(ends.role, role_within(role, next_role(left))) {
            return false;
        }
        left = later_params(left);
    }
    true
}
