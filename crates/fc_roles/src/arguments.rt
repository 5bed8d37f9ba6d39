//! The roles at which a type takes its arguments.
ghost use Rattle.std.specs.Prelude.{◌≡◌, Some};
ghost use Rattle.fc_model.specs.NamelessView.{ndecl_of, nparams_of};
ghost use Rattle.fc_model.specs.Needs as words;
ghost use Rattle.fc_model.specs.Needs.{later_roles, name_roles, param_roles};
ghost use Rattle.fc_types.specs.ModuleViews.{modules_of};

use fc_syntax::{NDecl, Name, Param, Role};
use fc_types::Declarations;

/// The parameters of a data type or a newtype; none of another declaration. Takes no memory.
#[tactic(auto, using(fc_syntax::proofs::View::view_rules))]
pub fn roled_params(decl: &NDecl) -> &[Param]
    ensures { param_roles (nparams_of result.now) ≡ words.declared_roles (Some (ndecl_of decl.now)) }
{
    match decl {
        NDecl::DataType(_, params, _) => params.as_slice(),
        NDecl::NewType(_, params, _, _) => params.as_slice(),
        NDecl::Family(_, _, _) => &[],
        NDecl::Axiom(_, _, _, _) => &[],
        NDecl::Def(_, _, _) => &[],
        NDecl::Wrap(_, _, _) => &[],
    }
}

/// The parameters of the data type or newtype of a name. Takes no memory.
pub fn params_of_name<'d>(declared: &'d Declarations, name: &Name) -> &'d [Param]
    ensures { param_roles (nparams_of result.now) ≡ name_roles (modules_of declared.now) name.now }
{
    match declared.type_named(name) {
        None => &[],
        Some(decl) => roled_params(decl),
    }
}

/// The role of the first argument, where the type takes its arguments at the roles of these parameters. Takes no memory.
pub fn next_role(params: &[Param]) -> Role
    ensures { result ≡ words.next_role (param_roles (nparams_of params.now)) }
{
    match params {
        [] => Role::N,
        [first, ..] => first.role,
    }
}

/// The parameters behind the first. Takes no memory.
pub fn later_params(params: &[Param]) -> &[Param]
    ensures { param_roles (nparams_of result.now) ≡ later_roles (param_roles (nparams_of params.now)) }
{
    match params {
        [] => &[],
        [_, later @ ..] => later,
    }
}
