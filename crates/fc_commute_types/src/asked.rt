//! The first field of a constructor that is not trivial, and the type that is asked of it.
ghost use Rattle.std.specs.Prelude.{◌≡◌, IfOk, IfSome, OnOk};
ghost use Rattle.std.specs.Option.{option_map};
ghost use Rattle.fc_model.specs.Calling.{function_ends};
ghost use Rattle.fc_model.specs.NamelessView.{narg_of, nargs_of, nexpr_of};
ghost use Rattle.fc_rows.specs.Changing.{made};
ghost use Rattle.fc_rows.specs.Commuting.{first_field as spec_first_field};
ghost use Rattle.fc_type_scope.specs.Scopes.{IsScope, scope_in};
ghost use Rattle.fc_type_table.specs.TypeTables.{Grows, IsType, shown};
ghost use Rattle.fc_commute_types.specs.Fields.{field_in, field_of};

use fc_forms::is_trivial;
use fc_syntax::{Memory, NArg, NExpr};
use fc_type_reading::applied_type;
use fc_type_scope::TypeScope;
use fc_type_table::{TypeId, TypeTable};
use std::alloc::Global;

/// An argument of a constructor that is a term and not trivial.
#[derive(Clone, Copy)]
pub(crate) struct Field<'a> {
    /// The type that is asked of it.
    pub(crate) ty: TypeId,
    /// The term.
    pub(crate) term: &'a NExpr,
}

/// The term that an argument is, where it is one that is not trivial.
pub(crate) fn as_field<'a>(argument: &'a NArg) -> Option<&'a NExpr>
    ensures { option_map (λ e. nexpr_of e.now) result ≡ field_in (narg_of argument.now) }
{
    match argument {
        NArg::Term(term) => { if is_trivial(term) { None } else { Some(term) } }
        NArg::OfType(_) => None,
        NArg::OfCo(_) => None,
    }
}

/// A term with the type that is asked of it by what is of the type `head`. Nothing where that takes no term.
fn asked_of<'a>(
    head: TypeId,
    term: &'a NExpr,
    types: &TypeTable,
    scope: &TypeScope<'_>,
) -> Option<Field<'a>>
    requires { IsType types.now (scope_in scope.now) head }
    ensures valid { IfSome result (λ f. IsType types.now (scope_in scope.now) f.ty) }
    ensures view { option_map (λ f. field_of types.now (scope_in scope.now) f) result ≡ made (λ p. (p.0, nexpr_of term.now)) (function_ends (shown types.now (scope_in scope.now) head)) }
{
    match scope.function_parts(head, types) {
        None => None,
        Some((ty, _)) => Some(Field { ty, term }),
    }
}

/// The first of arguments that is a term and not trivial, with the type that is asked of it by what is of the type `ty` and takes the arguments. Nothing where there is
/// no such argument, or one up to there is of another sort than is asked. Fails only where memory runs out, and where an argument is a type that names a variable out of
/// scope.
#[tactic(auto, using(fc_type_scope::proofs::Proven::table_rules))]
pub(crate) fn first_field<'a>(
    alloc: Global,
    ty: TypeId,
    arguments: &'a [NArg],
    types: &mut TypeTable,
    scope: &TypeScope<'_>,
) -> Result<Option<Field<'a>>, Memory>
    requires scope { IsScope types.old scope.now }
    requires type_in { IsType types.old (scope_in scope.now) ty }
    ensures valid { IfOk result (λ r. IfSome r (λ f. IsType types.new (scope_in scope.now) f.ty)) }
    ensures view { IfOk result (λ r. option_map (λ f. field_of types.new (scope_in scope.now) f) r ≡ spec_first_field (shown types.old (scope_in scope.now) ty) (nargs_of arguments.now)) }
    ensures grows { OnOk result (Grows types.old types.new) }
{
    let mut whole = ty;
    for argument in arguments {
        if let Some(term) = as_field(argument) {
            return Ok(asked_of(whole, term, types, scope));
        }
        match applied_type(alloc, whole, argument, types, scope)? {
            None => return Ok(None),
            Some(next) => whole = next,
        }
    }
    Ok(None)
}
