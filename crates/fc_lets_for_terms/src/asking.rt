//! The terms among arguments, with the types that are asked of them.
ghost use Rattle.std.specs.Prelude.{◌≡◌, ◌++◌, IfOk, IfSome, OnOk};
ghost use Rattle.std.specs.Option.{option_map, option_to_list};
ghost use Rattle.fc_model.specs.Nameless.{NACo, NAType, NATerm};
ghost use Rattle.fc_model.specs.NamelessView.{narg_of, nargs_of, nco_of, nexpr_of, nty_of};
ghost use Rattle.fc_type_scope.specs.Scopes.{IsScope, scope_in};
ghost use Rattle.fc_type_table.specs.TypeTables.{Grows, IsType, nodes_of, shown};
ghost use Rattle.fc_lets_for_terms.specs.Asking.{AreAsked, Asks, IsStep, asked_all, asked_terms};

use fc_syntax::{Memory, NArg, NCo, NExpr, NTy, Seq};
use fc_type_scope::TypeScope;
use fc_type_table::{TypeId, TypeTable};
use std::alloc::Global;

/// A term among arguments.
#[derive(Clone, Copy)]
pub(crate) struct AskedTerm<'a> {
    /// The type that is asked of it.
    pub(crate) ty: TypeId,
    /// The term.
    pub(crate) term: &'a NExpr,
}

/// What takes an argument.
#[derive(Clone, Copy)]
struct Step<'a> {
    /// The argument, if it is a term.
    asked: Option<AskedTerm<'a>>,
    /// The type of the whole, with the argument.
    whole: TypeId,
}

/// What is of a type takes a term; nothing where it takes none.
#[tactic(auto, using(crate::proofs::Steps::term_rules))]
fn with_term<'a>(
    whole: TypeId,
    term: &'a NExpr,
    types: &TypeTable,
    scope: &TypeScope<'_>,
) -> Option<Step<'a>>
    requires { IsType types.now (scope_in scope.now) whole }
    ensures valid { IfSome result (λ s. IsStep (nodes_of types.now) (scope_in scope.now) s) }
    ensures view { Asks (nodes_of types.now) (nodes_of types.now) (scope_in scope.now) whole (NATerm (nexpr_of term.now)) result }
{
    match scope.function_parts(whole, types) {
        None => None,
        Some((from, to)) => Some(Step {
            asked: Some(AskedTerm { ty: from, term }),
            whole: to,
        }),
    }
}

/// What is of a type takes a coercion; nothing where it takes none.
#[tactic(auto, using(crate::proofs::Steps::coercion_rules))]
fn with_coercion<'a>(
    whole: TypeId,
    coercion: &NCo,
    types: &TypeTable,
    scope: &TypeScope<'_>,
) -> Option<Step<'a>>
    requires { IsType types.now (scope_in scope.now) whole }
    ensures valid { IfSome result (λ s. IsStep (nodes_of types.now) (scope_in scope.now) s) }
    ensures view { Asks (nodes_of types.now) (nodes_of types.now) (scope_in scope.now) whole (NACo (nco_of coercion.now)) result }
{
    match scope.coercion_asked(whole, types) {
        None => None,
        Some((_, body)) => Some(Step {
            asked: None,
            whole: body,
        }),
    }
}

/// What is of a type takes a type; nothing where it takes none.
#[tactic(auto, using(fc_type_scope::proofs::Proven::table_rules))]
fn with_type<'a>(
    alloc: Global,
    whole: TypeId,
    t: &NTy,
    types: &mut TypeTable,
    scope: &TypeScope<'_>,
) -> Result<Option<Step<'a>>, Memory>
    requires scope { IsScope types.old scope.now }
    requires whole_in { IsType types.old (scope_in scope.now) whole }
    ensures valid { IfOk result (λ r. IfSome r (λ s. IsStep (nodes_of types.new) (scope_in scope.now) s)) }
    ensures view { IfOk result (λ r. Asks (nodes_of types.old) (nodes_of types.new) (scope_in scope.now) whole (NAType (nty_of t.now)) r) }
    ensures grows { OnOk result (Grows types.old types.new) }
{
    let by = scope.read(t, types)?;
    match scope.instantiate(alloc, whole, by, types)? {
        None => Ok(None),
        Some(body) => Ok(Some(Step {
            asked: None,
            whole: body,
        })),
    }
}

/// What is of a type takes an argument; nothing where it takes none of its sort.
#[tactic(auto, using(fc_type_table::proofs::Numbers::number_rules))]
fn with_argument<'a>(
    alloc: Global,
    whole: TypeId,
    argument: &'a NArg,
    types: &mut TypeTable,
    scope: &TypeScope<'_>,
) -> Result<Option<Step<'a>>, Memory>
    requires scope { IsScope types.old scope.now }
    requires whole_in { IsType types.old (scope_in scope.now) whole }
    ensures valid { IfOk result (λ r. IfSome r (λ s. IsStep (nodes_of types.new) (scope_in scope.now) s)) }
    ensures view { IfOk result (λ r. Asks (nodes_of types.old) (nodes_of types.new) (scope_in scope.now) whole (narg_of argument.now) r) }
    ensures grows { OnOk result (Grows types.old types.new) }
{
    match argument {
        NArg::Term(term) => Ok(with_term(whole, term, types, scope)),
        NArg::OfType(t) => with_type(alloc, whole, t, types, scope),
        NArg::OfCo(coercion) => Ok(with_coercion(whole, coercion, types, scope)),
    }
}

/// Puts what an argument is behind what those before it are.
fn add<'a>(found: &mut Seq<AskedTerm<'a>>, asked: Option<AskedTerm<'a>>) -> Result<(), Memory>
    ensures { OnOk result (found.new ≡ found.old ++ option_to_list asked.entry) }
{
    match asked {
        None => Ok(()),
        Some(term) => found.push(term),
    }
}

/// The terms among the arguments of what is of a type, in their order, with the types that are asked of them. Nothing where one of the arguments is of another sort
/// than is asked. Fails only where memory runs out, and where one of the types among them names a variable out of scope.
pub(crate) fn terms_asked<'a>(
    alloc: Global,
    args: &'a [NArg],
    ty: TypeId,
    types: &mut TypeTable,
    scope: &TypeScope<'_>,
) -> Result<Option<Seq<AskedTerm<'a>>>, Memory>
    requires scope { IsScope types.old scope.now }
    requires ty_in { IsType types.old (scope_in scope.now) ty }
    ensures valid { IfOk result (λ r. IfSome r (λ found. AreAsked types.new (scope_in scope.now) found)) }
    ensures view { IfOk result (λ r. option_map (λ found. asked_all types.new (scope_in scope.now) found) r ≡ asked_terms (shown types.old (scope_in scope.now) ty) (nargs_of args.now)) }
    ensures grows { OnOk result (Grows types.old types.new) }
{
    let mut found = Seq::new(alloc);
    let mut whole = ty;
    for argument in args {
        match with_argument(alloc, whole, argument, types, scope)? {
            None => return Ok(None),
            Some(step) => {
                add(&mut found, step.asked)?;
                whole = step.whole;
            }
        }
    }
    Ok(Some(found))
}
