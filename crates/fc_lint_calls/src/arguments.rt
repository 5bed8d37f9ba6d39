//! What takes arguments.
ghost use Rattle.std.specs.Prelude.{◌≡◌, IfOk, IfSome, OnOk};
ghost use Rattle.std.specs.Option.{option_map};
ghost use Rattle.fc_model.specs.Calling as words;
ghost use Rattle.fc_model.specs.NamelessView.{nexpr_of};
ghost use Rattle.fc_model.specs.Says.{Says};
ghost use Rattle.fc_model.specs.Typing as typing;
ghost use Rattle.fc_lint_calls.specs.GivenViews.{AreGiven, IsGiven, given_in, givens_in};
ghost use Rattle.fc_lint_calls.specs.Meetings.{GoesOn, met_at};
ghost use Rattle.fc_type_scope.specs.EndViews.{IsEnds};
ghost use Rattle.fc_type_scope.specs.Scopes.{scope_in};
ghost use Rattle.fc_type_table.specs.TypeTables.{Grows, IsKindId, IsType, kind_shown, nodes_of, shown};

use fc_model::{Flawed, flaw_here};
use fc_syntax::{FaultKind, Memory, NExpr, Ref};
use fc_type_scope::{Ends, TypeScope};
use fc_type_table::{TypeId, TypeTable};
use std::alloc::Global;

/// An argument.
#[derive(Clone, Copy)]
pub enum Given {
    /// A term of the type, and whether it is a literal or a variable.
    Term(TypeId, bool),
    /// The type, which is of the kind.
    OfType(TypeId, TypeId),
    /// A coercion, which proves this.
    Coercion(Ends),
}

/// How the arguments so far met what was asked.
#[derive(Clone, Copy)]
struct Meeting {
    /// Whether all kinds are right.
    kinds: bool,
    /// Whether all types are right.
    types: bool,
    /// Whether each unlifted place has an atom.
    atoms: bool,
    /// The type of the whole.
    whole: TypeId,
}

/// Whether an expression is a literal or a variable.
#[tactic(auto, using(fc_syntax::proofs::View::view_rules))]
pub fn is_atom(e: &NExpr) -> bool
    ensures { result ≡ typing.is_atom (nexpr_of e.now) }
{
    match e {
        NExpr::Var(Ref::Local(_)) => true,
        NExpr::Var(Ref::Top(_)) => true,
        NExpr::Lit(_) => true,
        NExpr::App(_, _) => false,
        NExpr::Lam(_, _) => false,
        NExpr::Let(_, _, _) => false,
        NExpr::Case(_, _, _, _, _) => false,
        NExpr::Cast(_, _) => false,
        NExpr::Con(_, _) => false,
        NExpr::Prim(_, _) => false,
        NExpr::Fail(_) => false,
        NExpr::Join(_, _, _, _) => false,
        NExpr::Jump(_, _) => false,
    }
}

/// The type of a head of this type that is applied to a term of the other: `NotFunction`, `ArgType` and `UnliftedNotAtom`, in this order.
fn applied_to_term(
    alloc: Global,
    head: TypeId,
    ty: TypeId,
    atom: bool,
    types: &TypeTable,
    scope: &TypeScope<'_>,
) -> Result<TypeId, Flawed>
    requires head_in { IsType types.now (scope_in scope.now) head }
    requires type_in { IsType types.now (scope_in scope.now) ty }
    ensures valid { IfOk result (λ id. IsType types.now (scope_in scope.now) id) }
    ensures says { Says (λ id. shown types.now (scope_in scope.now) id) result (words.applied (shown types.now (scope_in scope.now) head) (words.GivenTerm (shown types.now (scope_in scope.now) ty) atom)) }
{
    match scope.function_parts(head, types) {
        None => Err(flaw_here(alloc, FaultKind::NotFunction)),
        Some((from, to)) => {
            if !scope.same(from, ty, types) {
                return Err(flaw_here(alloc, FaultKind::ArgType));
            }
            if !scope.atom_fits(from, atom, types) {
                return Err(flaw_here(alloc, FaultKind::UnliftedNotAtom));
            }
            Ok(to)
        }
    }
}

/// The type of a head of this type that is applied to the other type, which is of this kind: `NotForall`, and then `KindMismatch`.
#[tactic(auto, using(crate::proofs::Givens::given_rules))]
fn applied_to_type(
    alloc: Global,
    head: TypeId,
    by: TypeId,
    kind: TypeId,
    types: &mut TypeTable,
    scope: &TypeScope<'_>,
) -> Result<TypeId, Flawed>
    requires head_in { IsType types.old (scope_in scope.now) head }
    requires by_in { IsType types.old (scope_in scope.now) by }
    requires kind_in { IsKindId types.old kind }
    ensures valid { IfOk result (λ id. IsType types.new (scope_in scope.now) id) }
    ensures says { Says (λ id. shown types.new (scope_in scope.now) id) result (words.applied (shown types.old (scope_in scope.now) head) (words.GivenType (shown types.old (scope_in scope.now) by) (kind_shown types.old kind))) }
    ensures grows { OnOk result (Grows types.old types.new) }
{
    let fits = scope.takes_kind(head, kind, types);
    match scope.instantiate(alloc, head, by, types)? {
        None => Err(flaw_here(alloc, FaultKind::NotForall)),
        Some(whole) => {
            if !fits {
                return Err(flaw_here(alloc, FaultKind::KindMismatch));
            }
            Ok(whole)
        }
    }
}

/// The type of a head of this type that is applied to a coercion: `NotFunction`, and then `ArgType` where another role or other ends are
/// asked.
fn applied_to_coercion(
    alloc: Global,
    head: TypeId,
    ends: &Ends,
    types: &TypeTable,
    scope: &TypeScope<'_>,
) -> Result<TypeId, Flawed>
    requires head_in { IsType types.now (scope_in scope.now) head }
    requires ends_in { IsEnds types.now (scope_in scope.now) ends.now }
    ensures valid { IfOk result (λ id. IsType types.now (scope_in scope.now) id) }
    ensures says { Says (λ id. shown types.now (scope_in scope.now) id) result (words.applied (shown types.now (scope_in scope.now) head) (words.GivenCoercion ends.now.role (shown types.now (scope_in scope.now) ends.now.left) (shown types.now (scope_in scope.now) ends.now.right))) }
{
    match scope.coercion_asked(head, types) {
        None => Err(flaw_here(alloc, FaultKind::NotFunction)),
        Some((asked, body)) => {
            if !scope.same_ends(&asked, ends, types) {
                return Err(flaw_here(alloc, FaultKind::ArgType));
            }
            Ok(body)
        }
    }
}

/// The type of a head of this type that is applied to one argument: to a term `NotFunction`, `ArgType` and `UnliftedNotAtom`, to a type
/// `NotForall` and `KindMismatch`, to a coercion `NotFunction` and `ArgType`, in this order.
pub fn applied(
    alloc: Global,
    head: TypeId,
    given: &Given,
    types: &mut TypeTable,
    scope: &TypeScope<'_>,
) -> Result<TypeId, Flawed>
    requires head_in { IsType types.old (scope_in scope.now) head }
    requires given_in { IsGiven types.old (scope_in scope.now) given.now }
    ensures valid { IfOk result (λ id. IsType types.new (scope_in scope.now) id) }
    ensures says { Says (λ id. shown types.new (scope_in scope.now) id) result (words.applied (shown types.old (scope_in scope.now) head) (given_in types.old (scope_in scope.now) given.now)) }
    ensures grows { OnOk result (Grows types.old types.new) }
{
    match given {
        Given::Term(ty, atom) => applied_to_term(alloc, head, *ty, *atom, types, scope),
        Given::OfType(by, kind) => applied_to_type(alloc, head, *by, *kind, types, scope),
        Given::Coercion(ends) => applied_to_coercion(alloc, head, ends, types, scope),
    }
}

/// What is met with one more argument, a term of this type; nothing where none is asked.
#[tactic(auto, using(crate::proofs::Meets::term_rules))]
fn meets_term(
    so_far: Meeting,
    ty: TypeId,
    atom: bool,
    types: &TypeTable,
    scope: &TypeScope<'_>,
) -> Option<Meeting>
    requires whole_in { IsType types.now (scope_in scope.now) so_far.whole }
    requires type_in { IsType types.now (scope_in scope.now) ty }
    ensures valid { IfSome result (λ m. IsType types.now (scope_in scope.now) m.whole) }
    ensures view { GoesOn (nodes_of types.now) (nodes_of types.now) (scope_in scope.now) so_far (Given.Term ty atom) result }
{
    match scope.function_parts(so_far.whole, types) {
        None => None,
        Some((from, to)) => {
            let same = scope.same(from, ty, types);
            let fits = scope.atom_fits(from, atom, types);
            Some(Meeting {
                kinds: so_far.kinds,
                types: so_far.types && same,
                atoms: so_far.atoms && fits,
                whole: to,
            })
        }
    }
}

/// What is met with one more argument, a type of this kind; nothing where none is asked.
#[tactic(auto, using(crate::proofs::Meets::type_rules))]
fn meets_type(
    alloc: Global,
    so_far: Meeting,
    by: TypeId,
    kind: TypeId,
    types: &mut TypeTable,
    scope: &TypeScope<'_>,
) -> Result<Option<Meeting>, Memory>
    requires whole_in { IsType types.old (scope_in scope.now) so_far.whole }
    requires by_in { IsType types.old (scope_in scope.now) by }
    requires kind_in { IsKindId types.old kind }
    ensures valid { IfOk result (λ r. IfSome r (λ m. IsType types.new (scope_in scope.now) m.whole)) }
    ensures view { IfOk result (λ r. GoesOn (nodes_of types.old) (nodes_of types.new) (scope_in scope.now) so_far (Given.OfType by kind) r) }
    ensures grows { OnOk result (Grows types.old types.new) }
{
    let fits = scope.takes_kind(so_far.whole, kind, types);
    match scope.instantiate(alloc, so_far.whole, by, types)? {
        None => Ok(None),
        Some(whole) => Ok(Some(Meeting {
            kinds: so_far.kinds && fits,
            types: so_far.types,
            atoms: so_far.atoms,
            whole,
        })),
    }
}

/// What is met with one more argument, a coercion; nothing where none is asked.
#[tactic(auto, using(crate::proofs::Meets::coercion_rules))]
fn meets_coercion(
    so_far: Meeting,
    ends: &Ends,
    types: &TypeTable,
    scope: &TypeScope<'_>,
) -> Option<Meeting>
    requires whole_in { IsType types.now (scope_in scope.now) so_far.whole }
    requires ends_in { IsEnds types.now (scope_in scope.now) ends.now }
    ensures valid { IfSome result (λ m. IsType types.now (scope_in scope.now) m.whole) }
    ensures view { GoesOn (nodes_of types.now) (nodes_of types.now) (scope_in scope.now) so_far (Given.Coercion ends.now) result }
{
    match scope.coercion_asked(so_far.whole, types) {
        None => None,
        Some((asked, body)) => {
            let same = scope.same_ends(&asked, ends, types);
            Some(Meeting {
                kinds: so_far.kinds,
                types: so_far.types && same,
                atoms: so_far.atoms,
                whole: body,
            })
        }
    }
}

/// What is met with one more argument; nothing where one of another sort is asked, or none.
fn meets(
    alloc: Global,
    so_far: Meeting,
    given: &Given,
    types: &mut TypeTable,
    scope: &TypeScope<'_>,
) -> Result<Option<Meeting>, Memory>
    requires whole_in { IsType types.old (scope_in scope.now) so_far.whole }
    requires given_in { IsGiven types.old (scope_in scope.now) given.now }
    ensures valid { IfOk result (λ r. IfSome r (λ m. IsType types.new (scope_in scope.now) m.whole)) }
    ensures view { IfOk result (λ r. GoesOn (nodes_of types.old) (nodes_of types.new) (scope_in scope.now) so_far given.now r) }
    ensures grows { OnOk result (Grows types.old types.new) }
{
    match given {
        Given::Term(ty, atom) => Ok(meets_term(so_far, *ty, *atom, types, scope)),
        Given::OfType(by, kind) => meets_type(alloc, so_far, *by, *kind, types, scope),
        Given::Coercion(ends) => Ok(meets_coercion(so_far, ends, types, scope)),
    }
}

/// What is met with all arguments, by what is of this type; nothing where one is of another sort than is asked.
#[tactic(auto, using(crate::proofs::Givens::given_rules))]
fn meets_all(
    alloc: Global,
    ty: TypeId,
    givens: &[Given],
    types: &mut TypeTable,
    scope: &TypeScope<'_>,
) -> Result<Option<Meeting>, Memory>
    requires type_in { IsType types.old (scope_in scope.now) ty }
    requires givens_in { AreGiven types.old (scope_in scope.now) givens.now }
    ensures valid { IfOk result (λ r. IfSome r (λ m. IsType types.new (scope_in scope.now) m.whole)) }
    ensures view { IfOk result (λ r. option_map (met_at (nodes_of types.new) (scope_in scope.now)) r ≡ words.met (shown types.old (scope_in scope.now) ty) (givens_in types.old (scope_in scope.now) givens.now)) }
    ensures grows { OnOk result (Grows types.old types.new) }
{
    let mut so_far = Meeting {
        kinds: true,
        types: true,
        atoms: true,
        whole: ty,
    };
    for given in givens {
        match meets(alloc, so_far, given, types, scope)? {
            None => return Ok(None),
            Some(next) => so_far = next,
        }
    }
    Ok(Some(so_far))
}

/// The type of what is of this type and takes this many arguments at once. The fault `arity` where there are not as many, or where one is of
/// another sort than is asked; then `KindMismatch`, `ArgType` and `UnliftedNotAtom`, each judged of all arguments.
#[tactic(auto, using(crate::proofs::Givens::given_rules))]
pub fn called(
    alloc: Global,
    arity: FaultKind,
    count: usize,
    ty: TypeId,
    givens: &[Given],
    types: &mut TypeTable,
    scope: &TypeScope<'_>,
) -> Result<TypeId, Flawed>
    requires type_in { IsType types.old (scope_in scope.now) ty }
    requires givens_in { AreGiven types.old (scope_in scope.now) givens.now }
    ensures valid { IfOk result (λ id. IsType types.new (scope_in scope.now) id) }
    ensures says { Says (λ id. shown types.new (scope_in scope.now) id) result (words.called arity count (shown types.old (scope_in scope.now) ty) (givens_in types.old (scope_in scope.now) givens.now)) }
    ensures grows { OnOk result (Grows types.old types.new) }
{
    if givens.len() != count {
        return Err(flaw_here(alloc, arity));
    }
    let Some(met) = meets_all(alloc, ty, givens, types, scope)? else {
        return Err(flaw_here(alloc, arity));
    };
    if !met.kinds {
        return Err(flaw_here(alloc, FaultKind::KindMismatch));
    }
    if !met.types {
        return Err(flaw_here(alloc, FaultKind::ArgType));
    }
    if !met.atoms {
        return Err(flaw_here(alloc, FaultKind::UnliftedNotAtom));
    }
    Ok(met.whole)
}

/// The type of a primitive of these operands: `PrimArity` where they are not two terms, and then `ArgType` and `UnliftedNotAtom`.
#[tactic(auto, using(crate::proofs::Givens::given_rules))]
pub fn operated(
    alloc: Global,
    givens: &[Given],
    types: &mut TypeTable,
    scope: &TypeScope<'_>,
) -> Result<TypeId, Flawed>
    requires { AreGiven types.old (scope_in scope.now) givens.now }
    ensures valid { IfOk result (λ id. IsType types.new (scope_in scope.now) id) }
    ensures says { Says (λ id. shown types.new (scope_in scope.now) id) result (typing.operated (givens_in types.old (scope_in scope.now) givens.now)) }
    ensures grows { OnOk result (Grows types.old types.new) }
{
    let int = scope.int_hash(types)?;
    let from_second = scope.function(int, int, types)?;
    let ty = scope.function(int, from_second, types)?;
    called(alloc, FaultKind::PrimArity, 2, ty, givens, types, scope)
}
