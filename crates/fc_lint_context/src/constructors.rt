//! The constructors of modules as functions of their binders, in a table.
ghost use Rattle.std.specs.Prelude.{◌≡◌, ◌+◌, [], ◌∷◌, map, IfOk, OnOk};
ghost use Rattle.fc_syntax.specs.View.{kind_of};
ghost use Rattle.fc_model.specs.Calling.{applied_to_variables, constructed_type, over_binders};
ghost use Rattle.fc_model.specs.Kinding as words;
ghost use Rattle.fc_model.specs.Nameless.{NBType, NBValue, NTApp, NTForall, NTFun, NTVar};
ghost use Rattle.fc_model.specs.NamelessView.{nparams_of, nty_of, ntys_of};
ghost use Rattle.fc_type_scope.specs.Behind.{binder_kinds, kinds_past};
ghost use Rattle.fc_type_scope.specs.Scopes.{IsScope, scope_in};
ghost use Rattle.fc_type_table.specs.InScope.{AreNumbered, behind_group, own_kinds};
ghost use Rattle.fc_type_table.specs.TypeTables.{Grows, IsType, nodes_of, shown};
ghost use Rattle.fc_types.specs.TableViews.{constructor_of};
ghost use Rattle.fc_lint_context.specs.DeclaredViews.{name_in, own_constructor_type};

use fc_syntax::{Kind, Memory, NTy, Param, Seq};
use fc_type_scope::{Entered, TypeScope};
use fc_type_table::{NumberedKind, NumberedKinds, TypeId, TypeTable};
use fc_types::DeclaredCon;
use std::alloc::Global;

/// The kinds of parameters, in their order. Fails only where memory runs out.
#[tactic(auto, using(crate::proofs::Foralls::param_rules))]
pub fn param_kinds<'p>(
    alloc: Global,
    params: &'p [Param],
    types: &mut TypeTable,
) -> Result<Seq<NumberedKind<'p>>, Memory>
    ensures kinds { IfOk result (λ kinds. own_kinds kinds ≡ words.param_kinds (nparams_of params.now)) }
    ensures numbered { IfOk result (λ kinds. AreNumbered (nodes_of types.new) kinds) }
    ensures grows { OnOk result (Grows types.old types.new) }
{
    let mut kinds = Seq::new(alloc);
    for param in params {
        let kind = &param.kind;
        let id = types.read_kind(kind)?;
        kinds.push(NumberedKind { kind, id })?;
    }
    Ok(kinds)
}

/// A type applied to the variable that stands so many binders further out than another.
#[tactic(auto, using(crate::proofs::Contexts::context_rules))]
fn applied_to_variable(
    scope: &TypeScope,
    head: TypeId,
    place: usize,
    outer: usize,
    types: &mut TypeTable,
) -> Result<TypeId, Memory>
    requires scope { IsScope types.old scope.now }
    requires head_in { IsType types.old (scope_in scope.now) head }
    ensures valid { IfOk result (λ id. IsType types.new (scope_in scope.now) id) }
    ensures view { IfOk result (λ id. shown types.new (scope_in scope.now) id ≡ NTApp (shown types.old (scope_in scope.now) head) (NTVar (place + outer))) }
    ensures grows { OnOk result (Grows types.old types.new) }
{
    let distance = match place.checked_add(outer) {
        Some(distance) => distance,
        None => return Err(Memory),
    };
    if distance > u32::MAX as usize {
        return Err(Memory);
    }
    let variable = scope.variable(distance as u32, types)?;
    scope.application(head, variable, types)
}

/// A type applied to this many variables, the innermost of which stands so far out.
pub(crate) fn applied_to_params(
    scope: &TypeScope,
    head: TypeId,
    count: usize,
    outer: usize,
    types: &mut TypeTable,
) -> Result<TypeId, Memory>
    requires scope { IsScope types.old scope.now }
    requires head_in { IsType types.old (scope_in scope.now) head }
    ensures valid { IfOk result (λ id. IsType types.new (scope_in scope.now) id) }
    ensures view { IfOk result (λ id. shown types.new (scope_in scope.now) id ≡ applied_to_variables (shown types.old (scope_in scope.now) head) count outer) }
    ensures grows { OnOk result (Grows types.old types.new) }
{
    let mut id = head;
    let mut left = count;
    while left > 0 {
        left -= 1;
        id = applied_to_variable(scope, id, left, outer, types)?;
    }
    Ok(id)
}

/// The type of functions from a written type to another.
#[tactic(auto, using(crate::proofs::Contexts::context_rules))]
fn over_field(
    scope: &TypeScope,
    field: &NTy,
    answer: TypeId,
    types: &mut TypeTable,
) -> Result<TypeId, Memory>
    requires scope { IsScope types.old scope.now }
    requires answer_in { IsType types.old (scope_in scope.now) answer }
    ensures valid { IfOk result (λ id. IsType types.new (scope_in scope.now) id) }
    ensures view { IfOk result (λ id. shown types.new (scope_in scope.now) id ≡ NTFun (nty_of field.now) (shown types.old (scope_in scope.now) answer)) }
    ensures grows { OnOk result (Grows types.old types.new) }
{
    let from = scope.read(field, types)?;
    scope.function(from, answer, types)
}

/// The type of functions of fields.
fn over_fields(
    scope: &TypeScope,
    fields: &[NTy],
    answer: TypeId,
    types: &mut TypeTable,
) -> Result<TypeId, Memory>
    requires scope { IsScope types.old scope.now }
    requires answer_in { IsType types.old (scope_in scope.now) answer }
    ensures valid { IfOk result (λ id. IsType types.new (scope_in scope.now) id) }
    ensures view { IfOk result (λ id. shown types.new (scope_in scope.now) id ≡ over_binders (map NBValue (ntys_of fields.now)) (shown types.old (scope_in scope.now) answer)) }
    ensures grows { OnOk result (Grows types.old types.new) }
{
    let mut id = answer;
    let mut left = fields.len();
    while left > 0 {
        left -= 1;
        id = over_field(scope, &fields[left], id, types)?;
    }
    Ok(id)
}

/// What a constructor of a module makes, as a function of its fields, behind its parameters and its own binders.
fn over_own_fields(
    con: &DeclaredCon,
    entered: &Entered,
    scope: &TypeScope,
    types: &mut TypeTable,
) -> Result<TypeId, Memory>
    requires scope { IsScope types.old scope.now }
    requires numbered { AreNumbered (nodes_of types.old) entered.now.kinds }
    requires entered { own_kinds entered.now.kinds ≡ binder_kinds (constructor_of con.now).binders }
    ensures valid { IfOk result (λ id. IsType types.new (kinds_past (constructor_of con.now).binders (scope_in scope.now)) id) }
    ensures view { IfOk result (λ id. shown types.new (kinds_past (constructor_of con.now).binders (scope_in scope.now)) id ≡ over_binders (map NBValue (constructor_of con.now).fields) (constructed_type (name_in con.now.module.now con.now.data_word.now) (constructor_of con.now))) }
    ensures grows { OnOk result (Grows types.old types.new) }
{
    let kinds = entered.kinds_behind(scope.kinds);
    let inner = TypeScope { kinds: &kinds };
    let head = inner.constructor(Some(con.module), con.data_word, types)?;
    let answer = applied_to_params(&inner, head, con.params.len(), entered.kinds.len(), types)?;
    over_fields(&inner, con.con.fields.as_slice(), answer, types)
}

/// The same as a function of its own binders and its fields, behind its parameters.
#[tactic(auto, using(crate::proofs::Contexts::context_rules))]
fn over_own_binders(
    alloc: Global,
    con: &DeclaredCon,
    scope: &TypeScope,
    types: &mut TypeTable,
) -> Result<TypeId, Memory>
    requires { IsScope types.old scope.now }
    ensures valid { IfOk result (λ id. IsType types.new (scope_in scope.now) id) }
    ensures view { IfOk result (λ id. shown types.new (scope_in scope.now) id ≡ over_binders (constructor_of con.now).binders (over_binders (map NBValue (constructor_of con.now).fields) (constructed_type (name_in con.now.module.now con.now.data_word.now) (constructor_of con.now)))) }
    ensures grows { OnOk result (Grows types.old types.new) }
{
    let binders = con.con.binders.as_slice();
    let entered = scope.enter(alloc, binders, types)?;
    let here = *scope;
    let body = over_own_fields(con, &entered, &here, types)?;
    scope.function_over(alloc, binders, &entered, body, types)
}

/// The `forall` over a variable of a kind, behind variables of other kinds.
#[tactic(auto, unfolding(fc_type_scope::specs::Scopes::scope_in))]
fn forall_behind(
    alloc: Global,
    outer: &[NumberedKind],
    kind: &Kind,
    body: TypeId,
    types: &mut TypeTable,
) -> Result<TypeId, Memory>
    requires { IsType types.old (kind_of kind.now ∷ behind_group (own_kinds outer.now) []) body }
    ensures valid { IfOk result (λ id. IsType types.new (behind_group (own_kinds outer.now) []) id) }
    ensures view { IfOk result (λ id. shown types.new (behind_group (own_kinds outer.now) []) id ≡ NTForall (kind_of kind.now) (shown types.old (kind_of kind.now ∷ behind_group (own_kinds outer.now) []) body)) }
    ensures grows { OnOk result (Grows types.old types.new) }
{
    let kinds = NumberedKinds::Group(outer, &NumberedKinds::End);
    let scope = TypeScope { kinds: &kinds };
    scope.forall(alloc, kind, body, types)
}

/// The `forall`s over variables of these kinds, the last one the innermost.
pub(crate) fn over_params(
    alloc: Global,
    kinds: &[NumberedKind],
    body: TypeId,
    types: &mut TypeTable,
) -> Result<TypeId, Memory>
    requires { IsType types.old (behind_group (own_kinds kinds.now) []) body }
    ensures valid { IfOk result (λ id. IsType types.new [] id) }
    ensures view { IfOk result (λ id. shown types.new [] id ≡ over_binders (map NBType (own_kinds kinds.now)) (shown types.old (behind_group (own_kinds kinds.now) []) body)) }
    ensures grows { OnOk result (Grows types.old types.new) }
{
    let mut id = body;
    let mut left = kinds.len();
    while left > 0 {
        left -= 1;
        id = forall_behind(alloc, &kinds[..left], kinds[left].kind, id, types)?;
    }
    Ok(id)
}

/// The type of a constructor of a module as a function of its binders: the parameters of its data type, its own types and coercions,
/// and its fields.
pub(crate) fn constructor_type(
    alloc: Global,
    con: &DeclaredCon,
    types: &mut TypeTable,
) -> Result<TypeId, Memory>
    ensures valid { IfOk result (λ id. IsType types.new [] id) }
    ensures view { IfOk result (λ id. shown types.new [] id ≡ own_constructor_type con.now.module.now (constructor_of con.now)) }
    ensures grows { OnOk result (Grows types.old types.new) }
{
    let kinds = param_kinds(alloc, con.params.as_slice(), types)?;
    let group = NumberedKinds::Group(kinds.as_slice(), &NumberedKinds::End);
    let scope = TypeScope { kinds: &group };
    let body = over_own_binders(alloc, con, &scope, types)?;
    over_params(alloc, kinds.as_slice(), body, types)
}
