//! The sides of the axioms of modules as `forall`s over their parameters, in a table.
ghost use Rattle.std.specs.Prelude.{◌≡◌, [], length, IfOk, OnOk};
ghost use Rattle.fc_model.specs.Calling.{applied_to_variables};
ghost use Rattle.fc_model.specs.Kinding as words;
ghost use Rattle.fc_model.specs.Nameless.{NTCon, NTInt};
ghost use Rattle.fc_model.specs.NamelessView.{nparams_of, nplains_of, nty_of};
ghost use Rattle.fc_type_table.specs.InScope.{AreNumbered, own_kinds};
ghost use Rattle.fc_type_table.specs.TypeTables.{Grows, IsType, nodes_of, shown};
ghost use Rattle.fc_types.specs.Listed.{own_axiom};
ghost use Rattle.fc_lint_context.specs.DeclaredViews.{axiom_left, axiom_right, name_in, over_kinds};

use crate::constructors::{applied_to_params, over_params, param_kinds};
use fc_syntax::{Memory, NDecl, NTy, Param, Plain, Seq, Text};
use fc_type_scope::TypeScope;
use fc_type_table::{NumberedKind, NumberedKinds, TypeId, TypeTable};
use fc_types::DeclaredAxiom;
use std::alloc::Global;

/// The sides of an axiom.
#[derive(Clone, Copy)]
pub(crate) struct Sides {
    /// What it goes from.
    pub left: TypeId,
    /// What it goes to.
    pub right: TypeId,
}

/// The kinds of the parameters of an equation, in their order. Fails only where memory runs out.
#[tactic(auto, using(crate::proofs::Foralls::plain_rules))]
pub fn plain_kinds<'p>(
    alloc: Global,
    params: &'p [Plain],
    types: &mut TypeTable,
) -> Result<Seq<NumberedKind<'p>>, Memory>
    ensures kinds { IfOk result (λ kinds. own_kinds kinds ≡ nplains_of params.now) }
    ensures numbered { IfOk result (λ kinds. AreNumbered (nodes_of types.new) kinds) }
    ensures grows { OnOk result (Grows types.old types.new) }
{
    let mut kinds = Seq::new(alloc);
    for param in params {
        let kind = &param.kind;
        let id = types.read_kind(kind)?;
        kinds.push(NumberedKind { kind, id })?;
    }
    Ok(kinds)
}

/// A written type as a `forall` over variables of these kinds.
#[tactic(auto, using(crate::proofs::Contexts::context_rules), unfolding(fc_type_scope::specs::Scopes::scope_in))]
fn closed_over(
    alloc: Global,
    kinds: &[NumberedKind],
    t: &NTy,
    types: &mut TypeTable,
) -> Result<TypeId, Memory>
    requires { AreNumbered (nodes_of types.old) kinds.now }
    ensures valid { IfOk result (λ id. IsType types.new [] id) }
    ensures view { IfOk result (λ id. shown types.new [] id ≡ over_kinds (own_kinds kinds.now) (nty_of t.now)) }
    ensures grows { OnOk result (Grows types.old types.new) }
{
    let group = NumberedKinds::Group(&*kinds, &NumberedKinds::End);
    let scope = TypeScope { kinds: &group };
    let body = scope.read(t, types)?;
    over_params(alloc, kinds, body, types)
}

/// A newtype at its parameters as a `forall` over them, by the words of its module and its own.
#[tactic(auto, using(crate::proofs::Contexts::context_rules), unfolding(fc_type_scope::specs::Scopes::scope_in))]
fn closed_newtype(
    alloc: Global,
    kinds: &[NumberedKind],
    word: &Text,
    own_word: &Text,
    types: &mut TypeTable,
) -> Result<TypeId, Memory>
    requires { AreNumbered (nodes_of types.old) kinds.now }
    ensures valid { IfOk result (λ id. IsType types.new [] id) }
    ensures view { IfOk result (λ id. shown types.new [] id ≡ over_kinds (own_kinds kinds.now) (applied_to_variables (NTCon (name_in word.now own_word.now)) (length kinds.now) 0)) }
    ensures grows { OnOk result (Grows types.old types.new) }
{
    let group = NumberedKinds::Group(&*kinds, &NumberedKinds::End);
    let scope = TypeScope { kinds: &group };
    let head = scope.constructor(Some(word), own_word, types)?;
    let body = applied_to_params(&scope, head, kinds.len(), 0, types)?;
    over_params(alloc, kinds, body, types)
}

/// The sides of the axiom of a newtype: it at its parameters, and what it holds.
#[tactic(auto, using(crate::proofs::Contexts::context_rules, crate::proofs::Foralls::kinds_count))]
fn newtype_sides(
    alloc: Global,
    params: &[Param],
    t: &NTy,
    word: &Text,
    own_word: &Text,
    types: &mut TypeTable,
) -> Result<Sides, Memory>
    ensures left_in { IfOk result (λ s. IsType types.new [] s.left) }
    ensures right_in { IfOk result (λ s. IsType types.new [] s.right) }
    ensures left { IfOk result (λ s. shown types.new [] s.left ≡ over_kinds (words.param_kinds (nparams_of params.now)) (applied_to_variables (NTCon (name_in word.now own_word.now)) (length (nparams_of params.now)) 0)) }
    ensures right { IfOk result (λ s. shown types.new [] s.right ≡ over_kinds (words.param_kinds (nparams_of params.now)) (nty_of t.now)) }
    ensures grows { OnOk result (Grows types.old types.new) }
{
    let kinds = param_kinds(alloc, params, types)?;
    let left = closed_newtype(alloc, kinds.as_slice(), word, own_word, types)?;
    let right = closed_over(alloc, kinds.as_slice(), t, types)?;
    Ok(Sides { left, right })
}

/// The sides of an equation of a family.
#[tactic(auto, using(crate::proofs::Contexts::context_rules))]
fn equation_sides(
    alloc: Global,
    params: &[Plain],
    left: &NTy,
    right: &NTy,
    types: &mut TypeTable,
) -> Result<Sides, Memory>
    ensures left_in { IfOk result (λ s. IsType types.new [] s.left) }
    ensures right_in { IfOk result (λ s. IsType types.new [] s.right) }
    ensures left { IfOk result (λ s. shown types.new [] s.left ≡ over_kinds (nplains_of params.now) (nty_of left.now)) }
    ensures right { IfOk result (λ s. shown types.new [] s.right ≡ over_kinds (nplains_of params.now) (nty_of right.now)) }
    ensures grows { OnOk result (Grows types.old types.new) }
{
    let kinds = plain_kinds(alloc, params, types)?;
    let left = closed_over(alloc, kinds.as_slice(), left, types)?;
    let right = closed_over(alloc, kinds.as_slice(), right, types)?;
    Ok(Sides { left, right })
}

/// `Int#` on both sides, of a declaration that has no axiom.
#[tactic(auto, using(crate::proofs::Contexts::context_rules), unfolding(fc_type_scope::specs::Scopes::scope_in))]
fn no_sides(types: &mut TypeTable) -> Result<Sides, Memory>
    ensures left_in { IfOk result (λ s. IsType types.new [] s.left) }
    ensures right_in { IfOk result (λ s. IsType types.new [] s.right) }
    ensures left { IfOk result (λ s. shown types.new [] s.left ≡ NTInt) }
    ensures right { IfOk result (λ s. shown types.new [] s.right ≡ NTInt) }
    ensures grows { OnOk result (Grows types.old types.new) }
{
    let scope = TypeScope {
        kinds: &NumberedKinds::End,
    };
    let int = scope.int_hash(types)?;
    Ok(Sides {
        left: int,
        right: int,
    })
}

/// The sides of an axiom; `Int#` for both where its declaration has none.
#[tactic(auto, using(fc_syntax::proofs::View::view_rules))]
pub(crate) fn axiom_sides(
    alloc: Global,
    declared: &DeclaredAxiom,
    types: &mut TypeTable,
) -> Result<Sides, Memory>
    ensures left_in { IfOk result (λ s. IsType types.new [] s.left) }
    ensures right_in { IfOk result (λ s. IsType types.new [] s.right) }
    ensures left { IfOk result (λ s. shown types.new [] s.left ≡ axiom_left (own_axiom declared.now)) }
    ensures right { IfOk result (λ s. shown types.new [] s.right ≡ axiom_right (own_axiom declared.now)) }
    ensures grows { OnOk result (Grows types.old types.new) }
{
    match declared.decl {
        NDecl::DataType(_, _, _) => no_sides(types),
        NDecl::NewType(own_word, params, t, _) => {
            newtype_sides(
                alloc,
                params.as_slice(),
                t,
                declared.module,
                own_word,
                types,
            )
        }
        NDecl::Family(_, _, _) => no_sides(types),
        NDecl::Axiom(_, params, left, right) => {
            equation_sides(alloc, params.as_slice(), left, right, types)
        }
        NDecl::Def(_, _, _) => no_sides(types),
        NDecl::Wrap(_, _, _) => no_sides(types),
    }
}
