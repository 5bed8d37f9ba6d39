//! What stands behind binders.
ghost use Rattle.std.specs.Prelude.{◌≡◌, ◌++◌, ◌-◌, ◌≤◌, [], ◌∷◌, List, reverse, IfOk, OnOk};
ghost use Rattle.fc_model.specs.Nameless as trees;
ghost use Rattle.fc_model.specs.Calling as words;
ghost use Rattle.fc_model.specs.Calling.{binders_to, over_binders, type_count};
ghost use Rattle.fc_model.specs.NamelessView.{nbinder_of, nbinders_of, nty_of};
ghost use Rattle.fc_model.specs.Typing.{kinds_behind};
ghost use Rattle.fc_type_scope.specs.Behind.{IsEntered, IsValueAt, kinds_past, value_count};
ghost use Rattle.fc_type_scope.specs.Scopes.{IsScope, scope_in};
ghost use Rattle.fc_type_table.specs.InScope.{AreNumbered, kinds_of, numbered_of, own_kinds};
ghost use Rattle.fc_type_table.specs.TypeTables.{Grows, IsType, nodes_of, shown};

use crate::binders::add_kind;
use crate::ends::Ends;
use crate::scope::TypeScope;
use fc_syntax::{Memory, NBinder, NTy, Role, Seq};
use fc_type_table::{NumberedKind, NumberedKinds, TypeId, TypeTable};
use std::alloc::Global;

/// What binders that stand together bind.
#[derive(Drop)]
pub struct Entered<'a> {
    /// The kinds of their type variables, in their order.
    pub kinds: Seq<NumberedKind<'a>>,
    /// What their coercion variables prove, in their order.
    pub coercions: Seq<Ends>,
    /// The types of their values, in their order.
    pub values: Seq<TypeId>,
}

/// How many type variables and how many values binders bind.
#[derive(Clone, Copy)]
struct Counts {
    /// The type variables.
    kinds: usize,
    /// The values.
    values: usize,
}

impl Counts {
    /// Of all but the last binder, which is this one.
    fn before(self, binder: &NBinder) -> Counts
        requires kinds_in { type_count (nbinder_of binder.now ∷ []) ≤ self.kinds }
        requires values_in { value_count (nbinder_of binder.now ∷ []) ≤ self.values }
        ensures kinds { result.kinds ≡ self.kinds - type_count (nbinder_of binder.now ∷ []) }
        ensures values { result.values ≡ self.values - value_count (nbinder_of binder.now ∷ []) }
    {
        match binder {
            NBinder::Value(_, _) => Counts {
                kinds: self.kinds,
                values: self.values - 1,
            },
            NBinder::OfType(_, _) => Counts {
                kinds: self.kinds - 1,
                values: self.values,
            },
            NBinder::OfCo(_, _, _, _) => self,
        }
    }
}

impl TypeScope<'_> {
    /// Enters one binder more, which stands behind those that were entered in this scope.
    fn enter_binder<'a>(
        &self,
        entered: &mut Entered<'a>,
        binder: &'a NBinder,
        types: &mut TypeTable,
    ) -> Result<(), Memory>
        requires scope { IsScope types.old self.now }
        requires numbered { AreNumbered (nodes_of types.old) entered.old.kinds }
        ensures numbered { OnOk result (AreNumbered (nodes_of types.new) entered.new.kinds) }
        ensures entered { OnOk result ((bs : List trees.NBinder) → IsEntered (nodes_of types.old) (scope_in self.now) bs entered.old → IsEntered (nodes_of types.new) (scope_in self.now) (bs ++ nbinder_of binder.now ∷ []) entered.new) }
        ensures grows { OnOk result (Grows types.old types.new) }
    {
        match binder {
            NBinder::Value(_, t) => {
                let kinds = entered.kinds_behind(self.kinds);
                let id = TypeScope { kinds: &kinds }.read(t, types)?;
                entered.values.push(id)
            }
            NBinder::OfType(_, _) => add_kind(&mut entered.kinds, binder, types),
            NBinder::OfCo(_, role, left, right) => {
                let kinds = entered.kinds_behind(self.kinds);
                let ends = TypeScope { kinds: &kinds }.read_ends(*role, left, right, types)?;
                entered.coercions.push(ends)
            }
        }
    }

    /// What binders bind that stand in this scope. Fails only where memory runs out.
    pub fn enter<'a>(
        &self,
        alloc: Global,
        binders: &'a [NBinder],
        types: &mut TypeTable,
    ) -> Result<Entered<'a>, Memory>
        requires { IsScope types.old self.now }
        ensures entered { IfOk result (λ e. IsEntered (nodes_of types.new) (scope_in self.now) (nbinders_of binders.now) e) }
        ensures grows { OnOk result (Grows types.old types.new) }
    {
        let mut entered = Entered {
            kinds: Seq::new(alloc),
            coercions: Seq::new(alloc),
            values: Seq::new(alloc),
        };
        for binder in binders {
            self.enter_binder(&mut entered, binder, types)?;
        }
        Ok(entered)
    }

    /// What one binder binds that stands in this scope. Fails only where memory runs out.
    pub fn enter_one<'a>(
        &self,
        alloc: Global,
        binder: &'a NBinder,
        types: &mut TypeTable,
    ) -> Result<Entered<'a>, Memory>
        requires { IsScope types.old self.now }
        ensures entered { IfOk result (λ e. IsEntered (nodes_of types.new) (scope_in self.now) (nbinder_of binder.now ∷ []) e) }
        ensures grows { OnOk result (Grows types.old types.new) }
    {
        let mut entered = Entered {
            kinds: Seq::new(alloc),
            coercions: Seq::new(alloc),
            values: Seq::new(alloc),
        };
        self.enter_binder(&mut entered, binder, types)?;
        Ok(entered)
    }

    /// The type of what takes a coercion between two written types and is then of the type `answer`.
    #[tactic(auto, using(crate::proofs::Numbers::number_rules))]
    fn over_coercion(
        &self,
        role: Role,
        left: &NTy,
        right: &NTy,
        answer: TypeId,
        types: &mut TypeTable,
    ) -> Result<TypeId, Memory>
        requires scope { IsScope types.old self.now }
        requires answer_in { IsType types.old (scope_in self.now) answer }
        ensures valid { IfOk result (λ id. IsType types.new (scope_in self.now) id) }
        ensures view { IfOk result (λ id. shown types.new (scope_in self.now) id ≡ trees.NTCoForall role (nty_of left.now) (nty_of right.now) (shown types.old (scope_in self.now) answer)) }
        ensures grows { OnOk result (Grows types.old types.new) }
    {
        let left = self.read(left, types)?;
        let right = self.read(right, types)?;
        types.coforall(role, left, right, answer)
    }

    /// The type of what takes an argument for a binder that stands in this scope and is then of the type `answer`, which stands behind the
    /// binder. If it binds a value, the value's type is the one at this place.
    fn over_binder(
        &self,
        alloc: Global,
        binder: &NBinder,
        values: &[TypeId],
        place: usize,
        answer: TypeId,
        types: &mut TypeTable,
    ) -> Result<TypeId, Memory>
        requires scope { IsScope types.old self.now }
        requires value_in { IsValueAt (nodes_of types.old) (scope_in self.now) (nbinder_of binder.now) values.now place }
        requires answer_in { IsType types.old (kinds_behind (nbinder_of binder.now) (scope_in self.now)) answer }
        ensures valid { IfOk result (λ id. IsType types.new (scope_in self.now) id) }
        ensures view { IfOk result (λ id. shown types.new (scope_in self.now) id ≡ words.over_binder (nbinder_of binder.now) (shown types.old (kinds_behind (nbinder_of binder.now) (scope_in self.now)) answer)) }
        ensures grows { OnOk result (Grows types.old types.new) }
    {
        match binder {
            NBinder::Value(_, _) => self.function(values[place], answer, types),
            NBinder::OfType(_, kind) => self.forall(alloc, kind, answer, types),
            NBinder::OfCo(_, role, left, right) => {
                self.over_coercion(*role, left, right, answer, types)
            }
        }
    }

    /// The type of what takes arguments for binders and is then of the type `answer`, which stands behind them.
    pub fn function_over(
        &self,
        alloc: Global,
        binders: &[NBinder],
        entered: &Entered,
        answer: TypeId,
        types: &mut TypeTable,
    ) -> Result<TypeId, Memory>
        requires scope { IsScope types.old self.now }
        requires entered_in { IsEntered (nodes_of types.old) (scope_in self.now) (nbinders_of binders.now) entered.now }
        requires answer_in { IsType types.old (kinds_past (nbinders_of binders.now) (scope_in self.now)) answer }
        ensures valid { IfOk result (λ id. IsType types.new (scope_in self.now) id) }
        ensures view { IfOk result (λ id. shown types.new (scope_in self.now) id ≡ over_binders (nbinders_of binders.now) (shown types.old (kinds_past (nbinders_of binders.now) (scope_in self.now)) answer)) }
        ensures grows { OnOk result (Grows types.old types.new) }
    {
        let own = entered.kinds.as_slice();
        let values = entered.values.as_slice();
        let mut counts = Counts {
            kinds: own.len(),
            values: values.len(),
        };
        let mut whole = answer;
        let mut at = binders.len();
        while at > 0 {
            at -= 1;
            let binder = &binders[at];
            counts = counts.before(binder);
            let kinds = NumberedKinds::Group(&own[..counts.kinds], self.kinds);
            let scope = TypeScope { kinds: &kinds };
            whole = scope.over_binder(alloc, binder, values, counts.values, whole, types)?;
        }
        Ok(whole)
    }

    /// The type of what takes arguments for binders and is then of the type `answer`, which stands outside them, such as the type of a join
    /// point. Each part of the binders is visited once, and no part of the answer.
    #[tactic(auto, unfolding(crate::specs::Scopes::scope_in))]
    pub fn function_to(
        &self,
        binders: &[NBinder],
        entered: &Entered,
        answer: TypeId,
        types: &mut TypeTable,
    ) -> Result<TypeId, Memory>
        requires scope { IsScope types.old self.now }
        requires entered_in { IsEntered (nodes_of types.old) (scope_in self.now) (nbinders_of binders.now) entered.now }
        requires answer_in { IsType types.old (scope_in self.now) answer }
        ensures valid { IfOk result (λ id. IsType types.new (scope_in self.now) id) }
        ensures view { IfOk result (λ id. shown types.new (scope_in self.now) id ≡ binders_to (nbinders_of binders.now) (shown types.old (scope_in self.now) answer)) }
        ensures grows { OnOk result (Grows types.old types.new) }
    {
        let variables = self.variables()?;
        let own = entered.kinds.as_slice();
        types.read_over(binders, own, self.kinds, variables, answer)
    }

    /// The type of what takes an argument for a binder and is then of the type `answer`, which stands behind it.
    pub fn function_over_one(
        &self,
        alloc: Global,
        binder: &NBinder,
        entered: &Entered,
        answer: TypeId,
        types: &mut TypeTable,
    ) -> Result<TypeId, Memory>
        requires scope { IsScope types.old self.now }
        requires entered_in { IsEntered (nodes_of types.old) (scope_in self.now) (nbinder_of binder.now ∷ []) entered.now }
        requires answer_in { IsType types.old (kinds_past (nbinder_of binder.now ∷ []) (scope_in self.now)) answer }
        ensures valid { IfOk result (λ id. IsType types.new (scope_in self.now) id) }
        ensures view { IfOk result (λ id. shown types.new (scope_in self.now) id ≡ words.over_binder (nbinder_of binder.now) (shown types.old (kinds_past (nbinder_of binder.now ∷ []) (scope_in self.now)) answer)) }
        ensures grows { OnOk result (Grows types.old types.new) }
    {
        self.over_binder(alloc, binder, entered.values.as_slice(), 0, answer, types)
    }
}

impl<'a> Entered<'a> {
    /// The kinds of the type variables in scope behind the binders.
    pub fn kinds_behind<'x>(&'x self, outer: &'x NumberedKinds<'x>) -> NumberedKinds<'x>
        ensures kinds { kinds_of result ≡ reverse (own_kinds self.now.kinds) ++ kinds_of outer.now }
        ensures numbered { numbered_of result ≡ reverse self.now.kinds ++ numbered_of outer.now }
    {
        NumberedKinds::Group(self.kinds.as_slice(), outer)
    }
}
