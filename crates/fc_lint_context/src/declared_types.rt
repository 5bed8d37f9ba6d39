//! The types of what modules declare, in a table.
ghost use Rattle.std.specs.Prelude.{◌≡◌, ◌+◌, ◌<◌, [], ◌∷◌, ◌++◌, List, length, take, Some, IfOk, IfSome, OnOk};
ghost use Rattle.std.specs.Option.{option_and_then, option_map};
ghost use Rattle.fc_syntax.specs.Tree as trees;
ghost use Rattle.fc_model.specs.Calling as words;
ghost use Rattle.fc_model.specs.Calling.{constructor};
ghost use Rattle.fc_model.specs.Coercing.{Axiom, axiom_named};
ghost use Rattle.fc_model.specs.NamelessView.{ndecl_of, nty_of};
ghost use Rattle.fc_model.specs.Typing.{value_type};
ghost use Rattle.fc_type_scope.specs.Scopes.{AreTypesAt, shown_all_at};
ghost use Rattle.fc_type_table.specs.Scopes.{IsTypeAt, shown_at};
ghost use Rattle.fc_type_table.specs.TypeTables.{Grows, nodes_of};
ghost use Rattle.fc_type_table.specs.declared.node.Node as nodes;
ghost use Rattle.fc_types.specs.Listed as listed;
ghost use Rattle.fc_types.specs.ModuleViews.{modules_of};
ghost use Rattle.fc_types.specs.TableViews.{axiom_of, constructor_of};
ghost use Rattle.fc_types.specs.Tables.{found};
ghost use Rattle.fc_lint_context.specs.DeclaredViews as views;
ghost use Rattle.fc_lint_context.specs.DeclaredViews.{AreRead, AreSidesAt, ShowSides, modules_read};

use crate::axioms::axiom_sides;
use crate::constructors::constructor_type;
use fc_syntax::{Memory, NDecl, NTy, Name, Seq};
use fc_type_scope::TypeScope;
use fc_type_table::{NumberedKinds, TypeId, TypeTable};
use fc_types::{Declarations, DeclaredCon};
use std::alloc::Global;

/// What modules declare, with the types of their definitions, of their constructors and of the sides of their axioms in a table. Each is put there once, however often
/// it is used.
#[derive(Drop)]
pub struct DeclaredTypes<'a> {
    /// What the modules declare.
    pub declared: &'a Declarations<'a>,
    /// The types of the definitions.
    definition_types: Seq<TypeId>,
    /// The types of the constructors as functions of their binders.
    constructor_types: Seq<TypeId>,
    /// What the axioms go from, as `forall`s over their parameters.
    axiom_lefts: Seq<TypeId>,
    /// What they go to.
    axiom_rights: Seq<TypeId>,
}

/// An axiom with its sides.
#[derive(Clone, Copy)]
pub struct TypedAxiom<'a> {
    /// The newtype or the equation of a family that has it.
    pub decl: &'a NDecl,
    /// What it goes from, as a `forall` over its parameters.
    pub left: TypeId,
    /// What it goes to.
    pub right: TypeId,
}

/// A constructor with its type.
#[derive(Clone, Copy)]
pub struct TypedCon<'a> {
    /// What is declared of it.
    pub con: DeclaredCon<'a>,
    /// Its type as a function of its binders.
    pub ty: TypeId,
}

/// Puts a written type without type variables of others behind others.
#[tactic(auto, unfolding(fc_type_scope::specs::Scopes::scope_in))]
fn add_closed(ids: &mut Seq<TypeId>, t: &NTy, types: &mut TypeTable) -> Result<(), Memory>
    requires { AreTypesAt (nodes_of types.old) [] ids.old }
    ensures types_in { OnOk result (AreTypesAt (nodes_of types.new) [] ids.new) }
    ensures added { OnOk result (shown_all_at (nodes_of types.new) [] ids.new ≡ shown_all_at (nodes_of types.old) [] ids.old ++ nty_of t.now ∷ []) }
    ensures grows { OnOk result (Grows types.old types.new) }
{
    let scope = TypeScope {
        kinds: &NumberedKinds::End,
    };
    scope.add(ids, t, types)
}

/// Puts the type of the definition of a number behind those of the definitions before it.
fn add_definition(
    ids: &mut Seq<TypeId>,
    number: usize,
    declared: &Declarations,
    types: &mut TypeTable,
) -> Result<(), Memory>
    requires within { number < length (listed.definition_types declared.now) }
    requires types_in { AreTypesAt (nodes_of types.old) [] ids.old }
    requires so_far { shown_all_at (nodes_of types.old) [] ids.old ≡ take number (listed.definition_types declared.now) }
    ensures types_in { OnOk result (AreTypesAt (nodes_of types.new) [] ids.new) }
    ensures so_far { OnOk result (shown_all_at (nodes_of types.new) [] ids.new ≡ take (number + 1) (listed.definition_types declared.now)) }
    ensures grows { OnOk result (Grows types.old types.new) }
{
    match declared.definition_at(number) {
        None => Ok(()),
        Some(t) => add_closed(ids, t, types),
    }
}

/// The types of the definitions.
#[tactic(auto, using(crate::proofs::Contexts::context_rules))]
fn definition_types(
    alloc: Global,
    declared: &Declarations,
    types: &mut TypeTable,
) -> Result<Seq<TypeId>, Memory>
    ensures types_in { IfOk result (λ ids. AreTypesAt (nodes_of types.new) [] ids) }
    ensures all { IfOk result (λ ids. shown_all_at (nodes_of types.new) [] ids ≡ listed.definition_types declared.now) }
    ensures grows { OnOk result (Grows types.old types.new) }
{
    let mut ids = Seq::new(alloc);
    for number in 0..declared.definition_count() {
        add_definition(&mut ids, number, declared, types)?;
    }
    Ok(ids)
}

/// Puts the type of the constructor of a number behind those of the constructors before it.
#[tactic(auto, using(crate::proofs::Contexts::context_rules))]
fn add_constructor(
    alloc: Global,
    ids: &mut Seq<TypeId>,
    number: usize,
    declared: &Declarations,
    types: &mut TypeTable,
) -> Result<(), Memory>
    requires within { number < length (listed.constructors_in declared.now) }
    requires types_in { AreTypesAt (nodes_of types.old) [] ids.old }
    requires so_far { shown_all_at (nodes_of types.old) [] ids.old ≡ take number (views.constructor_types declared.now) }
    ensures types_in { OnOk result (AreTypesAt (nodes_of types.new) [] ids.new) }
    ensures so_far { OnOk result (shown_all_at (nodes_of types.new) [] ids.new ≡ take (number + 1) (views.constructor_types declared.now)) }
    ensures grows { OnOk result (Grows types.old types.new) }
{
    match declared.constructor_at(number) {
        None => Ok(()),
        Some(con) => {
            let id = constructor_type(alloc, &con, types)?;
            ids.push(id)
        }
    }
}

/// The types of the constructors.
#[tactic(auto, using(crate::proofs::Contexts::context_rules))]
fn constructor_types(
    alloc: Global,
    declared: &Declarations,
    types: &mut TypeTable,
) -> Result<Seq<TypeId>, Memory>
    ensures types_in { IfOk result (λ ids. AreTypesAt (nodes_of types.new) [] ids) }
    ensures all { IfOk result (λ ids. shown_all_at (nodes_of types.new) [] ids ≡ views.constructor_types declared.now) }
    ensures grows { OnOk result (Grows types.old types.new) }
{
    let mut ids = Seq::new(alloc);
    for number in 0..declared.constructor_count() {
        add_constructor(alloc, &mut ids, number, declared, types)?;
    }
    Ok(ids)
}

/// The sides of axioms, in their order.
#[derive(Drop)]
struct AxiomSides {
    /// What they go from.
    lefts: Seq<TypeId>,
    /// What they go to.
    rights: Seq<TypeId>,
}

/// Puts the sides of the axiom of a number behind those of the axioms before it.
#[tactic(auto, using(crate::proofs::Contexts::context_rules))]
fn add_axiom(
    alloc: Global,
    sides: &mut AxiomSides,
    number: usize,
    declared: &Declarations,
    types: &mut TypeTable,
) -> Result<(), Memory>
    requires within { number < length (listed.axioms_in declared.now) }
    requires lefts_in { AreTypesAt (nodes_of types.old) [] sides.old.lefts }
    requires rights_in { AreTypesAt (nodes_of types.old) [] sides.old.rights }
    requires lefts { shown_all_at (nodes_of types.old) [] sides.old.lefts ≡ take number (views.axiom_lefts declared.now) }
    requires rights { shown_all_at (nodes_of types.old) [] sides.old.rights ≡ take number (views.axiom_rights declared.now) }
    ensures lefts_in { OnOk result (AreTypesAt (nodes_of types.new) [] sides.new.lefts) }
    ensures rights_in { OnOk result (AreTypesAt (nodes_of types.new) [] sides.new.rights) }
    ensures lefts { OnOk result (shown_all_at (nodes_of types.new) [] sides.new.lefts ≡ take (number + 1) (views.axiom_lefts declared.now)) }
    ensures rights { OnOk result (shown_all_at (nodes_of types.new) [] sides.new.rights ≡ take (number + 1) (views.axiom_rights declared.now)) }
    ensures grows { OnOk result (Grows types.old types.new) }
{
    match declared.axiom_at(number) {
        None => Ok(()),
        Some(axiom) => {
            let own = axiom_sides(alloc, &axiom, types)?;
            sides.lefts.push(own.left)?;
            sides.rights.push(own.right)
        }
    }
}

/// The sides of the axioms.
#[tactic(auto, using(crate::proofs::Contexts::context_rules))]
fn sides_of_axioms(
    alloc: Global,
    declared: &Declarations,
    types: &mut TypeTable,
) -> Result<AxiomSides, Memory>
    ensures lefts_in { IfOk result (λ s. AreTypesAt (nodes_of types.new) [] s.lefts) }
    ensures rights_in { IfOk result (λ s. AreTypesAt (nodes_of types.new) [] s.rights) }
    ensures lefts { IfOk result (λ s. shown_all_at (nodes_of types.new) [] s.lefts ≡ views.axiom_lefts declared.now) }
    ensures rights { IfOk result (λ s. shown_all_at (nodes_of types.new) [] s.rights ≡ views.axiom_rights declared.now) }
    ensures grows { OnOk result (Grows types.old types.new) }
{
    let mut sides = AxiomSides {
        lefts: Seq::new(alloc),
        rights: Seq::new(alloc),
    };
    for number in 0..declared.axiom_count() {
        add_axiom(alloc, &mut sides, number, declared, types)?;
    }
    Ok(sides)
}

impl<'a> DeclaredTypes<'a> {
    /// Puts the types of what modules declare into a table. A type that names a variable out of scope is answered as out of memory.
    pub fn new(
        alloc: Global,
        declared: &'a Declarations<'a>,
        types: &mut TypeTable,
    ) -> Result<DeclaredTypes<'a>, Memory>
        ensures read { IfOk result (λ d. AreRead (nodes_of types.new) d) }
        ensures declared { IfOk result (λ d. modules_read d ≡ modules_of declared.now) }
        ensures grows { OnOk result (Grows types.old types.new) }
    {
        let definition_types = definition_types(alloc, declared, types)?;
        let constructor_types = constructor_types(alloc, declared, types)?;
        let sides = sides_of_axioms(alloc, declared, types)?;
        Ok(DeclaredTypes {
            declared,
            definition_types,
            constructor_types,
            axiom_lefts: sides.lefts,
            axiom_rights: sides.rights,
        })
    }

    /// The type of the definition of a name, in each table that has the types, whatever type variables are in scope.
    pub fn definition_type(&self, name: &Name) -> Option<TypeId>
        ensures valid { (ns : List nodes.Node) (ks : List trees.Kind) → AreRead ns self.now → IfSome result (λ id. IsTypeAt ns ks id.0) }
        ensures view { (ns : List nodes.Node) (ks : List trees.Kind) → AreRead ns self.now → found (option_map (λ id. shown_at ns ks id.0) result) ≡ value_type (modules_read self.now) name.now }
    {
        match self.declared.definition_number(name) {
            None => None,
            Some(number) => self.definition_types.get(number).copied(),
        }
    }

    /// The constructor of a name, with its type in each table that has the types, whatever type variables are in scope.
    pub fn constructor_named(&self, name: &Name) -> Option<TypedCon<'a>>
        ensures view { (ns : List nodes.Node) → AreRead ns self.now → option_map (λ k. constructor_of k.con) result ≡ constructor (modules_read self.now) name.now }
        ensures valid { (ns : List nodes.Node) (ks : List trees.Kind) → AreRead ns self.now → IfSome result (λ k. IsTypeAt ns ks k.ty.0) }
        ensures ty { (ns : List nodes.Node) (ks : List trees.Kind) → AreRead ns self.now → IfSome result (λ k. shown_at ns ks k.ty.0 ≡ words.constructor_type name.now (constructor_of k.con)) }
    {
        let number = self.declared.constructor_number(name)?;
        let con = self.declared.constructor_at(number)?;
        let ty = self.constructor_types.get(number)?;
        Some(TypedCon { con, ty: *ty })
    }

    /// The axiom of a name, with its sides in each table that has the types, whatever type variables are in scope.
    pub fn axiom_named(&self, name: &Name) -> Option<TypedAxiom<'a>>
        ensures view { (ns : List nodes.Node) → AreRead ns self.now → option_and_then (λ k. axiom_of name.now.module (ndecl_of k.decl.now)) result ≡ axiom_named (modules_read self.now) name.now }
        ensures valid { (ns : List nodes.Node) (ks : List trees.Kind) → AreRead ns self.now → IfSome result (λ k. AreSidesAt ns ks k) }
        ensures sides { (ns : List nodes.Node) (ks : List trees.Kind) → AreRead ns self.now → IfSome result (λ k. (a : Axiom) → axiom_of name.now.module (ndecl_of k.decl.now) ≡ Some a → ShowSides ns ks k a) }
    {
        let number = self.declared.axiom_number(name)?;
        let axiom = self.declared.axiom_at(number)?;
        let left = self.axiom_lefts.get(number)?;
        let right = self.axiom_rights.get(number)?;
        Some(TypedAxiom {
            decl: axiom.decl,
            left: *left,
            right: *right,
        })
    }
}
