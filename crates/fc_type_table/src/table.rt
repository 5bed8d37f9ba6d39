//! The table.
ghost use Rattle.std.specs.Option.{option_map};
ghost use Rattle.std.specs.Prelude.{◌≡◌, ◌<◌, ◌≤◌, ◌⊎◌, [], length, Some, IfOk, IfSome, OnErr, OnOk};
ghost use Rattle.fc_type_table.specs.declared.instance.Instance as the_instance;
ghost use Rattle.fc_type_table.specs.Names.{name_of};
ghost use Rattle.fc_type_table.specs.declared.node.NameKey as the_key;
ghost use Rattle.fc_type_table.specs.declared.node.TypeId as the_id;
ghost use Rattle.fc_model.specs.Kinding.{type_decl};
ghost use Rattle.fc_model.specs.NamelessView.{ndecl_of};
ghost use Rattle.fc_types.specs.ModuleViews.{modules_of};
ghost use Rattle.fc_type_table.specs.Facts.{Instances_prop, IsTable_prop, NamesNoted_prop};
ghost use Rattle.fc_type_table.specs.Instances.{Instances, NamesNoted, instance_noted, name_noted};
ghost use Rattle.fc_type_table.specs.Trees.{LCon, opened};
ghost use Rattle.fc_type_table.specs.Nodes.{Extends, HasKinds, IsTable, Judges, Measures, parts_end, piece_over, tree_at};

use crate::instance::Instance;
use crate::node::{Judged, Measure, NameKey, Node, Piece, TypeId};
use fc_syntax::{Memory, NDecl};
use fc_types::Declarations;
use indexmap::{IndexMap, IndexSet};
use std::alloc::Global;

/// Notes an instance.
fn note_instance(
    instances: &mut IndexMap<Instance, TypeId>,
    instance: Instance,
    answer: TypeId,
) -> Result<(), Memory>
    ensures noted { OnOk result ((i : the_instance.Instance) (r : the_id.TypeId) → instance_noted instances.new i ≡ Some r → ((i ≡ instance) × (r ≡ answer)) ⊎ (instance_noted instances.old i ≡ Some r)) }
    ensures kept { OnErr result ((i : the_instance.Instance) (r : the_id.TypeId) → instance_noted instances.new i ≡ Some r → instance_noted instances.old i ≡ Some r) }
{
    instances.insert(instance, answer)?;
    Ok(())
}

/// Notes the type of a name.
fn note_name(
    names: &mut IndexMap<NameKey, TypeId>,
    name: NameKey,
    answer: TypeId,
) -> Result<(), Memory>
    ensures noted { OnOk result ((k : the_key.NameKey) (r : the_id.TypeId) → name_noted names.new k ≡ Some r → ((name_of name ≡ name_of k) × (r ≡ answer)) ⊎ (name_noted names.old k ≡ Some r)) }
    ensures kept { OnErr result ((k : the_key.NameKey) (r : the_id.TypeId) → name_noted names.new k ≡ Some r → name_noted names.old k ≡ Some r) }
{
    names.insert(name, answer)?;
    Ok(())
}

/// A table of types. Equal types have equal numbers, and a number stays right when the table or the context grows. Each variable carries
/// its kind, and the kind of a type is told once, when the type is made. Every call on a table fails only where memory runs out,
/// where a type would be deeper than 10,000, or where a count would pass 2^32; what the table then has is left open.
#[derive(Drop)]
pub struct TypeTable<'a> {
    declared: &'a Declarations<'a>,
    nodes: IndexSet<Node>,
    names: IndexMap<NameKey, TypeId>,
    instances: IndexMap<Instance, TypeId>,
    ghost table: { IsTable (modules_of declared.now) nodes.keys } by { IsTable_prop (modules_of declared.now) nodes.keys },
    ghost names_are: { NamesNoted nodes.keys names } by { NamesNoted_prop nodes.keys names },
    ghost instances_are: { Instances nodes.keys instances } by { Instances_prop nodes.keys instances },
}

impl<'a> TypeTable<'a> {
    ghost use Rattle.fc_type_table.specs.TypeTables.{modules_in, nodes_of};

    /// An empty table of types among these declarations. Takes no memory.
    pub fn new(alloc: Global, declared: &'a Declarations<'a>) -> TypeTable<'a>
        ensures nodes { nodes_of result ≡ [] }
        ensures modules { modules_in result ≡ modules_of declared.now }
    {
        TypeTable {
            declared,
            nodes: IndexSet::new(alloc),
            names: IndexMap::new(alloc),
            instances: IndexMap::new(alloc),
        }
    }

    /// The declaration of the type of a name. Takes no memory.
    pub(crate) fn declared(&self, name: &NameKey) -> Option<&'a NDecl>
        ensures { option_map (λ d. ndecl_of d.now) result ≡ type_decl (modules_of self.now.declared.now (name_of name.now).module) (name_of name.now).text }
    {
        self.declared.type_at(name.qualifier(), name.text.as_str())
    }

    /// The outermost piece of a type, or of a kind. Its parts have smaller numbers. Takes no memory.
    pub fn piece(&self, id: TypeId) -> &Piece
        requires { id.0 < length (nodes_of self.now) }
        ensures shown { tree_at (nodes_of self.now) id.0 ≡ piece_over (tree_at (nodes_of self.now)) result.now }
        ensures parts { parts_end result.now ≤ id.0 }
        ensures kinds { HasKinds (piece_over (tree_at (nodes_of self.now)) result.now) }
    {
        &self.nodes[id.0 as usize].piece
    }

    /// What is kept of a type.
    pub(crate) fn measure(&self, id: TypeId) -> Measure
        requires { id.0 < length self.now.nodes.keys }
        ensures { Measures (tree_at self.now.nodes.keys id.0) result }
    {
        self.nodes[id.0 as usize].measure
    }

    /// What is told of the kind of a type.
    pub(crate) fn judged(&self, id: TypeId) -> Judged
        requires { id.0 < length self.now.nodes.keys }
        ensures { Judges (modules_of self.now.declared.now) self.now.nodes.keys (tree_at self.now.nodes.keys id.0) result }
    {
        self.nodes[id.0 as usize].judged
    }

    /// What is to be kept of the type of a piece.
    fn measure_over(&self, piece: &Piece) -> Result<Measure, Memory>
        requires { parts_end piece.now ≤ length self.now.nodes.keys }
        ensures { IfOk result (λ m. Measures (piece_over (tree_at self.now.nodes.keys) piece.now) m) }
    {
        match *piece {
            Piece::Star => Ok(Measure::leaf()),
            Piece::Hash => Ok(Measure::leaf()),
            Piece::Arrow(from, to) => self.measure(from).beside(self.measure(to)).around(),
            Piece::Bound(index, _) => Measure::bound(index),
            Piece::Free(level, _) => Measure::free(level),
            Piece::Con(_) => Ok(Measure::leaf()),
            Piece::IntHash => Ok(Measure::leaf()),
            Piece::App(head, argument) => {
                self.measure(head).beside(self.measure(argument)).around()
            }
            Piece::Fun(from, to) => self.measure(from).beside(self.measure(to)).around(),
            Piece::Forall(kind, body) => self.measure(body).behind(self.measure(kind)).around(),
            Piece::CoForall(_, left, right, body) => {
                let ends = self.measure(left).beside(self.measure(right));
                ends.beside(self.measure(body)).around()
            }
        }
    }

    /// The number of the type of a piece, of whose kind this is told. The types before keep their numbers.
    pub(crate) fn put(&mut self, piece: Piece, judged: Judged) -> Result<TypeId, Memory>
        requires parts { parts_end piece ≤ length self.old.nodes.keys }
        requires kinds { HasKinds (piece_over (tree_at self.old.nodes.keys) piece) }
        requires judged { Judges (modules_of self.old.declared.now) self.old.nodes.keys (piece_over (tree_at self.old.nodes.keys) piece) judged }
        ensures within { IfOk result (λ id. id.0 < length self.new.nodes.keys) }
        ensures shown { IfOk result (λ id. tree_at self.new.nodes.keys id.0 ≡ piece_over (tree_at self.old.nodes.keys) piece) }
        ensures extends { OnOk result (Extends self.old.nodes.keys self.new.nodes.keys) }
        ensures modules { OnOk result (modules_of self.new.declared.now ≡ modules_of self.old.declared.now) }
    {
        let measure = self.measure_over(&piece)?;
        let (index, _) = self.nodes.insert_full(Node {
            piece,
            measure,
            judged,
        })?;
        if index > u32::MAX as usize {
            return Err(Memory);
        }
        Ok(TypeId(index as u32))
    }

    /// The type that was noted for a name.
    pub(crate) fn noted_name(&self, name: &NameKey) -> Option<TypeId>
        ensures within { IfSome result (λ id. id.0 < length self.now.nodes.keys) }
        ensures shown { IfSome result (λ id. tree_at self.now.nodes.keys id.0 ≡ LCon (name_of name.now)) }
    {
        match self.names.get(name) {
            Some(answer) => Some(*answer),
            None => None,
        }
    }

    /// Notes the type of a name.
    pub(crate) fn keep_name(&mut self, name: NameKey, answer: TypeId) -> Result<(), Memory>
        requires within { answer.0 < length self.old.nodes.keys }
        requires shown { tree_at self.old.nodes.keys answer.0 ≡ LCon (name_of name) }
        ensures nodes { self.new.nodes.keys ≡ self.old.nodes.keys }
        ensures modules { modules_of self.new.declared.now ≡ modules_of self.old.declared.now }
    {
        note_name(&mut self.names, name, answer)
    }

    /// The type that was noted for an instance.
    pub(crate) fn noted_instance(&self, instance: Instance) -> Option<TypeId>
        ensures within { IfSome result (λ id. id.0 < length self.now.nodes.keys) }
        ensures shown { IfSome result (λ id. tree_at self.now.nodes.keys id.0 ≡ opened 0 (tree_at self.now.nodes.keys instance.by.0) (tree_at self.now.nodes.keys instance.body.0)) }
    {
        match self.instances.get(&instance) {
            Some(answer) => Some(*answer),
            None => None,
        }
    }

    /// Notes the type of an instance.
    pub(crate) fn keep_instance(&mut self, instance: Instance, answer: TypeId) -> Result<(), Memory>
        requires body_in { instance.body.0 < length self.old.nodes.keys }
        requires by_in { instance.by.0 < length self.old.nodes.keys }
        requires within { answer.0 < length self.old.nodes.keys }
        requires shown { tree_at self.old.nodes.keys answer.0 ≡ opened 0 (tree_at self.old.nodes.keys instance.by.0) (tree_at self.old.nodes.keys instance.body.0) }
        ensures nodes { self.new.nodes.keys ≡ self.old.nodes.keys }
        ensures modules { modules_of self.new.declared.now ≡ modules_of self.old.declared.now }
    {
        note_instance(&mut self.instances, instance, answer)
    }
}
