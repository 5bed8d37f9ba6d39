//! How large types may be that are named, or made trees again.
ghost use Rattle.std.specs.Prelude.{◌≡◌, IfOk, OnOk};
ghost use Rattle.fc_type_table.specs.TypeTables.{Grows, IsNumber};

use fc_scope::Scope;
use fc_syntax::{Kind, Memory, NModule, NTy, Name, Role, Seq, Text};
use fc_type_names::named_type;
use fc_type_scope::TypeScope;
use fc_type_table::{NumberedKinds, TypeId, TypeTable};
use fc_type_trees::tree_of_type;
use fc_types::{Declarations, same_type};
use std::alloc::Global;
use std::process::Abort;
use std::slice;
use std::test::Fail;

/// The module `M`, which declares nothing.
fn empty_module(alloc: Global) -> Result<NModule, Memory> {
    let name = Text::from_str(alloc, "M")?;
    Ok(NModule {
        name,
        imports: Seq::new(alloc),
        exports: Seq::new(alloc),
        hidden: Seq::new(alloc),
        decls: Seq::new(alloc),
    })
}

/// Whether the type of a number may be written with so many pieces.
#[tactic(auto, using(fc_type_names::proofs::Seen::seen_rules))]
fn has_room(alloc: Global, id: TypeId, table: &TypeTable, own: &Text, most: u32) -> bool
    requires { IsNumber table.now id }
{
    named_type(alloc, id, table, own, &Scope::End, 0, most).is_ok()
}

/// Functions from a type, so many of them inside one another.
#[tactic(auto, using(fc_type_table::proofs::Numbers::number_rules))]
fn nested(table: &mut TypeTable, from: TypeId, times: u32) -> Result<TypeId, Memory>
    requires { IsNumber table.old from }
    ensures number { IfOk result (λ id. IsNumber table.new id) }
    ensures grows { OnOk result (Grows table.old table.new) }
{
    if times == 0 {
        return Ok(from);
    }
    let to = nested(table, from, times - 1)?;
    table.function(from, to)
}

/// Three pieces have room among three and not among two; 2,000 levels are written, and one more is not.
fn rooms(rt: &impl Abort, alloc: Global, declared: &Declarations, own: &Text) -> Result<(), Fail> {
    let mut table = TypeTable::new(alloc, &*declared);
    let int = table.int_hash()?;
    let small = table.function(int, int)?;
    assert!(rt; has_room(alloc, small, &table, own, 3));
    assert!(rt; !has_room(alloc, small, &table, own, 2));
    let deep = nested(&mut table, int, 1_999)?;
    let deeper = table.function(int, deep)?;
    assert!(rt; has_room(alloc, deep, &table, own, 30_000));
    assert!(rt; !has_room(alloc, deeper, &table, own, 30_000));
    Ok(())
}

#[test]
fn types_are_as_large_as_they_may_be(rt: HostRuntime) -> Result<(), Fail> {
    let alloc = rt.alloc();
    let module = empty_module(alloc)?;
    let declared = Declarations::new(alloc, slice::from_ref(&module))?;
    let own = Text::from_str(alloc, "M")?;
    rooms(&rt, alloc, &declared, &own)
}

/// The type `M.T`.
fn constructor(alloc: Global) -> Result<NTy, Memory> {
    let module = Text::from_str(alloc, "M")?;
    let text = Text::from_str(alloc, "T")?;
    Ok(NTy::Con(Name {
        module: Some(module),
        text,
    }))
}

/// The type `forall (a : * -> *). forall (_ : a M.T ~R M.T). Int# -> a M.T`, of fourteen pieces: one of each form.
fn every_form(alloc: Global) -> Result<NTy, Memory> {
    let left = NTy::applied(alloc, NTy::Var(0), constructor(alloc)?)?;
    let right = constructor(alloc)?;
    let answer = NTy::applied(alloc, NTy::Var(0), constructor(alloc)?)?;
    let function = NTy::function(alloc, NTy::IntHash, answer)?;
    let behind = NTy::for_all_coercions(alloc, Role::R, left, right, function)?;
    let kind = Kind::arrow(alloc, Kind::Star, Kind::Star)?;
    let word = Text::from_str(alloc, "a")?;
    NTy::for_all(alloc, word, kind, behind)
}

/// Whether a type that is put into a table comes back as it was, with room for so many pieces.
#[tactic(auto, using(fc_type_table::proofs::KindsInScope::numbered_rules))]
fn comes_back(alloc: Global, t: &NTy, declared: &Declarations, most: u32) -> Result<bool, Memory> {
    let mut table = TypeTable::new(alloc, &*declared);
    let scope = TypeScope {
        kinds: &NumberedKinds::End,
    };
    let id = scope.read(t, &mut table)?;
    match tree_of_type(alloc, id, &table, 0, most) {
        Ok(back) => Ok(same_type(&back, t)),
        Err(_) => Ok(false),
    }
}

#[test]
fn types_come_back_as_they_were(rt: HostRuntime) -> Result<(), Fail> {
    let alloc = rt.alloc();
    let module = empty_module(alloc)?;
    let declared = Declarations::new(alloc, slice::from_ref(&module))?;
    let t = every_form(alloc)?;
    assert!(rt; comes_back(alloc, &t, &declared, 14)?);
    assert!(rt; !comes_back(alloc, &t, &declared, 13)?);
    Ok(())
}
