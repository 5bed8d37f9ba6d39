//! Lint of a set of modules.
ghost use Rattle.std.specs.Prelude.{◌≡◌, [], true, false, IfOk, IfSome, OnOk, None, Some, drop, length, map, slice_get};
ghost use Rattle.std.specs.List.{filter_map};
ghost use Rattle.fc_syntax.specs.Hints.{module_hints};
ghost use Rattle.fc_syntax.specs.View.{module_of};
ghost use Rattle.fc_model.specs.Faulting.{and_then};
ghost use Rattle.fc_model.specs.Kinding.{decls_at};
ghost use Rattle.fc_model.specs.Linting.{declarations_judged, done, exports_judged, modules_judged, nameless_forms, offers_of, set_judged};
ghost use Rattle.fc_model.specs.NamelessView.{ndecls_of, nmodule_of, nmodules_of};
ghost use Rattle.fc_model.specs.Says.{Says};
ghost use Rattle.fc_types.specs.ModuleViews.{modules_of};
ghost use Rattle.fc_type_table.specs.TypeTables.{modules_in, nodes_of};
ghost use Rattle.fc_lint_context.specs.DeclaredViews.{AreRead, modules_read};
ghost use Rattle.fc_lint_set.specs.Sets.{AreForms, AreNames, ResolveBehind, SaysBefore, SetSays, StandsInModule, hints_kept, names_among, names_judged};
ghost use Rattle.fc_plan.specs.Modules.{behind};

use crate::right_sides::lint_rights;
use fc_lint_context::DeclaredTypes;
use fc_lint_declarations::{lint_definition_types, lint_exports, lint_types};
use fc_model::{Flaw, Flawed, Offers};
use fc_plan::in_order;
use fc_resolve::{resolve, resolve_among};
use fc_syntax::{Memory, Module, NModule, Text};
use fc_type_table::TypeTable;
use fc_types::Declarations;
use std::alloc::Global;

/// Why a set of modules has no answer.
#[derive(Drop)]
pub enum SetFlawed {
    /// A premise fails in the module of this name.
    Flaw(Text, Flaw),
    /// Out of memory.
    Memory,
}

impl From<Memory> for SetFlawed {
    ghost use Rattle.fc_lint_set.specs.declared.sets.SetFlawed.{SetFlawed};

    ghost from_gives = { λ e r. r ≡ SetFlawed.Memory };

    fn from(_error: Memory) -> SetFlawed {
        SetFlawed::Memory
    }
}

/// The nameless forms of the modules of a set, before the first that has a fault of names; and that fault, where there is one.
#[derive(Drop)]
struct Forms {
    modules: Vec<NModule>,
    flaw: Option<Flaw>,
    /// Whether each name of an imported module is known to be one that its module has for others.
    named: bool,
}

/// What is known of the names of imported modules.
#[derive(Drop)]
enum Naming {
    /// Each is one that its module has for others.
    Known,
    /// Those that modules have for others.
    Among(Offers),
}

/// A premise that fails in a module of a set, or that no memory is left to tell it.
fn in_module(alloc: Global, m: &Module, flawed: Flawed) -> SetFlawed
    ensures { StandsInModule m.now.name flawed result }
{
    match flawed {
        Flawed::Memory => SetFlawed::Memory,
        Flawed::Flaw(flaw) => match m.name.copy(alloc) {
            Ok(name) => SetFlawed::Flaw(name, flaw),
            Err(_) => SetFlawed::Memory,
        },
    }
}

/// The nameless forms of modules each of which names those before it alone, and of these what they have for others; `None` where a name of
/// some module is a fault, or of a module that is not before it. The forms keep the words of binders.
fn named_forms(alloc: Global, modules: &[&Module]) -> Result<Option<Vec<NModule>>, Memory>
    ensures forms { IfOk result (λ found. IfSome found (λ forms. ResolveBehind [] (behind modules.now) (nmodules_of forms.items))) }
    ensures words { IfOk result (λ found. IfSome found (λ forms. map hints_kept forms.items ≡ map module_hints (behind modules.now))) }
{
    let mut offers = Offers::none(alloc);
    let mut forms = Vec::new(alloc);
    for m in modules {
        let (form, others) = match resolve_among(alloc, *m, offers) {
            Ok(found) => found,
            Err(Flawed::Memory) => return Err(Memory),
            Err(Flawed::Flaw(_)) => return Ok(None),
        };
        offers = others;
        offers.add(alloc, &form)?;
        forms.push(form)?;
    }
    Ok(Some(forms))
}

/// The nameless forms of modules, before the first that has a fault of names, and that fault.
fn unnamed_forms(alloc: Global, modules: &[&Module]) -> Result<Forms, Memory>
    ensures { IfOk result (AreForms (behind modules.now)) }
{
    let mut forms = Vec::new(alloc);
    for m in modules {
        match resolve(alloc, *m) {
            Ok(form) => forms.push(form)?,
            Err(Flawed::Memory) => return Err(Memory),
            Err(Flawed::Flaw(flaw)) => {
                return Ok(Forms {
                    modules: forms,
                    flaw: Some(flaw),
                    named: false,
                });
            }
        }
    }
    Ok(Forms {
        modules: forms,
        flaw: None,
        named: false,
    })
}

/// The same in one walk over each module, where no name is a fault.
fn forms_of_modules(alloc: Global, modules: &[&Module]) -> Result<Forms, Memory>
    ensures { IfOk result (AreForms (behind modules.now)) }
{
    match named_forms(alloc, modules)? {
        Some(forms) => Ok(Forms {
            modules: forms,
            flaw: None,
            named: true,
        }),
        None => unnamed_forms(alloc, modules),
    }
}

/// What is known of names of imported modules, where the modules have these nameless forms.
fn naming_of(alloc: Global, forms: &[NModule], named: bool) -> Result<Naming, Memory>
    ensures known { IfOk result (λ n. named ≡ true → n ≡ Naming.Known) }
    ensures among { IfOk result (λ n. named ≡ false → names_judged n ≡ names_among (offers_of (nmodules_of forms.now))) }
{
    if named {
        Ok(Naming::Known)
    } else {
        let offers = Offers::of_modules(alloc, forms)?;
        Ok(Naming::Among(offers))
    }
}

/// That each name of an imported module is one that its module has for others. What is known of them is handed back.
fn lint_names(alloc: Global, m: &Module, naming: Naming) -> Result<Naming, Flawed>
    ensures says { Says (λ _. done) result (names_judged naming (module_of m.now)) }
    ensures naming { IfOk result (λ n. names_judged n ≡ names_judged naming) }
{
    match naming {
        Naming::Known => Ok(Naming::Known),
        Naming::Among(offers) => {
            let (_, offers) = resolve_among(alloc, m, offers)?;
            Ok(Naming::Among(offers))
        }
    }
}

/// The declarations of a module of a set: the type declarations, then the types of the definitions, and then their right sides.
fn lint_declarations(
    alloc: Global,
    form: &NModule,
    types: &mut TypeTable,
    declared: &DeclaredTypes,
) -> Result<(), Flawed>
    requires read { AreRead (nodes_of types.old) declared.now }
    requires modules { modules_in types.old ≡ modules_read declared.now }
    ensures says { Says (λ _. done) result (declarations_judged (modules_read declared.now) (ndecls_of form.now.decls)) }
    ensures read { OnOk result (AreRead (nodes_of types.new) declared.now) }
    ensures modules { OnOk result (modules_in types.new ≡ modules_read declared.now) }
{
    let decls = form.decls.as_slice();
    lint_types(alloc, decls, declared.declared, types)?;
    lint_definition_types(alloc, decls, declared.declared, types)?;
    lint_rights(alloc, decls, types, declared)
}

/// A module of a set behind its own names: exported and hidden words, then names of imports, then declarations. What is known of names of
/// imports is handed back.
fn lint_form(
    alloc: Global,
    m: &Module,
    form: &NModule,
    naming: Naming,
    types: &mut TypeTable,
    declared: &DeclaredTypes,
) -> Result<Naming, Flawed>
    requires read { AreRead (nodes_of types.old) declared.now }
    requires modules { modules_in types.old ≡ modules_read declared.now }
    ensures says { Says (λ _. done) result (and_then (exports_judged (nmodule_of form.now)) (λ _. and_then (names_judged naming (module_of m.now)) (λ _. declarations_judged (modules_read declared.now) (ndecls_of form.now.decls)))) }
    ensures naming { IfOk result (λ n. names_judged n ≡ names_judged naming) }
    ensures read { OnOk result (AreRead (nodes_of types.new) declared.now) }
    ensures modules { OnOk result (modules_in types.new ≡ modules_read declared.now) }
{
    lint_exports(alloc, form)?;
    let naming = lint_names(alloc, m, naming)?;
    lint_declarations(alloc, form, types, declared)?;
    Ok(naming)
}

/// The modules of a set that have nameless forms, one after the other, up to the first in which a premise fails.
fn lint_forms(
    alloc: Global,
    modules: &[&Module],
    forms: &[NModule],
    mut naming: Naming,
    types: &mut TypeTable,
    declared: &DeclaredTypes,
) -> Result<(), SetFlawed>
    requires read { AreRead (nodes_of types.old) declared.now }
    requires modules { modules_in types.old ≡ modules_read declared.now }
    requires against { modules_read declared.now ≡ decls_at (nmodules_of forms.now) }
    requires forms { nmodules_of forms.now ≡ nameless_forms (behind modules.now) }
    requires names { AreNames (nmodules_of forms.now) (behind modules.now) naming }
    ensures { SaysBefore (nmodules_of forms.now) (behind modules.now) (length forms.now) result }
{
    for number in 0..forms.len() {
        let m = modules[number];
        naming = match lint_form(alloc, m, &forms[number], naming, types, declared) {
            Ok(naming) => naming,
            Err(flawed) => return Err(in_module(alloc, m, flawed)),
        };
    }
    Ok(())
}

/// The same against these declarations, whose types are put into a table once for the whole set.
fn lint_against(
    alloc: Global,
    modules: &[&Module],
    forms: &[NModule],
    naming: Naming,
    declared: &Declarations,
) -> Result<(), SetFlawed>
    requires against { modules_of declared.now ≡ decls_at (nmodules_of forms.now) }
    requires forms { nmodules_of forms.now ≡ nameless_forms (behind modules.now) }
    requires names { AreNames (nmodules_of forms.now) (behind modules.now) naming }
    ensures { SaysBefore (nmodules_of forms.now) (behind modules.now) (length forms.now) result }
{
    let mut types = TypeTable::new(alloc, declared);
    let read = DeclaredTypes::new(alloc, declared, &mut types)?;
    lint_forms(alloc, modules, forms, naming, &mut types, &read)
}

/// The same against what the forms declare.
fn lint_over(alloc: Global, modules: &[&Module], forms: &Forms) -> Result<(), SetFlawed>
    requires { AreForms (behind modules.now) forms.now }
    ensures { SaysBefore (nmodules_of forms.now.modules.items) (behind modules.now) (length forms.now.modules.items) result }
{
    let found = forms.modules.as_slice();
    let naming = naming_of(alloc, found, forms.named)?;
    let declared = Declarations::new(alloc, found)?;
    lint_against(alloc, modules, found, naming, &declared)
}

/// The fault of names of the module behind those that have forms, where there is one; else the forms.
fn ended(alloc: Global, modules: &[&Module], forms: Forms) -> Result<Vec<NModule>, SetFlawed>
    requires { AreForms (behind modules.now) forms }
    ensures says { SetSays result (modules_judged (nmodules_of forms.modules.items) (drop (length forms.modules.items) (behind modules.now))) }
    ensures forms { IfOk result (λ found. found.items ≡ forms.modules.items) }
    ensures whole { IfOk result (λ _. forms.flaw ≡ None) }
{
    let Forms {
        modules: found,
        flaw,
        named: _,
    } = forms;
    match flaw {
        None => Ok(found),
        Some(flaw) => {
            let m = modules[found.len()];
            Err(in_module(alloc, m, Flawed::Flaw(flaw)))
        }
    }
}

/// The nameless forms of modules of a set in the order in which they are built, or the first premise that fails.
fn lint_picked(alloc: Global, modules: &[&Module]) -> Result<Vec<NModule>, SetFlawed>
    ensures says { SetSays result (set_judged (behind modules.now)) }
    ensures forms { IfOk result (λ forms. nmodules_of forms.items ≡ nameless_forms (behind modules.now)) }
    ensures words { IfOk result (λ forms. map hints_kept forms.items ≡ map module_hints (behind modules.now)) }
{
    let forms = forms_of_modules(alloc, modules)?;
    lint_over(alloc, modules, &forms)?;
    ended(alloc, modules, forms)
}

/// The nameless forms of the modules of these numbers of a set, which is the order in which they are built, if every premise holds of
/// each against all: of its own names, of its exported and hidden words, of the names of imports, which have to be words that their
/// modules export or hide, of its type declarations, of the types of its definitions and of their right sides, in this order and module
/// after module. Else the first premise that fails, with the name of its module, its declaration and the part numbers there; an export
/// without a declaration stands in none. A form that no rule is for is `BadForm`. The forms keep the words of the binders of their modules.
pub fn lint_set(
    alloc: Global,
    modules: &[Module],
    order: &[usize],
) -> Result<Vec<NModule>, SetFlawed>
    ensures says { SetSays result (set_judged (filter_map (slice_get (map module_of modules.now)) order.now)) }
    ensures forms { IfOk result (λ forms. nmodules_of forms.items ≡ nameless_forms (filter_map (slice_get (map module_of modules.now)) order.now)) }
    ensures words { IfOk result (λ forms. map hints_kept forms.items ≡ map module_hints (filter_map (slice_get (map module_of modules.now)) order.now)) }
{
    let found = in_order(alloc, modules, order)?;
    lint_picked(alloc, found.as_slice())
}
