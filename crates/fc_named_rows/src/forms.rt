//! The nameless forms of a module and of those that it imports.
ghost use Rattle.std.specs.Prelude.{◌≡◌, ◌++◌, ◌∷◌, [], OnOk, map};
ghost use Rattle.fc_syntax.specs.View.{module_of};
ghost use Rattle.fc_lattice.specs.View.{as_interface};
ghost use Rattle.fc_model.specs.NamelessView.{nmodule_of, nmodules_of};
ghost use Rattle.fc_named_rows.specs.Among.{form_or_fault, modules_among as spec_modules_among, told_interface};
ghost use Rattle.fc_named_rows.specs.Taking.{IsFlawIn, TellsForms};

use crate::error::NotApplied;
use fc_lattice::Interface;
use fc_model::{Flaw, Flawed};
use fc_resolve::resolve;
use fc_syntax::{Memory, Module, NModule, Text};
use fc_told::told;
use std::alloc::Global;

/// The first fault of names of the module of this name, or that no memory is left to tell it.
fn flawed_in(alloc: Global, name: &Text, flaw: Flaw) -> NotApplied
    ensures { IsFlawIn name.now flaw result }
{
    match name.copy(alloc) {
        Ok(name) => NotApplied::Flaw(name, flaw),
        Err(_) => NotApplied::Memory,
    }
}

/// The nameless form of a module.
fn form_of(alloc: Global, m: &Module) -> Result<NModule, NotApplied>
    ensures { TellsForms nmodule_of result (form_or_fault (module_of m.now)) }
{
    match resolve(alloc, m) {
        Ok(form) => Ok(form),
        Err(Flawed::Memory) => Err(NotApplied::Memory),
        Err(Flawed::Flaw(flaw)) => Err(flawed_in(alloc, &m.name, flaw)),
    }
}

/// The nameless form of the module of an interface, as that tells it.
fn told_form(alloc: Global, interface: &Interface) -> Result<NModule, NotApplied>
    ensures { TellsForms nmodule_of result (told_interface (as_interface interface.now)) }
{
    let form = form_of(alloc, &interface.module)?;
    Ok(told(alloc, form, interface.unfold.as_slice())?)
}

/// Puts one more form behind those that are there.
fn add(modules: &mut Vec<NModule>, form: NModule) -> Result<(), Memory>
    ensures { OnOk result (modules.new.items ≡ modules.old.items ++ form ∷ []) }
{
    modules.push(form)?;
    Ok(())
}

/// The nameless form of a module, and then those of the modules of interfaces, as these tell them. The first module that has none is answered with its first fault of names.
pub(crate) fn modules_among(
    alloc: Global,
    m: &Module,
    interfaces: &[Interface],
) -> Result<Vec<NModule>, NotApplied>
    ensures { TellsForms (λ v. nmodules_of v.items) result (spec_modules_among (map as_interface interfaces.now) (module_of m.now)) }
{
    let mut modules = Vec::new(alloc);
    add(&mut modules, form_of(alloc, m)?)?;
    for interface in interfaces {
        add(&mut modules, told_form(alloc, interface)?)?;
    }
    Ok(modules)
}
