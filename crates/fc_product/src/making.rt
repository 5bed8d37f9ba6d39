//! Modules through the phases, under their headers, named back, with their interfaces.
ghost use Rattle.std.specs.Prelude.{◌≡◌, ◌≤◌, IfOk};
ghost use Rattle.fc_syntax.specs.View.{decls_of, module_of};
ghost use Rattle.fc_lattice.specs.View.{as_interface, sigs_of};
ghost use Rattle.fc_model.specs.Formed.{IsFormed};
ghost use Rattle.fc_model.specs.NamelessView.{nmodule_of, nmodules_of};
ghost use Rattle.fc_model.specs.ResolutionRules.{Resolves};
ghost use Rattle.fc_optimise.specs.Optimised.{IsOptimised};
ghost use Rattle.fc_rows.specs.ResultLimits.{IsWithinLimits};
ghost use Rattle.fc_rows.specs.Telling.{reached_by_imports};
ghost use Rattle.fc_replayed_sets.specs.Faithful.{CanBeWritten};
ghost use Rattle.fc_product.specs.Interfaces as spec;
ghost use Rattle.fc_product.specs.Products.{CanBeBuilt, IsProduct};

use fc_headers::form_written;
use fc_iface::interface;
use fc_lattice::{Interface, Sig};
use fc_log::{Entry, Log};
use fc_naming::{NotNamed, name_back};
use fc_optimise::optimise;
use fc_reaching::recursive;
use fc_syntax::{Decl, Memory, Module, NModule, Seq, Text};
use fc_told::{reached, told};
use std::alloc::Global;

/// What a build makes of a module of a set.
#[derive(Drop)]
pub struct Product {
    /// The module that is written.
    pub module: Module,
    /// Its interface.
    pub interface: Interface,
    /// What was done.
    pub log: Log,
    /// The nameless form of what later modules are told of it.
    pub told: NModule,
}

/// A module after all phases, and what was done to it, among those that its imports reach of modules built before. Of those the last built comes first.
fn optimised(
    alloc: Global,
    form: NModule,
    before: &[NModule],
) -> Result<(NModule, Seq<Entry>), Memory>
    requires { IsWithinLimits (nmodule_of form) }
    ensures { IfOk result (λ r. IsOptimised (reached_by_imports (nmodule_of form) (nmodules_of before.now)) r.1 (nmodule_of form) (nmodule_of r.0)) }
{
    let mut modules = reached(alloc, &form, before)?;
    modules.insert(0, form)?;
    let entries = optimise(alloc, modules.as_mut_slice())?;
    let left = modules.swap_remove(0);
    Ok((left, entries))
}

/// The named module in which a nameless one is written.
fn named(alloc: Global, form: &NModule) -> Result<Module, Memory>
    requires { CanBeWritten (nmodule_of form.now) }
    ensures resolves { IfOk result (λ m. Resolves (module_of m) (nmodule_of form.now)) }
    ensures formed { IfOk result (λ m. IsFormed (module_of m)) }
{
    match name_back(alloc, form) {
        Ok(m) => Ok(m),
        Err(NotNamed::Memory) => Err(Memory),
        Err(NotNamed::Unscoped) => unreachable!(),
    }
}

/// A signature for each definition, which says nothing: no demands are found yet.
fn unknown_sigs(alloc: Global, decls: &[Decl]) -> Result<Vec<Sig>, Memory>
    ensures { IfOk result (λ sigs. sigs_of sigs.items ≡ spec.unknown_sigs (decls_of decls.now)) }
{
    let mut all = Vec::new(alloc);
    for decl in decls {
        if matches!(decl, Decl::Def(_, _, _) | Decl::Wrap(_, _, _)) {
            all.push(Sig {
                args: Seq::new(alloc),
                diverges: false,
            })?;
        }
    }
    Ok(all)
}

/// The interface of a module that has a nameless form.
fn interface_for(alloc: Global, grow: u64, form: &NModule, m: &Module) -> Result<Interface, Memory>
    requires { grow ≤ 10000 }
    ensures { IfOk result (λ i. spec.IsInterfaceFor grow (nmodule_of form.now) (module_of m.now) (as_interface i)) }
{
    let recursive = recursive(alloc, form)?;
    let sigs = unknown_sigs(alloc, m.decls.as_slice())?;
    interface(alloc, m, recursive.as_slice(), sigs.as_slice(), grow)
}

/// What a build makes of a module, given by its nameless form, among modules as those built before are told, where later modules are told right sides of at most `grow` nodes, at most
/// 10,000. It is written under the header that is written among modules of the names of `order`. Of those built before the last comes first. Fails only where memory runs out, a type names a
/// variable out of scope, or a number has no 32 bits; the module is gone then.
pub fn make(
    alloc: Global,
    grow: u64,
    order: &[Text],
    before: &[NModule],
    form: NModule,
) -> Result<Product, Memory>
    requires grow { grow ≤ 10000 }
    requires built { CanBeBuilt order.now (nmodules_of before.now) (nmodule_of form) }
    ensures { IfOk result (λ p. IsProduct grow order.now (nmodules_of before.now) (nmodule_of form) p) }
{
    let name = form.name.copy(alloc)?;
    let (left, entries) = optimised(alloc, form, before)?;
    let log = Log {
        module: name,
        entries,
    };
    let written = form_written(alloc, order, left)?;
    let module = named(alloc, &written)?;
    let interface = interface_for(alloc, grow, &written, &module)?;
    let told = told(alloc, written, interface.unfold.as_slice())?;
    Ok(Product {
        module,
        interface,
        log,
        told,
    })
}
