//! What is in scope where types, coercions and expressions are judged.
ghost use Rattle.std.specs.Prelude.{◌≡◌, ◌<◌, ◌++◌, [], ◌∷◌, List, Some, length, map, slice_get, IfOk, OnErr, OnOk};
ghost use Rattle.fc_syntax.specs.Tree as trees;
ghost use Rattle.fc_syntax.specs.View.{binder_of};
ghost use Rattle.fc_model.specs.DeclaredWords.{top_by};
ghost use Rattle.fc_model.specs.Kinding.{decls_at};
ghost use Rattle.fc_model.specs.Nameless as nameless;
ghost use Rattle.fc_model.specs.NamelessView.{nbinders_of, nmodule_of, nmodules_of};
ghost use Rattle.fc_model.specs.Resolution.{no_locals, no_word, plus_all};
ghost use Rattle.fc_model.specs.Says.{Says};
ghost use Rattle.fc_model.specs.WordSets.{set_of};
ghost use Rattle.fc_scope.specs.ScopeWords.{with_binders};
ghost use Rattle.fc_typing.specs.Behind.{forms_of_binders, locals_behind};
ghost use Rattle.fc_typing.specs.Environments.{module_word, top_among_all, words_but};

use fc_model::{Declared, Flawed, WordSet};
use fc_resolve_parts::{Entered, resolved_binders};
use fc_scope::Scope;
use fc_syntax::{Binder, Memory, NModule, Text};
use fc_types::Declarations;
use std::alloc::Global;

/// What is in scope where types, coercions and expressions are judged: what the modules of a set declare, what words mean in one of them,
/// and binders. Every other module of the set may be named.
#[derive(Drop)]
pub struct TypeEnv<'a> {
    /// What the modules declare.
    pub(crate) declared: Declarations<'a>,
    /// What words mean in the own module.
    pub(crate) own: Declared,
    /// The binders in scope, the outermost first.
    pub(crate) binders: Vec<Binder>,
}

/// Puts a name in that is not this one.
fn add_other(alloc: Global, own: &Text, name: &Text, names: &mut WordSet) -> Result<(), Memory>
    ensures { OnOk result ((ws : List trees.Word) → plus_all (words_but own.now ws) (set_of names.new) ≡ plus_all (words_but own.now (name.now ∷ ws)) (set_of names.old)) }
{
    if name.as_str() == own.as_str() {
        Ok(())
    } else {
        names.add(alloc, name)
    }
}

/// The names of modules but this one.
fn other_names(alloc: Global, own: &Text, modules: &[NModule]) -> Result<WordSet, Memory>
    ensures { IfOk result (λ s. set_of s ≡ plus_all (words_but own.now (map module_word (nmodules_of modules.now))) no_word) }
{
    let mut names = WordSet::new(alloc);
    for m in modules {
        add_other(alloc, own, &m.name, &mut names)?;
    }
    Ok(names)
}

/// What words mean in a module of a set where every other module of the set is imported.
fn known_among(alloc: Global, modules: &[NModule], m: &NModule) -> Result<Declared, Memory>
    ensures { IfOk result (λ d. top_by d ≡ top_among_all (nmodules_of modules.now) (nmodule_of m.now)) }
{
    let imports = other_names(alloc, &m.name, modules)?;
    let mut own = Declared::of_module(alloc, m)?;
    own.imports = imports;
    Ok(own)
}

impl<'a> TypeEnv<'a> {
    ghost use Rattle.fc_typing.specs.Environments.{binders_known, modules_known, top_known};

    /// Where nothing is in scope but what modules declare, in their nameless forms, as `lint_set` answers them. The module of this number
    /// is the own one, whose declarations are named without a dot. Fails only where memory runs out.
    pub fn new(alloc: Global, modules: &'a [NModule], at: usize) -> Result<TypeEnv<'a>, Memory>
        requires { at < length modules.now }
        ensures modules { IfOk result (λ e. modules_known e ≡ decls_at (nmodules_of modules.now)) }
        ensures top { IfOk result (λ e. (m : nameless.NModule) → slice_get (nmodules_of modules.now) at ≡ Some m → top_known e ≡ top_among_all (nmodules_of modules.now) m) }
        ensures binders { IfOk result (λ e. binders_known e ≡ []) }
    {
        let declared = Declarations::new(alloc, modules)?;
        let own = known_among(alloc, modules, &modules[at])?;
        Ok(TypeEnv {
            declared,
            own,
            binders: Vec::new(alloc),
        })
    }

    /// Enters a binder, the innermost one: of a type, of a coercion or of a value. Its names are looked at by the calls that need it.
    /// Fails only where memory runs out, and then nothing was entered.
    pub fn enter(&mut self, alloc: Global, binder: &Binder) -> Result<(), Memory>
        ensures entered { OnOk result (binders_known self.new ≡ binders_known self.old ++ binder_of binder.now ∷ []) }
        ensures unchanged { OnErr result (binders_known self.new ≡ binders_known self.old) }
        ensures modules { modules_known self.new ≡ modules_known self.old }
        ensures top { top_known self.new ≡ top_known self.old }
    {
        let binder = binder.copy(alloc)?;
        self.binders.push(binder)?;
        Ok(())
    }

    /// Leaves the binder that was entered last of those that were not left. Where there is none, nothing changes. Takes no memory.
    pub fn leave(&mut self)
        ensures left { (bs : List trees.Binder) (b : trees.Binder) → binders_known self.old ≡ bs ++ b ∷ [] → binders_known self.new ≡ bs }
        ensures none { binders_known self.old ≡ [] → binders_known self.new ≡ [] }
        ensures modules { modules_known self.new ≡ modules_known self.old }
        ensures top { top_known self.new ≡ top_known self.old }
    {
        let _binder = self.binders.pop();
    }

    /// The binders in scope in their nameless form, with their words, or the first fault of names in them.
    pub(crate) fn entered(&self, alloc: Global) -> Result<Entered, Flawed>
        ensures form { Says (λ e. nbinders_of e.binders) result (forms_of_binders (top_known self.now) (binders_known self.now)) }
        ensures scope { IfOk result (λ e. with_binders e.names no_locals ≡ locals_behind (binders_known self.now)) }
    {
        let around = Scope::End;
        resolved_binders(alloc, &self.own, &around, self.binders.as_slice())
    }
}
