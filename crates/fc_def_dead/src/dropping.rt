//! All definitions that nothing needs go from a module.
ghost use Rattle.std.specs.Prelude.{◌≡◌, IfOk, IfSome, IsFalse, IsTrue, None, Ok, true};
ghost use Rattle.std.specs.List.{list_any};
ghost use Rattle.fc_model.specs.Nameless.{NModule as Form};
ghost use Rattle.fc_model.specs.NamelessView.{nmodule_of};
ghost use Rattle.fc_rows.specs.Dropping.{DropsDead};
ghost use Rattle.fc_def_dead.specs.DeadIn.{AreDeadIn};

use crate::finding::dead;
use crate::moving::{room_for, unmarked};
use fc_syntax::{Memory, NDecl, NModule, Seq};
use std::alloc::Global;
use std::mem;

/// The definitions of a module that nothing needs, with room for the declarations that stay.
#[derive(Drop)]
pub struct Dead {
    /// For each declaration, in declared order, whether it goes.
    marks: Vec<bool>,
    /// Room for the others.
    room: Seq<NDecl>,
}

/// Whether a mark is true.
fn any_marked(marks: &[bool]) -> bool
    ensures { result ≡ list_any (λ b. b) marks.now }
{
    marks.iter().any(|marked| *marked)
}

/// Finds the definitions of a module that nothing needs, those that others may not use and that none that they may use reaches; none where there are none. Of several definitions of
/// one word the first counts for what it reaches, and all go or all stay. Fails only where memory runs out, or the name of the module is shared too often to be counted. Takes time in
/// declarations, mentions and offered words.
pub fn dead_definitions(alloc: Global, module: &NModule) -> Result<Option<Dead>, Memory>
    ensures some { IfOk result (λ o. IfSome o (AreDeadIn module.now)) }
    ensures none { IfOk result (λ o. o ≡ None → (k : Form) → DropsDead (nmodule_of module.now) k → ⊥) }
{
    let marks = dead(alloc, module)?;
    if !any_marked(marks.as_slice()) {
        return Ok(None);
    }
    let room = room_for(alloc, &module.name, marks.as_slice())?;
    Ok(Some(Dead { marks, room }))
}

/// Takes away the definitions that were found in the module as it stands. Takes no memory, and time in declarations.
pub fn take_away(alloc: Global, module: &mut NModule, dead: Dead)
    requires { AreDeadIn module.old dead }
    ensures { DropsDead (nmodule_of module.old) (nmodule_of module.new) }
{
    let Dead { marks, room } = dead;
    let decls = mem::replace(&mut module.decls, Seq::new(alloc));
    module.decls = unmarked(decls, marks.as_slice(), room);
}

/// Takes away all definitions that nothing needs, as `dead_definitions` finds them, and answers whether there were any. Where there were none the module is as before, and so it is on
/// failure, which is that of `dead_definitions`.
pub fn drop_dead(alloc: Global, module: &mut NModule) -> Result<bool, Memory>
    ensures dropped { IfOk result (λ b. IsTrue b → DropsDead (nmodule_of module.old) (nmodule_of module.new)) }
    ensures none { IfOk result (λ b. IsFalse b → (k : Form) → DropsDead (nmodule_of module.old) k → ⊥) }
    ensures unchanged { (result ≡ Ok true → ⊥) → module.new ≡ module.old }
{
    match dead_definitions(alloc, &*module)? {
        Some(dead) => {
            take_away(alloc, module, dead);
            Ok(true)
        }
        None => Ok(false),
    }
}
