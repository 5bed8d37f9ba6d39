//! Declarations move into room that was made for them.
ghost use Rattle.std.specs.Prelude.{◌≡◌, ◌+◌, ◌<◌, [], ◌∷◌, ℕ, IfOk, OnOk, drop, length, not, slice_index_or, slice_set};
ghost use Rattle.std.specs.List.{count_by};
ghost use Rattle.fc_syntax.specs.declared.module.Decl.{Decl};
ghost use Rattle.fc_syntax.specs.declared.ty.Ref.{Ref};
ghost use Rattle.fc_def_dead.specs.Dead.{without_marked};

use fc_syntax::{Kind, Memory, NDecl, Seq, Text};
use std::alloc::Global;
use std::mem;

/// Puts a small declaration behind the others, in whose place another may move, unless what is to move is marked.
fn add_room(alloc: Global, word: &Text, marked: bool, room: &mut Seq<NDecl>) -> Result<(), Memory>
    ensures { OnOk result (length room.new ≡ length room.old + count_by not (marked ∷ [])) }
{
    if marked {
        Ok(())
    } else {
        let word = word.copy(alloc)?;
        room.push(NDecl::Family(word, Seq::new(alloc), Kind::Star))
    }
}

/// As many small declarations as there are marks that are false.
pub(crate) fn room_for(alloc: Global, word: &Text, marks: &[bool]) -> Result<Seq<NDecl>, Memory>
    ensures { IfOk result (λ room. length room ≡ count_by not marks.now) }
{
    let mut room = Seq::with_capacity(alloc, marks.len())?;
    for marked in marks {
        add_room(alloc, word, *marked, &mut room)?;
    }
    Ok(room)
}

/// Exchanges a declaration with one of another list.
fn exchange(from: &mut Seq<NDecl>, number: usize, to: &mut Seq<NDecl>, at: usize)
    requires number { number < length from.old }
    requires at { at < length to.old }
    ensures from { drop (number + 1) from.new ≡ drop (number + 1) from.old }
    ensures length { length from.new ≡ length from.old }
    ensures to { (z : Decl ℕ Ref) → to.new ≡ slice_set to.old at (slice_index_or from.old number z) }
{
    mem::swap(from.at_mut(number), to.at_mut(at));
}

/// The declarations that are not marked, in declared order, in room for as many. Takes no memory.
pub(crate) fn unmarked(decls: Seq<NDecl>, marks: &[bool], room: Seq<NDecl>) -> Seq<NDecl>
    requires count { length marks.now ≡ length decls }
    requires room { length room ≡ count_by not marks.now }
    ensures { result ≡ without_marked marks.now decls }
{
    let mut from = decls;
    let mut to = room;
    let mut at: usize = 0;
    for (number, marked) in marks.iter().enumerate() {
        if !*marked {
            exchange(&mut from, number, &mut to, at);
            at += 1;
        }
    }
    to
}
