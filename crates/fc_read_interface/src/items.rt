//! Items, as long as their declarations are within the limits.
ghost use Rattle.std.specs.Prelude.{◌≡◌, ◌<◌, ◌∷◌, ◌++◌, [], length, pos, true, false, IfOk, IfErr, MatchOption, OnOk};
ghost use Rattle.fc_syntax.specs.Tree.{DDef, ELit};
ghost use Rattle.fc_syntax.specs.View.{decl_of, decls_of, ty_of};
ghost use Rattle.fc_model.specs.FileForms.{InterfaceFile};
ghost use Rattle.fc_model.specs.Grammar.{AnItem, Many, definition_of, item_decl, is_told as spec_is_told};
ghost use Rattle.fc_model.specs.ReadFaults.{are_within, depth_fits};
ghost use Rattle.fc_model.specs.Texts.{SomeMembersAt};
ghost use Rattle.fc_lattice.specs.View.{sigs_of};
ghost use Rattle.fc_read_items.specs.View.{item_of, unfolding_of};
ghost use Rattle.fc_read_parts.specs.Reading.{Takes};
ghost use Rattle.fc_read_parts.specs.Seen.{ahead};
ghost use Rattle.fc_reader.specs.Halting.{Halts};
ghost use Rattle.fc_read_interface.specs.Made.{AreOf, IsDeclared, MadeOf, failing_decl, known_sigs, known_told};

use fc_lattice::Sig;
use fc_measures::depth;
use fc_read_items::{Item, Unfolding, read_item};
use fc_read_parts::{Tokens, closes};
use fc_reader::{Halt, Measured, measure};
use fc_syntax::{Decl, Expr, Limits, Memory, Seq, Text, Ty};
use std::alloc::Global;

/// What items make of an interface.
#[derive(Drop)]
pub(crate) struct Items {
    /// Their declarations in their order.
    pub(crate) decls: Seq<Decl>,
    /// The signatures of those that are definitions.
    pub(crate) sigs: Seq<Sig>,
    /// For each definition whether its right side is told.
    pub(crate) told: Seq<bool>,
}

/// What is known of a definition beside its declaration.
#[derive(Drop)]
struct Known {
    /// Its signature.
    sig: Sig,
    /// Whether its right side is told.
    told: bool,
}

impl Items {
    /// What no items make.
    fn new(alloc: Global) -> Items
        ensures { AreOf [] result }
    {
        Items {
            decls: Seq::new(alloc),
            sigs: Seq::new(alloc),
            told: Seq::new(alloc),
        }
    }

    /// Puts the declaration of one item more behind the others, and what is known of a definition. Fails only where memory runs out; then
    /// some of these may stand there.
    fn add(&mut self, decl: Decl, known: Option<Known>) -> Result<(), Memory>
        ensures decls { OnOk result (decls_of self.new.decls ≡ decls_of self.old.decls ++ decl_of decl ∷ []) }
        ensures sigs { OnOk result (sigs_of self.new.sigs ≡ sigs_of self.old.sigs ++ known_sigs known) }
        ensures told { OnOk result (self.new.told ≡ self.old.told ++ known_told known) }
    {
        self.decls.push(decl)?;
        let Some(known) = known else {
            return Ok(());
        };
        self.sigs.push(known.sig)?;
        self.told.push(known.told)?;
        Ok(())
    }
}

/// Whether the right side of a definition is told.
fn is_told(right: &Unfolding) -> bool
    ensures { result ≡ spec_is_told (unfolding_of right.now) }
{
    match right {
        Unfolding::Untold => false,
        Unfolding::Def(_) => true,
        Unfolding::Wrap(_) => true,
    }
}

/// Whether a declaration is no deeper than the limit. Takes no more stack than that.
fn fits(decl: &Decl) -> bool
    ensures { result ≡ depth_fits (decl_of decl.now) }
{
    let most = Limits::standard().depth;
    depth(decl, most + 1) <= most
}

/// A definition of this type with the least right side.
#[tactic(auto, using(fc_syntax::proofs::View::view_rules))]
fn least(name: Text, ty: Ty) -> Decl
    ensures { decl_of result ≡ DDef name (ty_of ty) (ELit (pos 0)) }
{
    Decl::Def(name, ty, Expr::Lit(0))
}

/// The same declaration, in which a `def` fails at its type.
#[tactic(auto, using(fc_syntax::proofs::View::view_rules))]
fn failing(alloc: Global, decl: Decl) -> Result<Decl, Memory>
    ensures { IfOk result (λ d. decl_of d ≡ failing_decl (decl_of decl)) }
{
    match decl {
        Decl::Def(name, ty, _told) => {
            let right = Expr::Fail(ty.copy(alloc)?);
            Ok(Decl::Def(name, ty, right))
        }
        other => Ok(other),
    }
}

/// The definition of which this is told: where its right side is not, one that fails, and none where that is too deep. The type is copied
/// only where it is no deeper than a declaration may be: a copy takes as much stack as the type is deep.
fn definition(alloc: Global, name: Text, ty: Ty, right: Unfolding) -> Result<Option<Decl>, Memory>
    ensures { let is = definition_of name (ty_of ty) (unfolding_of right) in IfOk result (λ o. MatchOption o (depth_fits is ≡ false) (λ d. decl_of d ≡ is)) }
{
    match right {
        Unfolding::Untold => {
            let decl = least(name, ty);
            if !fits(&decl) {
                return Ok(None);
            }
            Ok(Some(failing(alloc, decl)?))
        }
        Unfolding::Def(e) => Ok(Some(Decl::Def(name, ty, e))),
        Unfolding::Wrap(e) => Ok(Some(Decl::Wrap(name, ty, e))),
    }
}

/// The declaration that an item stands for, and what is known of a definition; none where a declaration that is not told whole is too deep.
fn declared(alloc: Global, item: Item) -> Result<Option<(Decl, Option<Known>)>, Memory>
    ensures { IfOk result (λ o. MatchOption o (depth_fits (item_decl (item_of item)) ≡ false) (λ r. IsDeclared (item_of item) r.0 r.1)) }
{
    match item {
        Item::Decl(decl) => Ok(Some((decl, None))),
        Item::Value(name, ty, sig, right) => {
            let told = is_told(&right);
            let Some(decl) = definition(alloc, name, ty, right)? else {
                return Ok(None);
            };
            Ok(Some((decl, Some(Known { sig, told }))))
        }
    }
}

/// Reads items up to the closing bracket, and that, where there is room for all of their declarations. Where a declaration is past a
/// limit, the next item is not read.
#[tactic(auto, using(fc_read_parts::proofs::Stars::star_rules))]
#[inline(never)]
pub(crate) fn read_items(alloc: Global, tokens: &mut Tokens<'_>, room: u32) -> Result<Items, Halt>
    ensures read { IfOk result (λ x. MadeOf (λ items. Takes (Many AnItem) (ahead tokens.old) items (ahead tokens.new)) x) }
    ensures within { IfOk result (λ x. are_within room (decls_of x.decls) ≡ true) }
    ensures shorter { IfOk result (λ _. length (ahead tokens.new) < length (ahead tokens.old)) }
    ensures halt { IfErr result (Halts InterfaceFile room (SomeMembersAt InterfaceFile) (Many AnItem) (ahead tokens.old)) }
{
    let mut all = Items::new(alloc);
    let mut size = 0;
    'each: loop {
        if closes(tokens) {
            return Ok(all);
        }
        let left = tokens.left();
        let item = read_item(alloc, tokens)?;
        let Some((decl, known)) = declared(alloc, item)? else {
            return Err(Halt::Depth(left));
        };
        size = match measure(&decl, size, room) {
            Measured::Deep => return Err(Halt::Depth(left)),
            Measured::Much => return Err(Halt::Counts(left)),
            Measured::Fits(all) => all,
        };
        all.add(decl, known)?;
    }
}
