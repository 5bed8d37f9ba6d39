//! What modules have for others.
ghost use Rattle.std.specs.Prelude.{◌≡◌, [], ◌∷◌, ◌++◌, List, Some, OnOk, IfOk};
ghost use Rattle.std.specs.HashMap.{get_by_text};
ghost use Rattle.std.specs.Option.{option_map};
ghost use Rattle.fc_model.specs.Linting.{offers_of};
ghost use Rattle.fc_model.specs.Nameless as nameless;
ghost use Rattle.fc_model.specs.NamelessView.{nmodule_of, nmodules_of};
ghost use Rattle.fc_model.specs.OfferViews.{AreOffersOf, HaveOffers, IsOfferOf, offered};
ghost use Rattle.fc_syntax.specs.Tree as trees;

use crate::declared::{Spaces, spaces_of};
use crate::word_set::WordSet;
use fc_syntax::{Memory, NModule, Name, Text};
use indexmap::IndexMap;
use std::alloc::Global;

/// What a module has for others: of the words that it tells, those that it declares in a space.
#[derive(Drop)]
pub struct Offer {
    /// The words that it exports or hides.
    told: WordSet,
    /// The words that it declares.
    declared: Spaces,
}

/// What modules have for others, each by its name.
#[derive(Drop)]
pub enum Offers {
    /// Whatever is asked of any module.
    All,
    /// What these modules have.
    Of(IndexMap<String, Offer>),
}

impl Offer {
    /// What a module has for others. Fails only where memory runs out.
    fn of_module(alloc: Global, m: &NModule) -> Result<Offer, Memory>
        ensures { IfOk result (λ o. IsOfferOf (nmodule_of m.now) o) }
    {
        let mut told = WordSet::new(alloc);
        told.add_all(alloc, m.hidden.as_slice())?;
        told.add_all(alloc, m.exports.as_slice())?;
        let declared = spaces_of(alloc, m.decls.as_slice())?;
        Ok(Offer { told, declared })
    }
}

/// Puts what a module has for others in, in place of what another of its name had.
fn put_offer(alloc: Global, offers: &mut IndexMap<String, Offer>, m: &NModule) -> Result<(), Memory>
    ensures { OnOk result ((ns : List nameless.NModule) → AreOffersOf ns offers.old → AreOffersOf (nmodule_of m.now ∷ ns) offers.new) }
{
    let offer = Offer::of_module(alloc, m)?;
    let name = String::from_str(alloc, m.name.as_str())?;
    offers.insert(name, offer)?;
    Ok(())
}

/// Puts what a module has for others in, if no module of its name was put in before.
fn put_first(alloc: Global, offers: &mut IndexMap<String, Offer>, m: &NModule) -> Result<(), Memory>
    ensures { OnOk result ((ns : List nameless.NModule) → AreOffersOf ns offers.old → AreOffersOf (ns ++ nmodule_of m.now ∷ []) offers.new) }
{
    if offers.get(m.name.as_str()).is_some() {
        return Ok(());
    }
    let offer = Offer::of_module(alloc, m)?;
    let name = String::from_str(alloc, m.name.as_str())?;
    offers.insert(name, offer)?;
    Ok(())
}

/// The tables of modules by their names; where several have one name, that of the first.
fn offers_by_name(alloc: Global, modules: &[NModule]) -> Result<IndexMap<String, Offer>, Memory>
    ensures { IfOk result (λ table. AreOffersOf (nmodules_of modules.now) table) }
{
    let mut offers = IndexMap::new(alloc);
    let count = modules.len();
    for behind in 0..count {
        put_offer(alloc, &mut offers, &modules[count - 1 - behind])?;
    }
    Ok(offers)
}

/// What the module of a name has for others.
fn offer_of<'o>(offers: &'o IndexMap<String, Offer>, name: &Name) -> Option<&'o Offer>
    ensures { (m : trees.Word) → name.now.module ≡ Some m → option_map (λ o. o.now) result ≡ get_by_text offers.now m }
{
    match &name.module {
        None => None,
        Some(module) => offers.get(module.as_str()),
    }
}

impl Offers {
    ghost use Rattle.fc_model.specs.OfferViews.{offers_in};

    /// What modules have for others: each the words that it exports or hides and declares. Fails only where memory runs out.
    pub fn of_modules(alloc: Global, modules: &[NModule]) -> Result<Offers, Memory>
        ensures { IfOk result (λ o. offers_in o ≡ offers_of (nmodules_of modules.now)) }
    {
        let offers = offers_by_name(alloc, modules)?;
        Ok(Offers::Of(offers))
    }

    /// What no module has.
    pub fn none(alloc: Global) -> Offers
        ensures { HaveOffers [] result }
    {
        Offers::Of(IndexMap::new(alloc))
    }

    /// Puts what one module more has in, behind those before it: where a module of its name was put in before, that one counts. Of whatever all
    /// modules have, nothing changes. Where memory runs out, what the modules before have is left.
    pub fn add(&mut self, alloc: Global, m: &NModule) -> Result<(), Memory>
        ensures { OnOk result ((ns : List nameless.NModule) → HaveOffers ns self.old → HaveOffers (ns ++ nmodule_of m.now ∷ []) self.new) }
    {
        match self {
            Offers::All => Ok(()),
            Offers::Of(offers) => put_first(alloc, offers, m),
        }
    }

    /// Whether what a name says stands for a type that its module has for others; whatever a name without a module says.
    #[tactic(auto, unfolding(crate::specs::OfferViews::offers_in))]
    pub fn has_type(&self, name: &Name) -> bool
        ensures { (m : trees.Word) → name.now.module ≡ Some m → result ≡ (offers_in self.now).types m name.now.text }
    {
        match self {
            Offers::All => true,
            Offers::Of(offers) => match offer_of(offers, name) {
                None => false,
                Some(offer) => offer.told.has(&name.text) && offer.declared.types.has(&name.text),
            },
        }
    }

    /// The same of a term: a definition or a constructor.
    #[tactic(auto, unfolding(crate::specs::OfferViews::offers_in))]
    pub fn has_term(&self, name: &Name) -> bool
        ensures { (m : trees.Word) → name.now.module ≡ Some m → result ≡ (offers_in self.now).terms m name.now.text }
    {
        match self {
            Offers::All => true,
            Offers::Of(offers) => match offer_of(offers, name) {
                None => false,
                Some(offer) => offer.told.has(&name.text) && offer.declared.terms.has(&name.text),
            },
        }
    }

    /// The same of a coercion, which is an axiom.
    #[tactic(auto, unfolding(crate::specs::OfferViews::offers_in))]
    pub fn has_coercion(&self, name: &Name) -> bool
        ensures { (m : trees.Word) → name.now.module ≡ Some m → result ≡ (offers_in self.now).coercions m name.now.text }
    {
        match self {
            Offers::All => true,
            Offers::Of(offers) => match offer_of(offers, name) {
                None => false,
                Some(offer) => {
                    offer.told.has(&name.text) && offer.declared.coercions.has(&name.text)
                }
            },
        }
    }
}
