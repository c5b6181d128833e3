//! The offers of a trader.

ghost use Rattle.std.specs.Prelude.{◌≡◌, ◌<◌, ◌≤◌, ◌+◌, [], ◌∷◌, ◌++◌, length, map, filter, is_some, IfOk, OnOk, OnErr};
ghost use Rattle.std.specs.Prelude.{option_copied};
ghost use Rattle.std.specs.List.{AllByRecursion};
ghost use Rattle.td_store.specs.Candidates.{candidates, has_conforming_type, most_steps};
ghost use Rattle.td_store.specs.Homes.{kind_chain};
ghost use Rattle.td_store.specs.OfferLists.{most_offers, IsLimited, offer_of, without_offer, with_properties};
ghost use Rattle.td_store.specs.OfferLists.{is_of_kind, NumbersRise};

use crate::condition::is_exact;
use crate::fault::StoreFault;
use crate::gathering::numbers_on;
use crate::inserting::{chain_for, put_offer};
use crate::looking::{change_properties, look};
use crate::record::OfferRecord;
use crate::search::{candidates, conforming, of_conforming_types, searched_types};
use crate::slab::Slab;
use crate::steps::Steps;
use std::alloc::Global;
use std::collections::BTreeMap;
use std::marker::Model;
use std::sync::ledger::Ledger;
use td_cdr::{List, Memory, Shared, Text};
use td_policy::{Attributes, Stated};
use td_types::Types;
use td_value::Property;

/// How many offers there are at most.
const MOST_OFFERS: usize = 1000000;

/// The offers by rising number. Each stands on the chain of its type's incarnation and on that of its
/// kind, ordinary or proxy.
pub struct Offers {
    slab: Slab<OfferRecord>,
    /// From an offer's number to its place.
    numbers: BTreeMap<u32, u32>,
    /// From an incarnation to the chain of that type's offers.
    chains: BTreeMap<u64, u32>,
    /// The chain of the ordinary offers.
    ordinary: u32,
    /// The chain of the proxy offers.
    proxies: u32,
}

// By hand, since a derived drop is written out at each exit, and proved again in each crate above.
impl Drop for Offers {
    fn drop(self) {
        let Offers {
            slab: _slab,
            numbers: _numbers,
            chains: _chains,
            ordinary: _ordinary,
            proxies: _proxies,
        } = self;
    }
}

impl Model for Offers {
    ghost use Rattle.std.specs.Prelude.{List};
    ghost use Rattle.std.specs.Coded.{codes};
    ghost use Rattle.td_typecode.specs.contracts.code.TypeCode as code;
    ghost use Rattle.td_typecode.specs.contracts.code.Value as value;
    ghost use Rattle.td_store.specs.declared.record.OfferRecord.{OfferRecord as an_offer};
    ghost use Rattle.td_store.specs.Homes.{offers_in, HoldsOffers};

    ghost Value = { List an_offer };

    ghost coded = { Prim.hlevel (codes, code.the_row.coded, value.the_row.coded) };

    ghost view = { λ o. offers_in o.slab o.numbers.entries };

    ghost invariant = { λ o. HoldsOffers o.slab o.numbers.entries o.chains o.ordinary o.proxies };
}

impl Offers {
    /// No offers.
    ///
    /// # Errors
    ///
    /// `Memory` only when out of memory.
    pub fn new(alloc: Global) -> Result<Offers, Memory>
        ensures { IfOk result (λ o. o ≡ []) }
    {
        let mut slab = Slab::new(alloc)?;
        let ordinary = slab.add_chain()?;
        let proxies = slab.add_chain()?;
        Ok(Offers {
            slab,
            numbers: BTreeMap::new(alloc),
            chains: BTreeMap::new(alloc),
            ordinary,
            proxies,
        })
    }

    /// How many offers there are. Their numbers rise.
    pub fn len(&self) -> usize
        ensures count { result ≡ length self.now }
        ensures rise { NumbersRise self.now }
    {
        self.numbers.len()
    }

    /// Adds an offer, whose number is above all others.
    ///
    /// # Errors
    ///
    /// `Full` exactly where there are as many as may be; `Memory` when out of memory. The offers are
    /// then as before, and this one is dropped.
    pub fn insert(&mut self, offer: OfferRecord) -> Result<(), StoreFault>
        requires above { AllByRecursion (λ o. o.number < offer.number) self.old }
        ensures added { OnOk result (self.new ≡ self.old ++ offer ∷ []) }
        ensures unchanged { OnErr result (self.new ≡ self.old) }
        ensures full { IsLimited most_offers (length self.old) result }
    {
        if self.numbers.len() >= MOST_OFFERS {
            return Err(StoreFault::Full);
        }
        let of_kind = self.chain_of_kind(offer.proxy.is_some());
        let of_type = chain_for(&mut self.slab, &mut self.chains, offer.incarnation)?;
        put_offer(&mut self.slab, &mut self.numbers, of_type, of_kind, offer)?;
        Ok(())
    }

    /// Takes the offer of a number away. Takes no memory.
    pub fn remove(&mut self, number: u32) -> Option<OfferRecord>
        ensures value { result ≡ offer_of self.old number }
        ensures others { self.new ≡ without_offer number self.old }
    {
        match self.numbers.remove(&number) {
            None => None,
            Some(place) => self.slab.take(place),
        }
    }

    /// The offer of a number. Takes no memory.
    pub fn get(&self, number: u32) -> Option<&OfferRecord>
        ensures { option_copied result ≡ offer_of self.now number }
    {
        match self.numbers.get(&number) {
            None => None,
            Some(place) => look(&self.slab, *place),
        }
    }

    /// Gives the offer of a number other properties, and answers whether there is one. Takes no memory.
    pub fn modify(&mut self, number: u32, properties: Shared<List<Property>>) -> bool
        ensures there { result ≡ is_some (offer_of self.old number) }
        ensures changed { self.new ≡ with_properties number properties self.old }
    {
        match self.numbers.get(&number).copied() {
            None => false,
            Some(place) => {
                change_properties(&mut self.slab, place, properties);
                true
            }
        }
    }

    /// The first so many offers that a query for a type searches, by rising number (interface
    /// CosTrading::Lookup, query). It walks the chains of the types that conform and no others: at
    /// most one step for each of these types, and one for each of their offers.
    ///
    /// # Errors
    ///
    /// `Memory` only when out of memory.
    pub fn candidates<L: Ledger>(
        &self,
        alloc: Global,
        types: &Types,
        attributes: &Attributes,
        stated: &Stated,
        asked: &Text,
        count: u32,
        steps: &mut Steps<L>,
    ) -> Result<List<OfferRecord>, Memory>
        ensures found { IfOk result (λ found. found
            ≡ candidates types.now.types attributes.now stated.now asked.now count self.now) }
        ensures steps { steps.new ≤ steps.old + most_steps types.now.types asked.now self.now }
    {
        let incarnations = searched_types(alloc, types, is_exact(stated), asked)?;
        let offers = conforming(
            alloc,
            &self.slab,
            &self.chains,
            incarnations.as_slice(),
            steps,
        )?;
        candidates(
            alloc,
            types,
            attributes,
            stated,
            asked,
            count,
            offers.as_slice(),
        )
    }

    /// The offers whose type conforms to the asked one, by rising number, proxy offers among them. It walks
    /// the chains that a query for this type walks.
    ///
    /// # Errors
    ///
    /// `Memory` only when out of memory.
    pub fn conforming<'a, L: Ledger>(
        &'a self,
        alloc: Global,
        types: &Types,
        asked: &Text,
        steps: &mut Steps<L>,
    ) -> Result<Vec<&'a OfferRecord>, Memory>
        ensures found { IfOk result (λ v. map (λ o. o.now) v.items
            ≡ filter (has_conforming_type types.now.types asked.now) self.now) }
        ensures steps { steps.new ≤ steps.old + most_steps types.now.types asked.now self.now }
    {
        let incarnations = searched_types(alloc, types, false, asked)?;
        let offers = conforming(
            alloc,
            &self.slab,
            &self.chains,
            incarnations.as_slice(),
            steps,
        )?;
        of_conforming_types(alloc, types, asked, offers.as_slice())
    }

    /// The numbers of the ordinary offers or of the proxy offers, rising.
    ///
    /// # Errors
    ///
    /// `Memory` only when out of memory.
    pub fn ids(&self, alloc: Global, proxies: bool) -> Result<List<u32>, Memory>
        ensures { IfOk result (λ numbers. numbers
            ≡ map (λ o. o.number) (filter (is_of_kind proxies) self.now)) }
    {
        numbers_on(alloc, &self.slab, self.chain_of_kind(proxies))
    }

    /// The chain of the ordinary offers, or of the proxy offers. It takes the offers apart by all their
    /// fields, so that a second list of offers beside the slab doesn't compile.
    fn chain_of_kind(&self, proxies: bool) -> u32
        ensures { result ≡ kind_chain proxies }
    {
        let Offers {
            slab: _,
            numbers: _,
            chains: _,
            ordinary,
            proxies: of_proxies,
        } = self;
        if proxies { *of_proxies } else { *ordinary }
    }
}
