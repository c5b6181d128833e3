//! An offer that matched, as it is held until a query is answered.

ghost use Rattle.std.specs.Prelude.{◌≡◌, is_none, IfOk};
ghost use Rattle.td_store.specs.Candidates.{has_dynamic};

use crate::record::{OfferRecord, ProxyPart, copy_proxy};
use std::alloc::Global;
use std::marker::Model;
use std::snapshot::Snapshot;
use td_cdr::{List, Memory, Shared, Twin};
use td_value::{Ior, Offer, Property};

/// An offer that matched, which contracts see as all that its trader keeps of it. It owns what is answered of an offer
/// and what a proxy offer's call needs, and nothing that all offers of a type share: many threads at once would count
/// the owners of that.
pub struct FoundOffer {
    reference: Shared<Ior>,
    properties: Shared<List<Property>>,
    proxy: Option<Shared<ProxyPart>>,
    /// One of the properties is evaluated when it is asked for.
    dynamic: bool,
    /// Takes no memory.
    kept: Snapshot<OfferRecord>,
}

// By hand, since a derived drop is written out at each exit, and proved again in each crate above.
impl Drop for FoundOffer {
    fn drop(self) {
        let FoundOffer {
            reference: _reference,
            properties: _properties,
            proxy: _proxy,
            dynamic: _dynamic,
            kept: _kept,
        } = self;
    }
}

impl Model for FoundOffer {
    ghost use Rattle.std.specs.Prelude.{◌≡◌};
    ghost use Rattle.td_store.specs.Candidates.{has_dynamic};
    ghost use Rattle.td_store.specs.contracts.record.OfferRecord as offer;
    ghost use Rattle.td_store.specs.declared.record.OfferRecord.{OfferRecord};

    ghost Value = { OfferRecord };

    ghost coded = { offer.the_row.coded };

    ghost view = { λ f. record f.kept.value {
      reference = f.reference;
      properties = f.properties;
      proxy = f.proxy;
    } };

    ghost invariant = { λ f. f.dynamic ≡ has_dynamic f.properties };
}

impl FoundOffer {
    /// The offer, with owners of its own of what it is answered with, and whether one of its properties is evaluated
    /// when it is asked for. Takes no memory.
    ///
    /// # Errors
    ///
    /// `Memory` where an owner is refused.
    pub fn of(alloc: Global, offer: &OfferRecord, dynamic: bool) -> Result<FoundOffer, Memory>
        requires { dynamic ≡ has_dynamic offer.now.properties }
        ensures { IfOk result (λ f. f ≡ offer.now) }
    {
        let reference = offer.reference.copy(alloc)?;
        let properties = offer.properties.copy(alloc)?;
        Ok(FoundOffer {
            reference,
            properties,
            proxy: copy_proxy(alloc, &offer.proxy)?,
            dynamic,
            kept: Snapshot::of(offer),
        })
    }

    /// The object that is offered; of a proxy offer, the Lookup to which queries are passed on.
    pub fn reference(&self) -> &Ior
        ensures { result.now ≡ self.now.reference }
    {
        self.reference.get()
    }

    /// Its properties, as they were exported.
    pub fn properties(&self) -> &List<Property>
        ensures { result.now ≡ self.now.properties }
    {
        self.properties.get()
    }

    /// Whether one of the properties is evaluated when it is asked for.
    pub fn has_dynamic(&self) -> bool
        ensures { result ≡ has_dynamic self.now.properties }
    {
        self.dynamic
    }

    /// What a proxy offer has besides.
    pub fn proxy(&self) -> &Option<Shared<ProxyPart>>
        ensures { result.now ≡ self.now.proxy }
    {
        &self.proxy
    }

    /// Whether it is no proxy offer.
    pub fn is_ordinary(&self) -> bool
        ensures { result ≡ is_none self.now.proxy }
    {
        self.proxy.is_none()
    }

    /// The offer as an importer sees it. Takes no memory.
    pub fn into_offer(self) -> Offer
        ensures { result ≡ record { reference = self.reference; properties = self.properties } }
    {
        let FoundOffer {
            reference,
            properties,
            proxy: _proxy,
            dynamic: _dynamic,
            kept: _kept,
        } = self;
        Offer {
            reference,
            properties,
        }
    }
}
