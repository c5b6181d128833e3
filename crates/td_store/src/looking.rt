//! An offer at its place, on a counter of its own.

ghost use Rattle.std.specs.Prelude.{◌≡◌, Some, option_copied};
ghost use Rattle.td_store.specs.OfferPlaces.{with_changed};
ghost use Rattle.td_store.specs.Slabs.{value_at};

use crate::record::OfferRecord;
use crate::slab::Slab;
use crate::steps::Steps;
use std::marker::Brand;
use std::sync::ledger::{Blank, Ledger};
use td_cdr::{List, Shared};
use td_value::Property;

/// The offer at a place.
pub(crate) fn look(slab: &Slab<OfferRecord>, place: u32) -> Option<&OfferRecord>
    ensures { option_copied result ≡ value_at slab.now.slots place }
{
    counted_look::<Brand>(slab, place, Blank::new(1))
}

fn counted_look<L: Ledger>(
    slab: &Slab<OfferRecord>,
    place: u32,
    blank: Blank,
) -> Option<&OfferRecord>
    requires name { blank.name ≡ L.name }
    requires parts { blank.parts ≡ L.parts }
    requires one { L.parts ≡ 1 }
    ensures { option_copied result ≡ value_at slab.now.slots place }
{
    let mut steps = Steps::<L>::new(blank);
    slab.look(place, &mut steps)
}

/// Gives the offer at a place other properties, if there is one.
pub(crate) fn change_properties(
    slab: &mut Slab<OfferRecord>,
    place: u32,
    properties: Shared<List<Property>>,
)
    ensures { slab.new ≡ with_changed slab.old place properties }
{
    counted_change::<Brand>(slab, place, properties, Blank::new(1));
}

fn counted_change<L: Ledger>(
    slab: &mut Slab<OfferRecord>,
    place: u32,
    properties: Shared<List<Property>>,
    blank: Blank,
)
    requires name { blank.name ≡ L.name }
    requires parts { blank.parts ≡ L.parts }
    requires one { L.parts ≡ 1 }
    ensures { slab.new ≡ with_changed slab.old place properties }
{
    let mut steps = Steps::<L>::new(blank);
    if let Some(offer) = slab.change(place, &mut steps) {
        offer.properties = properties;
    }
}
