//! Offers, ids and writers for the tests.

ghost use Rattle.std.specs.Prelude.{◌≡◌, ◌<◌, ◌≤◌, ◌^◌, length, IfOk, OnOk};
ghost use Rattle.td_iter.specs.Heads.{AreSmallIds, AreSmallOffers, IsSmallReference, AreLimits};
ghost use Rattle.td_iter.specs.declared.limits.TheConstants.{REPLY_START};
ghost use Rattle.td_lines_tests.specs.Bare.{bare_offer};

use std::alloc::Global;
use std::test::Fail;
use td_cdr::{List, Memory, Order, Shared, Text, Writer};
use td_iter::{IdIter, OfferIter, REPLY_START};
use td_value::{Ior, Offer};

/// The nil reference.
#[tactic(auto, using(crate::proofs::Pushed::nil_short))]
pub fn nil(alloc: Global) -> Ior
    ensures { IsSmallReference result }
{
    Ior {
        id: Text::new(alloc),
        profiles: List::new(alloc),
    }
}

/// No limits.
pub fn no_limits(alloc: Global) -> List<Text>
    ensures { AreLimits result }
{
    List::new(alloc)
}

/// A writer that holds as many bytes as stand before the body of a reply.
pub fn started(alloc: Global, order: Order) -> Result<Writer, Fail>
    ensures { IfOk result (λ w. length w.bytes ≡ REPLY_START) }
{
    let mut w = Writer::new(alloc, order);
    w.append(&[0; 24])?;
    if w.len() != REPLY_START {
        return Err("another length".into());
    }
    Ok(w)
}

/// An offer without properties whose reference has this id.
fn offer(alloc: Global, id: &[u8]) -> Result<Offer, Fail>
    ensures { IfOk result (λ o. o ≡ bare_offer id.now) }
{
    let reference = Ior {
        id: Text::from_slice(alloc, id)?,
        profiles: List::new(alloc),
    };
    let reference = Shared::new(alloc, reference)?;
    let properties = Shared::new(alloc, List::new(alloc))?;
    Ok(Offer {
        reference,
        properties,
    })
}

/// One offer more.
#[tactic(auto, using(crate::proofs::Pushed::offers_pushed))]
fn add_offer(alloc: Global, offers: &mut List<Offer>, id: &[u8]) -> Result<(), Fail>
    requires { AreSmallOffers offers.old }
    ensures { OnOk result (AreSmallOffers offers.new) }
{
    if id.len() > 1048563 {
        return Err("too long".into());
    }
    offers.push(offer(alloc, id)?)?;
    Ok(())
}

/// An iterator over offers, an id for each.
pub fn offers(alloc: Global, ids: &[u8]) -> Result<OfferIter, Fail> {
    let mut left = List::new(alloc);
    for i in 0..ids.len() {
        add_offer(alloc, &mut left, &ids[i..i + 1])?;
    }
    if left.len() > 1000 {
        return Err("too many".into());
    }
    Ok(OfferIter::new(left))
}

/// An iterator over so many offers, each the same.
pub fn same_offers(alloc: Global, count: usize, id: &[u8]) -> Result<OfferIter, Fail> {
    let mut left = List::new(alloc);
    for _ in 0..count {
        add_offer(alloc, &mut left, id)?;
    }
    if left.len() > 1000 {
        return Err("too many".into());
    }
    Ok(OfferIter::new(left))
}

/// One id more.
#[tactic(auto, using(crate::proofs::Pushed::ids_pushed))]
fn add_id(alloc: Global, ids: &mut List<Text>, id: &[u8]) -> Result<(), Fail>
    requires { AreSmallIds ids.old }
    ensures { OnOk result (AreSmallIds ids.new) }
{
    if id.len() > 256 {
        return Err("too long".into());
    }
    ids.push(Text::from_slice(alloc, id)?)?;
    Ok(())
}

/// An iterator over so many ids, each the same.
pub fn ids(alloc: Global, count: usize, id: &[u8]) -> Result<IdIter, Fail> {
    let mut left = List::new(alloc);
    for _ in 0..count {
        add_id(alloc, &mut left, id)?;
    }
    if left.len() > 100000 {
        return Err("too many".into());
    }
    Ok(IdIter::new(left))
}

/// Whether these are the bytes behind what stands before the body.
pub fn is_body(alloc: Global, w: &Writer, digits: &str) -> Result<bool, Fail> {
    let bytes = hex::decode(alloc, digits.as_bytes())?;
    Ok(w.bytes().get(24..) == Some(bytes.as_slice()))
}
