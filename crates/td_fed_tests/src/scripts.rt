//! Peers by a script of a few words.

ghost use Rattle.std.specs.Prelude.{IfOk, OnOk};
ghost use Rattle.td_typecode.specs.Values.{any_value};
ghost use Rattle.td_peers.specs.Scripts.{IsAllowed, AreAllowed};
ghost use Rattle.td_value.specs.Structures.{offer};
ghost use Rattle.td_walk.specs.Peering.{IsSmallOffer, HasSmallOffers, HasWritableOffers};

use crate::words::{nobody, text};
use std::alloc::Global;
use td_cdr::{Boxed, List, Memory, Octets, Order, Reader, read_whole};
use td_ior::make_ior;
use td_peers::{MemPeers, Scripted};
use td_value::{Any, Ior, Offer, TypeCode, Value, offer_size, read_any};
use td_walk::SubAnswer;

/// The object of a key; without a key a reference without profiles.
pub(crate) fn object(alloc: Global, key: &str) -> Result<Boxed<Ior>, Memory> {
    if key.is_empty() {
        return Boxed::new(alloc, nobody(alloc));
    }
    let object = make_ior(alloc, b"IDL:P:1.0", b"h", 9, key.as_bytes(), 0)?;
    Boxed::new(alloc, object)
}

/// A number as the value that an evaluator gives.
pub(crate) fn number(alloc: Global, n: u32) -> Result<Boxed<Any>, Memory> {
    Boxed::new(
        alloc,
        Any {
            code: TypeCode::ULong,
            value: Value::ULong(n),
        },
    )
}

/// An any that holds the unsigned long 7.
const SEVEN: [u8; 8] = [0, 0, 0, 5, 0, 0, 0, 7];

/// The value 7. It was read, so it can be written.
#[tactic(auto, using(crate::proofs::ReadValues::boxed_admitted))]
fn seven(alloc: Global) -> Result<Boxed<Any>, Memory>
    ensures { IfOk result (λ v. any_value.format.admits v) }
{
    let mut reader = Reader::new(&SEVEN, 0, Order::Big);
    match read_any(alloc, &mut reader) {
        Ok(any) => Boxed::new(alloc, any),
        Err(_) => Err(Memory),
    }
}

/// An offer of an object without an id and without profiles, with one property: a Floor of 3.
const OFFER: [u8; 36] = [
    0, 0, 0, 1, 0, 0, 0, 0, 0, 0, 0, 0, 0, 0, 0, 1, 0, 0, 0, 6, b'F', b'l', b'o', b'o', b'r', 0, 0,
    0, 0, 0, 0, 5, 0, 0, 0, 3,
];

/// The offer. It was read, so it can be written.
fn offer(alloc: Global) -> Result<Offer, Memory>
    ensures small { IfOk result IsSmallOffer }
    ensures writable { IfOk result (λ o. offer.format.admits o) }
{
    let mut reader = Reader::new(&OFFER, 0, Order::Big);
    match read_whole::<Offer>(alloc, &mut reader) {
        Ok(read) => small_offer(alloc, read),
        Err(_) => Err(Memory),
    }
}

/// The offer, where it isn't large.
fn small_offer(alloc: Global, read: Offer) -> Result<Offer, Memory>
    requires { offer.format.admits read }
    ensures small { IfOk result IsSmallOffer }
    ensures writable { IfOk result (λ o. offer.format.admits o) }
{
    let size = offer_size(alloc, &read.reference, &read.properties)?;
    if size > 6 << 20 {
        return Err(Memory);
    }
    Ok(read)
}

/// An answer of one offer.
#[tactic(auto, using(crate::proofs::Small::one_small, crate::proofs::Small::one_writable))]
pub(crate) fn offered(alloc: Global) -> Result<SubAnswer, Memory>
    ensures small { IfOk result HasSmallOffers }
    ensures writable { IfOk result HasWritableOffers }
{
    let mut offers = List::new(alloc);
    offers.push(offer(alloc)?)?;
    Ok(SubAnswer {
        offers,
        limits: List::new(alloc),
    })
}

/// An answer without offers, which this limited.
pub(crate) fn limited(alloc: Global, limit: &str) -> Result<SubAnswer, Memory>
    ensures small { IfOk result HasSmallOffers }
    ensures writable { IfOk result HasWritableOffers }
{
    let mut limits = List::new(alloc);
    limits.push(text(alloc, limit)?)?;
    Ok(SubAnswer {
        offers: List::new(alloc),
        limits,
    })
}

/// `failed`, `nobody`, which is a reference, `seven`, which is a value, or an answer: `offer`, or what limited it.
fn scripted(alloc: Global, word: &str) -> Result<Scripted, Memory>
    ensures { IfOk result IsAllowed }
{
    match word {
        "failed" => Ok(Scripted::Failed),
        "nobody" => Ok(Scripted::Reference(nobody(alloc))),
        "seven" => Ok(Scripted::Evaluated(seven(alloc)?)),
        "offer" => Ok(Scripted::Offers(offered(alloc)?)),
        _ => Ok(Scripted::Offers(limited(alloc, word)?)),
    }
}

/// One entry more, as `KEY:ENTRY`.
#[tactic(auto, using(td_peers::proofs::Smallness::small_next))]
fn add(alloc: Global, script: &mut List<(Octets, Scripted)>, word: &str) -> Result<(), Memory>
    requires { AreAllowed script.old }
    ensures { OnOk result (AreAllowed script.new) }
{
    let (key, entry) = word.split_once(':').unwrap_or((word, ""));
    let key = Octets::from_slice(alloc, key.as_bytes())?;
    script.push((key, scripted(alloc, entry)?))?;
    Ok(())
}

/// A script of entries with blanks between them.
fn script(alloc: Global, words: &str) -> Result<List<(Octets, Scripted)>, Memory>
    ensures { IfOk result AreAllowed }
{
    let mut script = List::new(alloc);
    for word in words.split(' ') {
        if !word.is_empty() {
            add(alloc, &mut script, word)?;
        }
    }
    Ok(script)
}

/// Peers with this script, whose call of this number fails; 0 is none.
pub(crate) fn peers(alloc: Global, words: &str, failing: u64) -> Result<MemPeers, Memory> {
    let script = script(alloc, words)?;
    let mut numbers = List::new(alloc);
    numbers.push(failing)?;
    Ok(MemPeers::new(alloc, script, numbers))
}
