//! Peers outside, by a script of a few words.

ghost use Rattle.std.specs.Prelude.{IfOk, OnOk};
ghost use Rattle.td_typecode.specs.References.{reference};
ghost use Rattle.td_typecode.specs.Values.{any_value};
ghost use Rattle.td_peers.specs.Scripts.{AreAllowed, IsAllowed};
ghost use Rattle.td_walk.specs.Peering.{HasSmallOffers, HasWritableOffers};

use std::alloc::Global;
use td_cdr::{Boxed, List, Memory, Octets, Order, Reader, Text};
use td_ior::make_ior;
use td_peers::{MemPeers, Scripted};
use td_value::{Any, Ior, read_any};
use td_walk::SubAnswer;

/// An any that holds the unsigned long 2.
const TWO: [u8; 8] = [0, 0, 0, 5, 0, 0, 0, 2];

/// The value 2. It was read, so it can be written.
#[tactic(auto, using(crate::proofs::ReadValues::boxed_admitted))]
fn two(alloc: Global) -> Result<Boxed<Any>, Memory>
    ensures { IfOk result (λ v. any_value.format.admits v) }
{
    let mut reader = Reader::new(&TWO, 0, Order::Big);
    match read_any(alloc, &mut reader) {
        Ok(any) => Boxed::new(alloc, any),
        Err(_) => Err(Memory),
    }
}

/// No offers, and the limit on hops.
fn limited(alloc: Global) -> Result<SubAnswer, Memory>
    ensures small { IfOk result HasSmallOffers }
    ensures writable { IfOk result HasWritableOffers }
{
    let mut limits = List::new(alloc);
    limits.push(Text::from_slice(alloc, b"hop_count")?)?;
    Ok(SubAnswer {
        offers: List::new(alloc),
        limits,
    })
}

/// The reference to the object of this key.
#[tactic(auto, using(crate::proofs::MadeReferences::made_admitted))]
fn reference(alloc: Global, key: &[u8]) -> Result<Ior, Memory>
    ensures { IfOk result (λ r. reference.format.admits r) }
{
    make_ior(alloc, b"IDL:R:1.0", b"x", 9, key, 0)
}

/// `two`, which is a value, `limited`, an answer without offers, or a reference, by its key.
fn scripted(alloc: Global, word: &str) -> Result<Scripted, Memory>
    ensures { IfOk result IsAllowed }
{
    match word {
        "two" => Ok(Scripted::Evaluated(two(alloc)?)),
        "limited" => Ok(Scripted::Offers(limited(alloc)?)),
        key => Ok(Scripted::Reference(reference(alloc, key.as_bytes())?)),
    }
}

/// One entry more, as `KEY:ENTRY`.
#[tactic(auto, using(td_peers::proofs::Smallness::small_next))]
fn add(alloc: Global, script: &mut List<(Octets, Scripted)>, word: &str) -> Result<(), Memory>
    requires { AreAllowed script.old }
    ensures { OnOk result (AreAllowed script.new) }
{
    let (key, entry) = word.split_once(':').unwrap_or((word, ""));
    let key = Octets::from_slice(alloc, key.as_bytes())?;
    script.push((key, scripted(alloc, entry)?))?;
    Ok(())
}

/// Peers that can't be reached.
pub fn nobody(alloc: Global) -> MemPeers {
    MemPeers::new(alloc, List::new(alloc), List::new(alloc))
}

/// The evaluator of the key `q`, which answers 2.
pub fn evaluator(alloc: Global) -> Result<MemPeers, Memory> {
    let mut script = List::new(alloc);
    add(alloc, &mut script, "q:two")?;
    Ok(MemPeers::new(alloc, script, List::new(alloc)))
}

/// A trader Z: its Lookup names the Register, and answers a query; the Register resolves a name.
pub fn trader_outside(alloc: Global) -> Result<MemPeers, Memory> {
    let mut script = List::new(alloc);
    add(alloc, &mut script, "Z/L:Z/R")?;
    add(alloc, &mut script, "Z/R:Y/R")?;
    add(alloc, &mut script, "Z/L:limited")?;
    Ok(MemPeers::new(alloc, script, List::new(alloc)))
}
