//! The places of a slab, and its chains.

ghost use Rattle.std.specs.Prelude.{◌≡◌, ◌<◌, ◌≤◌, ◌+◌, IfOk};
ghost use Rattle.td_store.specs.Slabs.{held};

use std::alloc::Global;
use std::marker::Brand;
use std::process::Abort;
use std::sync::ledger::{Blank, Ledger};
use std::test::Fail;
use td_cdr::Memory;
use td_store::{Slab, Steps};

/// Two values are put, the first is taken, one more is put: it gets the place that was freed, and stands
/// at the end of its chains.
#[test]
fn a_freed_place_is_used_again(rt: HostRuntime) -> Result<(), Fail> {
    let alloc = rt.alloc();
    assert!(rt; uses_again(alloc)?);
    Ok(())
}

fn uses_again(alloc: Global) -> Result<bool, Memory> {
    let mut slab = with_chains(alloc)?;
    let passed = used_again::<Brand>(&mut slab, Blank::new(1));
    drop(slab);
    passed
}

fn used_again<L: Ledger>(slab: &mut Slab<u32>, blank: Blank) -> Result<bool, Memory>
    requires name { blank.name ≡ L.name }
    requires parts { blank.parts ≡ L.parts }
    requires one { L.parts ≡ 1 }
    requires none { held slab.old.slots ≡ 0 }
{
    let mut steps = Steps::<L>::new(blank);
    let first = put(slab, 10)?;
    let second = put(slab, 20)?;
    let taken = take(slab, first);
    let third = put(slab, 30)?;
    Ok(
        taken == Some(10)
            && third == first
            && slab.head(0, &mut steps) == Some(second)
            && reads(slab, 0, second, 20, Some(third), &mut steps)
            && reads(slab, 1, third, 30, None, &mut steps),
    )
}

/// A value leaves both of its chains from their middle, and the last one leaves them empty.
#[test]
fn a_value_leaves_both_chains(rt: HostRuntime) -> Result<(), Fail> {
    let alloc = rt.alloc();
    assert!(rt; leaves(alloc)?);
    Ok(())
}

fn leaves(alloc: Global) -> Result<bool, Memory> {
    let mut slab = with_chains(alloc)?;
    let passed = left::<Brand>(&mut slab, Blank::new(1));
    drop(slab);
    passed
}

fn left<L: Ledger>(slab: &mut Slab<u32>, blank: Blank) -> Result<bool, Memory>
    requires name { blank.name ≡ L.name }
    requires parts { blank.parts ≡ L.parts }
    requires one { L.parts ≡ 1 }
    requires none { held slab.old.slots ≡ 0 }
{
    let mut steps = Steps::<L>::new(blank);
    let first = put(slab, 10)?;
    let second = put(slab, 20)?;
    let third = put(slab, 30)?;
    Ok(
        take(slab, second) == Some(20)
            && take(slab, second) == None
            && reads(slab, 0, first, 10, Some(third), &mut steps)
            && reads(slab, 1, first, 10, Some(third), &mut steps)
            && take(slab, third) == Some(30)
            && reads(slab, 0, first, 10, None, &mut steps)
            && take(slab, first) == Some(10)
            && slab.head(0, &mut steps) == None
            && slab.head(1, &mut steps) == None,
    )
}

/// No values, and two chains.
fn with_chains(alloc: Global) -> Result<Slab<u32>, Memory>
    ensures none { IfOk result (λ s. held s.slots ≡ 0) }
{
    let mut slab = Slab::new(alloc)?;
    slab.add_chain()?;
    slab.add_chain()?;
    Ok(slab)
}

/// Puts a value on both chains.
fn put(slab: &mut Slab<u32>, value: u32) -> Result<u32, Memory>
    requires room { held slab.old.slots < 1000 }
    ensures held { held slab.new.slots ≤ held slab.old.slots + 1 }
{
    if slab.chain_count() != 2 {
        return Err(Memory);
    }
    match slab.put(0, 1, value) {
        Ok(place) => Ok(place),
        Err(_) => Err(Memory),
    }
}

fn take(slab: &mut Slab<u32>, place: u32) -> Option<u32>
    ensures held { held slab.new.slots ≤ held slab.old.slots }
{
    slab.take(place)
}

/// Whether a place on a chain has this value, and this place after it.
fn reads<L: Ledger>(
    slab: &Slab<u32>,
    chain: u32,
    place: u32,
    value: u32,
    next: Option<u32>,
    steps: &mut Steps<L>,
) -> bool {
    match slab.read(chain, place, steps) {
        None => false,
        Some((found, after)) => *found == value && after == next,
    }
}
