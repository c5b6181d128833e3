//! Rings of one to three identifiers, and identifiers that are made.

ghost use Rattle.std.specs.Prelude.{◌≡◌, ◌<◌, ◌≤◌, None};
ghost use Rattle.td_cdr.specs.Marks.{remembered};
ghost use Rattle.td_marks.specs.Keeping.{most_kept};

use std::alloc::Global;
use std::process::Abort;
use std::test::Fail;
use td_cdr::Memory;
use td_marks::Ring;

/// How many marks are made here at most.
const MOST: u64 = 100;

/// How a query begins: the number of its mark, or that of the mark under which it is remembered.
#[derive(Clone, Copy, PartialEq, Eq)]
enum Begun {
    Search(u64),
    Repeat(u64),
    Full,
}

/// Whether queries one after the other, each with its identifier, a digit, begin as is said.
fn begins(alloc: Global, size: u32, queries: &[(u8, Begun)]) -> Result<bool, Memory>
    requires { (0 < size) × (size ≤ most_kept) }
{
    let mut ring = Ring::new(alloc, size)?;
    let passed = begins_each(alloc, &mut ring, size, queries);
    drop(ring);
    passed
}

fn begins_each(
    alloc: Global,
    ring: &mut Ring,
    size: u32,
    queries: &[(u8, Begun)],
) -> Result<bool, Memory> {
    if ring.size() != size {
        return Ok(false);
    }
    for (identifier, want) in queries {
        let begun = begin(alloc, ring, &[*identifier])?;
        if begun != *want || ring.len() > size {
            return Ok(false);
        }
    }
    Ok(true)
}

/// Begins a query that states its identifier.
fn begin(alloc: Global, ring: &mut Ring, identifier: &[u8]) -> Result<Begun, Memory> {
    match ring.remembered(identifier) {
        Some(number) => Ok(Begun::Repeat(number)),
        None => search(alloc, ring, identifier),
    }
}

fn search(alloc: Global, ring: &mut Ring, identifier: &[u8]) -> Result<Begun, Memory>
    requires { remembered ring.old identifier.now ≡ None }
{
    if ring.count() >= MOST {
        return Ok(Begun::Full);
    }
    let counter = ring.counter();
    let number = ring.mark(alloc, identifier, counter)?;
    Ok(Begun::Search(number))
}

/// Begins a query that states none: the identifier that is made, as the value in its last octet,
/// where the stem stands before it.
fn begin_made(alloc: Global, ring: &mut Ring, stem: &[u8]) -> Result<Option<u8>, Memory> {
    if ring.count() >= MOST {
        return Ok(None);
    }
    let made = ring.make(alloc, stem)?;
    let _number = ring.mark(alloc, made.identifier.as_slice(), made.counter)?;
    Ok(value_of(made.identifier.as_slice(), stem))
}

/// The value of an identifier that is made of this stem, where it is below 256.
fn value_of(identifier: &[u8], stem: &[u8]) -> Option<u8> {
    match identifier.strip_prefix(stem) {
        Some([0, 0, 0, 0, 0, 0, 0, value]) => Some(*value),
        _ => None,
    }
}

/// A ring of one remembers the last identifier alone.
#[test]
fn one(rt: HostRuntime) -> Result<(), Fail> {
    let queries = [
        (b'1', Begun::Search(1)),
        (b'1', Begun::Repeat(1)),
        (b'2', Begun::Search(2)),
        (b'1', Begun::Search(3)),
    ];
    assert!(rt; begins(rt.alloc(), 1, &queries)?);
    Ok(())
}

/// Of three identifiers a ring of two has forgotten the first, and so searches under it again.
#[test]
fn two(rt: HostRuntime) -> Result<(), Fail> {
    let queries = [
        (b'1', Begun::Search(1)),
        (b'2', Begun::Search(2)),
        (b'3', Begun::Search(3)),
        (b'1', Begun::Search(4)),
        (b'3', Begun::Repeat(3)),
        (b'2', Begun::Search(5)),
    ];
    assert!(rt; begins(rt.alloc(), 2, &queries)?);
    Ok(())
}

/// A ring of three has not.
#[test]
fn three(rt: HostRuntime) -> Result<(), Fail> {
    let queries = [
        (b'1', Begun::Search(1)),
        (b'2', Begun::Search(2)),
        (b'3', Begun::Search(3)),
        (b'1', Begun::Repeat(1)),
        (b'4', Begun::Search(4)),
        (b'1', Begun::Search(5)),
        (b'3', Begun::Repeat(3)),
    ];
    assert!(rt; begins(rt.alloc(), 3, &queries)?);
    Ok(())
}

/// Whether so many marks were made, and this counter is next.
fn stands(ring: &Ring, count: u64, counter: u64) -> bool {
    ring.count() == count && ring.counter() == counter
}

/// Made identifiers count from 0, and those that are stated leave the counter as it is.
#[test]
fn made(rt: HostRuntime) -> Result<(), Fail> {
    assert!(rt; makes_in_order(rt.alloc())?);
    Ok(())
}

fn makes_in_order(alloc: Global) -> Result<bool, Memory> {
    let mut ring = Ring::new(alloc, 2)?;
    let passed = makes_three(alloc, &mut ring);
    drop(ring);
    passed
}

fn makes_three(alloc: Global, ring: &mut Ring) -> Result<bool, Memory> {
    Ok(makes_the_first(alloc, ring)? && makes_two_more(alloc, ring)? && forgets_one(alloc, ring)?)
}

fn makes_the_first(alloc: Global, ring: &mut Ring) -> Result<bool, Memory> {
    Ok(
        begin_made(alloc, ring, b"s")? == Some(0)
            && begin(alloc, ring, b"q")? == Begun::Search(2)
            && stands(ring, 2, 1),
    )
}

fn makes_two_more(alloc: Global, ring: &mut Ring) -> Result<bool, Memory> {
    Ok(begin_made(alloc, ring, b"s")? == Some(1) && begin_made(alloc, ring, b"")? == Some(2))
}

fn forgets_one(alloc: Global, ring: &mut Ring) -> Result<bool, Memory> {
    Ok(
        begin(alloc, ring, b"s\x00\x00\x00\x00\x00\x00\x00\x01")? == Begun::Repeat(3)
            && begin(alloc, ring, b"s\x00\x00\x00\x00\x00\x00\x00\x00")? == Begun::Search(5)
            && stands(ring, 5, 3)
            && ring.len() == 2,
    )
}

/// A value is skipped while its identifier is remembered, and is not come back to.
#[test]
fn skipped(rt: HostRuntime) -> Result<(), Fail> {
    assert!(rt; skips(rt.alloc())?);
    Ok(())
}

fn skips(alloc: Global) -> Result<bool, Memory> {
    let mut ring = Ring::new(alloc, 3)?;
    let passed = skips_three(alloc, &mut ring);
    drop(ring);
    passed
}

fn skips_three(alloc: Global, ring: &mut Ring) -> Result<bool, Memory> {
    Ok(remembers_three(alloc, ring)? && makes_behind(alloc, ring)?)
}

fn remembers_three(alloc: Global, ring: &mut Ring) -> Result<bool, Memory> {
    Ok(
        begin(alloc, ring, b"s\x00\x00\x00\x00\x00\x00\x00\x01")? == Begun::Search(1)
            && begin(alloc, ring, b"s\x00\x00\x00\x00\x00\x00\x00\x00")? == Begun::Search(2)
            && begin(alloc, ring, b"s\x00\x00\x00\x00\x00\x00\x00\x02")? == Begun::Search(3)
            && ring.counter() == 0,
    )
}

fn makes_behind(alloc: Global, ring: &mut Ring) -> Result<bool, Memory> {
    Ok(
        begin_made(alloc, ring, b"s")? == Some(3)
            && ring.counter() == 4
            && begin_made(alloc, ring, b"t")? == Some(4)
            && begin_made(alloc, ring, b"s")? == Some(5),
    )
}
