//! A session over a wire: a link to a trader outside is followed, and a peer that dies costs its own offers alone.

use crate::commands::{PIPE, QUERY, named_printers, words};
use std::alloc::Global;
use std::test::Fail;
use td_cdr::{List, Octets};
use td_command::run;
use td_out::{MemSink, MemSource, MemWords};
use td_wire::MemWire;

/// A trader with an offer and a link to a trader outside.
const LINKED: &[u8] = b"address h 9\ntrader A\ntype Printer IDL:Printer:1.0\n\
    offer Printer ref:IDL:Printer:1.0,h,9,p1\n\
    link out ref:IDL:L:1.0,o,7,O ref:IDL:R:1.0,o,7,R always always\n";

/// The query as it is passed on: for all properties of a thousand offers, with four hops left, the link's rule, a made
/// identifier and one offer less to be returned than the trader's own thousand.
const PASSED_ON: &[u8] = b"GIOP\x01\0\0\0\0\0\x01\x48\
    \0\0\0\0\0\0\0\x01\x01\0\0\0\
    \0\0\0\x01O\0\0\0\
    \0\0\0\x06query\0\0\0\
    \0\0\0\0\
    \0\0\0\x08Printer\0\
    \0\0\0\x01\0\0\0\0\
    \0\0\0\x01\0\0\0\0\
    \0\0\0\x04\
    \0\0\0\x0ahop_count\0\0\0\
    \0\0\0\x05\0\0\0\x04\
    \0\0\0\x11link_follow_rule\0\0\0\0\
    \0\0\0\x11\0\0\0\x73\0\0\0\0\
    \0\0\0\x28IDL:omg.org/CosTrading/FollowOption:1.0\0\
    \0\0\0\x0dFollowOption\0\0\0\0\
    \0\0\0\x03\
    \0\0\0\x0blocal_only\0\0\
    \0\0\0\x0cif_no_local\0\
    \0\0\0\x07always\0\0\
    \0\0\0\x02\
    \0\0\0\x0brequest_id\0\0\
    \0\0\0\x13\0\0\0\x0c\0\0\0\0\0\0\0\x0a\0\0\0\0\
    \0\0\0\x09A\0\0\0\0\0\0\0\0\0\0\0\
    \0\0\0\x0creturn_card\0\
    \0\0\0\x05\0\0\x03\xe7\
    \0\0\0\x02\0\0\x03\xe8";

/// The reply of the trader outside, with one offer.
const THEIRS: &[u8] = b"GIOP\x01\0\0\x01\0\0\0\x58\
    \0\0\0\0\0\0\0\x01\0\0\0\0\
    \0\0\0\x01\
    \0\0\0\x10IDL:Printer:1.0\0\
    \0\0\0\x01\0\0\0\0\
    \0\0\0\x12\0\x01\0\0\0\0\0\x02o\0\0\x07\0\0\0\x02p3\
    \0\0\0\0\0\0\
    \0\0\0\x01\0\0\0\0\0\0\0\0\
    \0\0\0\0";

/// The trader's own reply, with its offer alone.
const OWN: &[u8] = b"GIOP\x01\0\0\x01\0\0\0\x58\
    \0\0\0\0\0\0\0\x01\0\0\0\0\
    \0\0\0\x01\
    \0\0\0\x10IDL:Printer:1.0\0\
    \0\0\0\x01\0\0\0\0\
    \0\0\0\x12\0\x01\0\0\0\0\0\x02h\0\0\x09\0\0\0\x02p1\
    \0\0\0\0\0\0\
    \0\0\0\x01\0\0\0\0\0\0\0\0\
    \0\0\0\0";

/// The trader's own reply, with its offer and the other's behind it.
const BOTH: &[u8] = b"GIOP\x01\0\0\x01\0\0\0\x90\
    \0\0\0\0\0\0\0\x01\0\0\0\0\
    \0\0\0\x02\
    \0\0\0\x10IDL:Printer:1.0\0\
    \0\0\0\x01\0\0\0\0\
    \0\0\0\x12\0\x01\0\0\0\0\0\x02h\0\0\x09\0\0\0\x02p1\
    \0\0\0\0\0\0\
    \0\0\0\x10IDL:Printer:1.0\0\
    \0\0\0\x01\0\0\0\0\
    \0\0\0\x12\0\x01\0\0\0\0\0\x02o\0\0\x07\0\0\0\x02p3\
    \0\0\0\0\0\0\
    \0\0\0\x01\0\0\0\0\0\0\0\0\
    \0\0\0\0";

/// A wire whose first connection gives these bytes; these of its calls fail.
fn wire_of(alloc: Global, given: &[u8], failing: &[u64]) -> Result<MemWire, Fail> {
    let mut answers = List::new(alloc);
    answers.push(Octets::from_slice(alloc, given)?)?;
    Ok(MemWire::new(alloc, answers, List::from_slice(alloc, failing)?))
}

/// Whether a session over this wire, with the linked trader and the query, ends as closed with this reply alone.
fn answers(alloc: Global, wire: &mut MemWire, reply: &[u8]) -> Result<bool, Fail> {
    let args = words(alloc, PIPE)?;
    let mut files = named_printers(alloc, Octets::from_slice(alloc, LINKED)?)?;
    let input = Octets::from_slice(alloc, QUERY)?;
    let mut source = MemSource::new(input, List::new(alloc), List::new(alloc));
    let mut sink = MemSink::new(alloc, List::new(alloc));
    let mut faults = MemSink::new(alloc, List::new(alloc));
    let mut words = MemWords::new(List::new(alloc));
    let status = run(
        alloc,
        args.as_slice(),
        &mut files,
        &mut source,
        &mut sink,
        &mut faults,
        wire,
        &mut words,
    );
    Ok(status == 0 && sink.written() == reply && faults.written().is_empty())
}

/// Whether the query was passed on over the one connection, once.
fn was_asked(wire: &MemWire) -> bool {
    wire.written(0) == Some(PASSED_ON) && wire.written(1).is_none()
}

/// Whether the query is passed on, and answered so where the trader outside gives these bytes.
fn asks_and_answers(alloc: Global, given: &[u8], reply: &[u8]) -> Result<bool, Fail> {
    let mut wire = wire_of(alloc, given, &[])?;
    let good = answers(alloc, &mut wire, reply)?;
    Ok(good && was_asked(&wire))
}

#[test]
fn a_link_is_followed_over_the_wire(rt: HostRuntime) -> Result<(), Fail> {
    assert!(rt; asks_and_answers(rt.alloc(), THEIRS, BOTH)?);
    Ok(())
}

#[test]
fn a_connection_that_ends_early_costs_the_other_offers(rt: HostRuntime) -> Result<(), Fail> {
    for size in [0, 11, 12, 50, THEIRS.len() - 1] {
        assert!(rt; asks_and_answers(rt.alloc(), &THEIRS[..size], OWN)?);
    }
    assert!(rt; asks_and_answers(rt.alloc(), b"HTTP/1.0 400 Bad Request\r\n\r\n", OWN)?);
    Ok(())
}

/// Whether the query is answered with the own offer where no connection can be made.
fn answers_alone(alloc: Global) -> Result<bool, Fail> {
    let mut wire = wire_of(alloc, THEIRS, &[1])?;
    let good = answers(alloc, &mut wire, OWN)?;
    Ok(good && wire.written(0).is_none())
}

#[test]
fn a_trader_that_is_not_there_costs_its_offers(rt: HostRuntime) -> Result<(), Fail> {
    assert!(rt; answers_alone(rt.alloc())?);
    Ok(())
}
