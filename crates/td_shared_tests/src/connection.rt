//! A connection to a server that shares its desk.

ghost use Rattle.td_cell.specs.Passes.{Belongs, knowledge};
ghost use Rattle.td_desk.specs.OrderLaws.{in_order_prop};
ghost use Rattle.td_desk.specs.Sharing.{InOrder};

use crate::opening::Server;
use std::alloc::Global;
use std::sync::Wait;
use td_cdr::{List, Memory, Octets};
use td_desk::{DeskPass, SharedDesk};
use td_out::{MemSink, MemSource, MemWords};
use td_peers::MemPeers;
use td_session::End;
use td_shared::{KeptSharedJournal, SharedEntry, serve_shared};
use td_walk::Peers;

/// What a connection has of the desk, and what was noted of its messages.
#[derive(Drop)]
pub struct Connection<'d> {
    pub desk: &'d SharedDesk,
    pub pass: DeskPass,
    pub noted: KeptSharedJournal,
    ghost own: { Belongs pass desk.now.cell },
    ghost order: { InOrder (knowledge pass) } by { in_order_prop (knowledge pass) },
}

/// Serves what a client sends over a connection, with these peers, and answers how that ends.
pub fn serves<'d, R: Wait, P: Peers>(
    rt: &R,
    alloc: Global,
    server: &mut Server,
    connection: &mut Connection<'d>,
    peers: &mut P,
    sent: &[u8],
    sink: &mut MemSink,
) -> Result<End, Memory> {
    let sent = Octets::from_slice(alloc, sent)?;
    let mut source = MemSource::new(sent, List::new(alloc), List::new(alloc));
    let mut words = MemWords::new(List::new(alloc));
    Ok(serve_shared(
        rt,
        alloc,
        &mut server.solo,
        connection.desk,
        &mut connection.pass,
        &server.home,
        &mut connection.noted,
        &mut source,
        sink,
        peers,
        &mut words,
    ))
}

/// What a client that sends these bytes is given, where the stream ends as closed. No peer can be reached.
pub fn replies<'d, R: Wait>(
    rt: &R,
    alloc: Global,
    server: &mut Server,
    connection: &mut Connection<'d>,
    sent: &[u8],
) -> Result<Vec<u8>, Memory> {
    let mut sink = MemSink::new(alloc, List::new(alloc));
    let mut peers = MemPeers::new(alloc, List::new(alloc), List::new(alloc));
    let end = serves(rt, alloc, server, connection, &mut peers, sent, &mut sink)?;
    let mut replies = Vec::new(alloc);
    if end == End::Closed {
        replies.extend_from_slice(sink.written())?;
    }
    Ok(replies)
}

/// Whether a client that sends these bytes is given those, and the stream ends as closed. No peer can be reached.
pub fn is_given<'d, R: Wait>(
    rt: &R,
    alloc: Global,
    server: &mut Server,
    connection: &mut Connection<'d>,
    sent: &[u8],
    given: &[u8],
) -> Result<bool, Memory> {
    let mut peers = MemPeers::new(alloc, List::new(alloc), List::new(alloc));
    is_given_with(rt, alloc, server, connection, &mut peers, sent, given)
}

/// The same with these peers.
pub fn is_given_with<'d, R: Wait, P: Peers>(
    rt: &R,
    alloc: Global,
    server: &mut Server,
    connection: &mut Connection<'d>,
    peers: &mut P,
    sent: &[u8],
    given: &[u8],
) -> Result<bool, Memory> {
    let mut sink = MemSink::new(alloc, List::new(alloc));
    let end = serves(rt, alloc, server, connection, peers, sent, &mut sink)?;
    Ok(end == End::Closed && sink.written() == given)
}

/// The place of a call in the desk's history; none of a message that the traders served.
fn place_of(entry: &SharedEntry) -> Option<u64> {
    match entry {
        SharedEntry::Desk(place) => Some(*place),
        SharedEntry::Session(_) => None,
    }
}

/// Whether so much was noted, in order.
pub fn is_noted<'d>(connection: &Connection<'d>, places: &[Option<u64>]) -> bool {
    let noted = connection.noted.entries();
    noted.len() == places.len()
        && noted
            .iter()
            .zip(places.iter())
            .all(|(entry, place)| place_of(entry) == *place)
}
