//! A query of another trader: over a connection of its own, and where its iterator is elsewhere, over one more.

ghost use Rattle.std.specs.Prelude.{◌≡◌, ◌≤◌, ◌+◌, [], Some, length, option_map, IfOk, IsTrue};
ghost use Rattle.td_call.specs.Calling.{fresh_stream};
ghost use Rattle.td_call.specs.Moving.{StaysDisconnected};
ghost use Rattle.td_call.specs.Replies.{reply_limit};
ghost use Rattle.td_remote_query.specs.Querying.{QueriesTrader, AsksBy, AsksAt, CanGrow, DrainEndsSo, FindsFitOffers};
ghost use Rattle.td_remote_query.specs.Querying.{FindsSo};
ghost use Rattle.td_remote_query.specs.Querying.{GivesFitOffers, HasDrained, HasQueried, asked_first, asked_requests};
ghost use Rattle.td_remote_query.specs.Querying.{drained_behind, found_ends, found_requests, is_at, drain_iterator};
ghost use Rattle.td_remote_query.specs.Querying.{iterator_requests, left_ends, left_requests, reply_ends};
ghost use Rattle.td_remote_query.specs.Querying.{reply_requests};
ghost use Rattle.td_remote_query.specs.Querying.{requests_here, second_id};
ghost use Rattle.td_remote_query.specs.Draining.{AreWritable, HasWritable};
ghost use Rattle.td_remote_query.specs.Turns.{bytes_limit};
ghost use Rattle.td_remote_query.specs.Writing.{AskLeaves, AskLeavesAt, AskLeavesBy, LeavesFront, WritesBy};
ghost use Rattle.td_remote_query.specs.Writing.{gives_all, is_whole};
ghost use Rattle.td_ior.specs.Profiles.{iiop_of};
ghost use Rattle.td_wire.specs.Connections.{open_connection};

use crate::draining::drain;
use crate::gathered::{ConnectionResult, Gathered};
use crate::joining::may_join;
use std::alloc::Global;
use td_call::{connect, exchange_call, finish, profile_of};
use td_cdr::{List, Shared};
use td_giop::Framer;
use td_ior::{Iiop, is_nil};
use td_ops::{Answered, Call, Query, Reply};
use td_value::Ior;
use td_walk::{PeerFault, SubAnswer};
use td_wire::Wire;

/// The id of the first request over a connection.
const FIRST_ID: u32 = 1;

/// Asks another trader over a connection of its own: writes the query, and reads its reply. An iterator is drained by
/// `next_n(1000)`, with request ids 2, 3 and so on, and then destroyed: over the same connection where its profile
/// names the trader's host, byte by byte, and its port, and else over one more connection, to there, which is made once
/// the first has ended. No connection stands when the query is done, whatever comes of it. Each offer that is given can
/// be written.
///
/// # Errors
///
/// - `Wire` where the wire's count of faults rose, or its bytes ended before a message was whole.
/// - `Grammar` where the target or the iterator has no IIOP profile, where the bytes are no reply to the request, and
///   for more than 1,000,000 offers, an offer of more than 6 MiB and an empty batch with TRUE.
/// - `Memory` when out of memory.
pub fn ask_over<L: Wire>(
    alloc: Global,
    wire: &mut L,
    target: &Ior,
    q: &Query,
) -> Result<Gathered, PeerFault>
    ensures same { L.same wire.old wire.new }
    ensures asks { QueriesTrader target.now q.now (L.content wire.old) (L.content wire.new)
        (L.faults wire.old)
        (L.faults wire.new) result }
    ensures leaves { AskLeaves target.now q.now (L.content wire.old) (L.content wire.new) }
    ensures disconnected { StaysDisconnected (L.content wire.old) (L.content wire.new) }
    ensures later { L.faults wire.old ≤ L.faults wire.new }
    ensures fit { IfOk result (λ g. GivesFitOffers g) }
{
    match Shared::of(alloc, q) {
        Err(_) => Err(PeerFault::Memory),
        Ok(copy) => {
            let call = Call::Query(copy);
            let answer = ask_call(alloc, wire, target, &call);
            drop(call);
            answer
        }
    }
}

/// Asks by a call of `query`.
fn ask_call<L: Wire>(
    alloc: Global,
    wire: &mut L,
    target: &Ior,
    call: &Call,
) -> Result<Gathered, PeerFault>
    ensures same { L.same wire.old wire.new }
    ensures asks { AsksBy (iiop_of target.now) call.now (L.content wire.old) (L.content wire.new)
        (L.faults wire.old) (L.faults wire.new) result }
    ensures leaves { AskLeavesBy target.now call.now (L.content wire.old) (L.content wire.new) }
    ensures disconnected { StaysDisconnected (L.content wire.old) (L.content wire.new) }
    ensures later { L.faults wire.old ≤ L.faults wire.new }
    ensures fit { IfOk result (λ g. GivesFitOffers g) }
{
    match profile_of(alloc, target) {
        Err(fault) => Err(fault),
        Ok(profile) => ask_at(alloc, wire, &profile, call),
    }
}

/// Asks a trader that is reached there.
fn ask_at<L: Wire>(
    alloc: Global,
    wire: &mut L,
    trader: &Iiop,
    call: &Call,
) -> Result<Gathered, PeerFault>
    ensures same { L.same wire.old wire.new }
    ensures asks { AsksAt trader.now call.now (L.content wire.old) (L.content wire.new)
        (L.faults wire.old) (L.faults wire.new) result }
    ensures leaves { AskLeavesAt trader.now call.now (L.content wire.old) (L.content wire.new) }
    ensures disconnected { StaysDisconnected (L.content wire.old) (L.content wire.new) }
    ensures later { L.faults wire.old ≤ L.faults wire.new }
    ensures fit { IfOk result (λ g. GivesFitOffers g) }
{
    match ask_first(alloc, wire, trader, call) {
        Err(fault) => Err(fault),
        Ok(ConnectionResult::All(gathered)) => Ok(gathered),
        Ok(ConnectionResult::Elsewhere { profile, found }) => drain_there(
            alloc, wire, &profile, found,
        ),
    }
}

/// Asks a trader over a connection of its own, which has ended then. An iterator that is elsewhere isn't asked.
fn ask_first<L: Wire>(
    alloc: Global,
    wire: &mut L,
    trader: &Iiop,
    call: &Call,
) -> Result<ConnectionResult, PeerFault>
    ensures same { L.same wire.old wire.new }
    ensures finds { FindsSo (asked_first trader.now call.now) []
        (option_map (open_connection trader.now.host trader.now.port) (L.content wire.old))
        (L.faults wire.old) (L.faults wire.new) result }
    ensures queried { IsTrue (is_whole result)
        → HasQueried trader.now call.now (L.content wire.old) (L.content wire.new) }
    ensures leaves { LeavesFront (asked_requests trader.now call.now) trader.now
        (L.content wire.old)
        (L.content wire.new) }
    ensures disconnected { StaysDisconnected (L.content wire.old) (L.content wire.new) }
    ensures later { L.faults wire.old ≤ L.faults wire.new }
    ensures fit { IfOk result (λ f. FindsFitOffers f) }
{
    match connect(alloc, wire, trader) {
        Err(fault) => Err(fault),
        Ok(framer) => {
            let mut framer = framer;
            let answer = ask_through(alloc, wire, &mut framer, trader, call);
            finish(wire, &mut framer, is_whole(&answer));
            answer
        }
    }
}

/// Drains an iterator behind what was found, over a connection to where it is, which has ended then.
fn drain_there<L: Wire>(
    alloc: Global,
    wire: &mut L,
    profile: &Iiop,
    found: SubAnswer,
) -> Result<Gathered, PeerFault>
    requires grows { CanGrow found.offers }
    ensures same { L.same wire.old wire.new }
    ensures ends { DrainEndsSo (drained_behind found) []
        (option_map (open_connection profile.now.host profile.now.port) (L.content wire.old))
        (L.faults wire.old) (L.faults wire.new) result }
    ensures drained { IsTrue (gives_all result) → HasDrained profile.now (length found.offers)
        (L.content wire.old) (L.content wire.new) }
    ensures leaves { LeavesFront (iterator_requests profile.now (length found.offers)) profile.now
        (L.content wire.old) (L.content wire.new) }
    ensures disconnected { StaysDisconnected (L.content wire.old) (L.content wire.new) }
    ensures later { L.faults wire.old ≤ L.faults wire.new }
    ensures fit { IfOk result (λ g. GivesFitOffers g) }
{
    match connect(alloc, wire, profile) {
        Err(fault) => Err(fault),
        Ok(framer) => {
            let mut framer = framer;
            let answer = drain_behind(alloc, wire, &mut framer, profile, found);
            finish(wire, &mut framer, gives_all(&answer));
            answer
        }
    }
}

/// Whether all offers were given, and so no iterator is left.
fn gives_all(answer: &Result<Gathered, PeerFault>) -> bool
    ensures { result ≡ gives_all answer.now }
{
    match answer {
        Ok(Gathered::Offers(_)) => true,
        Ok(Gathered::Refused(_)) => false,
        Err(_) => false,
    }
}

/// Whether nothing is owed over the query's own connection: all offers were given, or the iterator is elsewhere.
fn is_whole(answer: &Result<ConnectionResult, PeerFault>) -> bool
    ensures { result ≡ is_whole answer.now }
{
    match answer {
        Ok(ConnectionResult::All(Gathered::Offers(_))) => true,
        Ok(ConnectionResult::All(Gathered::Refused(_))) => false,
        Ok(ConnectionResult::Elsewhere { .. }) => true,
        Err(_) => false,
    }
}

/// Asks over a connection over which nothing came yet.
fn ask_through<L: Wire>(
    alloc: Global,
    wire: &mut L,
    framer: &mut Framer,
    trader: &Iiop,
    call: &Call,
) -> Result<ConnectionResult, PeerFault>
    requires { framer.old ≡ fresh_stream }
    ensures same { L.same wire.old wire.new }
    ensures finds { FindsSo (asked_first trader.now call.now) [] (L.content wire.old)
        (L.faults wire.old) (L.faults wire.new) result }
    ensures writes { WritesBy (is_whole result) (asked_requests trader.now call.now) []
        (L.content wire.old) (L.content wire.new) }
    ensures later { L.faults wire.old ≤ L.faults wire.new }
    ensures fit { IfOk result (λ f. FindsFitOffers f) }
{
    match exchange_call(alloc, wire, framer, FIRST_ID, trader, call) {
        Err(fault) => Err(fault),
        Ok(Answered::Done(reply)) => gather(alloc, wire, framer, trader, reply),
        Ok(Answered::User(id)) => Ok(ConnectionResult::All(Gathered::Refused(Answered::User(id)))),
        Ok(
            Answered::System {
                id,
                minor,
                completion,
            },
        ) => Ok(ConnectionResult::All(Gathered::Refused(Answered::System {
            id,
            minor,
            completion,
        }))),
    }
}

/// Gathers the offers of a query's reply and of its iterator, where that is at the trader's place.
fn gather<L: Wire>(
    alloc: Global,
    wire: &mut L,
    framer: &mut Framer,
    trader: &Iiop,
    reply: Reply,
) -> Result<ConnectionResult, PeerFault>
    requires limit { framer.old.limit ≡ reply_limit }
    requires room { framer.old.start + length framer.old.rest ≤ bytes_limit second_id }
    requires writable { HasWritable reply }
    ensures same { L.same wire.old wire.new }
    ensures finds { FindsSo (reply_ends trader.now reply) framer.old.rest (L.content wire.old)
        (L.faults wire.old) (L.faults wire.new) result }
    ensures writes { WritesBy (is_whole result) (reply_requests trader.now reply) framer.old.rest
        (L.content wire.old) (L.content wire.new) }
    ensures later { L.faults wire.old ≤ L.faults wire.new }
    ensures fit { IfOk result (λ f. FindsFitOffers f) }
{
    match reply {
        Reply::Found {
            offers,
            iterator,
            limits,
        } => {
            let found = SubAnswer { offers, limits };
            gather_found(alloc, wire, framer, trader, &iterator, found)
        }
        other => {
            drop(other);
            Err(PeerFault::Grammar)
        }
    }
}

/// Gathers what was found, and the offers of its iterator behind it.
fn gather_found<L: Wire>(
    alloc: Global,
    wire: &mut L,
    framer: &mut Framer,
    trader: &Iiop,
    iterator: &Ior,
    found: SubAnswer,
) -> Result<ConnectionResult, PeerFault>
    requires limit { framer.old.limit ≡ reply_limit }
    requires room { framer.old.start + length framer.old.rest ≤ bytes_limit second_id }
    requires writable { AreWritable found.offers }
    ensures same { L.same wire.old wire.new }
    ensures finds { FindsSo (found_ends trader.now iterator.now found) framer.old.rest
        (L.content wire.old) (L.faults wire.old) (L.faults wire.new) result }
    ensures writes { WritesBy (is_whole result)
        (found_requests trader.now iterator.now found.offers) framer.old.rest (L.content wire.old)
        (L.content wire.new) }
    ensures later { L.faults wire.old ≤ L.faults wire.new }
    ensures fit { IfOk result (λ f. FindsFitOffers f) }
{
    match may_join(alloc, 0, found.offers.as_slice()) {
        Err(_) => Err(PeerFault::Memory),
        Ok(false) => Err(PeerFault::Grammar),
        Ok(true) => gather_more(alloc, wire, framer, trader, iterator, found),
    }
}

/// Gathers the offers of an iterator behind those that may be gathered, unless its reference is nil.
fn gather_more<L: Wire>(
    alloc: Global,
    wire: &mut L,
    framer: &mut Framer,
    trader: &Iiop,
    iterator: &Ior,
    found: SubAnswer,
) -> Result<ConnectionResult, PeerFault>
    requires limit { framer.old.limit ≡ reply_limit }
    requires room { framer.old.start + length framer.old.rest ≤ bytes_limit second_id }
    requires grows { CanGrow found.offers }
    ensures same { L.same wire.old wire.new }
    ensures finds { FindsSo (left_ends trader.now iterator.now found) framer.old.rest
        (L.content wire.old) (L.faults wire.old) (L.faults wire.new) result }
    ensures writes { WritesBy (is_whole result)
        (left_requests trader.now iterator.now (length found.offers)) framer.old.rest
        (L.content wire.old) (L.content wire.new) }
    ensures later { L.faults wire.old ≤ L.faults wire.new }
    ensures fit { IfOk result (λ f. FindsFitOffers f) }
{
    if is_nil(iterator) {
        return Ok(ConnectionResult::All(Gathered::Offers(found)));
    }
    match profile_of(alloc, iterator) {
        Err(fault) => Err(fault),
        Ok(profile) => gather_at(alloc, wire, framer, trader, profile, found),
    }
}

/// Gathers the offers of the iterator with this profile behind what was found, where it is at the trader's place.
fn gather_at<L: Wire>(
    alloc: Global,
    wire: &mut L,
    framer: &mut Framer,
    trader: &Iiop,
    profile: Iiop,
    found: SubAnswer,
) -> Result<ConnectionResult, PeerFault>
    requires limit { framer.old.limit ≡ reply_limit }
    requires room { framer.old.start + length framer.old.rest ≤ bytes_limit second_id }
    requires grows { CanGrow found.offers }
    ensures same { L.same wire.old wire.new }
    ensures finds { FindsSo (drain_iterator trader.now (Some profile) found) framer.old.rest
        (L.content wire.old) (L.faults wire.old) (L.faults wire.new) result }
    ensures writes { WritesBy (is_whole result)
        (requests_here trader.now (Some profile) (length found.offers)) framer.old.rest
        (L.content wire.old) (L.content wire.new) }
    ensures later { L.faults wire.old ≤ L.faults wire.new }
    ensures fit { IfOk result (λ f. FindsFitOffers f) }
{
    if !is_at(trader, &profile) {
        return Ok(ConnectionResult::Elsewhere { profile, found });
    }
    match drain_behind(alloc, wire, framer, &profile, found) {
        Err(fault) => Err(fault),
        Ok(gathered) => Ok(ConnectionResult::All(gathered)),
    }
}

/// Whether a profile names the place of the trader that is asked.
fn is_at(trader: &Iiop, profile: &Iiop) -> bool
    ensures { result ≡ is_at trader.now profile.now }
{
    profile.host.as_slice() == trader.host.as_slice() && profile.port == trader.port
}

/// Drains the iterator with this profile over the connection, and puts its offers behind what was found.
fn drain_behind<L: Wire>(
    alloc: Global,
    wire: &mut L,
    framer: &mut Framer,
    profile: &Iiop,
    found: SubAnswer,
) -> Result<Gathered, PeerFault>
    requires limit { framer.old.limit ≡ reply_limit }
    requires room { framer.old.start + length framer.old.rest ≤ bytes_limit second_id }
    requires grows { CanGrow found.offers }
    ensures same { L.same wire.old wire.new }
    ensures ends { DrainEndsSo (drained_behind found) framer.old.rest (L.content wire.old)
        (L.faults wire.old) (L.faults wire.new) result }
    ensures writes { WritesBy (gives_all result)
        (iterator_requests profile.now (length found.offers)) framer.old.rest (L.content wire.old)
        (L.content wire.new) }
    ensures later { L.faults wire.old ≤ L.faults wire.new }
    ensures fit { IfOk result (λ g. GivesFitOffers g) }
{
    let SubAnswer { offers, limits } = found;
    let mut gathered = offers.into_vec();
    match drain(alloc, wire, framer, profile, &mut gathered) {
        Err(fault) => Err(fault),
        Ok(Some(answer)) => Ok(Gathered::Refused(answer)),
        Ok(None) => Ok(Gathered::Offers(SubAnswer {
            offers: List::from_vec(gathered),
            limits,
        })),
    }
}
