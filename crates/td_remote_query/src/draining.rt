//! An iterator is asked for batches until one comes with FALSE, and is then destroyed.

ghost use Rattle.std.specs.Prelude.{◌≡◌, ◌+◌, ◌<◌, ◌≤◌, ◌^◌, true, false, length, IfOk, OnOk};
ghost use Rattle.td_call.specs.Fetching.{Exchanges};
ghost use Rattle.td_call.specs.Moving.{MovesTraffic};
ghost use Rattle.td_call.specs.Readings.{outcome_in_reply};
ghost use Rattle.td_call.specs.Replies.{reply_limit};
ghost use Rattle.td_call.specs.Requests.{request_of};
ghost use Rattle.td_remote_query.specs.Querying.{most_batches, second_id};
ghost use Rattle.td_remote_query.specs.Draining.{AreFit, AreWritable, TellsWritable, batches_asked};
ghost use Rattle.td_remote_query.specs.Draining.{destroy as destroy_call, destroy_ends};
ghost use Rattle.td_remote_query.specs.Draining.{drain_requests, may_join, most_offers, next_batch};
ghost use Rattle.td_ops.specs.declared.call.Call.TheVariants.{Iter};
ghost use Rattle.td_remote_query.specs.Turns.{AfterDestroy, DestroysRemote, Drains, Joins, TakesBatch, DrainsInTurn};
ghost use Rattle.td_remote_query.specs.Turns.{bytes_limit};
ghost use Rattle.td_remote_query.specs.Writing.{WritesBy, drains_all};

use crate::joining::{join, may_join};
use std::alloc::Global;
use td_call::exchange_call;
use td_cdr::List;
use td_giop::Framer;
use td_ior::Iiop;
use td_ops::{Answered, Call, IterCall, Reply};
use td_value::Offer;
use td_walk::PeerFault;
use td_wire::Wire;

/// How many offers a batch is asked for.
const BATCH_SIZE: u32 = 1000;

/// What a call of an iterator came to.
#[derive(Drop)]
pub(crate) enum Turn {
    /// Another batch is to be asked for.
    More,
    /// The batch was the last one.
    Last,
    /// The call was answered by an exception.
    Refused(Answered),
}

/// Joins the last batch.
///
/// # Errors
///
/// `Memory` only when out of memory.
#[tactic(auto, using(crate::proofs::Fitness::joined_fit))]
fn join_last(gathered: &mut Vec<Offer>, offers: List<Offer>) -> Result<Turn, PeerFault>
    requires joined { may_join (length gathered.old.items) offers ≡ true }
    requires writable { AreWritable offers }
    requires fit { AreFit gathered.old.items }
    ensures joins { Joins false offers gathered.old.items gathered.new.items result }
    ensures fit { OnOk result (AreFit gathered.new.items) }
{
    match join(gathered, offers) {
        Err(_) => Err(PeerFault::Memory),
        Ok(()) => Ok(Turn::Last),
    }
}

/// Joins a batch that another one follows.
///
/// # Errors
///
/// `Grammar` for an empty one, and `Memory`.
#[tactic(auto, using(crate::proofs::Fitness::joined_fit))]
fn join_next(gathered: &mut Vec<Offer>, offers: List<Offer>) -> Result<Turn, PeerFault>
    requires joined { may_join (length gathered.old.items) offers ≡ true }
    requires writable { AreWritable offers }
    requires fit { AreFit gathered.old.items }
    ensures joins { Joins true offers gathered.old.items gathered.new.items result }
    ensures fit { OnOk result (AreFit gathered.new.items) }
{
    if offers.is_empty() {
        return Err(PeerFault::Grammar);
    }
    match join(gathered, offers) {
        Err(_) => Err(PeerFault::Memory),
        Ok(()) => Ok(Turn::More),
    }
}

/// Joins a batch to the offers that were gathered, and tells whether another one follows.
///
/// # Errors
///
/// `Grammar` for more offers than may be, for one that is too large, and for an empty batch with TRUE; `Memory`.
fn join_batch(
    alloc: Global,
    gathered: &mut Vec<Offer>,
    more: bool,
    offers: List<Offer>,
) -> Result<Turn, PeerFault>
    requires fit { AreFit gathered.old.items }
    requires writable { AreWritable offers }
    ensures joins { Joins more offers gathered.old.items gathered.new.items result }
    ensures fit { OnOk result (AreFit gathered.new.items) }
{
    match may_join(alloc, gathered.len(), offers.as_slice()) {
        Err(_) => Err(PeerFault::Memory),
        Ok(false) => Err(PeerFault::Grammar),
        Ok(true) => {
            if more {
                join_next(gathered, offers)
            } else {
                join_last(gathered, offers)
            }
        }
    }
}

/// Joins what a call of next_n was answered with.
///
/// # Errors
///
/// As `join_batch`.
#[tactic(auto, using(crate::proofs::Batching::takes_batch))]
fn join_answer(
    alloc: Global,
    gathered: &mut Vec<Offer>,
    answer: Answered,
) -> Result<Turn, PeerFault>
    requires fit { AreFit gathered.old.items }
    requires writable { TellsWritable answer }
    ensures takes { TakesBatch answer gathered.old.items gathered.new.items result }
    ensures fit { OnOk result (AreFit gathered.new.items) }
{
    match answer {
        Answered::Done(reply) => match reply {
            Reply::Batch { more, offers } => join_batch(alloc, gathered, more, offers),
            other => {
                drop(other);
                Err(PeerFault::Grammar)
            }
        },
        Answered::User(id) => Ok(Turn::Refused(Answered::User(id))),
        Answered::System {
            id,
            minor,
            completion,
        } => Ok(Turn::Refused(Answered::System {
            id,
            minor,
            completion,
        })),
    }
}

/// Calls the iterator with this profile, and reads the reply.
///
/// # Errors
///
/// As `exchange_call`.
fn call_iterator<L: Wire>(
    alloc: Global,
    wire: &mut L,
    framer: &mut Framer,
    id: u32,
    profile: &Iiop,
    call: IterCall,
) -> Result<Answered, PeerFault>
    requires limit { framer.old.limit ≡ reply_limit }
    requires room { framer.old.start + length framer.old.rest + 2 ^ 27 < 2 ^ 64 }
    ensures same { L.same wire.old wire.new }
    ensures exchanges { Exchanges (outcome_in_reply (Iter call)) id
        (request_of id profile.now (Iter call)) framer.old.rest framer.new.rest (L.content wire.old)
        (L.content wire.new) (L.faults wire.old) (L.faults wire.new) result }
    ensures writable { IfOk result (λ a. TellsWritable a) }
    ensures moves { MovesTraffic (request_of id profile.now (Iter call)) (L.content wire.old)
        (L.content wire.new) }
    ensures later { L.faults wire.old ≤ L.faults wire.new }
    ensures grows { framer.new.start + length framer.new.rest
        ≤ framer.old.start + length framer.old.rest + 2 ^ 27 }
    ensures kept { framer.new.limit ≡ framer.old.limit }
{
    let call = Call::Iter(call);
    let answer = exchange_call(alloc, wire, framer, id, profile, &call);
    drop(call);
    answer
}

/// Asks for a batch, and joins it to the offers that were gathered.
///
/// # Errors
///
/// `Wire`, `Grammar` and `Memory`.
fn take_batch<L: Wire>(
    alloc: Global,
    wire: &mut L,
    framer: &mut Framer,
    id: u32,
    profile: &Iiop,
    gathered: &mut Vec<Offer>,
) -> Result<Turn, PeerFault>
    requires limit { framer.old.limit ≡ reply_limit }
    requires room { framer.old.start + length framer.old.rest ≤ bytes_limit id }
    requires few { id ≤ most_batches + 1 }
    requires fit { AreFit gathered.old.items }
    ensures same { L.same wire.old wire.new }
    ensures turns { DrainsInTurn profile.now id framer.old.rest framer.new.rest (L.content wire.old)
        (L.content wire.new) (L.faults wire.old)
        (L.faults wire.new) gathered.old.items gathered.new.items result }
    ensures moves { MovesTraffic (request_of id profile.now next_batch) (L.content wire.old)
        (L.content wire.new) }
    ensures later { L.faults wire.old ≤ L.faults wire.new }
    ensures grows { framer.new.start + length framer.new.rest ≤ bytes_limit (id + 1) }
    ensures kept { framer.new.limit ≡ framer.old.limit }
    ensures fit { OnOk result (AreFit gathered.new.items) }
{
    let next = IterCall::NextN { n: BATCH_SIZE };
    match call_iterator(alloc, wire, framer, id, profile, next) {
        Err(fault) => Err(fault),
        Ok(answer) => join_answer(alloc, gathered, answer),
    }
}

/// Destroys the iterator. An exception is answered.
///
/// # Errors
///
/// `Wire`, `Grammar` and `Memory`.
fn destroy<L: Wire>(
    alloc: Global,
    wire: &mut L,
    framer: &mut Framer,
    id: u32,
    profile: &Iiop,
) -> Result<Option<Answered>, PeerFault>
    requires limit { framer.old.limit ≡ reply_limit }
    requires room { framer.old.start + length framer.old.rest ≤ bytes_limit id }
    requires few { id ≤ most_batches + 2 }
    ensures same { L.same wire.old wire.new }
    ensures destroys { DestroysRemote profile.now id framer.old.rest (L.content wire.old)
        (L.content wire.new)
        (L.faults wire.old) (L.faults wire.new) result }
    ensures moves { MovesTraffic (request_of id profile.now destroy_call) (L.content wire.old)
        (L.content wire.new) }
    ensures later { L.faults wire.old ≤ L.faults wire.new }
{
    match call_iterator(alloc, wire, framer, id, profile, IterCall::Destroy) {
        Err(fault) => Err(fault),
        Ok(answer) => destroyed(answer),
    }
}

/// What the call that destroys an iterator was answered with, where it is an exception.
///
/// # Errors
///
/// `Grammar` for a result that isn't one of destroy.
fn destroyed(answer: Answered) -> Result<Option<Answered>, PeerFault>
    ensures { AfterDestroy (destroy_ends answer) result }
{
    match answer {
        Answered::Done(reply) => match reply {
            Reply::Nothing => Ok(None),
            other => {
                drop(other);
                Err(PeerFault::Grammar)
            }
        },
        Answered::User(id) => Ok(Some(Answered::User(id))),
        Answered::System {
            id,
            minor,
            completion,
        } => Ok(Some(Answered::System {
            id,
            minor,
            completion,
        })),
    }
}

/// Drains the iterator with this profile over the connection, with requests from this id on, and destroys it. Its
/// offers join those that were gathered. An exception that a call was answered with ends it, and is answered.
///
/// # Errors
///
/// `Wire`, `Grammar` and `Memory`.
pub(crate) fn drain<L: Wire>(
    alloc: Global,
    wire: &mut L,
    framer: &mut Framer,
    profile: &Iiop,
    gathered: &mut Vec<Offer>,
) -> Result<Option<Answered>, PeerFault>
    requires limit { framer.old.limit ≡ reply_limit }
    requires room { framer.old.start + length framer.old.rest ≤ bytes_limit second_id }
    requires few { length gathered.old.items ≤ most_offers }
    requires fit { AreFit gathered.old.items }
    ensures same { L.same wire.old wire.new }
    ensures drains { Drains second_id most_batches framer.old.rest (L.content wire.old)
        (L.faults wire.old) (L.faults wire.new) gathered.old.items gathered.new.items result }
    ensures writes { WritesBy (drains_all result) (λ left. drain_requests profile.now second_id
        (batches_asked most_batches second_id (length gathered.old.items) left)) framer.old.rest
        (L.content wire.old) (L.content wire.new) }
    ensures later { L.faults wire.old ≤ L.faults wire.new }
    ensures fit { OnOk result (AreFit gathered.new.items) }
{
    let mut id: u32 = 2;
    'batches: loop {
        match take_batch(alloc, wire, framer, id, profile, gathered) {
            Err(fault) => return Err(fault),
            Ok(Turn::Refused(answer)) => return Ok(Some(answer)),
            Ok(Turn::Last) => return destroy(alloc, wire, framer, id + 1, profile),
            Ok(Turn::More) => id += 1,
        }
    }
}
