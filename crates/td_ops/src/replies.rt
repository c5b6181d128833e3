//! Outcomes to bytes.

ghost use Rattle.std.specs.Prelude.{◌≡◌, ◌≤◌, IsTrue, IsOk};
ghost use Rattle.td_cdr.specs.Format.{Appends, Puts, ◌then◌};
ghost use Rattle.td_cdr.specs.Sound.{ulong};
ghost use Rattle.td_ops.specs.Outcomes.{FitsRoom, SufficesRoom, is_short, outcome_piece, outcome_status, system_id};
ghost use Rattle.td_ops.specs.Outcomes.{system_piece};
ghost use Rattle.td_ops.specs.Shapes.{reply_piece};
ghost use Rattle.td_ops.specs.declared.outcome.Outcome.TheVariants.{Done};
ghost use Rattle.td_ops.specs.declared.outcome.Reply.TheVariants.{Batch, Follow, Id, IdBatch, Nothing, Stem};

use crate::outcome::{Outcome, Reply, SystemKind};
use std::alloc::Global;
use td_cdr::{List, Memory, Octets, Spelled, Text, Writer, put_three, put_two};
use td_exceptions::put_user;
use td_value::{FollowOption, Offer};

/// The status of the reply that carries an outcome: 0 for a result, 1 for a user exception, 2 for a
/// system exception (CORBA, chapter on General Inter-ORB Protocol, "Reply Header").
pub fn status_of(outcome: &Outcome) -> u32
    ensures { result ≡ outcome_status outcome.now }
{
    match outcome {
        Outcome::Done(_) => 0,
        Outcome::User(_) => 1,
        Outcome::System { .. } => 2,
    }
}

/// Appends a reply's body, in the writer's order and with padding 0: a result's fields, or the
/// repository id of an exception and its members in order (CORBA, chapter on General Inter-ORB
/// Protocol, "Reply Body").
///
/// # Errors
///
/// `Memory` when out of memory or of room; the writer is then unchanged. An empty result is never
/// refused. A number, a truth value, a rule, an incarnation, an id or a stem of at most 64 bytes, or a
/// system exception is refused only for want of the writer's room, which doesn't grow less then; 100
/// bytes always suffice for these.
pub fn write_outcome(alloc: Global, w: &mut Writer, outcome: &Outcome) -> Result<(), Memory>
    ensures appends { Appends (outcome_piece outcome.now) w.old w.new result }
    ensures empty { outcome.now ≡ Done Nothing → IsOk result }
    ensures fits { IsTrue (is_short outcome.now)
        → FitsRoom (outcome_piece outcome.now) w.old result }
    ensures room { IsTrue (is_short outcome.now) → w.old.room ≤ w.new.room }
    ensures small { IsTrue (is_short outcome.now) → SufficesRoom 100 w.old result }
{
    let held = w.len();
    match put_outcome(alloc, w, outcome) {
        Ok(()) => Ok(()),
        Err(memory) => {
            w.cut(held);
            Err(memory)
        }
    }
}

/// A reply's body. Where it fails, some of it may be written.
fn put_outcome(alloc: Global, w: &mut Writer, outcome: &Outcome) -> Result<(), Memory>
    ensures puts { Puts (outcome_piece outcome.now) w.old w.new result }
    ensures empty { outcome.now ≡ Done Nothing → IsOk result }
    ensures fits { IsTrue (is_short outcome.now)
        → FitsRoom (outcome_piece outcome.now) w.old result }
    ensures room { IsTrue (is_short outcome.now) → w.old.room ≤ w.new.room }
    ensures small { IsTrue (is_short outcome.now) → SufficesRoom 100 w.old result }
{
    match outcome {
        Outcome::Done(reply) => put_reply(alloc, w, reply),
        Outcome::User(exception) => put_user(alloc, w, exception),
        Outcome::System {
            kind,
            minor,
            completion,
        } => put_system(w, *kind, *minor, *completion),
    }
}

/// A result. Where it fails, some of it may be written.
fn put_reply(alloc: Global, w: &mut Writer, reply: &Reply) -> Result<(), Memory>
    ensures puts { Puts (reply_piece reply.now) w.old w.new result }
    ensures empty { reply.now ≡ Nothing → IsOk result }
    ensures fits { IsTrue (is_short (Done reply.now))
        → FitsRoom (reply_piece reply.now) w.old result }
    ensures room { IsTrue (is_short (Done reply.now)) → w.old.room ≤ w.new.room }
    ensures small { IsTrue (is_short (Done reply.now)) → SufficesRoom 100 w.old result }
{
    match reply {
        Reply::Nothing => Ok(()),
        Reply::Id(id) => put_id(w, id),
        Reply::Number(number) => w.u32(*number),
        Reply::Truth(truth) => w.octet(u8::from(*truth)),
        Reply::Reference(reference) => reference.write(alloc, w),
        Reply::Follow(rule) => put_rule(w, *rule),
        Reply::Stem(stem) => put_stem(w, stem),
        Reply::Incarnation(incarnation) => put_numbers(w, incarnation.high, incarnation.low),
        Reply::Names(names) => names.write(alloc, w),
        Reply::Offer(offer) => offer.write(alloc, w),
        Reply::Link(link) => link.write(alloc, w),
        Reply::Proxy(proxy) => proxy.get().write(alloc, w),
        Reply::Typed(described) => described.write(alloc, w),
        Reply::Found {
            offers,
            iterator,
            limits,
        } => put_three(alloc, w, offers, iterator, limits),
        Reply::Ids { ids, iterator } => put_two(alloc, w, ids, iterator),
        Reply::Batch { more, offers } => put_batch(alloc, w, *more, offers),
        Reply::IdBatch { more, ids } => put_id_batch(alloc, w, *more, ids),
    }
}

/// Offers of an iterator. Where it fails, some of it may be written.
fn put_batch(alloc: Global, w: &mut Writer, more: bool, offers: &List<Offer>) -> Result<(), Memory>
    ensures { Puts (reply_piece (Batch more offers.now)) w.old w.new result }
{
    put_two(alloc, w, &more, offers)
}

/// Ids of an iterator. Where it fails, some of it may be written.
fn put_id_batch(alloc: Global, w: &mut Writer, more: bool, ids: &List<Text>) -> Result<(), Memory>
    ensures { Puts (reply_piece (IdBatch more ids.now)) w.old w.new result }
{
    put_two(alloc, w, &more, ids)
}

/// An id. It fails only for want of room.
fn put_id(w: &mut Writer, id: &Text) -> Result<(), Memory>
    ensures puts { Puts (reply_piece (Id id.now)) w.old w.new result }
    ensures fits { FitsRoom (reply_piece (Id id.now)) w.old result }
    ensures room { w.old.room ≤ w.new.room }
    ensures small { IsTrue (is_short (Done (Id id.now))) → SufficesRoom 100 w.old result }
{
    w.string(id.as_slice())
}

/// A stem. It fails only for want of room.
fn put_stem(w: &mut Writer, stem: &Octets) -> Result<(), Memory>
    ensures puts { Puts (reply_piece (Stem stem.now)) w.old w.new result }
    ensures fits { FitsRoom (reply_piece (Stem stem.now)) w.old result }
    ensures room { w.old.room ≤ w.new.room }
    ensures small { IsTrue (is_short (Done (Stem stem.now))) → SufficesRoom 100 w.old result }
{
    w.octets(stem.as_slice())
}

/// A rule of following links. It fails only for want of room.
fn put_rule(w: &mut Writer, rule: FollowOption) -> Result<(), Memory>
    ensures puts { Puts (reply_piece (Follow rule)) w.old w.new result }
    ensures fits { FitsRoom (reply_piece (Follow rule)) w.old result }
    ensures room { w.old.room ≤ w.new.room }
    ensures small { SufficesRoom 100 w.old result }
{
    w.u32(match rule {
        FollowOption::LocalOnly => 0,
        FollowOption::IfNoLocal => 1,
        FollowOption::Always => 2,
    })
}

/// The repository id of a system exception.
fn system_id(kind: SystemKind) -> &'static [u8]
    ensures { result.now ≡ system_id kind }
{
    match kind {
        SystemKind::Marshal => b"IDL:omg.org/CORBA/MARSHAL:1.0",
        SystemKind::NoImplement => b"IDL:omg.org/CORBA/NO_IMPLEMENT:1.0",
        SystemKind::BadOperation => b"IDL:omg.org/CORBA/BAD_OPERATION:1.0",
        SystemKind::ObjectNotExist => b"IDL:omg.org/CORBA/OBJECT_NOT_EXIST:1.0",
        SystemKind::ImpLimit => b"IDL:omg.org/CORBA/IMP_LIMIT:1.0",
        SystemKind::NoMemory => b"IDL:omg.org/CORBA/NO_MEMORY:1.0",
    }
}

/// A system exception. Where it fails, some of it may be written; it fails only for want of room.
fn put_system(w: &mut Writer, kind: SystemKind, minor: u32, completion: u32) -> Result<(), Memory>
    ensures puts { Puts (system_piece kind minor completion) w.old w.new result }
    ensures fits { FitsRoom (system_piece kind minor completion) w.old result }
    ensures room { w.old.room ≤ w.new.room }
    ensures small { SufficesRoom 100 w.old result }
{
    w.string(system_id(kind))?;
    put_numbers(w, minor, completion)
}

/// Two numbers. Where it fails, the first may be written; it fails only for want of room.
fn put_numbers(w: &mut Writer, first: u32, second: u32) -> Result<(), Memory>
    ensures puts { Puts (ulong.format.writes first then ulong.format.writes second)
        w.old w.new result }
    ensures fits { FitsRoom (ulong.format.writes first then ulong.format.writes second)
        w.old result }
    ensures room { w.old.room ≤ w.new.room }
    ensures small { SufficesRoom 14 w.old result }
{
    w.u32(first)?;
    w.u32(second)
}
