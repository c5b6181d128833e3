//! Queries (OMG's Trading Object Service, interface Lookup, query).

ghost use Rattle.std.specs.Prelude.{◌≡◌, ◌<◌, ◌≤◌, ◌^◌, length, IfOk, OnErr};
ghost use Rattle.td_cdr.specs.Names.{IsTraderName};
ghost use Rattle.td_iter.specs.declared.limits.TheConstants.{REPLY_START};
ghost use Rattle.td_lookup.specs.Scenes.{scene};
ghost use Rattle.td_lookup.specs.Answering.{GivesSmall, HasLimits, IfOutcome, AnswersQuery, GivesNoMemory};
ghost use Rattle.td_lookup.specs.Answering.{TellsVisited};
ghost use Rattle.td_lookup.specs.Answering.{walk_answer};
ghost use Rattle.td_objects.specs.References.{IsAddress};
ghost use Rattle.td_ops.specs.declared.call.Call.TheVariants as call;
ghost use Rattle.td_servant.specs.Linking.{peers_seen};
ghost use Rattle.td_servant.specs.Objects.{IsNamed};
ghost use Rattle.td_servant.specs.declared.judging.Judged.TheVariants.{Call};
ghost use Rattle.td_servant.specs.declared.objects.Object.{Object};

use crate::choosing::choose_in;
use crate::no_memory::no_memory_with;
use crate::offers::put_offers;
use std::alloc::Global;
use td_cdr::{List, Memory, Shared, Text, Writer};
use td_fed::visit;
use td_iter::Desk;
use td_ops::Query;
use td_out::Words;
use td_servant::{Answer, Entry, ReplyBody};
use td_trader::Traders;
use td_walk::{Address, Peers, Trace, Visit};

/// A query of the Lookup of a trader of the group.
#[derive(Clone, Copy)]
pub struct LookupQuery<'q> {
    /// Where the group is reached.
    pub home: &'q Address,
    /// Which trader, counted from 0.
    pub trader: usize,
    pub query: &'q Shared<Query>,
}

/// What a query is answered with. The writer holds what stands before the body of a reply with a result; the first
/// batch of offers is appended, and the desk keeps the others.
///
/// When memory runs out the answer is NO_MEMORY, with the trace so far; its completion status is MAYBE where a mark
/// was made.
pub fn answer_query<T: Traders, P: Peers, W: Words>(
    alloc: Global,
    traders: &mut T,
    asked: LookupQuery<'_>,
    desk: &mut Desk,
    peers: &mut P,
    words: &mut W,
    w: &mut Writer,
) -> Answer
    requires named { IsNamed (T.world traders.old) asked.trader }
    requires home { IsAddress asked.home.now }
    requires start { length w.old.bytes ≡ REPLY_START }
    requires numbers { desk.old.1 < 2 ^ 63 }
    ensures same { T.same traders.old traders.new }
    ensures same_peers { P.same peers.old peers.new }
    ensures same_words { W.same words.old words.new }
    ensures faults { P.faults peers.old ≤ P.faults peers.new }
    ensures content { (x : Object) → x.trader ≡ asked.entry.trader
        → AnswersQuery T.others T.later asked.entry.home.now x
        (scene (T.world traders.old) desk.old (peers_seen (P.calls peers.old) (P.faults peers.old))
        (W.word words.old)) asked.entry.trader asked.entry.query.now w.old result w.new
        (scene (T.world traders.new) desk.new (peers_seen (P.calls peers.new) (P.faults peers.new))
        (W.word words.new)) }
    ensures if_no_memory { (x : Object) → x.trader ≡ asked.entry.trader
        → IfOutcome result.body (GivesNoMemory T.others T.later asked.entry.home.now
        (Call x (call.Query asked.entry.query.now))
        (scene (T.world traders.old) desk.old (peers_seen (P.calls peers.old) (P.faults peers.old))
        (W.word words.old)) result.entry
        (scene (T.world traders.new) desk.new (peers_seen (P.calls peers.new) (P.faults peers.new))
        (W.word words.new))) }
    ensures order { w.new.order ≡ w.old.order }
{
    let mut trace = Trace {
        items: List::new(alloc),
    };
    let LookupQuery {
        home,
        trader,
        query,
    } = asked;
    let visited = visit(
        alloc, traders, home, trader, query, peers, words, &mut trace,
    );
    let content = tell_visit(
        alloc,
        home,
        traders.name(trader),
        query.get(),
        visited,
        desk,
        w,
    );
    walk_answer(trace, content)
}

/// The answer to a query with this trace.
fn walk_answer(trace: Trace, content: Result<ReplyBody, Memory>) -> Answer
    ensures { result ≡ walk_answer trace content }
{
    match content {
        Ok(body) => Answer {
            body,
            entry: Entry::Walk(trace),
        },
        Err(_) => no_memory_with(Entry::Walk(trace)),
    }
}

/// Tells what a visit came to, if it has ended: a refusal as it is, or the first batch of its offers, for the lesser of
/// how_many and max_list, each with the properties that are desired of it.
///
/// # Errors
///
/// `Memory` only when out of memory; the desk and what the writer holds are then as they were.
fn tell_visit(
    alloc: Global,
    home: &Address,
    name: &Text,
    q: &Query,
    visited: Result<Visit, Memory>,
    desk: &mut Desk,
    w: &mut Writer,
) -> Result<ReplyBody, Memory>
    requires home { IsAddress home.now }
    requires name { IsTraderName name.now }
    requires limits { IfOk visited HasLimits }
    requires small { IfOk visited (GivesSmall q.now) }
    requires start { length w.old.bytes ≡ REPLY_START }
    requires numbers { desk.old.1 < 2 ^ 63 }
    ensures content { IfOk result (λ b.
        TellsVisited home.now name.now q.now visited w.old desk.old b w.new desk.new) }
    ensures unwritten { IfOk result (λ b. IfOutcome b (desk.new ≡ desk.old)) }
    ensures err { OnErr result ((desk.new ≡ desk.old) × (w.new.bytes ≡ w.old.bytes)) }
    ensures order { w.new.order ≡ w.old.order }
{
    match visited {
        Err(memory) => Err(memory),
        Ok(visit) => match visit {
            Visit::Refused(outcome) => Ok(ReplyBody::Outcome(outcome.into_inner())),
            Visit::Answered { answer, max_list } => {
                let n = q.how_many.min(max_list);
                let wanted = choose_in(alloc, &q.desired, answer)?;
                put_offers(alloc, home, name, n, wanted, desk, w)?;
                Ok(ReplyBody::Written)
            }
        },
    }
}
