//! Names of links (OMG's Trading Object Service, interface Register, resolve).

ghost use Rattle.std.specs.Prelude.{◌≡◌, ◌<◌, ◌≤◌, ℕ, length};
ghost use Rattle.td_iter.specs.Desks.{Live};
ghost use Rattle.td_lookup.specs.Naming.{name_entry};
ghost use Rattle.td_lookup.specs.Scenes.{scene};
ghost use Rattle.td_lookup.specs.Answering.{AnswersName, GivesNoMemory, no_memory_entry, name_answer};
ghost use Rattle.td_ops.specs.declared.call.Call.TheVariants as call;
ghost use Rattle.td_servant.specs.Linking.{peers_seen};
ghost use Rattle.td_servant.specs.declared.judging.Judged.TheVariants.{Call};
ghost use Rattle.td_servant.specs.declared.objects.Object.{Object};

use crate::no_memory::{entry_at_no_memory, is_no_memory, no_memory_with};
use std::alloc::Global;
use td_cdr::{List, Text};
use td_fed::{NameAnswer, resolve};
use td_servant::{Answer, Entry, ReplyBody};
use td_trader::Traders;
use td_value::Ior;
use td_walk::{Address, PeerFault, Peers};

/// What names of links are answered with, from the Register of this trader on.
///
/// When memory runs out the answer is NO_MEMORY, with what a register outside gave, if one was asked.
pub fn answer_resolve<T: Traders, P: Peers>(
    alloc: Global,
    traders: &mut T,
    home: &Address,
    trader: usize,
    names: &List<Text>,
    peers: &mut P,
) -> Answer
    requires { trader < length (T.world traders.old) }
    ensures same { T.same traders.old traders.new }
    ensures same_peers { P.same peers.old peers.new }
    ensures faults { P.faults peers.old ≤ P.faults peers.new }
    ensures content { (x : Object) (d : Live) (words : ℕ → ℕ) → x.trader ≡ trader
        → AnswersName T.others T.later home.now x
        (scene (T.world traders.old) d (peers_seen (P.calls peers.old) (P.faults peers.old)) words)
        trader names.now result (scene (T.world traders.new) d
        (peers_seen (P.calls peers.new) (P.faults peers.new)) words) }
    ensures if_no_memory { (x : Object) (d : Live) (words : ℕ → ℕ) → x.trader ≡ trader →
        GivesNoMemory T.others T.later home.now (Call x (call.Resolve names.now))
        (scene (T.world traders.old) d (peers_seen (P.calls peers.old) (P.faults peers.old)) words)
        (no_memory_entry (T.world traders.new) trader result.entry)
        (scene (T.world traders.new) d (peers_seen (P.calls peers.new) (P.faults peers.new))
        words) }
{
    match resolve(alloc, traders, home, trader, names, peers) {
        Ok(answer) => tell_name(traders, trader, answer),
        Err(_) => no_memory_with(Entry::Plain),
    }
}

/// What is noted of names that were looked up.
fn name_entry(trader: usize, point: u64, asked: Option<Result<Ior, PeerFault>>) -> Entry
    ensures { result ≡ name_entry trader point asked }
{
    match asked {
        None => Entry::Point { trader, point },
        Some(answer) => Entry::Asked {
            trader,
            point,
            answer,
        },
    }
}

/// Tells what names came to.
fn tell_name<T: Traders>(traders: &T, trader: usize, answer: NameAnswer) -> Answer
    requires { trader < length (T.world traders.now) }
    ensures { result ≡ name_answer (T.world traders.now) trader answer }
{
    let NameAnswer {
        point,
        asked,
        outcome,
    } = answer;
    let entry = name_entry(trader, point, asked);
    if is_no_memory(&outcome) {
        drop(outcome);
        no_memory_with(entry_at_no_memory(traders, trader, entry))
    } else {
        Answer {
            body: ReplyBody::Outcome(outcome),
            entry,
        }
    }
}
