//! What the names of links lead to, one after the other (OMG's Trading Object Service, interface Register, resolve).

ghost use Rattle.std.specs.Prelude.{◌≡◌, ◌<◌, ℕ, List as Row, ◌∷◌, true, length, None, Some, IfOk, OnErr};
ghost use Rattle.std.specs.List.{list_all};
ghost use Rattle.td_cdr.specs.Names.{word_name};
ghost use Rattle.td_fed.specs.Resolving.{ResolvesFrom, IsAskedFor, IsReferenceGiven, IsUngiven, PathLeads, LooksUp};
ghost use Rattle.td_fed.specs.Resolving.{Resolves};
ghost use Rattle.td_fed.specs.Resolving.{RoseIfUngiven, is_path, link_register, register_in_outcome, with_outcome};
ghost use Rattle.td_fed.specs.Trails.{Goes, IsQuiet};
ghost use Rattle.td_exceptions.specs.declared.exception.UserException.TheVariants as user;
ghost use Rattle.td_ops.specs.declared.outcome.Outcome.TheVariants as outcome;
ghost use Rattle.td_ops.specs.declared.outcome.Reply.TheVariants as reply;
ghost use Rattle.td_trader.specs.Worlds.{View, history_at};
ghost use Rattle.td_query_walk.specs.Faults.{CountsFaults};

use std::alloc::Global;
use td_cdr::{List, Memory, Text, Twin, is_word_name};
use td_exceptions::UserException;
use td_ops::{Look, Outcome, Reply};
use td_policy::MOST_NAMES;
use td_targets::register_inside;
use td_trader::Traders;
use td_value::Ior;
use td_walk::{Address, PeerFault, Peers};

/// What a name of links comes to.
#[derive(Drop)]
pub struct NameAnswer {
    /// How many changes the trader had accepted when the first name was looked up; where none was, how many are seen.
    pub point: u64,
    /// What a register outside gave, where one was asked. It is never `Memory`.
    pub asked: Option<Result<Ior, PeerFault>>,
    pub outcome: Outcome,
}

/// Where a name leads.
#[derive(Drop)]
pub(crate) enum Lead {
    Ended(NameAnswer),
    /// To a register of the group, at which the others are looked up.
    Inside {
        /// How many changes the trader had accepted at which the name was looked up.
        point: u64,
        trader: usize,
    },
}

/// What the links of these names lead to, from a trader on. One name gives the link's register. For more, a register
/// of the group looks the others up in the same way, and any other one is asked for them.
///
/// # Errors
///
/// `Memory` only when out of memory. No peer has given an answer then: where memory is refused after one has, the
/// outcome is NO_MEMORY.
#[tactic(auto, using(crate::proofs::Counted::nothing_counted))]
pub fn resolve<T: Traders, P: Peers>(
    alloc: Global,
    traders: &mut T,
    home: &Address,
    trader: usize,
    name: &List<Text>,
    peers: &mut P,
) -> Result<NameAnswer, Memory>
    requires { trader < length (T.world traders.old) }
    ensures same { T.same traders.old traders.new }
    ensures same_peers { P.same peers.old peers.new }
    ensures resolves { IfOk result (λ a. Resolves T.others T.later home.now (T.world traders.old)
        (P.calls peers.old) trader name.now a (T.world traders.new) (P.calls peers.new)) }
    ensures unasked { OnErr result (P.calls peers.new ≡ P.calls peers.old) }
    ensures quiet { IsQuiet (T.world traders.old) (T.world traders.new) }
    ensures goes { Goes T.others T.later (T.world traders.old) (T.world traders.new) }
    ensures faults { CountsFaults (P.calls peers.old) (P.calls peers.new) (P.faults peers.old)
        (P.faults peers.new) }
    ensures failed { IfOk result (λ a. RoseIfUngiven a.asked (P.faults peers.old)
        (P.faults peers.new)) }
{
    if !is_path(name.as_slice()) {
        return illegal(alloc, traders.point(trader), name);
    }
    follow(alloc, traders, home, trader, name.as_slice(), name, peers)
}

/// Whether this may be a trader's name: 1 to 64 names of links.
fn is_path(names: &[Text]) -> bool
    ensures { result ≡ is_path names.now }
{
    if names.is_empty() {
        return false;
    }
    if names.len() > MOST_NAMES {
        return false;
    }
    are_words(names)
}

fn are_words(names: &[Text]) -> bool
    ensures { result ≡ list_all word_name names.now }
{
    names.iter().all(|name| is_word_name(name.as_slice()))
}

/// The answer to what is no trader's name.
fn illegal(alloc: Global, point: u64, name: &List<Text>) -> Result<NameAnswer, Memory>
    ensures { IfOk result (λ a. a ≡ record {
      point = point;
      asked = None;
      outcome = outcome.User (user.IllegalTraderName name.now);
    }) }
{
    let name = name.copy(alloc)?;
    Ok(NameAnswer {
        point,
        asked: None,
        outcome: Outcome::User(UserException::IllegalTraderName { name }),
    })
}

/// The answer to a name that leads nowhere.
fn unknown(alloc: Global, point: u64, whole: &List<Text>) -> Result<NameAnswer, Memory>
    ensures { IfOk result (λ a. a ≡ record {
      point = point;
      asked = None;
      outcome = outcome.User (user.UnknownTraderName whole.now);
    }) }
{
    let name = whole.copy(alloc)?;
    Ok(NameAnswer {
        point,
        asked: None,
        outcome: Outcome::User(UserException::UnknownTraderName { name }),
    })
}

/// Follows names from a trader on. It calls itself at most 63 times, since no name has more parts.
fn follow<T: Traders, P: Peers>(
    alloc: Global,
    traders: &mut T,
    home: &Address,
    trader: usize,
    names: &[Text],
    whole: &List<Text>,
    peers: &mut P,
) -> Result<NameAnswer, Memory>
    requires within { trader < length (T.world traders.old) }
    requires some { 0 < length names.now }
    requires words { list_all word_name names.now ≡ true }
    ensures same { T.same traders.old traders.new }
    ensures same_peers { P.same peers.old peers.new }
    ensures follows { IfOk result
        (λ a. ResolvesFrom T.others T.later home.now whole.now (P.calls peers.old)
        (T.world traders.old) trader names.now a (T.world traders.new) (P.calls peers.new)) }
    ensures unasked { OnErr result (P.calls peers.new ≡ P.calls peers.old) }
    ensures quiet { IsQuiet (T.world traders.old) (T.world traders.new) }
    ensures goes { Goes T.others T.later (T.world traders.old) (T.world traders.new) }
    ensures faults { CountsFaults (P.calls peers.old) (P.calls peers.new) (P.faults peers.old)
        (P.faults peers.new) }
{
    match names.split_first() {
        None => unreachable!(),
        Some((name, rest)) => {
            match lead_from(alloc, traders, home, trader, name, rest, whole, peers)? {
                Lead::Ended(answer) => Ok(answer),
                Lead::Inside { point, trader } => {
                    let mut answer = follow(alloc, traders, home, trader, rest, whole, peers)?;
                    answer.point = point;
                    Ok(answer)
                }
            }
        }
    }
}

/// Where a name leads, with those that are left.
#[tactic(auto, using(crate::proofs::Counted::nothing_counted))]
fn lead_from<T: Traders, P: Peers>(
    alloc: Global,
    traders: &mut T,
    home: &Address,
    trader: usize,
    name: &Text,
    rest: &[Text],
    whole: &List<Text>,
    peers: &mut P,
) -> Result<Lead, Memory>
    requires within { trader < length (T.world traders.old) }
    requires word { word_name name.now ≡ true }
    ensures same { T.same traders.old traders.new }
    ensures same_peers { P.same peers.old peers.new }
    ensures leads { IfOk result (λ r. PathLeads T.others T.later home.now whole.now
        (P.calls peers.old)
        (T.world traders.old) trader name.now rest.now r (T.world traders.new)
        (P.calls peers.new)) }
    ensures unasked { OnErr result (P.calls peers.new ≡ P.calls peers.old) }
    ensures quiet { IsQuiet (T.world traders.old) (T.world traders.new) }
    ensures goes { Goes T.others T.later (T.world traders.old) (T.world traders.new) }
    ensures faults { CountsFaults (P.calls peers.old) (P.calls peers.new) (P.faults peers.old)
        (P.faults peers.new) }
{
    let register = look_up(alloc, traders, trader, name)?;
    let point = traders.point(trader);
    match register {
        None => {
            let answer = unknown(alloc, point, whole)?;
            Ok(Lead::Ended(answer))
        }
        Some(register) => lead_over(alloc, traders, home, point, register, rest, whole, peers),
    }
}

/// Where a link's register leads.
#[tactic(auto, using(crate::proofs::Counted::nothing_counted))]
fn lead_over<T: Traders, P: Peers>(
    alloc: Global,
    traders: &T,
    home: &Address,
    point: u64,
    register: Ior,
    rest: &[Text],
    whole: &List<Text>,
    peers: &mut P,
) -> Result<Lead, Memory>
    ensures same_peers { P.same peers.old peers.new }
    ensures leads { (w : Row View) (k : ℕ) (name : Row ℕ) →
        LooksUp T.others T.later w k name (Some register) (T.world traders.now) →
        point ≡ length (history_at (T.world traders.now) k) →
        IfOk result (λ r. PathLeads T.others T.later home.now whole.now (P.calls peers.old)
        w k name rest.now r (T.world traders.now) (P.calls peers.new)) }
    ensures unasked { OnErr result (P.calls peers.new ≡ P.calls peers.old) }
    ensures faults { CountsFaults (P.calls peers.old) (P.calls peers.new) (P.faults peers.old)
        (P.faults peers.new) }
{
    if rest.is_empty() {
        return Ok(Lead::Ended(NameAnswer {
            point,
            asked: None,
            outcome: Outcome::Done(Reply::Reference(register)),
        }));
    }
    match register_inside(alloc, traders, home, &register)? {
        Some(trader) => Ok(Lead::Inside { point, trader }),
        None => {
            let answer = ask_register(alloc, peers, point, &register, rest, whole)?;
            Ok(Lead::Ended(answer))
        }
    }
}

/// Looks a name up at a trader: the register of the link that has it, if one has.
fn look_up<T: Traders>(
    alloc: Global,
    traders: &mut T,
    trader: usize,
    name: &Text,
) -> Result<Option<Ior>, Memory>
    requires within { trader < length (T.world traders.old) }
    requires word { word_name name.now ≡ true }
    ensures same { T.same traders.old traders.new }
    ensures looks { IfOk result
        (λ r. LooksUp T.others T.later (T.world traders.old) trader name.now r
        (T.world traders.new)) }
    ensures quiet { IsQuiet (T.world traders.old) (T.world traders.new) }
    ensures goes { Goes T.others T.later (T.world traders.old) (T.world traders.new) }
{
    let name = name.copy(alloc)?;
    let look = Look::DescribeLink { name };
    let (outcome, _most) = traders.look(trader, &look)?;
    Ok(register_in_outcome(outcome))
}

/// The register that a look at a link told.
fn register_in_outcome(outcome: Outcome) -> Option<Ior>
    ensures { result ≡ register_in_outcome outcome }
{
    match outcome {
        Outcome::Done(reply) => link_register(reply),
        Outcome::User(exception) => {
            drop(exception);
            None
        }
        Outcome::System { .. } => None,
    }
}

fn link_register(content: Reply) -> Option<Ior>
    ensures { result ≡ link_register content }
{
    match content {
        Reply::Link(link) => Some(link.target_reg),
        other => {
            drop(other);
            None
        }
    }
}

/// Asks a register outside for the names that are left. All that an answer without a reference takes is taken before.
#[tactic(auto, using(crate::proofs::Counted::nothing_counted))]
fn ask_register<P: Peers>(
    alloc: Global,
    peers: &mut P,
    point: u64,
    register: &Ior,
    rest: &[Text],
    whole: &List<Text>,
) -> Result<NameAnswer, Memory>
    ensures same { P.same peers.old peers.new }
    ensures asks { IfOk result
        (λ a. IsAskedFor point whole.now rest.now register.now (P.calls peers.old) a
        (P.calls peers.new)) }
    ensures unasked { OnErr result (P.calls peers.new ≡ P.calls peers.old) }
    ensures faults { CountsFaults (P.calls peers.old) (P.calls peers.new) (P.faults peers.old)
        (P.faults peers.new) }
{
    let rest = copies(alloc, rest)?;
    let name = whole.copy(alloc)?;
    match peers.resolve(alloc, register, &rest) {
        Ok(reference) => Ok(given(alloc, point, reference)),
        Err(fault) => ungiven(point, fault, name),
    }
}

/// Copies of names.
fn copies(alloc: Global, names: &[Text]) -> Result<List<Text>, Memory>
    ensures { IfOk result (λ copies. copies ≡ names.now) }
{
    let mut copies = List::new(alloc);
    for name in names {
        copies.push(name.copy(alloc)?)?;
    }
    Ok(copies)
}

/// The answer with a reference that a register gave.
fn given(alloc: Global, point: u64, reference: Ior) -> NameAnswer
    ensures { IsReferenceGiven point reference result }
{
    match reference.copy(alloc) {
        Ok(copy) => with_outcome(point, reference, Outcome::Done(Reply::Reference(copy))),
        Err(_) => with_outcome(point, reference, Outcome::no_memory()),
    }
}

fn with_outcome(point: u64, reference: Ior, outcome: Outcome) -> NameAnswer
    ensures { result ≡ with_outcome point reference outcome }
{
    NameAnswer {
        point,
        asked: Some(Ok(reference)),
        outcome,
    }
}

/// The answer where a register gave none.
fn ungiven(point: u64, fault: PeerFault, name: List<Text>) -> Result<NameAnswer, Memory>
    ensures { IsUngiven point fault name result }
{
    match fault {
        PeerFault::Memory => {
            drop(name);
            Err(Memory)
        }
        fault => Ok(NameAnswer {
            point,
            asked: Some(Err(fault)),
            outcome: Outcome::User(UserException::UnknownTraderName { name }),
        }),
    }
}
