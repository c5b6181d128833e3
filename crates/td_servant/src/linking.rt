//! `add_link` (OMG's Trading Object Service, interface Link).

ghost use Rattle.std.specs.Prelude.{◌≡◌, ◌⊎◌, ◌≤◌, ◌<◌, false, List, length, None, Some, Ok, IfOk, IfErr, OnErr};
ghost use Rattle.td_typecode.specs.References.{reference};
ghost use Rattle.td_objects.specs.References.{IsAddress, register_reference};
ghost use Rattle.td_ops.specs.Calls.{AdmitsCall};
ghost use Rattle.td_ops.specs.declared.call.Call.TheVariants as asked;
ghost use Rattle.td_ops.specs.declared.call.Change.{Change as a_change};
ghost use Rattle.td_servant.specs.Answers.{IfLong, AnswersPlainly};
ghost use Rattle.td_servant.specs.Changing.{ChangeComes, Rests};
ghost use Rattle.td_servant.specs.Linking.{AddLinkComes, AskedInVain, ChangeNoted, LinkedAs, NotedInVain};
ghost use Rattle.td_servant.specs.Linking.{RegisterAsked};
ghost use Rattle.td_servant.specs.Linking.{link_change, peers_seen, register_given};
ghost use Rattle.td_servant.specs.Targets.{target_of};
ghost use Rattle.td_servant.specs.declared.target.Target.TheVariants.{Outside};
ghost use Rattle.td_trader.specs.Admitted.{AdmitsChange, AdmitsRegister};
ghost use Rattle.td_trader.specs.Worlds.{View, Watches, name_at};
ghost use Rattle.td_walk.specs.Peering.{IsNoted, Referred, RegisterOf, is_memory};

use crate::answer::{Answer, ReplyBody};
use crate::changing::{answer_change, point_of};
use crate::entry::Entry;
use crate::target::{Target, target_of};
use std::alloc::Global;
use td_cdr::{Memory, Twin};
use td_ior::{Kind, is_nil};
use td_objects::{Interface, own_reference};
use td_ops::{AddLink, Change, Outcome};
use td_trader::Traders;
use td_value::Ior;
use td_walk::{Address, PeerFault, Peers};

/// What `add_link` is answered with. A target of the group has its own register, and no peer is asked; one outside is
/// asked for its register, once and first of all; one without an IIOP profile has none.
///
/// # Errors
///
/// `Memory` only when out of memory; no peer has answered then, and no link is added. When memory runs out once a
/// peer has answered, the answer is NO_MEMORY.
pub fn answer_add_link<T: Traders, P: Peers>(
    alloc: Global,
    traders: &mut T,
    home: &Address,
    trader: usize,
    call: AddLink,
    peers: &mut P,
) -> Result<Answer, Memory>
    requires inside { trader < length (T.world traders.old) }
    requires home { IsAddress home.now }
    requires admitted { AdmitsCall (asked.AddLink call) }
    ensures same { T.same traders.old traders.new }
    ensures same_peers { P.same peers.old peers.new }
    ensures ok { IfOk result (λ a. AnswersPlainly (λ o e.
        AddLinkComes T.others T.later home.now (T.world traders.old) trader call
        (peers_seen (P.calls peers.old) (P.faults peers.old))
        (peers_seen (P.calls peers.new) (P.faults peers.new)) o e (T.world traders.new)
        ⊎ AskedInVain T.others T.later home.now (T.world traders.old) trader call
        (peers_seen (P.calls peers.old) (P.faults peers.old))
        (peers_seen (P.calls peers.new) (P.faults peers.new)) o e (T.world traders.new)) a) }
    // What may still want memory can be taken back: it wasn't done.
    ensures if_no_memory { IfOk result (λ a. IfLong a.body
        (Watches T.others T.later (T.world traders.old) trader (T.world traders.new))) }
    ensures err { OnErr result
        (Rests T.others T.later (T.world traders.old) trader (T.world traders.new)) }
    ensures unasked { OnErr result (P.calls peers.new ≡ P.calls peers.old) }
    ensures faults { P.faults peers.old ≤ P.faults peers.new }
{
    match target_of(alloc, traders, home, call.target.get()) {
        Ok(Target::Inside(inside)) => add_inside(alloc, traders, home, trader, inside, call),
        Ok(Target::Unreachable) => answer_change(traders, trader, link_change(call, None)),
        Ok(Target::Outside) => add_outside(alloc, traders, home, trader, call, peers),
        Err(memory) => {
            drop(call);
            Err(memory)
        }
    }
}

/// The change that the call comes to, once the register is known.
#[tactic(auto, using(crate::proofs::Admitted::link_admitted))]
fn link_change(call: AddLink, register: Option<Ior>) -> Change
    ensures same { result ≡ link_change call register }
    ensures admitted { AdmitsCall (asked.AddLink call) → AdmitsRegister register
        → AdmitsChange result }
{
    Change::AddLink {
        name: call.name,
        target: call.target,
        def_pass_on: call.def_pass_on,
        limiting: call.limiting,
        register,
    }
}

/// Adds a link to the trader of this number.
fn add_inside<T: Traders>(
    alloc: Global,
    traders: &mut T,
    home: &Address,
    trader: usize,
    inside: usize,
    call: AddLink,
) -> Result<Answer, Memory>
    requires trader { trader < length (T.world traders.old) }
    requires inside { inside < length (T.world traders.old) }
    requires home { IsAddress home.now }
    requires admitted { AdmitsCall (asked.AddLink call) }
    ensures same { T.same traders.old traders.new }
    ensures ok { IfOk result
        (λ a. AnswersPlainly (λ o e. ChangeComes T.others T.later (T.world traders.old) trader
        (link_change call (Some (register_reference home.now
        (name_at (T.world traders.old) inside)))) o e (T.world traders.new)) a) }
    ensures if_no_memory { IfOk result (λ a. IfLong a.body
        (Watches T.others T.later (T.world traders.old) trader (T.world traders.new))) }
    ensures err { OnErr result
        (Rests T.others T.later (T.world traders.old) trader (T.world traders.new)) }
{
    match own_reference(
        alloc,
        home,
        Interface::Register,
        traders.name(inside),
        Kind::Register,
    ) {
        Ok(register) => answer_change(traders, trader, link_change(call, Some(register))),
        Err(memory) => {
            drop(call);
            Err(memory)
        }
    }
}

/// Adds a link to a trader outside, which is asked for its register.
#[tactic(auto, using(crate::proofs::Linked::asked_content))]
fn add_outside<T: Traders, P: Peers>(
    alloc: Global,
    traders: &mut T,
    home: &Address,
    trader: usize,
    call: AddLink,
    peers: &mut P,
) -> Result<Answer, Memory>
    requires inside { trader < length (T.world traders.old) }
    requires outside { target_of home.now (T.world traders.old) call.target ≡ Outside }
    requires admitted { AdmitsCall (asked.AddLink call) }
    ensures same { T.same traders.old traders.new }
    ensures same_peers { P.same peers.old peers.new }
    ensures ok { IfOk result (λ a. AnswersPlainly (λ o e.
        RegisterAsked T.others T.later (T.world traders.old) trader call
        (peers_seen (P.calls peers.old) (P.faults peers.old))
        (peers_seen (P.calls peers.new) (P.faults peers.new)) o e (T.world traders.new)
        ⊎ AskedInVain T.others T.later home.now (T.world traders.old) trader call
        (peers_seen (P.calls peers.old) (P.faults peers.old))
        (peers_seen (P.calls peers.new) (P.faults peers.new)) o e (T.world traders.new)) a) }
    ensures if_no_memory { IfOk result (λ a. IfLong a.body
        (Watches T.others T.later (T.world traders.old) trader (T.world traders.new))) }
    ensures err { OnErr result
        (Rests T.others T.later (T.world traders.old) trader (T.world traders.new)) }
    ensures unasked { OnErr result (P.calls peers.new ≡ P.calls peers.old) }
    ensures faults { P.faults peers.old ≤ P.faults peers.new }
{
    match ask(alloc, peers, call.target.get()) {
        Ok(gave) => Ok(add_given(alloc, traders, trader, call, gave)),
        Err(memory) => {
            drop(call);
            Err(memory)
        }
    }
}

/// Asks a Lookup for its register.
///
/// # Errors
///
/// `Memory` only when out of memory.
fn ask<P: Peers>(
    alloc: Global,
    peers: &mut P,
    lookup: &Ior,
) -> Result<Result<Ior, PeerFault>, Memory>
    ensures same { P.same peers.old peers.new }
    ensures noted { IfOk result (λ gave. IsNoted (λ r. Referred r) (RegisterOf lookup.now)
        (P.calls peers.old) (P.calls peers.new) (P.faults peers.old) (P.faults peers.new) gave) }
    ensures answered { IfOk result (λ gave. IfErr gave (λ f. is_memory f ≡ false)) }
    ensures admitted { IfOk result (λ gave. IfOk gave (λ r. reference.format.admits r)) }
    ensures unasked { OnErr result (P.calls peers.new ≡ P.calls peers.old) }
    ensures faults { P.faults peers.old ≤ P.faults peers.new }
{
    match peers.register_of(alloc, lookup) {
        Ok(register) => Ok(Ok(register)),
        Err(PeerFault::Wire) => Ok(Err(PeerFault::Wire)),
        Err(PeerFault::Grammar) => Ok(Err(PeerFault::Grammar)),
        Err(PeerFault::Exception) => Ok(Err(PeerFault::Exception)),
        Err(PeerFault::Memory) => Err(Memory),
    }
}

/// Adds a link to a trader that gave this for its register.
fn add_given<T: Traders>(
    alloc: Global,
    traders: &mut T,
    trader: usize,
    call: AddLink,
    gave: Result<Ior, PeerFault>,
) -> Answer
    requires trader { trader < length (T.world traders.old) }
    requires admitted { AdmitsCall (asked.AddLink call) }
    requires given { IfOk gave (λ r. reference.format.admits r) }
    ensures same { T.same traders.old traders.new }
    ensures linked { AnswersPlainly (λ o e.
        LinkedAs T.others T.later (T.world traders.old) trader call gave o e (T.world traders.new)
        ⊎ NotedInVain T.others T.later (T.world traders.old) trader gave o e (T.world traders.new))
        result }
    ensures if_no_memory { IfLong result.body
        (Watches T.others T.later (T.world traders.old) trader (T.world traders.new)) }
{
    match register_given(alloc, &gave) {
        Ok(register) => add_as(traders, trader, link_change(call, register), gave),
        Err(_) => {
            drop(call);
            asked_without_memory(traders, trader, gave)
        }
    }
}

/// A copy of the register that a peer gave; a nil reference is none.
///
/// # Errors
///
/// `Memory` only when out of memory.
fn register_given(alloc: Global, gave: &Result<Ior, PeerFault>) -> Result<Option<Ior>, Memory>
    ensures { IfOk result (λ register. register ≡ register_given gave.now) }
{
    match gave {
        Ok(register) => unless_nil(alloc, register),
        Err(_) => Ok(None),
    }
}

fn unless_nil(alloc: Global, register: &Ior) -> Result<Option<Ior>, Memory>
    ensures { IfOk result (λ r. r ≡ register_given (Ok register.now)) }
{
    if is_nil(register) {
        return Ok(None);
    }
    let copy = register.copy(alloc)?;
    Ok(Some(copy))
}

/// Makes the change, and notes what the peer gave.
#[tactic(auto, using(crate::proofs::Seen::changed_within, crate::proofs::Backing::change_back))]
fn add_as<T: Traders>(
    traders: &mut T,
    trader: usize,
    c: Change,
    gave: Result<Ior, PeerFault>,
) -> Answer
    requires trader { trader < length (T.world traders.old) }
    requires admitted { AdmitsChange c }
    ensures same { T.same traders.old traders.new }
    ensures changed { AnswersPlainly (λ o e.
        ChangeNoted T.others T.later (T.world traders.old) trader c gave o e (T.world traders.new)
        ⊎ NotedInVain T.others T.later (T.world traders.old) trader gave o e (T.world traders.new))
        result }
    ensures if_no_memory { IfLong result.body
        (Watches T.others T.later (T.world traders.old) trader (T.world traders.new)) }
{
    match traders.change(trader, c) {
        Ok(outcome) => {
            let point = point_of(traders, trader, &outcome);
            Answer {
                body: ReplyBody::Outcome(outcome),
                entry: Entry::Asked {
                    trader,
                    point,
                    answer: gave,
                },
            }
        }
        Err(_) => asked_without_memory(traders, trader, gave),
    }
}

/// NO_MEMORY, with what the peer gave.
#[tactic(auto, using(crate::proofs::Linked::no_memory_entry))]
fn asked_without_memory<T: Traders>(
    traders: &T,
    trader: usize,
    gave: Result<Ior, PeerFault>,
) -> Answer
    requires { trader < length (T.world traders.now) }
    ensures content { (w : List View) (c : a_change)
        → Rests T.others T.later w trader (T.world traders.now)
        → AnswersPlainly (λ o e. ChangeNoted T.others T.later w trader c gave o e
        (T.world traders.now)
        ⊎ NotedInVain T.others T.later w trader gave o e (T.world traders.now)) result }
    ensures if_no_memory { (w : List View) → IfLong result.body
        (Watches T.others T.later w trader (T.world traders.now)) }
{
    let point = traders.point(trader);
    Answer {
        body: ReplyBody::Outcome(Outcome::no_memory()),
        entry: Entry::Asked {
            trader,
            point,
            answer: gave,
        },
    }
}
