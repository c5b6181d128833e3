//! Calls are noted with what they gave.

ghost use Rattle.std.specs.Prelude.{◌≡◌, ◌≤◌, ◌++◌, ◌∷◌, [], IfOk};
ghost use Rattle.td_cdr.specs.Format.{Unless};
ghost use Rattle.td_typecode.specs.References.{reference};
ghost use Rattle.td_typecode.specs.Values.{any_value};
ghost use Rattle.td_out.specs.Causes.{next_count, Rose};
ghost use Rattle.td_walk.specs.Peering.{HasWritableOffers, IsNoted, Answered, Evaluated, Referred, Failed, is_memory};
ghost use Rattle.td_walk.specs.Noting.{call_of};
ghost use Rattle.td_client.specs.Noted.{count_after, count_fault, note_failure};

use crate::calls::Calls;
use crate::note::{GaveNote, Note};
use std::snapshot::Snapshot;
use td_cdr::Boxed;
use td_value::{Any, Ior};
use td_walk::{CallNote, PeerFault, SubAnswer};

/// Notes a call with its fault, and counts the fault.
fn keep_fault(calls: &mut Calls, faults: &mut u64, call: CallNote, fault: PeerFault)
    ensures noted { calls.new ≡ calls.old ++ record { call = call_of call; gave = Failed fault }
        ∷ [] }
    ensures counted { faults.new ≡ next_count faults.old }
    ensures later { faults.old ≤ faults.new }
{
    let note = Note {
        call,
        gave: GaveNote::Failed(fault),
    };
    calls.note(&note);
    *faults = faults.saturating_add(1);
}

/// Notes a call that failed; one that ran out of memory isn't noted.
fn note_fault(calls: &mut Calls, faults: &mut u64, call: CallNote, fault: PeerFault)
    ensures noted { calls.new ≡ calls.old ++ note_failure (call_of call) fault }
    ensures later { faults.old ≤ faults.new }
    ensures cause { Unless (is_memory fault) (Rose faults.old faults.new) }
    ensures counted { faults.new ≡ count_fault faults.old fault }
{
    match fault {
        PeerFault::Memory => drop(call),
        PeerFault::Wire => keep_fault(calls, faults, call, PeerFault::Wire),
        PeerFault::Grammar => keep_fault(calls, faults, call, PeerFault::Grammar),
        PeerFault::Exception => keep_fault(calls, faults, call, PeerFault::Exception),
    }
}

/// Notes a query.
#[tactic(auto, using(crate::proofs::Marking::noted_answer, crate::proofs::Marking::noted_fault))]
pub(crate) fn note_offers(
    calls: &mut Calls,
    faults: &mut u64,
    call: CallNote,
    answer: &Result<SubAnswer, PeerFault>,
)
    requires { IfOk answer.now (λ a. HasWritableOffers a) }
    ensures noted { IsNoted (λ a. Answered a)
        (call_of call) calls.old calls.new faults.old faults.new answer.now }
    ensures counted { faults.new ≡ count_after faults.old answer.now }
{
    match answer {
        Ok(offers) => calls.note(&Note {
            call,
            gave: GaveNote::Offers(Snapshot::of(offers)),
        }),
        Err(fault) => note_fault(calls, faults, call, *fault),
    }
}

/// Notes an evaluation.
#[tactic(auto, using(crate::proofs::Marking::noted_answer, crate::proofs::Marking::noted_fault))]
pub(crate) fn note_value(
    calls: &mut Calls,
    faults: &mut u64,
    call: CallNote,
    answer: &Result<Boxed<Any>, PeerFault>,
)
    requires { IfOk answer.now (λ v. any_value.format.admits v) }
    ensures noted { IsNoted (λ v. Evaluated v)
        (call_of call) calls.old calls.new faults.old faults.new answer.now }
    ensures counted { faults.new ≡ count_after faults.old answer.now }
{
    match answer {
        Ok(value) => calls.note(&Note {
            call,
            gave: GaveNote::Value(Snapshot::of(value.get())),
        }),
        Err(fault) => note_fault(calls, faults, call, *fault),
    }
}

/// Notes a call that gives a reference.
#[tactic(auto, using(crate::proofs::Marking::noted_answer, crate::proofs::Marking::noted_fault))]
pub(crate) fn note_reference(
    calls: &mut Calls,
    faults: &mut u64,
    call: CallNote,
    answer: &Result<Ior, PeerFault>,
)
    requires { IfOk answer.now (λ r. reference.format.admits r) }
    ensures noted { IsNoted (λ r. Referred r)
        (call_of call) calls.old calls.new faults.old faults.new answer.now }
    ensures counted { faults.new ≡ count_after faults.old answer.now }
{
    match answer {
        Ok(reference) => calls.note(&Note {
            call,
            gave: GaveNote::Reference(Snapshot::of(reference)),
        }),
        Err(fault) => note_fault(calls, faults, call, *fault),
    }
}
