//! Peers in memory.

ghost use Rattle.std.specs.Prelude.{◌≡◌, ◌≤◌, ◌<◌, [], length, IfOk, OnOk, OnErr, IfSome};
ghost use Rattle.td_typecode.specs.References.{reference};
ghost use Rattle.td_peers.specs.Scripts.{IsPlayed, IsAllowed, AreAllowed, after, entry_at, faults_after, gives};
ghost use Rattle.td_peers.specs.Scripts.{next_entry, place_for, with_call, without};
ghost use Rattle.td_walk.specs.Noting.{call_of};
ghost use Rattle.td_walk.specs.Peering.{IsNoted, HasSmallOffers, Querying, Evaluating, RegisterOf, Resolving};
ghost use Rattle.td_walk.specs.Peering.{AdmitsExchanges, Answered, Evaluated, Referred};

use crate::entries::{fails, place_among, take_entry};
use crate::note::{Note, note_call};
use crate::scripted::{Scripted, offers_in, reference_in, value_in};
use std::alloc::Global;
use std::marker::Model;
use std::snapshot::Snapshot;
use td_cdr::{Boxed, List, Memory, Octets, Text};
use td_ops::Query;
use td_value::{Any, Ior, TypeCode};
use td_walk::{CallNote, PeerFault, Peers, SubAnswer};

/// Peers in memory, which answer by a script. Each object gives its entries in order; some calls fail.
#[derive(Drop)]
pub struct MemPeers {
    script: Vec<(Octets, Scripted)>,
    notes: List<Note>,
    failing: List<u64>,
    made: u64,
    faults: u64,
}

impl Model for MemPeers {
    ghost use Rattle.td_typecode.specs.contracts.code.Any as any_row;
    ghost use Rattle.td_typecode.specs.contracts.code.TypeCode as code_row;
    ghost use Rattle.td_typecode.specs.contracts.reference.Ior as ior_row;
    ghost use Rattle.td_ops.specs.contracts.call.Query as query_row;
    ghost use Rattle.td_peers.specs.contracts.scripted.Scripted as entry_row;
    ghost use Rattle.td_walk.specs.contracts.answer.SubAnswer as answer_row;
    ghost use Rattle.td_walk.specs.contracts.fault.PeerFault as fault_row;
    ghost use Rattle.td_peers.specs.Scripts.{ScriptState};
    ghost use Rattle.td_peers.specs.Storing.{played_code};

    ghost Value = { ScriptState };

    ghost coded = { played_code entry_row.the_row.coded ior_row.the_row.coded
        query_row.the_row.coded code_row.the_row.coded any_row.the_row.coded
        answer_row.the_row.coded fault_row.the_row.coded };

    ghost use Rattle.td_peers.specs.Noted.{exchanges};
    ghost use Rattle.td_peers.specs.Scripts.{AreAllowed};
    ghost use Rattle.td_walk.specs.Peering.{AdmitsExchanges};

    ghost view = { λ p. record {
      script = p.script.items;
      calls = exchanges p.notes;
      failing = p.failing;
      made = p.made;
      faults = p.faults;
    } };

    ghost invariant = { λ p. AreAllowed p.script.items × AdmitsExchanges (exchanges p.notes) };
}

/// A count of faults after a call.
fn faults_after(faults: u64, given: bool) -> u64
    ensures after { result ≡ faults_after faults given }
    ensures later { faults ≤ result }
{
    if given {
        faults
    } else {
        faults.saturating_add(1)
    }
}

impl MemPeers {
    /// Peers that answer by this script, of which no offer has more than 6 MiB, and each offer, value and reference can
    /// be written. Each object gives its entries in order;
    /// `failing` has the numbers of the calls that fail, counted from 1, and these leave the script as it is. A call
    /// that fails, one of an object without an IIOP profile or without an entry, and one for which the next entry is
    /// `Failed` or of another kind are a fault of the wire.
    pub fn new(alloc: Global, script: List<(Octets, Scripted)>, failing: List<u64>) -> MemPeers
        requires { AreAllowed script }
        ensures { result ≡ record {
          script = script;
          calls = [];
          failing = failing;
          made = 0;
          faults = 0;
        } }
    {
        MemPeers {
            script: script.into_vec(),
            notes: List::new(alloc),
            failing,
            made: 0,
            faults: 0,
        }
    }

    /// How many calls were made.
    #[tactic(auto, using(crate::proofs::Playing::counted))]
    pub fn count_calls(&self) -> usize
        ensures { result ≡ length self.now.calls }
    {
        self.notes.len()
    }

    /// How many calls failed.
    pub fn count_faults(&self) -> u64
        ensures { result ≡ self.now.faults }
    {
        self.faults
    }

    /// How many entries weren't given yet.
    pub fn count_entries(&self) -> usize
        ensures { result ≡ length self.now.script }
    {
        self.script.len()
    }

    /// Where the object's next entry stands.
    fn place_for(&self, alloc: Global, target: &Ior) -> Result<Option<usize>, Memory>
        ensures place { IfOk result (λ place. place ≡ place_for self.now target.now) }
        ensures within { IfOk result (λ place. IfSome place (λ i. i < length self.now.script)) }
    {
        if fails(self.failing.as_slice(), self.made) {
            return Ok(None);
        }
        place_among(alloc, self.script.as_slice(), target)
    }

    /// Notes the call with the entry that stands there, and counts it.
    fn note(&mut self, place: Option<usize>, call: CallNote) -> Result<(), Memory>
        ensures noted { OnOk result (self.new ≡ with_call self.old (call_of call)
            (gives (call_of call) (entry_at self.old.script place))) }
        ensures kept { OnErr result (self.new ≡ self.old) }
        ensures later { self.old.faults ≤ self.new.faults }
    {
        let given = note_call(&mut self.notes, self.script.as_slice(), place, call)?;
        self.made = self.made.saturating_add(1);
        self.faults = faults_after(self.faults, given);
        Ok(())
    }

    /// Takes out the entry that stands there.
    fn take(&mut self, place: Option<usize>) -> Option<Scripted>
        requires { IfSome place (λ i. i < length self.old.script) }
        ensures entry { result ≡ entry_at self.old.script place }
        ensures rest { self.new ≡ without self.old place }
        ensures small { IfSome result IsAllowed }
    {
        take_entry(&mut self.script, place)
    }

    /// Makes a call: it is noted, and the object's next entry taken out.
    fn ask(
        &mut self,
        alloc: Global,
        target: &Ior,
        call: CallNote,
    ) -> Result<Option<Scripted>, Memory>
        ensures entry { IfOk result (λ entry. entry ≡ next_entry self.old target.now) }
        ensures left { OnOk result (self.new ≡ after self.old target.now (call_of call)) }
        ensures kept { OnErr result (self.new ≡ self.old) }
        ensures later { self.old.faults ≤ self.new.faults }
        ensures small { IfOk result (λ entry. IfSome entry IsAllowed) }
    {
        let place = self.place_for(alloc, target)?;
        self.note(place, call)?;
        Ok(self.take(place))
    }
}

impl Peers for MemPeers {
    ghost calls = { λ p. p.calls };

    ghost faults = { λ p. p.faults };

    ghost same = { λ _ _. Unit {0} };

    ghost same_self = { λ _. tt };

    ghost same_on = { λ _ _ _ _ _. tt };

    fn query(&mut self, alloc: Global, target: &Ior, q: &Query) -> Result<SubAnswer, PeerFault>
        ensures same { Unit {0} }
        ensures noted { IsNoted (λ a. Answered a)
            (Querying target.now q.now) self.old.calls self.new.calls self.old.faults
            self.new.faults result }
        ensures small { IfOk result (λ a. HasSmallOffers a) }
        ensures exact { IsPlayed (λ a. Answered a)
            (Querying target.now q.now) target.now self.old self.new result }
    {
        let call = CallNote::Query {
            target: Snapshot::of(target),
            query: Snapshot::of(q),
        };
        match offers_in(self.ask(alloc, target, call)?) {
            None => Err(PeerFault::Wire),
            Some(answer) => Ok(answer),
        }
    }

    fn eval_dp(
        &mut self,
        alloc: Global,
        evaluator: &Ior,
        name: &Text,
        returned: &TypeCode,
        extra: &Any,
    ) -> Result<Boxed<Any>, PeerFault>
        ensures same { Unit {0} }
        ensures noted { IsNoted (λ v. Evaluated v)
            (Evaluating evaluator.now name.now returned.now extra.now)
            self.old.calls self.new.calls self.old.faults self.new.faults result }
        ensures exact { IsPlayed (λ v. Evaluated v)
            (Evaluating evaluator.now name.now returned.now extra.now)
            evaluator.now self.old self.new result }
    {
        let call = CallNote::Evaluation {
            evaluator: Snapshot::of(evaluator),
            name: Snapshot::of(name),
            returned: Snapshot::of(returned),
            extra: Snapshot::of(extra),
        };
        match value_in(self.ask(alloc, evaluator, call)?) {
            None => Err(PeerFault::Wire),
            Some(value) => Ok(value),
        }
    }

    fn register_of(&mut self, alloc: Global, lookup: &Ior) -> Result<Ior, PeerFault>
        ensures same { Unit {0} }
        ensures noted { IsNoted (λ r. Referred r)
            (RegisterOf lookup.now) self.old.calls self.new.calls self.old.faults self.new.faults
            result }
        ensures admitted { IfOk result (λ r. reference.format.admits r) }
        ensures exact { IsPlayed (λ r. Referred r)
            (RegisterOf lookup.now) lookup.now self.old self.new result }
    {
        let call = CallNote::Register {
            lookup: Snapshot::of(lookup),
        };
        match reference_in(self.ask(alloc, lookup, call)?) {
            None => Err(PeerFault::Wire),
            Some(reference) => Ok(reference),
        }
    }

    fn resolve(
        &mut self,
        alloc: Global,
        register: &Ior,
        name: &List<Text>,
    ) -> Result<Ior, PeerFault>
        ensures same { Unit {0} }
        ensures noted { IsNoted (λ r. Referred r)
            (Resolving register.now name.now) self.old.calls self.new.calls self.old.faults
            self.new.faults result }
        ensures admitted { IfOk result (λ r. reference.format.admits r) }
        ensures exact { IsPlayed (λ r. Referred r)
            (Resolving register.now name.now) register.now self.old self.new result }
    {
        let call = CallNote::Resolution {
            register: Snapshot::of(register),
            name: Snapshot::of(name),
        };
        match reference_in(self.ask(alloc, register, call)?) {
            None => Err(PeerFault::Wire),
            Some(reference) => Ok(reference),
        }
    }

    fn tell_gifts(&self)
        ensures { AdmitsExchanges self.now.calls }
    {
        let _ = &self.notes;
    }
}
