//! A caller as the peers of a visit.

ghost use Rattle.std.specs.Prelude.{◌≡◌, ℕ, List, Option, Result, IfOk};
ghost use Rattle.td_call.specs.Calling.{CallsObject, first_id};
ghost use Rattle.td_call.specs.Moving.{LeavesTraffic, StaysDisconnected};
ghost use Rattle.td_call.specs.Readings.{outcome_in_reply, evaluation_in_reply};
ghost use Rattle.td_call.specs.Requests.{request_of, evaluation_of};
ghost use Rattle.td_client.specs.Meanings.{offers_meant, reference_meant, register_call, resolve_call, value_meant};
ghost use Rattle.td_client.specs.Meanings.{with_meaning};
ghost use Rattle.td_client.specs.Noted.{count_after};
ghost use Rattle.td_typecode.specs.References.{reference};
ghost use Rattle.td_typecode.specs.declared.code.Any.{Any};
ghost use Rattle.td_remote_query.specs.Querying.{QueriesTrader};
ghost use Rattle.td_remote_query.specs.Writing.{AskLeaves};
ghost use Rattle.td_remote_query.specs.declared.gathered.Gathered.{Gathered as Given};
ghost use Rattle.td_ops.specs.declared.outcome.Answered.{Answered as Told};
ghost use Rattle.td_walk.specs.declared.fault.PeerFault.{PeerFault};
ghost use Rattle.td_walk.specs.Peering.{IsNoted, HasSmallOffers, Querying, Evaluating, RegisterOf, Resolving};
ghost use Rattle.td_walk.specs.Peering.{AdmitsExchanges, Answered, Evaluated, Referred};

use crate::caller::Caller;
use crate::meaning::{offers_meant, reference_meant, value_meant};
use crate::noting::{note_offers, note_reference, note_value};
use crate::references::{ask_register, ask_to_resolve};
use std::alloc::Global;
use std::snapshot::Snapshot;
use td_call::evaluate_over;
use td_cdr::{Boxed, List, Text};
use td_ops::Query;
use td_remote_query::ask_over;
use td_value::{Any, Ior, TypeCode};
use td_walk::{CallNote, PeerFault, Peers, SubAnswer};
use td_wire::Wire;

impl<L: Wire> Peers for Caller<L> {
    ghost calls = { λ c. c.calls };

    ghost faults = { λ c. c.faults };

    ghost same = { λ a b. L.same a.wire b.wire };

    ghost same_self = { λ a. L.same_self a.wire };

    ghost same_on = { λ a b c p q. L.same_on a.wire b.wire c.wire p q };

    /// What the reply says, and what the iterator gives; an exception is a fault.
    #[tactic(auto, using(td_remote_query::proofs::Writing::leaves_untouched))]
    fn query(&mut self, alloc: Global, target: &Ior, q: &Query) -> Result<SubAnswer, PeerFault>
        ensures same { L.same self.old.wire self.new.wire }
        ensures count { self.new.faults ≡ count_after self.old.faults result }
        ensures noted { IsNoted (λ a. Answered a)
            (Querying target.now q.now) self.old.calls self.new.calls self.old.faults
            self.new.faults result }
        ensures small { IfOk result (λ a. HasSmallOffers a) }
        ensures exact { (r : Result Given PeerFault) × QueriesTrader target.now q.now
            (L.content self.old.wire)
            (L.content self.new.wire) (L.faults self.old.wire) (L.faults self.new.wire) r
            × (result ≡ with_meaning offers_meant r) }
        ensures leaves { AskLeaves target.now q.now (L.content self.old.wire)
            (L.content self.new.wire) }
        ensures disconnected { StaysDisconnected (L.content self.old.wire)
            (L.content self.new.wire) }
    {
        let answer = offers_meant(ask_over(alloc, &mut self.wire, target, q));
        let call = CallNote::Query {
            target: Snapshot::of(target),
            query: Snapshot::of(q),
        };
        note_offers(&mut self.calls, &mut self.faults, call, &answer);
        answer
    }

    /// One Request for `evalDP` is written, and its reply read; an exception is a fault.
    #[tactic(auto, using(td_call::proofs::Moving::left_untouched))]
    fn eval_dp(
        &mut self,
        alloc: Global,
        evaluator: &Ior,
        name: &Text,
        returned: &TypeCode,
        extra: &Any,
    ) -> Result<Boxed<Any>, PeerFault>
        ensures same { L.same self.old.wire self.new.wire }
        ensures count { self.new.faults ≡ count_after self.old.faults result }
        ensures noted { IsNoted (λ v. Evaluated v)
            (Evaluating evaluator.now name.now returned.now extra.now)
            self.old.calls self.new.calls self.old.faults self.new.faults result }
        ensures exact { (r : Result (Option Any) PeerFault)
            × CallsObject (evaluation_in_reply returned.now)
            (λ p. evaluation_of first_id p name.now returned.now extra.now) evaluator.now
            (L.content self.old.wire) (L.content self.new.wire) (L.faults self.old.wire)
            (L.faults self.new.wire) r
            × (result ≡ with_meaning value_meant r) }
        ensures leaves { LeavesTraffic
            (λ p. evaluation_of first_id p name.now returned.now extra.now)
            evaluator.now (L.content self.old.wire) (L.content self.new.wire) }
        ensures disconnected { StaysDisconnected (L.content self.old.wire)
            (L.content self.new.wire) }
    {
        let answer = value_meant(evaluate_over(
            alloc,
            &mut self.wire,
            evaluator,
            name,
            returned,
            extra,
        ));
        let call = CallNote::Evaluation {
            evaluator: Snapshot::of(evaluator),
            name: Snapshot::of(name),
            returned: Snapshot::of(returned),
            extra: Snapshot::of(extra),
        };
        note_value(&mut self.calls, &mut self.faults, call, &answer);
        answer
    }

    /// One Request for the attribute `register_if` is written, and its reply read; an exception is a fault.
    #[tactic(auto, using(td_call::proofs::Moving::left_untouched))]
    fn register_of(&mut self, alloc: Global, lookup: &Ior) -> Result<Ior, PeerFault>
        ensures same { L.same self.old.wire self.new.wire }
        ensures count { self.new.faults ≡ count_after self.old.faults result }
        ensures noted { IsNoted (λ r. Referred r)
            (RegisterOf lookup.now) self.old.calls self.new.calls self.old.faults self.new.faults
            result }
        ensures admitted { IfOk result (λ r. reference.format.admits r) }
        ensures exact { (r : Result Told PeerFault) × CallsObject (outcome_in_reply register_call)
            (λ p. request_of first_id p register_call) lookup.now (L.content self.old.wire)
            (L.content self.new.wire) (L.faults self.old.wire) (L.faults self.new.wire) r
            × (result ≡ with_meaning reference_meant r) }
        ensures leaves { LeavesTraffic (λ p. request_of first_id p register_call) lookup.now
            (L.content self.old.wire) (L.content self.new.wire) }
        ensures disconnected { StaysDisconnected (L.content self.old.wire)
            (L.content self.new.wire) }
    {
        let answer = reference_meant(ask_register(alloc, &mut self.wire, lookup));
        let call = CallNote::Register {
            lookup: Snapshot::of(lookup),
        };
        note_reference(&mut self.calls, &mut self.faults, call, &answer);
        answer
    }

    /// One Request for `resolve` is written, and its reply read; an exception is a fault.
    #[tactic(auto, using(td_call::proofs::Moving::left_untouched))]
    fn resolve(
        &mut self,
        alloc: Global,
        register: &Ior,
        name: &List<Text>,
    ) -> Result<Ior, PeerFault>
        ensures same { L.same self.old.wire self.new.wire }
        ensures count { self.new.faults ≡ count_after self.old.faults result }
        ensures noted { IsNoted (λ r. Referred r)
            (Resolving register.now name.now) self.old.calls self.new.calls self.old.faults
            self.new.faults result }
        ensures admitted { IfOk result (λ r. reference.format.admits r) }
        ensures exact { (r : Result Told PeerFault)
            × CallsObject (outcome_in_reply (resolve_call name.now))
            (λ p. request_of first_id p (resolve_call name.now)) register.now
            (L.content self.old.wire)
            (L.content self.new.wire) (L.faults self.old.wire) (L.faults self.new.wire) r
            × (result ≡ with_meaning reference_meant r) }
        ensures leaves { LeavesTraffic (λ p. request_of first_id p (resolve_call name.now))
            register.now
            (L.content self.old.wire) (L.content self.new.wire) }
        ensures disconnected { StaysDisconnected (L.content self.old.wire)
            (L.content self.new.wire) }
    {
        let answer = reference_meant(ask_to_resolve(alloc, &mut self.wire, register, name));
        let call = CallNote::Resolution {
            register: Snapshot::of(register),
            name: Snapshot::of(name),
        };
        note_reference(&mut self.calls, &mut self.faults, call, &answer);
        answer
    }

    fn tell_gifts(&self)
        ensures { AdmitsExchanges self.now.calls }
    {
        self.calls.tell_gifts();
    }
}
