//! The count of faults over the calls that were made of peers.

ghost use Rattle.std.specs.Prelude.{ℕ, ◌+◌, ◌-◌, ◌^◌, ◌≤◌, min, List, ◌∷◌, ◌++◌, Result};
ghost use Rattle.td_typecode.specs.declared.code.Any.{Any};
ghost use Rattle.td_typecode.specs.declared.reference.Ior.{Ior};
ghost use Rattle.td_walk.specs.Peering.{Answered, Evaluated, Exchange, IsNoted, PeerCall, Referred};
ghost use Rattle.td_walk.specs.declared.answer.SubAnswer.{SubAnswer};
ghost use Rattle.td_walk.specs.declared.fault.PeerFault.{PeerFault};
ghost use Rattle.td_walk.specs.declared.trace.TraceItem.{TraceItem};
ghost use Rattle.td_walk.specs.declared.trace.TraceItem.TheVariants.{Failed};
ghost use Rattle.td_query_walk.specs.FaultExamples.{WorkedFaults};
ghost use Rattle.td_query_walk.specs.Faults.{CountsFaults, RoseBetween, failures};
ghost use Rattle.td_query_walk.specs.WalkLaws.{ShowsCalls};

/// The count of faults goes over each call of `Peers`, and over calls that were made one after the other. It never
/// falls.
pub fn faults_are_counted()
    ensures query { (call : PeerCall) (before after : List Exchange) (faults now : ℕ)
        (r : Result SubAnswer PeerFault) → IsNoted (λ a. Answered a) call before after faults now r
        → CountsFaults before after faults now }
    ensures evaluation { (call : PeerCall) (before after : List Exchange) (faults now : ℕ)
        (r : Result Any PeerFault) → IsNoted (λ v. Evaluated v) call before after faults now r
        → CountsFaults before after faults now }
    ensures register { (call : PeerCall) (before after : List Exchange) (faults now : ℕ)
        (r : Result Ior PeerFault) → IsNoted (λ x. Referred x) call before after faults now r
        → CountsFaults before after faults now }
    ensures joined { (a b c : List Exchange) (first second third : ℕ)
        → CountsFaults a b first second
        → CountsFaults b c second third → CountsFaults a c first third }
    ensures later { (before after : List Exchange) (faults now : ℕ)
        → CountsFaults before after faults now → faults ≤ now }
{}

/// Where items show the calls, each item Failed is a call at which the count rose: behind the calls of the items in
/// front of it, and before those of the items behind it. So it rose at least by the number of such items, or to its
/// last value.
pub fn failures_are_faults()
    ensures at_each { (front back : List TraceItem) (f : PeerFault) (before after : List Exchange)
        (faults now : ℕ)
        → ShowsCalls (front ++ Failed f ∷ back) before after → CountsFaults before after faults now
        → RoseBetween front back faults now }
    ensures in_all { (items : List TraceItem) (before after : List Exchange) (faults now : ℕ)
        → ShowsCalls items before after → CountsFaults before after faults now
        → min (faults + failures items) (2 ^ 64 - 1) ≤ now }
{}

/// Worked examples of the count.
pub fn worked_faults()
    ensures { WorkedFaults }
{}
