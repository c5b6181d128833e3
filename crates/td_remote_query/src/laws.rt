//! Worked examples, as a function that does nothing: its contract is what they say.

ghost use Rattle.std.specs.Prelude.{ℕ, List};
ghost use Rattle.td_typecode.specs.declared.reference.Ior.{Ior};
ghost use Rattle.td_remote_query.specs.Examples.{WorkedBatches, WorkedElsewhere, WorkedException, WorkedNil};
ghost use Rattle.td_remote_query.specs.Examples.{WorkedPlaces};
ghost use Rattle.td_ior.specs.declared.profile.Iiop.{Iiop};
ghost use Rattle.td_ops.specs.declared.call.Call.{Call};
ghost use Rattle.td_value.specs.declared.structures.Offer.{Offer};

/// The requests of a query, by the replies that its connection gives, and where its iterator is elsewhere, that the
/// next one gives.
pub fn worked_requests()
    ensures nil { (trader : Iiop) (c : Call) (given : List ℕ) (size : ℕ)
        → WorkedNil trader c given size }
    ensures exception { (trader : Iiop) (c : Call) (given : List ℕ) (size : ℕ) (id : List ℕ)
        → WorkedException trader c given size id }
    ensures batches { (trader : Iiop) (c : Call) (given : List ℕ) (p : Iiop) (iterator : Ior)
        (o : Offer)
        → WorkedBatches trader c given p iterator o }
    ensures places { WorkedPlaces }
    ensures elsewhere { (trader : Iiop) (c : Call) (given next : List ℕ) (p : Iiop) (iterator : Ior)
        (a b : Offer)
        → WorkedElsewhere trader c given next p iterator a b }
{}
