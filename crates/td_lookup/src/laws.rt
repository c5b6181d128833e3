//! Worked examples, as a function that does nothing: its contract is what they say.

ghost use Rattle.std.specs.Prelude.{List};
ghost use Rattle.td_typecode.specs.declared.code.Any.{Any};
ghost use Rattle.td_lookup.specs.Examples.{WorkedChoosing, WorkedCompletion, WorkedFirst};
ghost use Rattle.td_trader.specs.Worlds.{View};
ghost use Rattle.td_value.specs.declared.structures.Offer.{Offer};
ghost use Rattle.td_walk.specs.declared.trace.Address.{Address as Home};

/// Desired properties, what a call may have done that memory ran out for, and first batches.
pub fn worked_lookups()
    ensures choosing { (v : Any) → WorkedChoosing v }
    ensures completion { (w : List View) → WorkedCompletion w }
    ensures first { (home : Home) (o p : Offer) → WorkedFirst home o p }
{}
