//! Laws: public functions with empty bodies whose contracts are proved for all values.

ghost use Rattle.td_desk_calls.specs.Examples.{WorkedCalls};

/// Nothing is done: worked examples of keys, of what Requests ask, and of their outcomes.
pub fn worked_calls()
    ensures { WorkedCalls }
{}
