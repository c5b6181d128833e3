//! What holds of being the same, as functions that do nothing: each one's contract is the law.

ghost use Rattle.td_typecode.specs.declared.code.TypeCode.{TypeCode};
ghost use Rattle.td_typecode.specs.Same.{Same};
ghost use Rattle.td_sameness.specs.Graphs.{StandsAlone};
ghost use Rattle.td_sameness.specs.Depths.{AtEveryDepth};
ghost use Rattle.td_sameness.specs.Examples.{WorkedSameness};

/// A TypeCode is the same as itself, and so as its copy, unless a graph stands in it; and being the same
/// goes both ways. It isn't transitive, since a TypeCode without an id is the same as two of different ids.
pub fn sameness()
    ensures reflexive { (a : TypeCode) → StandsAlone a → Same a a }
    ensures symmetric { (a b : TypeCode) → Same a b → Same b a }
{}

/// A TypeCode that is no graph and a place of a graph are the same exactly where nothing tells them apart
/// down to any depth, as with two places of graphs.
pub fn every_depth()
    ensures { AtEveryDepth }
{}

/// Worked examples: a struct of two members of one struct against a graph in which that one stands once, with
/// and without aliases and ids; a type that holds itself; a union's labels and bounds; an enum's names, which
/// don't count, and how many there are; and a graph inside another TypeCode.
pub fn worked_examples()
    ensures { WorkedSameness }
{}
