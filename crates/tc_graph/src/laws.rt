//! What holds of all graphs, as functions that do nothing: each one's contract is the law.

ghost use Rattle.tc_graph.specs.Examples.{WorkedAliases, WorkedFilling, WorkedSameness};
ghost use Rattle.tc_graph.specs.Laws.{AliasesEnd, IsReflexive, IsSymmetric};

/// In a whole graph no alias is left once aliases are removed.
pub fn aliases_end()
    ensures { AliasesEnd }
{}

/// A graph is the same as itself, and so as its copy, and being the same goes both ways. It isn't transitive,
/// since a graph without ids is the same as two of different ids.
pub fn sameness()
    ensures reflexive { IsReflexive }
    ensures symmetric { IsSymmetric }
{}

/// Worked examples: a struct that holds a sequence of itself, the same unrolled once, behind aliases, with a
/// bound that tells them apart at depth 4 and not at 3; ids where one is empty; names, which don't count, and
/// how many there are; aliases and two that make a loop; what filling a node answers.
pub fn worked_examples()
    ensures sameness { WorkedSameness }
    ensures aliases { WorkedAliases }
    ensures filling { WorkedFilling }
{}
