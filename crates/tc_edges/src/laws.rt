//! What holds of the edges of a graph, as a function that does nothing: its contract is the law.

ghost use Rattle.tc_edges.specs.Examples.{WorkedEdges};

/// Worked examples: a struct that holds a sequence of itself, the same unrolled once, and a struct whose two
/// members are of one struct.
pub fn worked_edges()
    ensures { WorkedEdges }
{}
