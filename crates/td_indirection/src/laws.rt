//! What holds of formats with a state, as functions that do nothing: each one's contract is the
//! law.

ghost use Rattle.td_indirection.specs.Nets.{NetsAreRead, NetsAreRefused, NetsAreWritten, LongsLead};
ghost use Rattle.td_indirection.specs.Nets.{ReadsItself, WritesItself};

/// A grammar of nodes whose edges may lead back, in which each way to build a format with a state
/// has a part: what is read is spelled so, and what is spelled so is read whatever follows; it is
/// refused exactly where the bytes are at fault; and what is written for a graph spells it,
/// wherever its nodes then stand.
pub fn nets_are_spelled()
    ensures read { NetsAreRead }
    ensures refused { NetsAreRefused }
    ensures written { NetsAreWritten }
{}

/// The long that is written for a node leads to that node, and to no earlier one.
pub fn longs_lead()
    ensures { LongsLead }
{}

/// A worked example: a node with an edge to itself, read and written.
pub fn worked_example()
    ensures read { ReadsItself }
    ensures written { WritesItself }
{}
