//! What holds of all TypeCodes and anys, as functions that do nothing: each one's contract is the
//! law.

ghost use Rattle.std.specs.Prelude.{◌≡◌, ℕ};
ghost use Rattle.td_cdr.specs.Lawful.{Lawful};
ghost use Rattle.td_cdr.specs.Faults.{Refuses};
ghost use Rattle.td_typecode.specs.declared.mode.Mode.{Mode};
ghost use Rattle.td_typecode.specs.Codes.{codes};
ghost use Rattle.td_typecode.specs.ValueExamples.{WorkedValues};
ghost use Rattle.td_typecode.specs.Values.{anys};
ghost use Rattle.td_typecode.specs.WritingCodes.{code_piece};
ghost use Rattle.td_typecode.specs.Extension.{CodesAreExtended};
ghost use Rattle.td_typecode.specs.GraphExamples.{WorkedGraph};
ghost use Rattle.td_typecode.specs.GraphLaws.{GraphsAreRead, GraphsAreRefused, GraphsAreWritten};
ghost use Rattle.td_typecode.specs.GraphLaws.{GraphsAreWhole};
ghost use Rattle.td_typecode.specs.Outermost.{outer};
ghost use Rattle.td_typecode.specs.OutermostExamples.{WorkedOutermost};

/// A TypeCode is read as it is spelled, whatever follows, and only so; what has a spelling is
/// admitted. What is written for an admitted TypeCode spells it, and so is read back, in either
/// order and at any place. It is refused exactly where the bytes are at fault. This holds at every
/// level, in a body and inside a TypeCode; what is written does not depend on the level.
pub fn codes_are_spelled()
    ensures lawful { (levels : ℕ) (mode : Mode) → Lawful (codes levels mode).format }
    ensures refuses { (levels : ℕ) (mode : Mode)
        → Refuses (codes levels mode).faults (codes levels mode).format.reads }
    ensures written { (levels : ℕ) (mode : Mode) → (codes levels mode).format.writes ≡ code_piece }
{}

/// An any is read as it is spelled, whatever follows, and only so; what has a spelling is admitted.
/// What is written for an admitted one spells it, and so is read back, in either order and at any
/// place. It is refused exactly where the bytes are at fault. This holds at every level.
pub fn anys_are_spelled()
    ensures lawful { (levels : ℕ) → Lawful (anys levels).format }
    ensures refuses { (levels : ℕ) → Refuses (anys levels).faults (anys levels).format.reads }
{}

/// A TypeCode with indirections, at every level, in every mode and under every chain of aliases:
/// what is read is spelled so, and what is spelled so is read whatever follows; it is refused
/// exactly where the bytes are at fault; what is written for a graph spells it, wherever its nodes
/// then stand. The nodes of what is read are those of a whole graph, the root first, and that graph
/// tells all that was known of them.
pub fn graphs_are_spelled()
    ensures read { GraphsAreRead }
    ensures refused { GraphsAreRefused }
    ensures written { GraphsAreWritten }
    ensures whole { GraphsAreWhole }
{}

/// What the format without indirections says, the one with them says too, up to the first
/// indirection: a TypeCode that the former reads is read as its nodes, in the order of their kinds,
/// unless they are too many, and one that it refuses is refused with the same fault, but for an
/// indirection and too many nodes. Where the former meets an indirection and this one reads a
/// TypeCode all the same, it has followed one.
pub fn codes_are_extended()
    ensures { CodesAreExtended }
{}

/// An outermost TypeCode, with or without indirections, is read as it is spelled, whatever follows,
/// and only so; what has a spelling is admitted. What is written for an admitted one spells it, and
/// so is read back, in either order and at any place. It is refused exactly where the bytes are at
/// fault. This holds at every level.
pub fn outermost_codes_are_spelled()
    ensures lawful { (levels : ℕ) → Lawful (outer levels).format }
    ensures refuses { (levels : ℕ) → Refuses (outer levels).faults (outer levels).format.reads }
{}

/// Worked examples: a struct that holds itself through a sequence, read, written, as a graph's
/// nodes, and with an indirection that leads to no kind; a struct that stands in another three
/// times; two structs that hold each other, in encapsulations of either order; an alias of itself;
/// indirections to another one, and to an odd place.
pub fn worked_graphs()
    ensures graph { WorkedGraph }
    ensures outermost { WorkedOutermost }
{}

/// Worked examples: a struct that holds itself through a sequence, and one with two members of one struct.
/// Values under them that are read and written, and how many indirections a value may pass.
pub fn worked_values()
    ensures { WorkedValues }
{}
