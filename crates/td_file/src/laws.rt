//! What holds of every file, as functions that do nothing: each one's contract is the law.

ghost use Rattle.std.specs.Prelude.{◌≡◌, [], ◌∷◌, Ok, Err};
ghost use Rattle.td_file.specs.Examples.{lists_in, lists_of_seven, type_twice, type_twice_and_more};
ghost use Rattle.td_file.specs.Files.{opening_of};
ghost use Rattle.td_file.specs.Laws.{AcceptedEntriesAreDone, FirstRefusedIsAnswered, StoresAreBehind};
ghost use Rattle.td_lines.specs.Steps.{refusal};
ghost use Rattle.td_lines.specs.declared.cause.LineCause.TheVariants.{Rejected};

/// The store with which a trader opens is the one behind a history of the changes that its entries ask for, each
/// accepted, and each such history leads to it. Of entries that aren't all accepted the first refused one is told.
pub fn entries_are_changes()
    ensures behind { StoresAreBehind }
    ensures accepted { AcceptedEntriesAreDone }
    ensures refused { FirstRefusedIsAnswered }
{}

/// Worked examples: the second of two types of one name is refused at its line, in front of a line that is none too; a
/// trader has lists of seven where a line says so, and of a hundred else.
pub fn worked_openings()
    ensures twice { opening_of type_twice ≡ Err (refusal 4 Rejected) }
    ensures first { opening_of type_twice_and_more ≡ Err (refusal 4 Rejected) }
    ensures set { lists_in (opening_of lists_of_seven) ≡ Ok (100 ∷ 7 ∷ []) }
{}
