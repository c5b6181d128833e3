//! What holds of marks and of the next made identifier (Trading Object Service, the policy request_id of a query), as
//! functions that do nothing: each one's contract is the law.

ghost use Rattle.td_marks.specs.Laws.{FreshMarksFollow, MarksOfOneIdentifierAreFar};
ghost use Rattle.td_marks.specs.Laws.{NextValuesAreFree, NextValuesAreAlone};

/// A mark of an identifier that isn't remembered: the marks are later then and in order, and the mark is new.
pub fn fresh_marks_follow()
    ensures { FreshMarksFollow }
{}

/// Two marks of one identifier have numbers that differ by more than there is room for.
pub fn marks_of_one_identifier_are_far()
    ensures { MarksOfOneIdentifierAreFar }
{}

/// The value of the next made identifier is the least one from the counter on whose identifier isn't remembered.
pub fn next_values_are_free()
    ensures free { NextValuesAreFree }
    ensures alone { NextValuesAreAlone }
{}
