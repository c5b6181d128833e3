//! What holds of all calls and exceptions, as functions that do nothing: each one's contract is the law.

ghost use Rattle.td_cdr.specs.Faults.{Refuses};
ghost use Rattle.td_cdr.specs.Lawful.{Lawful};
ghost use Rattle.td_name_ops.specs.Calls.{body_of};
ghost use Rattle.td_name_ops.specs.Examples.{WorkedBodies, WorkedReplies};
ghost use Rattle.td_name_ops.specs.Exceptions.{members_of};
ghost use Rattle.td_name_ops.specs.Laws.{AreFound, IsNotImplemented, ReadAsSpelled, SecondName, SpelledIsRead};
ghost use Rattle.td_name_ops.specs.Laws.{UnknownIsRefused};
ghost use Rattle.td_name_ops.specs.Operations.{row};
ghost use Rattle.td_name_ops.specs.declared.operation.NameOperation.{NameOperation as Operation};
ghost use Rattle.td_names.specs.declared.act.NameException.{NameException as Raised};

/// Each operation of an object is found by its name, and `_not_existent` finds the same as `_non_existent`.
/// `rebind_context` is not implemented, whatever its body.
pub fn operations_are_named()
    ensures found { AreFound }
    ensures second { SecondName }
    ensures not_implemented { IsNotImplemented }
{}

/// A call is read as its body is spelled, whatever follows, and only so. Its parameters are refused exactly where their
/// bytes are at fault, with the fault of the first value that has no spelling. `BadOperation` is the fault exactly
/// where the object has no operation of the name.
pub fn calls_are_spelled()
    ensures lawful { (operation : Operation) → Lawful (body_of operation) }
    ensures refused { (operation : Operation)
        → Refuses (row operation).body.faults (body_of operation).reads }
    ensures found { ReadAsSpelled }
    ensures only { SpelledIsRead }
    ensures unknown { UnknownIsRefused }
{}

/// The members of an exception are spelled so that they are read back.
pub fn exceptions_are_spelled()
    ensures { (e : Raised) → Lawful (members_of e).format }
{}

/// Worked examples: bodies of requests, and bodies of replies.
pub fn worked_bodies()
    ensures requests { WorkedBodies }
    ensures replies { WorkedReplies }
{}
