//! What holds of all calls and outcomes, as functions that do nothing: each one's contract is the law.

ghost use Rattle.std.specs.Prelude.{ℕ, map};
ghost use Rattle.std.specs.List.{IsDistinct};
ghost use Rattle.std.specs.Str.{bytes_eq};
ghost use Rattle.td_cdr.specs.Lawful.{Lawful};
ghost use Rattle.td_cdr.specs.Faults.{Refuses};
ghost use Rattle.td_value.specs.declared.key.Kind.{Kind};
ghost use Rattle.td_exceptions.specs.declared.exception.UserException.{UserException};
ghost use Rattle.td_exceptions.specs.Exceptions.{row_of};
ghost use Rattle.td_ops.specs.declared.operation.Operation.{Operation};
ghost use Rattle.td_ops.specs.declared.shape.Shape.{Shape};
ghost use Rattle.td_ops.specs.Operations.{operations, name_of};
ghost use Rattle.td_ops.specs.Calls.{body_of};
ghost use Rattle.td_ops.specs.Shapes.{results};
ghost use Rattle.td_ops.specs.Answers.{answer_of};
ghost use Rattle.td_ops.specs.Laws.{AreFound, SecondName, RepositoryStays, ReadAsSpelled, SpelledIsRead};
ghost use Rattle.td_ops.specs.BodyFaults.{parameter_faults, answer_faults};
ghost use Rattle.td_ops.specs.Laws.{UnknownIsRefused, IsCalled, CallReadsBack, OutcomeReadsBack};
ghost use Rattle.td_ops.specs.Laws.{BadOperationIsUnknown, NoImplementIsLeftOut, MarshalIsMisspelled, ReplyIsLeftOut};
ghost use Rattle.td_ops.specs.Laws.{ReplyIsMisspelled};

/// No name stands twice among the operations of an object, and each is found by its name. The second
/// name `_not_existent` finds the same operation as `_non_existent`. `set_type_repos` is not
/// implemented, whatever its body.
pub fn operations_are_named()
    ensures once { (kind : Kind) → IsDistinct bytes_eq (map name_of (operations kind)) }
    ensures found { AreFound }
    ensures second { SecondName }
    ensures not_implemented { RepositoryStays }
{}

/// A call is read as its body is spelled, whatever follows, and only so. `BadOperation` is the fault
/// exactly where the object has no operation of the name. What is spelled under an operation is a call of
/// it.
pub fn calls_are_spelled()
    ensures lawful { (operation : Operation) → Lawful (body_of operation) }
    ensures found { ReadAsSpelled }
    ensures only { SpelledIsRead }
    ensures unknown { UnknownIsRefused }
    ensures called { IsCalled }
{}

/// Parameters are refused exactly where their bytes are at fault: with the fault of the first value that has no
/// spelling, all values before it having one. A request's body is refused with `BadOperation` exactly where no
/// operation in the object's table has the name, whatever the body; with `NoImplement` exactly where that first
/// fault is a kind of TypeCode that is left out, or the operation is `set_type_repos`; and with `Marshal` at a
/// place exactly where the first fault is another one, at that place. A reply's body is refused in the same way.
pub fn bodies_are_refused()
    ensures parameters { (operation : Operation)
        → Refuses (parameter_faults operation) (body_of operation).reads }
    ensures unknown { BadOperationIsUnknown }
    ensures not_implemented { NoImplementIsLeftOut }
    ensures misspelled { MarshalIsMisspelled }
    ensures replies { (operation : Operation) (status : ℕ)
        → Refuses (answer_faults operation status) (answer_of operation status).format.reads }
    ensures reply_not_implemented { ReplyIsLeftOut }
    ensures reply_misspelled { ReplyIsMisspelled }
{}

/// What is written for a call is read as that call, under the name that `operation_of` gives, at an
/// object that has the operation, in either order and at any place, whatever follows.
pub fn calls_are_read_back()
    ensures { CallReadsBack }
{}

/// A reply's body is read as it is spelled, whatever follows, and only so. What is written for an
/// outcome is read, under its status, as what a client is told of it: the result as it is, the id of a
/// user exception, or a system exception's id, minor code and completion.
pub fn outcomes_are_read_back()
    ensures results { (shape : Shape) → Lawful (results shape).format }
    ensures lawful { (operation : Operation) (status : ℕ)
        → Lawful (answer_of operation status).format }
    ensures back { OutcomeReadsBack }
{}

/// The members of a user exception are read as they are spelled, and only so, by who knows of which kind
/// it is, and what is written for an exception's members spells them.
pub fn exceptions_are_read_back()
    ensures { (e : UserException) → Lawful (row_of e).members.format }
{}
