//! What a call is answered with.

ghost use Rattle.std.specs.Prelude.{◌≡◌, false};
ghost use Rattle.td_name_session.specs.Outcomes.{no_memory, outcome_of, refusal_kind, refusal_outcome, result_of};
ghost use Rattle.td_name_session.specs.Outcomes.{system};
ghost use Rattle.td_name_session.specs.declared.answer.AnswerBody.TheVariants.{Outcome};

use std::alloc::Global;
use td_ior::nil;
use td_name_ops::{NameOutcome, NameResult};
use td_names::{NameAnswer, NameRefusal, NameReply};
use td_ops::{COMPLETED_NO, SystemKind};

/// The body of a reply.
#[derive(Drop)]
pub(crate) enum AnswerBody {
    /// It is to be written.
    Outcome(NameOutcome),
    /// It stands in the long writer, behind the head of a Reply with a result.
    Written,
}

/// What a call is answered with, and whether it was an accepted change.
#[derive(Drop)]
pub(crate) struct Answer {
    pub body: AnswerBody,
    pub accepted: bool,
}

/// An answer that is still to be written, of a call that changed nothing.
pub(crate) fn plain(outcome: NameOutcome) -> Answer
    ensures body { result.body ≡ Outcome outcome }
    ensures accepted { result.accepted ≡ false }
{
    Answer {
        body: AnswerBody::Outcome(outcome),
        accepted: false,
    }
}

/// A system exception of a call that wasn't done.
pub(crate) fn refusal_outcome(kind: SystemKind, minor: u32) -> NameOutcome
    ensures { result ≡ refusal_outcome kind minor }
{
    NameOutcome::System {
        kind,
        minor,
        completion: COMPLETED_NO,
    }
}

/// One whose minor code is 0.
pub(crate) fn system(kind: SystemKind) -> NameOutcome
    ensures { result ≡ system kind }
{
    refusal_outcome(kind, 0)
}

/// NO_MEMORY. Nothing was changed.
pub(crate) fn no_memory() -> Answer
    ensures body { result.body ≡ Outcome no_memory }
    ensures accepted { result.accepted ≡ false }
{
    plain(system(SystemKind::NoMemory))
}

/// What a client is told of an answer.
pub(crate) fn outcome_of(alloc: Global, answer: NameAnswer) -> NameOutcome
    ensures { result ≡ outcome_of answer }
{
    match answer {
        NameAnswer::Done(reply) => NameOutcome::Done(result_of(alloc, reply)),
        NameAnswer::User(exception) => NameOutcome::User(exception),
        NameAnswer::System(refusal) => system(refusal_kind(refusal)),
    }
}

fn result_of(alloc: Global, reply: NameReply) -> NameResult
    ensures { result ≡ result_of reply }
{
    match reply {
        NameReply::Nothing => NameResult::Nothing,
        NameReply::Object(object) => NameResult::Object(object),
        NameReply::Bindings(bindings) => NameResult::List {
            bindings,
            iterator: nil(alloc),
        },
    }
}

fn refusal_kind(refusal: NameRefusal) -> SystemKind
    ensures { result ≡ refusal_kind refusal }
{
    match refusal {
        NameRefusal::ImpLimit => SystemKind::ImpLimit,
        NameRefusal::NoImplement => SystemKind::NoImplement,
        NameRefusal::ObjectNotExist => SystemKind::ObjectNotExist,
    }
}
