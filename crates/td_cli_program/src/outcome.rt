//! What a use of the program comes to: its status, and the lines that tell it.

ghost use Rattle.std.specs.Prelude.{◌≡◌, IfOk};
ghost use Rattle.td_cli_program.specs.Outcomes.{answer_status, fault_status, gathered_lines, gathered_status};
ghost use Rattle.td_cli_program.specs.Outcomes.{outcome_lines, outcome_status};
ghost use Rattle.td_cli_printing.specs.Answers.{PutsLines};

use std::alloc::Global;
use td_cdr::Memory;
use td_cli_printing::{put_answer, put_found};
use td_ops::Answered;
use td_remote_query::Gathered;
use td_walk::PeerFault;

/// What a use of the program comes to.
#[derive(Drop)]
pub enum Outcome {
    /// The offers of a query, or the exception that ended it.
    Gathered(Gathered),
    /// The answer to another call.
    Answered(Answered),
}

/// Puts the lines of a query's outcome behind these bytes, where there are any.
fn put_gathered(alloc: Global, out: &mut Vec<u8>, gathered: &Gathered) -> Result<bool, Memory>
    ensures { IfOk result (λ put. PutsLines (gathered_lines gathered.now)
        put out.old.items out.new.items) }
{
    match gathered {
        Gathered::Offers(found) => {
            put_found(alloc, out, found.offers.as_slice(), found.limits.as_slice())?;
            Ok(true)
        }
        Gathered::Refused(answer) => put_answer(alloc, out, answer),
    }
}

/// Puts the lines of an outcome behind these bytes, where there are any.
pub(crate) fn put_outcome(
    alloc: Global,
    out: &mut Vec<u8>,
    outcome: &Outcome,
) -> Result<bool, Memory>
    ensures { IfOk result (λ put.
        PutsLines (outcome_lines outcome.now) put out.old.items out.new.items) }
{
    match outcome {
        Outcome::Gathered(gathered) => put_gathered(alloc, out, gathered),
        Outcome::Answered(answer) => put_answer(alloc, out, answer),
    }
}

/// The status for an answer that is printed: 0 for a result, 4 for a user exception, 5 for a system exception.
fn answer_status(answer: &Answered) -> u8
    ensures { result ≡ answer_status answer.now }
{
    match answer {
        Answered::Done(_) => 0,
        Answered::User(_) => 4,
        Answered::System { .. } => 5,
    }
}

/// The status for a query's outcome that is printed.
fn gathered_status(gathered: &Gathered) -> u8
    ensures { result ≡ gathered_status gathered.now }
{
    match gathered {
        Gathered::Offers(_) => 0,
        Gathered::Refused(answer) => answer_status(answer),
    }
}

/// The status for an outcome that is printed.
pub(crate) fn outcome_status(outcome: &Outcome) -> u8
    ensures { result ≡ outcome_status outcome.now }
{
    match outcome {
        Outcome::Gathered(gathered) => gathered_status(gathered),
        Outcome::Answered(answer) => answer_status(answer),
    }
}

/// The status for a call without an answer: 6 where the wire failed or its bytes ended, 8 where the reply isn't in the
/// grammar, 9 when out of memory.
pub(crate) fn fault_status(fault: PeerFault) -> u8
    ensures { result ≡ fault_status fault }
{
    match fault {
        PeerFault::Wire => 6,
        PeerFault::Grammar => 8,
        PeerFault::Exception => 8,
        PeerFault::Memory => 9,
    }
}
