//! What a Request comes to.

ghost use Rattle.std.specs.Prelude.{◌≡◌};
ghost use Rattle.td_servant.specs.Answers.{no_memory, plain, system};

use crate::entry::Entry;
use td_ops::{COMPLETED_NO, Outcome, SystemKind};

/// How the body of a reply stands.
#[derive(Drop)]
pub enum ReplyBody {
    /// It is that of this outcome, and is still to be written.
    Outcome(Outcome),
    /// It is that of a result, and is written: the writer that was handed in holds it behind the reply's head.
    Written,
}

/// What a Request comes to: the body of its reply, and what is noted of it.
#[derive(Drop)]
pub struct Answer {
    pub body: ReplyBody,
    pub entry: Entry,
}

/// A system exception of a call that wasn't done.
pub(crate) fn system(kind: SystemKind, minor: u32) -> Outcome
    ensures { result ≡ system kind minor }
{
    Outcome::System {
        kind,
        minor,
        completion: COMPLETED_NO,
    }
}

/// The answer for which no trader is called.
pub fn plain(outcome: Outcome) -> Answer
    ensures { result ≡ plain outcome }
{
    Answer {
        body: ReplyBody::Outcome(outcome),
        entry: Entry::Plain,
    }
}

/// What a Request is answered with when memory runs out, but for a query that made marks and a call that a peer
/// answered.
pub fn no_memory_answer() -> Answer
    ensures { result ≡ plain no_memory }
{
    plain(Outcome::no_memory())
}
