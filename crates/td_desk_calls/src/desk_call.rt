//! One call of a shared desk.

ghost use Rattle.std.specs.Prelude.{◌≡◌, ◌+◌, ◌<◌, length};
ghost use Rattle.std.specs.Option.{ForSome};
ghost use Rattle.td_cell.specs.Passes.{knowledge};

use td_desk::DeskPass;
use td_dispatch::ReplyTo;

/// What a message for an iterator is answered by, beside what it asks.
#[derive(Drop)]
pub struct IteratorCall<'m> {
    /// What its reply answers.
    pub to: ReplyTo,
    /// The name of the iterator's trader.
    pub trader: &'m [u8],
    /// The iterator's number.
    pub number: u64,
}

/// How a message for an iterator has called the desk.
#[derive(Clone, Copy, Debug, PartialEq, Eq)]
pub enum DeskCall {
    /// Its call stands at this place of the desk's history, counted from 0.
    At(u64),
    /// Memory ran out: the history is as it was.
    Memory,
    /// As many calls of iterators were done as may be: the history is as it was, and there is no reply.
    Full,
}

/// The place of the last call of the history that a pass has seen.
pub(crate) fn last_place(pass: &DeskPass) -> u64
    requires { ForSome (knowledge pass.now).seen (λ h. 0 < length h) }
    ensures { ForSome (knowledge pass.now).seen (λ h. length h ≡ result + 1) }
{
    pass.changes() - 1
}
