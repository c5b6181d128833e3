//! Servants.

ghost use Rattle.std.specs.Prelude.{◌≡◌, ◌+◌, ◌^◌, ◌<◌, ◌≤◌, ℕ, List, OnOk, OnErr, if◌then◌else◌};
ghost use Rattle.td_stream.specs.Heads.{HasHead, IsMessage};
ghost use Rattle.td_stream.specs.Messages.{is_request};

use crate::head::Head;
use crate::held::SendsHeld;
use std::alloc::Global;
use td_cdr::Memory;
use td_giop::Raw;

/// Answers the messages of a stream, one at a time: Requests, LocateRequests and CancelRequests whose heads
/// are in the grammar. It sees no stream, and writes nothing.
pub trait Servant {
    /// Where the servant stood so, this message is answered with these bytes, and leaves it so.
    ghost serves: { Self → List ℕ → List ℕ → Self → Type 0 };

    /// Nothing was done: at most the room of the reply differs.
    ghost stays: { Self → Self → Type 0 };

    /// It is the same servant still: of a borrow, that no other was put in its place.
    ghost same: { Self → Self → Type 0 };

    /// The reply to the last message.
    ghost content: { Self → List ℕ };

    /// How much of its numbers it has used up: at most one by each Request, and none by another message.
    ghost budget: { Self → ℕ };

    /// Answers a message, and keeps its reply. Where it waits for anybody, what is held is sent before.
    ///
    /// # Errors
    ///
    /// `Memory` only when out of memory; nothing was done then.
    fn answer<G: SendsHeld>(
        &mut self,
        alloc: Global,
        message: &Raw<'_>,
        head: &Head<'_>,
        held: &mut G,
    ) -> Result<(), Memory>
        requires whole { IsMessage message.now }
        requires head { HasHead message.now head.now }
        requires room { budget self.old < 2 ^ 63 }
        ensures same { same self.old self.new }
        ensures ok { OnOk result (serves self.old message.now.bytes.now
            (content self.new) self.new) }
        ensures err { OnErr result (stays self.old self.new) }
        ensures held { G.reaches held.old held.new };

    /// The reply to the last message.
    fn reply(&self) -> &[u8]
        ensures { result.now ≡ content self.now };

    ghost spends: { (s : Self) (message reply : List ℕ) (t : Self) → serves s message reply t
        → budget t ≤ budget s + (if is_request message then 1 else 0) };

    ghost stays_itself: { (a : Self) → stays a a };

    ghost same_itself: { (a : Self) → same a a };

    ghost same_on: { (a b c : Self) → same a b → same b c → same a c };
}
