//! Reading from a connection until a whole message is there.

ghost use Rattle.std.specs.Prelude.{◌≡◌, ◌+◌, ◌<◌, ◌≤◌, ◌^◌, length, None, Ok, Err, OnErr};
ghost use Rattle.std.specs.Prelude.{MatchBool, MatchResult};
ghost use Rattle.td_giop.specs.Stream.{first_at};
ghost use Rattle.td_call.specs.Replies.{reply_limit};
ghost use Rattle.td_call.specs.Fetching.{Fetches, IsWhole, Tries, piece_size};
ghost use Rattle.td_call.specs.Moving.{ReadsUnasked};

use td_giop::{FrameFault, Framer};
use td_walk::PeerFault;
use td_wire::Wire;

/// How many bytes one read asks for at most.
const PIECE_SIZE: usize = 8192;

/// Whether a whole message stands in front of what came.
///
/// # Errors
///
/// The fault of the header in front.
fn is_whole(framer: &mut Framer) -> Result<bool, FrameFault>
    requires { framer.old.limit ≡ reply_limit }
    ensures framer { framer.new ≡ framer.old }
    ensures found { MatchResult result
        (λ b. MatchBool b (IsWhole framer.old.rest) (first_at reply_limit framer.old.rest
        ≡ Ok None)) (λ e. first_at reply_limit framer.old.rest ≡ Err e) }
{
    match framer.next_message() {
        Err(fault) => Err(fault),
        Ok(None) => Ok(false),
        Ok(Some(_message)) => Ok(true),
    }
}

/// Reads the next piece into the framer, and answers whether there was one.
///
/// # Errors
///
/// `Wire` where the wire failed, and `Memory`; the framer is then unchanged.
#[tactic(auto, using(crate::proofs::Moving::draws_kept, crate::proofs::Moving::draws_piece))]
fn take_piece<L: Wire>(wire: &mut L, framer: &mut Framer) -> Result<bool, PeerFault>
    requires { framer.old.start + (length framer.old.rest + piece_size) < 2 ^ 64 }
    ensures same { L.same wire.old wire.new }
    ensures tries { Tries framer.old framer.new (L.content wire.old) (L.content wire.new)
        (L.faults wire.old) (L.faults wire.new) result }
    ensures later { L.faults wire.old ≤ L.faults wire.new }
    ensures kept { OnErr result (framer.new ≡ framer.old) }
    ensures draws { ReadsUnasked (L.content wire.old) (L.content wire.new) }
{
    let mut buffer = [0u8; PIECE_SIZE];
    match wire.read(&mut buffer) {
        Err(_) => Err(PeerFault::Wire),
        Ok(0) => Ok(false),
        Ok(count) => match framer.feed(&buffer[..count]) {
            Ok(()) => Ok(true),
            Err(_) => Err(PeerFault::Memory),
        },
    }
}

/// Reads until a whole message stands in front of what came.
///
/// # Errors
///
/// `Wire` where the wire failed or gave no more, `Grammar` at a bad header, and `Memory`.
#[tactic(auto, using(crate::proofs::Moving::draws_held))]
pub(crate) fn fetch<L: Wire>(wire: &mut L, framer: &mut Framer) -> Result<(), PeerFault>
    requires limit { framer.old.limit ≡ reply_limit }
    requires room { framer.old.start + length framer.old.rest + 2 ^ 27 < 2 ^ 64 }
    ensures same { L.same wire.old wire.new }
    ensures fetches { Fetches framer.old framer.new (L.content wire.old) (L.content wire.new)
        (L.faults wire.old) (L.faults wire.new) result }
    ensures later { L.faults wire.old ≤ L.faults wire.new }
    ensures grows { framer.new.start + length framer.new.rest
        ≤ framer.old.start + length framer.old.rest + 2 ^ 27 }
    ensures kept { framer.new.limit ≡ framer.old.limit }
    ensures draws { ReadsUnasked (L.content wire.old) (L.content wire.new) }
{
    loop {
        match is_whole(framer) {
            Err(_) => return Err(PeerFault::Grammar),
            Ok(true) => return Ok(()),
            Ok(false) => {}
        }
        match take_piece(wire, framer) {
            Err(fault) => return Err(fault),
            Ok(false) => return Err(PeerFault::Wire),
            Ok(true) => {}
        }
    }
}
