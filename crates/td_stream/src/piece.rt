//! Pieces of the stream that comes in.

ghost use Rattle.std.specs.Prelude.{◌+◌, ◌^◌, ◌<◌, ◌≤◌, length};
ghost use Rattle.td_stream.specs.Pieces.{Brings};

use td_giop::Framer;
use td_out::Source;

/// How many bytes one read asks for at most.
const READ_SIZE: usize = 8192;

/// What a read brought.
#[derive(Clone, Copy, Debug, PartialEq, Eq)]
pub(crate) enum Piece {
    /// So many bytes, which are in the framer.
    Came(u64),
    /// The input's end.
    Ended,
    /// A fault of the source.
    Failed,
    /// Bytes for which the framer had no memory.
    Memory,
}

/// Reads the next piece, of at most so many bytes, into the framer.
pub(crate) fn take_piece<S: Source>(framer: &mut Framer, source: &mut S, most: u64) -> Piece
    requires some { 0 < most }
    requires fits { framer.old.start + (length framer.old.rest + most) < 2 ^ 64 }
    ensures brings { Brings result most (S.left source.old) (S.left source.new)
        (S.faults source.old) (S.faults source.new) framer.old framer.new }
    ensures later { S.faults source.old ≤ S.faults source.new }
{
    let mut buffer = [0u8; READ_SIZE];
    let wanted = most.min(READ_SIZE as u64) as usize;
    match source.read(&mut buffer[..wanted]) {
        Err(_) => Piece::Failed,
        Ok(0) => Piece::Ended,
        Ok(count) => match framer.feed(&buffer[..count]) {
            Ok(()) => Piece::Came(count as u64),
            Err(_) => Piece::Memory,
        },
    }
}
