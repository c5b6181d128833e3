//! A session with the traders of a file.

ghost use Rattle.std.specs.Prelude.{◌≡◌, ◌≤◌, length};
ghost use Rattle.td_command.specs.Runs.{ServesFile, ServesOpened, ServesText, shelves};
ghost use Rattle.td_file.specs.Files.{seen};
ghost use Rattle.td_objects.specs.References.{IsAddress};
ghost use Rattle.td_stream.specs.Outside.{outside};

use crate::ended::Ended;
use std::alloc::Global;
use std::mem::forget;
use td_client::Caller;
use td_file::{FileFault, Opened, read_file};
use td_journal::PastJournal;
use td_out::{Sink, Source, TextFault, Texts, Words};
use td_session::{Room, serve_connection};
use td_wire::Wire;

/// Serves a session with the traders of the file of this name, and calls the peers outside over the wire.
pub fn serve_file<F: Texts, S: Source, K: Sink, L: Wire, W: Words>(
    alloc: Global,
    name: &str,
    files: &mut F,
    source: &mut S,
    sink: &mut K,
    wire: &mut L,
    words: &mut W,
) -> Ended
    ensures serves { ServesFile (shelves (F.content files.old) (F.faults files.old)
        (F.faults files.new)) name.now (W.word_after words.old) result
        (outside (S.left source.old) (S.faults source.old) (K.written sink.old) (K.faults sink.old))
        (outside (S.left source.new) (S.faults source.new) (K.written sink.new)
        (K.faults sink.new)) }
    ensures later { F.faults files.old ≤ F.faults files.new }
{
    match files.text(alloc, name) {
        Ok(text) => serve_text(alloc, text.as_slice(), source, sink, wire, words),
        Err(TextFault::Failed) => Ended::Missing,
        Err(TextFault::TooLong) => Ended::TooLong,
        Err(TextFault::Memory) => Ended::Memory,
    }
}

/// Serves a session with the traders of this text of a file.
fn serve_text<S: Source, K: Sink, L: Wire, W: Words>(
    alloc: Global,
    text: &[u8],
    source: &mut S,
    sink: &mut K,
    wire: &mut L,
    words: &mut W,
) -> Ended
    requires { length text.now ≤ 67108864 }
    ensures { ServesText text.now (W.word_after words.old) result
        (outside (S.left source.old) (S.faults source.old) (K.written sink.old) (K.faults sink.old))
        (outside (S.left source.new) (S.faults source.new) (K.written sink.new)
        (K.faults sink.new)) }
{
    match read_file(alloc, text) {
        Ok(opened) => serve_opened(alloc, opened, source, sink, wire, words),
        Err(FileFault::Line(number, cause)) => Ended::Refused(number, cause),
        Err(FileFault::Memory) => Ended::Memory,
    }
}

/// Serves a session with these traders. Each call of a peer outside is made over the wire; the entry of the journal
/// tells what the peer gave.
fn serve_opened<S: Source, K: Sink, L: Wire, W: Words>(
    alloc: Global,
    opened: Opened,
    source: &mut S,
    sink: &mut K,
    wire: &mut L,
    words: &mut W,
) -> Ended
    requires address { IsAddress opened.home }
    requires seed { length opened.seed ≡ 32 }
    ensures { ServesOpened (seen opened) (W.word_after words.old) result
        (outside (S.left source.old) (S.faults source.old) (K.written sink.old) (K.faults sink.old))
        (outside (S.left source.new) (S.faults source.new) (K.written sink.new)
        (K.faults sink.new)) }
{
    let Opened {
        home,
        seed,
        mut solo,
    } = opened;
    words.seed(seed.as_slice(), 0);
    let Ok(mut room) = Room::<PastJournal>::new(alloc, home) else {
        return Ended::Memory;
    };
    let mut peers = Caller::new(wire);
    let end = serve_connection(alloc, &mut solo, &mut room, source, sink, &mut peers, words);
    // The process ends behind its session, and its memory goes back at once: nothing of what the trader keeps, its
    // history the most, is gone through to give it back piece by piece.
    forget(solo);
    Ended::Served(end)
}
