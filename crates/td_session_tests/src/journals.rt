//! Journals of both kinds.

ghost use Rattle.std.specs.Prelude.{◌≡◌, ◌∷◌, [], IfOk};

use crate::answering::nobody;
use crate::journal::is_noted;
use crate::opening::opened_server;
use crate::plain::PLAIN;
use crate::serving::{WHOLE, served_noting, sink, source};
use crate::story::{Story, Streams, read_streams};
use std::alloc::Global;
use std::mem::size_of;
use std::process::Abort;
use std::test::Fail;
use td_cdr::Memory;
use td_journal::{Journal, KeptJournal, PastJournal};
use td_servant::Entry;

/// A journal in which two entries are noted.
fn noted<J: Journal + Drop>(alloc: Global) -> Result<J, Memory>
    ensures { IfOk result (λ j. J.entries j ≡ Entry.Plain ∷ Entry.Point 2 7 ∷ []) }
{
    let mut journal = J::empty(alloc);
    journal.take_room()?;
    journal.note(Entry::Plain);
    journal.take_room()?;
    journal.note(Entry::Point {
        trader: 2,
        point: 7,
    });
    Ok(journal)
}

/// Whether a session with these bytes that is noted in such a journal ends and answers as the story says.
fn is_answered<J: Journal + Drop>(alloc: Global, story: &Story, bytes: Streams) -> bool {
    let Streams { input, written } = bytes;
    let Ok(server) = opened_server(alloc, story.file.as_bytes(), nobody(alloc)) else {
        return false;
    };
    match (source(alloc, input, &WHOLE), sink(alloc, &WHOLE)) {
        (Ok(mut source), Ok(mut sink)) => {
            match served_noting::<J>(alloc, server, &mut source, &mut sink) {
                Ok((end, room)) => {
                    drop(room.into_journal());
                    end == story.end && sink.written() == written.as_slice()
                }
                Err(_) => false,
            }
        }
        _ => false,
    }
}

/// Both note the same, and the one that keeps it lends it.
#[test]
fn entries_are_noted(rt: HostRuntime) -> Result<(), Fail> {
    let alloc = rt.alloc();
    let kept: KeptJournal = noted(alloc)?;
    assert!(rt; is_noted(kept.entries(), "- 7"));
    let past: PastJournal = noted(alloc)?;
    drop(past);
    Ok(())
}

/// A session answers the same with either. The one that keeps no entry has at most 8 bytes, whatever was noted.
#[test]
fn sessions_with_either_answer_the_same(rt: HostRuntime) -> Result<(), Fail> {
    let alloc = rt.alloc();
    assert!(rt; is_answered::<KeptJournal>(alloc, &PLAIN, read_streams(alloc, PLAIN.lines)?));
    assert!(rt; is_answered::<PastJournal>(alloc, &PLAIN, read_streams(alloc, PLAIN.lines)?));
    assert!(rt; size_of::<PastJournal>() <= 8);
    Ok(())
}
