//! Lines that a naming store follows: a context's number, a call with its words, ` =`, and what it answers, each word
//! with a blank in front. In place of a number `live` and `changes` look at the store.

use crate::telling::{put, put_answer, put_number};
use crate::words::{act, cut, ulong_of};
use std::alloc::Global;
use std::process::Abort;
use std::test::Fail;
use td_cdr::{Memory, Text};
use td_names::NameStore;

/// Checks that a store at `here`, port 1, answers as these lines say.
pub(crate) fn follows(rt: &impl Abort, alloc: Global, lines: &'static str) -> Result<(), Fail> {
    let wrong = wrong_line(alloc, lines)?;
    assert!(rt; wrong.is_empty(), "at {wrong}");
    Ok(())
}

/// The first line that the store doesn't answer so; nothing where it answers all.
fn wrong_line(alloc: Global, lines: &'static str) -> Result<&'static str, Memory> {
    let host = Text::from_slice(alloc, b"here")?;
    let mut store = NameStore::new(alloc, host, 1)?;
    let wrong = first_wrong(alloc, &mut store, lines);
    drop(store);
    Ok(wrong)
}

fn first_wrong(alloc: Global, store: &mut NameStore, lines: &'static str) -> &'static str {
    for line in lines.lines() {
        if !is_so(alloc, store, line) {
            return line;
        }
    }
    ""
}

/// Whether the call of a line answers what the line says.
fn is_so(alloc: Global, store: &mut NameStore, line: &str) -> bool {
    let (asked, expected) = line.split_once(" =").unwrap_or((line, ""));
    let (word, rest) = cut(asked);
    let mut content = Vec::new(alloc);
    match perform(alloc, store, word, rest, &mut content) {
        Ok(()) => content.as_slice() == expected.as_bytes(),
        Err(_) => false,
    }
}

fn perform(
    alloc: Global,
    store: &mut NameStore,
    word: &str,
    rest: &str,
    content: &mut Vec<u8>,
) -> Result<(), Memory> {
    match word {
        "changes" => put_number(alloc, content, store.changes()),
        "live" => put(
            content,
            if store.live(ulong_of(rest)) {
                "yes"
            } else {
                "no"
            },
        ),
        number => call(alloc, store, ulong_of(number), rest, content),
    }
}

fn call(
    alloc: Global,
    store: &mut NameStore,
    context: u32,
    words: &str,
    content: &mut Vec<u8>,
) -> Result<(), Memory> {
    let (word, rest) = cut(words);
    let act = act(alloc, word, rest)?;
    let answer = store.act(alloc, context, act)?;
    put_answer(alloc, content, &answer)
}
