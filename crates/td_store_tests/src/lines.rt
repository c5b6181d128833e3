//! Lines that a store follows: a call with its words, ` =`, and what it answers, each word with a blank in front.

use crate::candidates::query;
use crate::links::{change_link, link, see_link, see_links};
use crate::making::made_store;
use crate::offers::{change_offer, see_ids, see_offer};
use crate::telling::put_number;
use crate::types::attributes::{see_attributes, set};
use crate::types::calls::{add, call, look};
use crate::types::effective::serve;
use crate::types::reading::{read, state};
use crate::types::rules::follow_rules;
use crate::words::{cut, number_of};
use std::alloc::Global;
use std::process::Abort;
use std::test::Fail;
use td_cdr::Memory;
use td_store::Store;

/// What a store has at first: the declared interfaces, its offers, and what comes of the lines that it follows first.
pub(crate) struct Start {
    pub(crate) interfaces: &'static str,
    pub(crate) offers: &'static str,
    pub(crate) lines: &'static str,
}

/// A store that has nothing but the attributes of trader A.
pub(crate) const EMPTY: Start = Start {
    interfaces: "",
    offers: "",
    lines: "",
};

/// Checks that a store answers as these lines say.
pub(crate) fn follows(
    rt: &impl Abort,
    alloc: Global,
    start: &Start,
    lines: &'static str,
) -> Result<(), Fail> {
    let wrong = wrong_line(alloc, start, lines)?;
    assert!(rt; wrong.is_empty(), "at {wrong}");
    Ok(())
}

/// The first line that the store doesn't answer so; nothing where it answers all.
fn wrong_line(alloc: Global, start: &Start, lines: &'static str) -> Result<&'static str, Memory> {
    let mut store = made_store(alloc, start)?;
    let first = first_wrong(alloc, &mut store, start.lines);
    let wrong = if first.is_empty() {
        first_wrong(alloc, &mut store, lines)
    } else {
        first
    };
    drop(store);
    Ok(wrong)
}

/// The same over a store that there is.
pub(crate) fn first_wrong(alloc: Global, store: &mut Store, lines: &'static str) -> &'static str {
    for line in lines.lines() {
        if !is_so(alloc, store, line) {
            return line;
        }
    }
    ""
}

/// Whether the call of a line answers what the line says.
fn is_so(alloc: Global, store: &mut Store, line: &str) -> bool {
    let (asked, expected) = line.split_once(" =").unwrap_or((line, ""));
    let (word, rest) = cut(asked);
    let mut content = Vec::new(alloc);
    match perform(alloc, store, word, rest, &mut content) {
        Ok(()) => content.as_slice() == expected.as_bytes(),
        Err(_) => false,
    }
}

/// Performs what may change the store.
fn perform(
    alloc: Global,
    store: &mut Store,
    word: &str,
    rest: &str,
    content: &mut Vec<u8>,
) -> Result<(), Memory> {
    match word {
        "add" => add(alloc, &mut store.types, rest, 0, content),
        "remove" | "mask" | "unmask" | "describe" | "fully" | "list" => {
            call(alloc, &mut store.types, word, rest, content)
        }
        "each" => each(alloc, store, rest, content),
        "link" => link(alloc, &mut store.links, rest, 0, content),
        "unlink" | "rules" => change_link(alloc, &mut store.links, word, rest, content),
        "withdraw" | "modify" => change_offer(alloc, &mut store.offers, word, rest, content),
        "set" => set(&mut store.attributes, rest),
        "follow" => follow_rules(alloc, &mut store.attributes, rest, content),
        _ => ask(alloc, store, word, rest, content),
    }
}

/// Tells what is looked for.
fn ask(
    alloc: Global,
    store: &Store,
    word: &str,
    rest: &str,
    content: &mut Vec<u8>,
) -> Result<(), Memory> {
    match word {
        "query" | "conforming" => query(alloc, store, word, rest, content),
        "serve" => serve(alloc, &store.attributes, rest, content),
        "read" => read(alloc, rest, content),
        "state" => state(alloc, rest, content),
        "attributes" | "copied_attributes" => see_attributes(
            alloc,
            &store.attributes,
            word,
            content,
        ),
        "how_many_offers" => put_number(alloc, content, Some(store.offers.len() as u64)),
        "offer" | "copied_offer" => see_offer(alloc, &store.offers, word, rest, content),
        "ids" | "proxies" => see_ids(alloc, &store.offers, word, content),
        "links" | "how_many_links" => see_links(alloc, &store.links, word, content),
        "link_of" | "copied_link" => see_link(alloc, &store.links, word, rest, content),
        _ => look(alloc, &store.types, word, rest, content),
    }
}

/// Performs the calls of `FIRST END CALLS` for each number from the first to that before the end. Between two calls
/// stands `|`. Tells what those of the last number answer.
fn each(
    alloc: Global,
    store: &mut Store,
    words: &str,
    content: &mut Vec<u8>,
) -> Result<(), Memory> {
    let (first, rest) = cut(words);
    let (end, calls) = cut(rest);
    for number in number_of(first)..number_of(end) {
        content.clear();
        perform_numbered(alloc, store, calls, number, content)?;
    }
    Ok(())
}

fn perform_numbered(
    alloc: Global,
    store: &mut Store,
    calls: &str,
    number: u64,
    content: &mut Vec<u8>,
) -> Result<(), Memory> {
    for call in calls.split('|') {
        let (word, rest) = cut(call);
        match word {
            "link" => link(alloc, &mut store.links, rest, number, content)?,
            _ => add(alloc, &mut store.types, rest, number, content)?,
        }
    }
    Ok(())
}
