//! Lines that a trader follows: what it is asked, ` => `, and what it answers.

use crate::alone::is_alone;
use crate::answers::{is_begun, is_outcome, is_reply};
use crate::opening::opened;
use crate::queries::{added_link, call};
use std::alloc::Global;
use std::process::Abort;
use std::test::Fail;
use td_cdr::{Boxed, Memory};
use td_ops::{Call, Change, OpsFault, Outcome};
use td_register::{Accepted, ChangeReply};
use td_trader::Trader;

/// A trader: the number that it gave last, how many changes it accepts, and the lines that it follows first.
#[derive(Clone, Copy)]
pub struct Start {
    pub last_offer: u32,
    pub changes: u64,
    pub lines: &'static str,
}

/// A trader to which nothing was done.
pub const NEW: Start = Start {
    last_offer: 0,
    changes: 1000000,
    lines: "",
};

/// Checks that a trader answers as these lines say.
pub fn follows(
    rt: &impl Abort,
    alloc: Global,
    start: Start,
    lines: &'static str,
) -> Result<(), Fail> {
    let wrong = wrong_line(alloc, start, lines)?;
    assert!(rt; wrong.is_empty(), "{wrong}");
    Ok(())
}

/// The first line that the trader doesn't answer so; nothing where it answers all.
fn wrong_line(alloc: Global, start: Start, lines: &'static str) -> Result<&'static str, Memory> {
    let mut trader = opened(alloc, start.last_offer, start.changes)?;
    let first = first_wrong(alloc, &mut trader, start.lines);
    let wrong = if first.is_empty() {
        first_wrong(alloc, &mut trader, lines)
    } else {
        first
    };
    drop(trader);
    Ok(wrong)
}

fn first_wrong(alloc: Global, trader: &mut Trader, lines: &'static str) -> &'static str {
    for line in lines.lines() {
        if !is_so(alloc, trader, line) {
            return line;
        }
    }
    ""
}

/// Whether a trader answers so: to a call, to the change that adds a link, or by what is looked for in the trader
/// itself; or whether a query begins so at its store.
fn is_so(alloc: Global, trader: &mut Trader, line: &str) -> bool {
    let (asked, content) = line.split_once(" => ").unwrap_or((line, ""));
    let (word, rest) = asked.split_once(' ').unwrap_or((asked, ""));
    match word {
        "add_link" => links(alloc, trader, rest, content),
        "links" => links_all(alloc, trader, rest),
        "history" => is_history(alloc, trader.history(), content),
        "point" => content.parse::<u64>() == Ok(trader.point()),
        "marks" => content.parse::<u64>() == Ok(trader.marks()),
        "reserve" => trader.reserve_change().is_ok(),
        "begin" | "search" | "path" => is_alone(alloc, trader, word, call(alloc, rest), content),
        _ => answers(alloc, trader, call(alloc, asked), content),
    }
}

fn answers(
    alloc: Global,
    trader: &mut Trader,
    call: Result<Boxed<Call>, OpsFault>,
    content: &str,
) -> bool {
    let Ok(call) = call else {
        return false;
    };
    match call.get() {
        Call::Look(look) => is_shown(
            trader.look(look),
            trader.store().attributes.max_list,
            content,
        ),
        Call::Query(query) => is_begun(trader.begin(query), content),
        _ => changes(alloc, trader, call.into_inner(), content),
    }
}

fn changes(alloc: Global, trader: &mut Trader, call: Call, content: &str) -> bool {
    match call {
        Call::Change(change) => is_noted(alloc, trader, change, content),
        other => {
            drop(other);
            false
        }
    }
}

/// Whether a change is answered so, and stands at the end of the history with this reply where it is accepted.
fn is_noted(alloc: Global, trader: &mut Trader, change: Change, content: &str) -> bool {
    let before = trader.history().len();
    if !is_answer(trader.change(change), content) {
        return false;
    }
    match &trader.history()[before..] {
        [] => true,
        [entry] => is_kept(alloc, &entry.reply, content),
        _ => false,
    }
}

/// Whether a history's reply is this.
fn is_kept(alloc: Global, kept: &ChangeReply, content: &str) -> bool {
    match kept.reply(alloc) {
        Ok(reply) => is_reply(&reply, content),
        Err(_) => false,
    }
}

pub fn is_answer(answer: Result<Outcome, Memory>, content: &str) -> bool {
    let passed = match &answer {
        Ok(outcome) => is_outcome(outcome, content),
        Err(_) => false,
    };
    drop(answer);
    passed
}

/// Whether a look is answered so, and with max_list.
pub fn is_shown(answer: Result<(Outcome, u32), Memory>, max_list: u32, content: &str) -> bool {
    let passed = match &answer {
        Ok((outcome, beside)) => is_outcome(outcome, content) && *beside == max_list,
        Err(_) => false,
    };
    drop(answer);
    passed
}

fn links(alloc: Global, trader: &mut Trader, parts: &str, content: &str) -> bool {
    match added_link(alloc, parts) {
        Ok(change) => is_answer(trader.change(change), content),
        Err(_) => false,
    }
}

/// Adds so many links, whose names are numbered.
fn links_all(alloc: Global, trader: &mut Trader, count: &str) -> bool {
    for number in 0..count.parse::<u32>().unwrap_or(0) {
        let Ok(parts) = format!(in alloc; "l{number};@IDL:L:1.0;always;always;IDL:R:1.0") else {
            return false;
        };
        if !links(alloc, trader, parts.as_str(), "done") {
            return false;
        }
    }
    true
}

/// Whether a history is the first type of this name alone, or nothing.
fn is_history(alloc: Global, history: &[Accepted], expected: &str) -> bool {
    match history {
        [] => expected.is_empty(),
        [only] => match &only.change {
            Change::AddType { name, .. } => name.as_slice() == expected.as_bytes()
                && is_kept(alloc, &only.reply, "incarnation 1"),
            _ => false,
        },
        _ => false,
    }
}
