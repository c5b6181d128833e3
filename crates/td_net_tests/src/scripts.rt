//! Lines that tell a network, the events that come to it, and what becomes of it.

use crate::events::{ask_of, event_of, place_of};
use crate::making::file_of;
use crate::telling::{is_so, letter_of};
use std::alloc::Global;
use std::process::Abort;
use std::test::Fail;
use td_cdr::{List, Memory};
use td_file::{Opened, read_file};
use td_net::{Event, Net, NetFault, check_schedule};

/// Random words, with commas between them.
fn words_of(alloc: Global, words: &str) -> Result<List<u64>, Memory> {
    let mut list = List::new(alloc);
    for word in words.split(',') {
        if let Ok(word) = word.parse::<u64>() {
            list.push(word)?;
        }
    }
    Ok(list)
}

fn network(alloc: Global, opened: Opened, words: List<u64>) -> Net {
    let Opened { home, seed, solo } = opened;
    drop(seed);
    Net::new(alloc, List::from_vec(solo.traders), home, words)
}

/// The network of the traders A to D with these words: `TRADERS;RANDOM WORDS`.
fn network_of(alloc: Global, content: &str) -> Option<Net> {
    let (traders, words) = content.split_once(';').unwrap_or((content, ""));
    let words = words_of(alloc, words).ok()?;
    let file = file_of(alloc, traders).ok()?;
    if file.len() > 10000 {
        return None;
    }
    let opened = read_file(alloc, file.as_slice()).ok()?;
    Some(network(alloc, opened, words))
}

/// The letter of what came of a word's event.
fn taken(alloc: Global, net: &mut Net, word: &str) -> u8 {
    match event_of(alloc, net, word) {
        Ok(event) => letter_of(net.on(event)),
        Err(_) => 0,
    }
}

/// Asks a trader so many queries that end at once, each under an identifier that it makes. It gives the letter of the
/// last.
fn ask_often(alloc: Global, net: &mut Net, trader: usize, count: u32) -> u8 {
    let mut last = 0;
    for _ in 0..count {
        last = match ask_of(alloc, trader, "h0") {
            Ok(event) => letter_of(net.on(event)),
            Err(_) => 0,
        };
    }
    last
}

/// The letter of what came of a word: of one event, or of `mA4096`, so many Asks of A.
fn came(alloc: Global, net: &mut Net, word: &str) -> u8 {
    match word.as_bytes() {
        [b'm', letter, ..] => {
            let (_trader, count) = word.split_at_checked(2).unwrap_or(("", ""));
            ask_often(
                alloc,
                net,
                place_of(*letter),
                count.parse::<u32>().unwrap_or(0),
            )
        }
        _ => taken(alloc, net, word),
    }
}

/// Whether the events are taken as their letters say, one by one.
fn are_taken(alloc: Global, net: &mut Net, events: &str, letters: &[u8]) -> bool {
    let mut left = letters.iter();
    for word in events.split(' ') {
        let letter = came(alloc, net, word);
        if left.next() != Some(&letter) {
            return false;
        }
    }
    left.next().is_none()
}

fn are_so(net: &Net, words: &str) -> bool {
    for word in words.split(' ') {
        if !is_so(net, word) {
            return false;
        }
    }
    true
}

fn runs(alloc: Global, net: &mut Net, events: &str, content: &str) -> bool {
    let (letters, words) = content.split_once(' ').unwrap_or((content, ""));
    are_taken(alloc, net, events, letters.as_bytes()) && are_so(net, words)
}

/// Whether a line comes to what it tells: `TRADERS;RANDOM WORDS -> EVENTS => LETTERS WORDS`.
fn is_line_so(alloc: Global, line: &str) -> bool {
    let (asked, content) = line.split_once(" => ").unwrap_or((line, ""));
    let (network, events) = asked.split_once(" -> ").unwrap_or((asked, ""));
    match network_of(alloc, network) {
        Some(net) => {
            let mut net = net;
            let passed = runs(alloc, &mut net, events, content);
            drop(net);
            passed
        }
        None => false,
    }
}

/// Checks each of these lines.
pub(crate) fn check(rt: &impl Abort, alloc: Global, lines: &str) -> Result<(), Fail> {
    for line in lines.lines() {
        assert!(rt; is_line_so(alloc, line), "{line}");
    }
    Ok(())
}

/// The events of these words, as they are to a network that no event has come to.
fn events_of(alloc: Global, net: &Net, words: &str) -> Result<List<Event>, Memory> {
    let mut events = List::new(alloc);
    for word in words.split(' ') {
        events.push(event_of(alloc, net, word)?)?;
    }
    Ok(events)
}

/// Whether a schedule comes to what is told: `.`, or the letter of a fault and the place of its event.
fn is_content(checked: Result<(), (usize, NetFault)>, content: &str) -> bool {
    let (letter, place) = content.split_at_checked(1).unwrap_or(("", ""));
    match checked {
        Ok(()) => content == ".",
        Err((at, fault)) => {
            letter.as_bytes().first() == Some(&letter_of(Err(fault)))
                && place.parse::<usize>() == Ok(at)
        }
    }
}

/// Whether the schedule of a line comes to what it tells: `TRADERS;RANDOM WORDS -> EVENTS => TOLD`.
fn is_schedule_so(alloc: Global, line: &str) -> bool {
    let (asked, content) = line.split_once(" => ").unwrap_or((line, ""));
    let (network, words) = asked.split_once(" -> ").unwrap_or((asked, ""));
    let Some(net) = network_of(alloc, network) else {
        return false;
    };
    match events_of(alloc, &net, words) {
        Ok(events) => is_content(check_schedule(net, events), content),
        Err(_) => false,
    }
}

/// Checks the schedule of each of these lines.
pub(crate) fn check_schedules(rt: &impl Abort, alloc: Global, lines: &str) -> Result<(), Fail> {
    for line in lines.lines() {
        assert!(rt; is_schedule_so(alloc, line), "{line}");
    }
    Ok(())
}
