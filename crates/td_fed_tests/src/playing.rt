//! What calls of peers give by a script: calls from words, and what they give as letters.

use crate::scripts::{number, object, peers};
use crate::words::{query, two};
use std::alloc::Global;
use td_cdr::{List, Memory, Text};
use td_peers::MemPeers;
use td_value::{Any, Ior, Value};
use td_walk::{PeerFault, Peers, SubAnswer};

/// `.` where the peer can't be reached.
fn missed(fault: PeerFault) -> Result<u8, Memory> {
    match fault {
        PeerFault::Wire => Ok(b'.'),
        PeerFault::Memory => Err(Memory),
        PeerFault::Grammar => Ok(b'?'),
        PeerFault::Exception => Ok(b'?'),
    }
}

/// The first letter of what limited the answer, or else whether it has an offer.
fn first_letter(answer: &SubAnswer) -> u8 {
    match answer.limits.get(0) {
        Some(limit) => limit.as_slice().first().copied().unwrap_or(b'?'),
        None if answer.offers.len() == 1 => b'1',
        None => b'0',
    }
}

/// What a query gives.
fn limit<P: Peers>(alloc: Global, peers: &mut P, target: &Ior) -> Result<u8, Memory> {
    let query = query(alloc, "")?;
    match peers.query(alloc, target, query.get()) {
        Ok(answer) => Ok(first_letter(&answer)),
        Err(fault) => missed(fault),
    }
}

/// What a query gives that borrowed peers are asked.
fn borrowed(alloc: Global, peers: &mut MemPeers, target: &Ior) -> Result<u8, Memory> {
    let mut borrowed = peers;
    limit(alloc, &mut borrowed, target)
}

fn number_letter(any: &Any) -> u8 {
    match &any.value {
        Value::ULong(7) => b'7',
        _ => b'?',
    }
}

/// What an evaluation gives.
fn value(alloc: Global, peers: &mut MemPeers, target: &Ior) -> Result<u8, Memory> {
    let extra = number(alloc, 7)?;
    let name = Text::new(alloc);
    let any = extra.get();
    match peers.eval_dp(alloc, target, &name, &any.code, any) {
        Ok(value) => Ok(number_letter(value.get())),
        Err(fault) => missed(fault),
    }
}

/// Whether the reference has no profiles.
fn reference_letter(answer: Result<Ior, PeerFault>) -> Result<u8, Memory> {
    match answer {
        Ok(reference) => Ok(if reference.profiles.is_empty() {
            b'r'
        } else {
            b'?'
        }),
        Err(fault) => missed(fault),
    }
}

fn resolved(alloc: Global, peers: &mut MemPeers, target: &Ior) -> Result<u8, Memory> {
    let name = List::new(alloc);
    reference_letter(peers.resolve(alloc, target, &name))
}

/// What a call gives, as `KIND:KEY`.
fn ask(alloc: Global, peers: &mut MemPeers, word: &str) -> Result<u8, Memory> {
    let (kind, key) = word.split_once(':').unwrap_or((word, ""));
    let target = object(alloc, key)?;
    match kind {
        "query" => limit(alloc, peers, target.get()),
        "borrowed" => borrowed(alloc, peers, target.get()),
        "value" => value(alloc, peers, target.get()),
        "register" => reference_letter(peers.register_of(alloc, target.get())),
        _ => resolved(alloc, peers, target.get()),
    }
}

/// Whether calls, with blanks between them, give these letters.
fn gives(alloc: Global, peers: &mut MemPeers, calls: &str, letters: &[u8]) -> Result<bool, Memory> {
    let mut rest = letters.iter();
    for word in calls.split(' ') {
        if rest.next().copied() != Some(ask(alloc, peers, word)?) {
            return Ok(false);
        }
    }
    Ok(rest.next().is_none())
}

/// Whether the calls were noted, so many failed, and so many entries are left.
fn counts(peers: &MemPeers, calls: usize, content: &str) -> bool {
    let (faults, left) = content.split_once(' ').unwrap_or((content, ""));
    peers.count_calls() == calls
        && faults.parse::<u64>() == Ok(peers.count_faults())
        && left.parse::<usize>() == Ok(peers.count_entries())
}

fn plays(alloc: Global, peers: &mut MemPeers, calls: &str, content: &str) -> bool {
    let (letters, numbers) = content.split_once(' ').unwrap_or((content, ""));
    gives(alloc, peers, calls, letters.as_bytes()).unwrap_or(false)
        && counts(peers, letters.len(), numbers)
}

/// Whether calls come to what is told: `SCRIPT;FAILING;CALLS`, where `FAILING` is the number of the call that fails;
/// and what they give, how many fail and how many entries are left.
pub(crate) fn is_played(alloc: Global, asked: &str, content: &str) -> bool {
    let (script, rest) = two(asked);
    let (failing, calls) = two(rest);
    match peers(alloc, script, failing.parse::<u64>().unwrap_or(0)) {
        Ok(mut peers) => {
            let passed = plays(alloc, &mut peers, calls, content);
            drop(peers);
            passed
        }
        Err(_) => false,
    }
}
