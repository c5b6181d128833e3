//! What a network tells, as words.

use crate::events::place_of;
use td_net::{CallState, Net, NetFault};
use td_trader::Trader;
use td_value::Offer;
use td_walk::Visit;

/// What came of an event: `.` where it was taken, else `T`, `C`, `S` or `M` for its fault.
pub(crate) fn letter_of(taken: Result<(), NetFault>) -> u8 {
    match taken {
        Ok(()) => b'.',
        Err(NetFault::NoTrader) => b'T',
        Err(NetFault::NoCall) => b'C',
        Err(NetFault::WrongState) => b'S',
        Err(NetFault::Memory) => b'M',
    }
}

/// The last octet of the key of an offer's object.
fn key_of(offer: &Offer) -> Option<u8> {
    let profile = offer.reference.profiles.as_slice().first()?;
    profile.octets.as_slice().last().copied()
}

/// Whether these are the offers whose objects have keys with these letters, in order.
fn are_offers(offers: &[Offer], letters: &[u8]) -> bool {
    if offers.len() != letters.len() {
        return false;
    }
    for (offer, letter) in offers.iter().zip(letters) {
        if key_of(offer) != Some(*letter) {
            return false;
        }
    }
    true
}

fn is_answer(visit: Option<&Visit>, letters: &str) -> bool {
    match visit {
        Some(Visit::Answered { answer, .. }) => are_offers(
            answer.offers.as_slice(),
            letters.as_bytes(),
        ),
        Some(Visit::Refused(_)) => letters == "!",
        None => false,
    }
}

fn is_state(state: Option<CallState>, word: &str) -> bool {
    let (kind, sub) = word.split_at_checked(1).unwrap_or(("", ""));
    match state {
        Some(CallState::Sent) => kind == "s",
        Some(CallState::Running) => kind == "r",
        Some(CallState::Waiting(waited)) => kind == "w" && sub.parse::<usize>() == Ok(waited),
        Some(CallState::Evaluating) => kind == "e",
        Some(CallState::Ended) => kind == "-",
        None => false,
    }
}

/// Whether a trader has made so many marks and accepted so many changes: `MARKS,CHANGES`.
fn has_made(trader: Option<&Trader>, counts: &str) -> bool {
    let (marks, changes) = counts.split_once(',').unwrap_or((counts, "0"));
    match trader {
        Some(trader) => marks.parse::<u64>() == Ok(trader.marks())
            && changes.parse::<u64>() == Ok(trader.point()),
        None => false,
    }
}

/// Whether this is so: `0=pq` call 0 has ended with the offers p and q, and with a refusal where `!` stands; `0:w1` it
/// is in this state; `A#2,1` A has made 2 marks and accepted 1 change; `*4` 4 calls were opened.
pub(crate) fn is_so(net: &Net, word: &str) -> bool {
    let (_mark, count) = word.split_at_checked(1).unwrap_or(("", ""));
    if word.starts_with("*") {
        return count.parse::<usize>() == Ok(net.calls());
    }
    if let Some((call, letters)) = word.split_once('=') {
        return is_answer(net.answer(call.parse::<usize>().unwrap_or(99)), letters);
    }
    if let Some((call, state)) = word.split_once(':') {
        return is_state(net.state(call.parse::<usize>().unwrap_or(99)), state);
    }
    let (trader, counts) = word.split_once('#').unwrap_or((word, ""));
    let place = place_of(trader.as_bytes().first().copied().unwrap_or(0));
    has_made(net.trader(place), counts)
}
