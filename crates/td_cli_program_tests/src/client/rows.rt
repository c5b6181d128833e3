//! Calls over a wire whose connection gives these bytes: replies of each status, other messages, cut replies, calls of
//! the wire that fail, and what is written.

use crate::client::messages::*;
use crate::client::queries::{Asked, Reported, came};
use crate::wires::{has_written, has_written_both, is_disconnected, wire_of, wire_of_both};
use std::alloc::Global;
use td_cdr::Memory;
use td_walk::PeerFault;

/// What is asked, what the connection gives, which calls of the wire fail, what the call comes to, and which parts are
/// written over the one connection (none where there is no connection). The connection has ended then.
pub struct Row {
    pub what: &'static str,
    pub asked: Asked,
    pub given: &'static [&'static [u8]],
    pub failing: &'static [u64],
    pub content: Result<Reported, PeerFault>,
    pub wrote: &'static [&'static [u8]],
}

pub const GRAMMAR: Result<Reported, PeerFault> = Err(PeerFault::Grammar);

pub const WIRE: Result<Reported, PeerFault> = Err(PeerFault::Wire);

const EXCEPTION: Result<Reported, PeerFault> = Err(PeerFault::Exception);

/// NO_MEMORY of a call that wasn't done.
const SYSTEM: Result<Reported, PeerFault> = Ok(Reported::System {
    minor: 7,
    completion: 1,
});

/// Two offers, the last b, and one limit.
const TWO: Result<Reported, PeerFault> = Ok(Reported::Offers {
    count: 2,
    last: b'b',
    limits: 1,
});

/// Four offers, the last d.
pub const FOUR: Result<Reported, PeerFault> = Ok(Reported::Offers {
    count: 4,
    last: b'd',
    limits: 0,
});

/// The offer a.
pub const ONE: Result<Reported, PeerFault> = Ok(Reported::Offers {
    count: 1,
    last: b'a',
    limits: 0,
});

const ROWS: [Row; 43] = [
    Row {
        what: "it is gone",
        asked: Asked::Call,
        given: &[GONE],
        failing: &[],
        content: Ok(Reported::Truth(true)),
        wrote: &[NON_EXISTENT],
    },
    Row {
        what: "it isn't",
        asked: Asked::Call,
        given: &[THERE],
        failing: &[],
        content: Ok(Reported::Truth(false)),
        wrote: &[NON_EXISTENT],
    },
    Row {
        what: "an exception",
        asked: Asked::Call,
        given: &[REFUSED],
        failing: &[],
        content: Ok(Reported::Exception),
        wrote: &[NON_EXISTENT],
    },
    Row {
        what: "a system exception",
        asked: Asked::Call,
        given: &[NO_MEMORY],
        failing: &[],
        content: SYSTEM,
        wrote: &[NON_EXISTENT],
    },
    Row {
        what: "another reference",
        asked: Asked::Call,
        given: &[FORWARD],
        failing: &[],
        content: GRAMMAR,
        wrote: &[NON_EXISTENT],
    },
    Row {
        what: "another id",
        asked: Asked::Call,
        given: &[OTHER_ID],
        failing: &[],
        content: GRAMMAR,
        wrote: &[NON_EXISTENT],
    },
    Row {
        what: "a boolean of 2",
        asked: Asked::Call,
        given: &[BAD_TRUTH],
        failing: &[],
        content: GRAMMAR,
        wrote: &[NON_EXISTENT],
    },
    Row {
        what: "a request",
        asked: Asked::Call,
        given: &[NON_EXISTENT],
        failing: &[],
        content: GRAMMAR,
        wrote: &[NON_EXISTENT],
    },
    Row {
        what: "a message that closes",
        asked: Asked::Call,
        given: &[CLOSE],
        failing: &[],
        content: GRAMMAR,
        wrote: &[NON_EXISTENT],
    },
    Row {
        what: "another protocol",
        asked: Asked::Call,
        given: &[BAD_MAGIC],
        failing: &[],
        content: GRAMMAR,
        wrote: &[NON_EXISTENT],
    },
    Row {
        what: "a large message",
        asked: Asked::Call,
        given: &[TOO_LARGE],
        failing: &[],
        content: GRAMMAR,
        wrote: &[NON_EXISTENT],
    },
    Row {
        what: "no profile",
        asked: Asked::CallOfNil,
        given: &[GONE],
        failing: &[],
        content: GRAMMAR,
        wrote: &[],
    },
    Row {
        what: "no connection",
        asked: Asked::Call,
        given: &[GONE],
        failing: &[1],
        content: WIRE,
        wrote: &[],
    },
    Row {
        what: "nothing is written",
        asked: Asked::Call,
        given: &[GONE],
        failing: &[2],
        content: WIRE,
        wrote: &[b""],
    },
    Row {
        what: "nothing is read",
        asked: Asked::Call,
        given: &[GONE],
        failing: &[3],
        content: WIRE,
        wrote: &[NON_EXISTENT],
    },
    Row {
        what: "a call that isn't made fails",
        asked: Asked::Call,
        given: &[GONE],
        failing: &[4],
        content: Ok(Reported::Truth(true)),
        wrote: &[NON_EXISTENT],
    },
    Row {
        what: "it is gone for a caller",
        asked: Asked::CallerCall,
        given: &[GONE],
        failing: &[],
        content: Ok(Reported::Truth(true)),
        wrote: &[NON_EXISTENT],
    },
    Row {
        what: "a value",
        asked: Asked::Evaluate,
        given: &[VALUE],
        failing: &[],
        content: Ok(Reported::Long(42)),
        wrote: &[EVAL_DP],
    },
    Row {
        what: "another type",
        asked: Asked::Evaluate,
        given: &[OTHER_TYPE],
        failing: &[],
        content: GRAMMAR,
        wrote: &[EVAL_DP],
    },
    Row {
        what: "an exception for a value",
        asked: Asked::Evaluate,
        given: &[REFUSED],
        failing: &[],
        content: Ok(Reported::Exception),
        wrote: &[EVAL_DP],
    },
    Row {
        what: "a system exception for a value",
        asked: Asked::Evaluate,
        given: &[NO_MEMORY],
        failing: &[],
        content: Ok(Reported::Exception),
        wrote: &[EVAL_DP],
    },
    Row {
        what: "another reference for a value",
        asked: Asked::Evaluate,
        given: &[FORWARD],
        failing: &[],
        content: GRAMMAR,
        wrote: &[EVAL_DP],
    },
    Row {
        what: "a boolean for a value",
        asked: Asked::Evaluate,
        given: &[GONE],
        failing: &[],
        content: GRAMMAR,
        wrote: &[EVAL_DP],
    },
    Row {
        what: "a visit has a property evaluated",
        asked: Asked::VisitEvaluate,
        given: &[VALUE],
        failing: &[],
        content: Ok(Reported::Long(42)),
        wrote: &[EVAL_DP],
    },
    Row {
        what: "a visit is refused a value",
        asked: Asked::VisitEvaluate,
        given: &[REFUSED],
        failing: &[],
        content: EXCEPTION,
        wrote: &[EVAL_DP],
    },
    Row {
        what: "a boolean for a visit's value",
        asked: Asked::VisitEvaluate,
        given: &[GONE],
        failing: &[],
        content: GRAMMAR,
        wrote: &[EVAL_DP],
    },
    Row {
        what: "no iterator",
        asked: Asked::Ask,
        given: &[FOUND_TWO],
        failing: &[],
        content: TWO,
        wrote: &[QUERY],
    },
    Row {
        what: "an iterator is drained and destroyed",
        asked: Asked::Ask,
        given: &[FOUND_ONE, MORE_B, LAST_CD, DESTROYED],
        failing: &[],
        content: FOUR,
        wrote: &[QUERY, NEXT_2, NEXT_3, DESTROY_4],
    },
    Row {
        what: "an exception ends a query",
        asked: Asked::Ask,
        given: &[REFUSED],
        failing: &[],
        content: Ok(Reported::Exception),
        wrote: &[QUERY],
    },
    Row {
        what: "an exception ends a batch",
        asked: Asked::Ask,
        given: &[FOUND_ONE, UNKNOWN_MAX_LEFT],
        failing: &[],
        content: Ok(Reported::Exception),
        wrote: &[QUERY, NEXT_2],
    },
    Row {
        what: "an empty batch with TRUE",
        asked: Asked::Ask,
        given: &[FOUND_ONE, MORE_NONE],
        failing: &[],
        content: GRAMMAR,
        wrote: &[QUERY, NEXT_2],
    },
    Row {
        what: "an iterator isn't destroyed",
        asked: Asked::Ask,
        given: &[FOUND_ONE, LAST_NONE, CLOSE],
        failing: &[],
        content: GRAMMAR,
        wrote: &[QUERY, NEXT_2, DESTROY_3],
    },
    Row {
        what: "the second call of an iterator isn't written",
        asked: Asked::VisitAsk,
        given: &[FOUND_ONE, MORE_B, LAST_CD, DESTROYED],
        failing: &[5],
        content: WIRE,
        wrote: &[QUERY, NEXT_2],
    },
    Row {
        what: "a batch of another id",
        asked: Asked::Ask,
        given: &[FOUND_ONE, LAST_CD],
        failing: &[],
        content: GRAMMAR,
        wrote: &[QUERY, NEXT_2],
    },
    Row {
        what: "a visit asks another trader",
        asked: Asked::VisitAsk,
        given: &[FOUND_ONE, LAST_NONE, DESTROYED_3],
        failing: &[],
        content: ONE,
        wrote: &[QUERY, NEXT_2, DESTROY_3],
    },
    Row {
        what: "a visit is refused an answer",
        asked: Asked::VisitAsk,
        given: &[REFUSED],
        failing: &[],
        content: EXCEPTION,
        wrote: &[QUERY],
    },
    Row {
        what: "a visit is told another reference",
        asked: Asked::VisitAsk,
        given: &[FORWARD],
        failing: &[],
        content: GRAMMAR,
        wrote: &[QUERY],
    },
    Row {
        what: "a visit's answer has another id",
        asked: Asked::VisitAsk,
        given: &[OTHER_ID],
        failing: &[],
        content: GRAMMAR,
        wrote: &[QUERY],
    },
    Row {
        what: "an empty batch with TRUE for a visit",
        asked: Asked::VisitAsk,
        given: &[FOUND_ONE, MORE_NONE],
        failing: &[],
        content: GRAMMAR,
        wrote: &[QUERY, NEXT_2],
    },
    Row {
        what: "a visit's connection is closed",
        asked: Asked::VisitAsk,
        given: &[],
        failing: &[],
        content: WIRE,
        wrote: &[QUERY],
    },
    Row {
        what: "the register",
        asked: Asked::Register,
        given: &[REGISTER],
        failing: &[],
        content: Ok(Reported::Register),
        wrote: &[REGISTER_IF],
    },
    Row {
        what: "no register",
        asked: Asked::Register,
        given: &[REFUSED],
        failing: &[],
        content: EXCEPTION,
        wrote: &[REGISTER_IF],
    },
    Row {
        what: "what names lead to",
        asked: Asked::Resolve,
        given: &[REGISTER],
        failing: &[],
        content: Ok(Reported::Register),
        wrote: &[RESOLVE],
    },
];

pub fn passes(alloc: Global, row: &Row) -> Result<bool, Memory> {
    let mut wire = wire_of(alloc, row.given, row.failing)?;
    let content = came(alloc, &mut wire, row.asked);
    let wrote = has_written(&wire, row.wrote);
    Ok(content == row.content && wrote && is_disconnected(&mut wire))
}

#[test]
fn what_a_call_comes_to_and_writes(rt: HostRuntime) {
    let alloc = rt.alloc();
    for row in &ROWS {
        assert!(rt; passes(alloc, row) == Ok(true), "{}", row.what);
    }
}

/// What is asked, the replies that come whole (empty where there is none), the reply whose last bytes are missing, and
/// what is written.
struct Cut {
    asked: Asked,
    whole: [&'static [u8]; 2],
    cut: &'static [u8],
    wrote: &'static [&'static [u8]],
}

const CUTS: [Cut; 5] = [
    Cut {
        asked: Asked::Call,
        whole: [b"", b""],
        cut: GONE,
        wrote: &[NON_EXISTENT],
    },
    Cut {
        asked: Asked::Call,
        whole: [b"", b""],
        cut: NO_MEMORY,
        wrote: &[NON_EXISTENT],
    },
    Cut {
        asked: Asked::Evaluate,
        whole: [b"", b""],
        cut: VALUE,
        wrote: &[EVAL_DP],
    },
    Cut {
        asked: Asked::Register,
        whole: [b"", b""],
        cut: REGISTER,
        wrote: &[REGISTER_IF],
    },
    Cut {
        asked: Asked::Ask,
        whole: [FOUND_ONE, MORE_B],
        cut: LAST_CD,
        wrote: &[QUERY, NEXT_2, NEXT_3],
    },
];

/// Whether the reply is a fault of the wire where so many bytes of it are left.
fn is_cut(alloc: Global, row: &Cut, size: usize) -> Result<bool, Memory> {
    let [first, second] = row.whole;
    let left = row.cut.get(..size).unwrap_or(&[]);
    let mut wire = wire_of(alloc, &[first, second, left], &[])?;
    let content = came(alloc, &mut wire, row.asked);
    let wrote = has_written(&wire, row.wrote);
    Ok(content == WIRE && wrote && is_disconnected(&mut wire))
}

#[test]
fn a_reply_that_is_cut_is_a_fault_of_the_wire(rt: HostRuntime) {
    let alloc = rt.alloc();
    for row in &CUTS {
        for size in 0..row.cut.len() {
            assert!(rt; is_cut(alloc, row, size) == Ok(true));
        }
    }
}

/// A call and then another over the same wire: what is asked, what the connection of each gives, what each comes to,
/// and what is written over each.
struct Pair {
    asked: [Asked; 2],
    first: &'static [&'static [u8]],
    second: &'static [&'static [u8]],
    content: [Result<Reported, PeerFault>; 2],
    wrote_first: &'static [&'static [u8]],
    wrote_second: &'static [&'static [u8]],
}

const PAIRS: [Pair; 3] = [
    Pair {
        asked: [Asked::Call, Asked::VisitEvaluate],
        first: &[GONE],
        second: &[VALUE],
        content: [Ok(Reported::Truth(true)), Ok(Reported::Long(42))],
        wrote_first: &[NON_EXISTENT],
        wrote_second: &[EVAL_DP],
    },
    Pair {
        asked: [Asked::Register, Asked::Resolve],
        first: &[BAD_MAGIC, REGISTER],
        second: &[REGISTER],
        content: [GRAMMAR, Ok(Reported::Register)],
        wrote_first: &[REGISTER_IF],
        wrote_second: &[RESOLVE],
    },
    Pair {
        asked: [Asked::Ask, Asked::VisitAsk],
        first: &[FOUND_ONE, UNKNOWN_MAX_LEFT],
        second: &[FOUND_ONE, MORE_B, LAST_CD, DESTROYED],
        content: [Ok(Reported::Exception), FOUR],
        wrote_first: &[QUERY, NEXT_2],
        wrote_second: &[QUERY, NEXT_2, NEXT_3, DESTROY_4],
    },
];

fn passes_both(alloc: Global, pair: &Pair) -> Result<bool, Memory> {
    let mut wire = wire_of_both(alloc, pair.first, pair.second, &[])?;
    let [first, second] = pair.asked;
    let content = [
        came(alloc, &mut wire, first),
        came(alloc, &mut wire, second),
    ];
    let wrote = has_written_both(&wire, pair.wrote_first, pair.wrote_second);
    Ok(content == pair.content && wrote && is_disconnected(&mut wire))
}

#[test]
fn each_call_has_a_connection_of_its_own(rt: HostRuntime) {
    let alloc = rt.alloc();
    for pair in &PAIRS {
        assert!(rt; passes_both(alloc, pair) == Ok(true));
    }
}
