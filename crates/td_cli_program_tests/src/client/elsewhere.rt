//! Queries whose reply names an iterator that may be at another place than the trader, which is at the port 9 of the
//! host h: over which connection it is drained, what each gives, and what is written over each.

use crate::client::messages::*;
use crate::client::queries::{Asked, Reported, came};
use crate::client::rows::{FOUR, GRAMMAR, ONE, WIRE};
use crate::wires::{has_written, has_written_both, is_disconnected, wire_of_both};
use std::alloc::Global;
use td_cdr::Memory;
use td_walk::PeerFault;

/// What is asked, what the first connection gives and what the next, which calls of the wire fail, what the query comes
/// to, and which parts are written over the first connection and over the second (none where there is no second one).
struct Row {
    what: &'static str,
    asked: Asked,
    given: &'static [&'static [u8]],
    next: &'static [&'static [u8]],
    failing: &'static [u64],
    content: Result<Reported, PeerFault>,
    wrote: &'static [&'static [u8]],
    wrote_there: &'static [&'static [u8]],
}

/// The offer a, and an iterator with the key J at the port 10 of the host h.
const FOUND_AT_PORT: &[u8] =
    b"GIOP\x01\0\0\x01\0\0\0T\0\0\0\0\0\0\0\x01\0\0\0\0\0\0\0\x01\0\0\0\x02a\0\0\0\0\0\0\0\0\0\0\
    \0\0\0\0\x0aIDL:I:1.0\0\0\0\0\0\0\x01\0\0\0\0\0\0\0\x11\0\x01\0\0\0\0\0\x02h\0\0\x0a\0\0\0\
    \x01J\0\0\0\0\0\0\0";

/// The same at the port 9 of the host i.
const FOUND_AT_HOST: &[u8] =
    b"GIOP\x01\0\0\x01\0\0\0T\0\0\0\0\0\0\0\x01\0\0\0\0\0\0\0\x01\0\0\0\x02a\0\0\0\0\0\0\0\0\0\0\
    \0\0\0\0\x0aIDL:I:1.0\0\0\0\0\0\0\x01\0\0\0\0\0\0\0\x11\0\x01\0\0\0\0\0\x02i\0\0\x09\0\0\0\
    \x01J\0\0\0\0\0\0\0";

/// The same at the port 9 of the host H, which isn't h byte by byte.
const FOUND_AT_LETTER: &[u8] =
    b"GIOP\x01\0\0\x01\0\0\0T\0\0\0\0\0\0\0\x01\0\0\0\0\0\0\0\x01\0\0\0\x02a\0\0\0\0\0\0\0\0\0\0\
    \0\0\0\0\x0aIDL:I:1.0\0\0\0\0\0\0\x01\0\0\0\0\0\0\0\x11\0\x01\0\0\0\0\0\x02H\0\0\x09\0\0\0\
    \x01J\0\0\0\0\0\0\0";

/// The same at the place of the trader.
const FOUND_HERE: &[u8] =
    b"GIOP\x01\0\0\x01\0\0\0T\0\0\0\0\0\0\0\x01\0\0\0\0\0\0\0\x01\0\0\0\x02a\0\0\0\0\0\0\0\0\0\0\
    \0\0\0\0\x0aIDL:I:1.0\0\0\0\0\0\0\x01\0\0\0\0\0\0\0\x11\0\x01\0\0\0\0\0\x02h\0\0\x09\0\0\0\
    \x01J\0\0\0\0\0\0\0";

/// A call of next_n of the iterator J, with the id 3.
const NEXT_J_3: &[u8] =
    b"GIOP\x01\0\0\0\0\0\0(\0\0\0\0\0\0\0\x03\x01\0\0\0\0\0\0\x01J\0\0\0\0\0\0\x07next_n\0\0\0\0\
    \0\0\0\0\x03\xe8";

/// A call of destroy of the iterator J, with the id 4.
const DESTROY_J_4: &[u8] =
    b"GIOP\x01\0\0\0\0\0\0$\0\0\0\0\0\0\0\x04\x01\0\0\0\0\0\0\x01J\0\0\0\0\0\0\x08destroy\0\0\0\
    \0\0";

const ROWS: [Row; 15] = [
    Row {
        what: "another host and port",
        asked: Asked::Ask,
        given: &[FOUND_ELSEWHERE],
        next: &[LAST_NONE, DESTROYED_3],
        failing: &[],
        content: ONE,
        wrote: &[QUERY],
        wrote_there: &[NEXT_J, DESTROY_J],
    },
    Row {
        what: "another port of the same host",
        asked: Asked::Ask,
        given: &[FOUND_AT_PORT],
        next: &[LAST_NONE, DESTROYED_3],
        failing: &[],
        content: ONE,
        wrote: &[QUERY],
        wrote_there: &[NEXT_J, DESTROY_J],
    },
    Row {
        what: "the same port of another host",
        asked: Asked::Ask,
        given: &[FOUND_AT_HOST],
        next: &[LAST_NONE, DESTROYED_3],
        failing: &[],
        content: ONE,
        wrote: &[QUERY],
        wrote_there: &[NEXT_J, DESTROY_J],
    },
    Row {
        what: "a host of another letter",
        asked: Asked::Ask,
        given: &[FOUND_AT_LETTER],
        next: &[LAST_NONE, DESTROYED_3],
        failing: &[],
        content: ONE,
        wrote: &[QUERY],
        wrote_there: &[NEXT_J, DESTROY_J],
    },
    Row {
        what: "the trader's own place",
        asked: Asked::Ask,
        given: &[FOUND_HERE, LAST_NONE, DESTROYED_3],
        next: &[UNKNOWN_MAX_LEFT],
        failing: &[],
        content: ONE,
        wrote: &[QUERY, NEXT_J, DESTROY_J],
        wrote_there: &[],
    },
    Row {
        what: "a nil iterator",
        asked: Asked::Ask,
        given: &[FOUND_TWO],
        next: &[UNKNOWN_MAX_LEFT],
        failing: &[],
        content: Ok(Reported::Offers {
            count: 2,
            last: b'b',
            limits: 1,
        }),
        wrote: &[QUERY],
        wrote_there: &[],
    },
    Row {
        what: "request ids go on there",
        asked: Asked::Ask,
        given: &[FOUND_ELSEWHERE],
        next: &[MORE_B, LAST_CD, DESTROYED],
        failing: &[],
        content: FOUR,
        wrote: &[QUERY],
        wrote_there: &[NEXT_J, NEXT_J_3, DESTROY_J_4],
    },
    Row {
        what: "what comes behind the query's reply isn't the iterator's",
        asked: Asked::Ask,
        given: &[FOUND_ELSEWHERE, LAST_NONE, DESTROYED_3],
        next: &[UNKNOWN_MAX_LEFT],
        failing: &[],
        content: Ok(Reported::Exception),
        wrote: &[QUERY],
        wrote_there: &[NEXT_J],
    },
    Row {
        what: "there are no bytes there",
        asked: Asked::Ask,
        given: &[FOUND_ELSEWHERE, LAST_NONE, DESTROYED_3],
        next: &[],
        failing: &[],
        content: WIRE,
        wrote: &[QUERY],
        wrote_there: &[NEXT_J],
    },
    Row {
        what: "an empty batch with TRUE there",
        asked: Asked::Ask,
        given: &[FOUND_ELSEWHERE],
        next: &[MORE_NONE],
        failing: &[],
        content: GRAMMAR,
        wrote: &[QUERY],
        wrote_there: &[NEXT_J],
    },
    Row {
        what: "the iterator isn't destroyed there",
        asked: Asked::Ask,
        given: &[FOUND_ELSEWHERE],
        next: &[LAST_NONE, CLOSE],
        failing: &[],
        content: GRAMMAR,
        wrote: &[QUERY],
        wrote_there: &[NEXT_J, DESTROY_J],
    },
    // a connection, the query, its reply, and the second connection
    Row {
        what: "there is no connection to there",
        asked: Asked::Ask,
        given: &[FOUND_ELSEWHERE],
        next: &[LAST_NONE, DESTROYED_3],
        failing: &[4],
        content: WIRE,
        wrote: &[QUERY],
        wrote_there: &[],
    },
    Row {
        what: "a visit's iterator is elsewhere",
        asked: Asked::VisitAsk,
        given: &[FOUND_ELSEWHERE],
        next: &[MORE_B, LAST_CD, DESTROYED],
        failing: &[],
        content: FOUR,
        wrote: &[QUERY],
        wrote_there: &[NEXT_J, NEXT_J_3, DESTROY_J_4],
    },
    Row {
        what: "a visit is refused there",
        asked: Asked::VisitAsk,
        given: &[FOUND_ELSEWHERE],
        next: &[UNKNOWN_MAX_LEFT],
        failing: &[],
        content: Err(PeerFault::Exception),
        wrote: &[QUERY],
        wrote_there: &[NEXT_J],
    },
    Row {
        what: "a visit finds nobody there",
        asked: Asked::VisitAsk,
        given: &[FOUND_ELSEWHERE],
        next: &[],
        failing: &[4],
        content: WIRE,
        wrote: &[QUERY],
        wrote_there: &[],
    },
];

fn passes(alloc: Global, row: &Row) -> Result<bool, Memory> {
    let mut wire = wire_of_both(alloc, row.given, row.next, row.failing)?;
    let content = came(alloc, &mut wire, row.asked);
    let wrote = if row.wrote_there.is_empty() {
        has_written(&wire, row.wrote)
    } else {
        has_written_both(&wire, row.wrote, row.wrote_there)
    };
    Ok(content == row.content && wrote && is_disconnected(&mut wire))
}

#[test]
fn an_iterator_elsewhere_is_drained_over_a_second_connection(rt: HostRuntime) {
    let alloc = rt.alloc();
    for row in &ROWS {
        assert!(rt; passes(alloc, row) == Ok(true), "{}", row.what);
    }
}
