//! Calls in GIOP 1.0 and 1.1, by the target's profile, and replies of the other version.

use crate::client::messages::*;
use crate::client::queries::{Asked, Reported};
use crate::client::rows::{GRAMMAR, ONE, Row, passes};

/// The Lookup A/L by a profile of IIOP 1.1 without components.
const LOOKUP: &[u8] =
    b"IOR:000000000000000a49444c3a4c3a312e3000000000000001000000000000001800010100000000026800000900000003\
    412f4c0000000000";

/// The same by a profile of IIOP 1.2, where what stands behind the key is no components.
const LATER_LOOKUP: &[u8] =
    b"IOR:000000000000000a49444c3a4c3a312e3000000000000001000000000000001400010200000000026800000900000003\
    412f4cff";

/// The object E by a profile of IIOP 1.1 without components.
const EVALUATOR: &[u8] =
    b"IOR:000000000000000a49444c3a453a312e3000000000000001000000000000001800010100000000026800000900000001\
    4500000000000000";

/// `NON_EXISTENT` of GIOP 1.1. The reserved octets stand where GIOP 1.0 has padding.
const NEWER_NON_EXISTENT: &[u8] = b"GIOP\x01\x01\0\0\0\0\0\x2c\
    \0\0\0\0\0\0\0\x01\x01\0\0\0\0\0\0\x03A/L\0\0\0\0\x0e_non_existent\0\0\0\
    \0\0\0\0";

/// `GONE` of GIOP 1.1.
const NEWER_GONE: &[u8] = b"GIOP\x01\x01\0\x01\0\0\0\x0d\0\0\0\0\0\0\0\x01\0\0\0\0\x01";

/// The same with the flag of fragments.
const FRAGMENTED_GONE: &[u8] = b"GIOP\x01\x01\x02\x01\0\0\0\x0d\0\0\0\0\0\0\0\x01\0\0\0\0\x01";

/// `GONE` of GIOP 1.0 with that flag, which means nothing there.
const GONE_WITH_FLAGS: &[u8] = b"GIOP\x01\0\x02\x01\0\0\0\x0d\0\0\0\0\0\0\0\x01\0\0\0\0\x01";

/// `GONE` of GIOP 1.2.
const GONE_OF_LATER: &[u8] = b"GIOP\x01\x02\0\x01\0\0\0\x0d\0\0\0\0\0\0\0\x01\0\0\0\0\x01";

/// `EVAL_DP` of GIOP 1.1.
const NEWER_EVAL_DP: &[u8] = b"GIOP\x01\x01\0\0\0\0\0\x3c\
    \0\0\0\0\0\0\0\x01\x01\0\0\0\0\0\0\x01E\0\0\0\0\0\0\x07evalDP\0\0\
    \0\0\0\0\0\0\0\x05Cost\0\0\0\0\0\0\0\x03\0\0\0\x03\0\0\0\x05";

/// `QUERY` of GIOP 1.1.
const NEWER_QUERY: &[u8] =
    b"GIOP\x01\x01\0\0\0\0\0L\0\0\0\0\0\0\0\x01\x01\0\0\0\0\0\0\x03A/L\0\0\0\0\x06query\0\0\0\0\0\
    \0\0\0\0\0\x08Printer\0\0\0\0\x01\0\0\0\0\0\0\0\x01\0\0\0\0\0\0\0\0\0\0\0\0\0\0\0\x0a";

/// `FOUND_ONE` of GIOP 1.1. Its iterator has a profile of IIOP 1.0.
const NEWER_FOUND: &[u8] =
    b"GIOP\x01\x01\0\x01\0\0\0T\0\0\0\0\0\0\0\x01\0\0\0\0\0\0\0\x01\0\0\0\x02a\0\0\0\0\0\0\0\0\0\0\
    \0\0\0\0\x0aIDL:I:1.0\0\0\0\0\0\0\x01\0\0\0\0\0\0\0\x11\0\x01\0\0\0\0\0\x02h\0\0\x09\0\0\0\
    \x01I\0\0\0\0\0\0\0";

/// `FOUND_ONE` with an iterator that has a profile of IIOP 1.1.
const FOUND_NEWER: &[u8] =
    b"GIOP\x01\0\0\x01\0\0\0X\0\0\0\0\0\0\0\x01\0\0\0\0\0\0\0\x01\0\0\0\x02a\0\0\0\0\0\0\0\0\0\0\0\
    \0\0\0\x0aIDL:I:1.0\0\0\0\0\0\0\x01\0\0\0\0\0\0\0\x18\0\x01\x01\0\0\0\0\x02h\0\0\x09\0\0\0\
    \x01I\0\0\0\0\0\0\0\0\0\0\0";

/// `NEXT_2` of GIOP 1.1.
const NEWER_NEXT: &[u8] =
    b"GIOP\x01\x01\0\0\0\0\0(\0\0\0\0\0\0\0\x02\x01\0\0\0\0\0\0\x01I\0\0\0\0\0\0\x07next_n\0\0\0\0\
    \0\0\0\0\x03\xe8";

/// `DESTROY_3` of GIOP 1.1.
const NEWER_DESTROY: &[u8] =
    b"GIOP\x01\x01\0\0\0\0\0$\0\0\0\0\0\0\0\x03\x01\0\0\0\0\0\0\x01I\0\0\0\0\0\0\x08destroy\0\0\0\
    \0\0";

/// `DESTROYED_3` of GIOP 1.1.
const NEWER_DESTROYED: &[u8] = b"GIOP\x01\x01\0\x01\0\0\0\x0c\0\0\0\0\0\0\0\x03\0\0\0\0";

const ROWS: [Row; 10] = [
    Row {
        what: "a profile of 1.1",
        asked: Asked::CallOf(LOOKUP),
        given: &[NEWER_GONE],
        failing: &[],
        content: Ok(Reported::Truth(true)),
        wrote: &[NEWER_NON_EXISTENT],
    },
    Row {
        what: "a profile of 1.2",
        asked: Asked::CallOf(LATER_LOOKUP),
        given: &[NEWER_GONE],
        failing: &[],
        content: Ok(Reported::Truth(true)),
        wrote: &[NEWER_NON_EXISTENT],
    },
    Row {
        what: "a reply of 1.0 to a call of 1.1",
        asked: Asked::CallOf(LOOKUP),
        given: &[GONE],
        failing: &[],
        content: Ok(Reported::Truth(true)),
        wrote: &[NEWER_NON_EXISTENT],
    },
    Row {
        what: "a reply of 1.1 to a call of 1.0",
        asked: Asked::Call,
        given: &[NEWER_GONE],
        failing: &[],
        content: Ok(Reported::Truth(true)),
        wrote: &[NON_EXISTENT],
    },
    Row {
        what: "flags of a reply of 1.0",
        asked: Asked::Call,
        given: &[GONE_WITH_FLAGS],
        failing: &[],
        content: Ok(Reported::Truth(true)),
        wrote: &[NON_EXISTENT],
    },
    Row {
        what: "a reply of which fragments follow",
        asked: Asked::CallOf(LOOKUP),
        given: &[FRAGMENTED_GONE],
        failing: &[],
        content: GRAMMAR,
        wrote: &[NEWER_NON_EXISTENT],
    },
    Row {
        what: "a reply of 1.2",
        asked: Asked::CallOf(LOOKUP),
        given: &[GONE_OF_LATER],
        failing: &[],
        content: GRAMMAR,
        wrote: &[NEWER_NON_EXISTENT],
    },
    Row {
        what: "an evaluator with a profile of 1.1",
        asked: Asked::EvaluateOf(EVALUATOR),
        given: &[VALUE],
        failing: &[],
        content: Ok(Reported::Long(42)),
        wrote: &[NEWER_EVAL_DP],
    },
    Row {
        what: "an iterator of 1.0 behind a query of 1.1",
        asked: Asked::AskOf(LOOKUP),
        given: &[NEWER_FOUND, LAST_NONE, NEWER_DESTROYED],
        failing: &[],
        content: ONE,
        wrote: &[NEWER_QUERY, NEXT_2, DESTROY_3],
    },
    Row {
        what: "an iterator of 1.1 behind a query of 1.0",
        asked: Asked::Ask,
        given: &[FOUND_NEWER, LAST_NONE, DESTROYED_3],
        failing: &[],
        content: ONE,
        wrote: &[QUERY, NEWER_NEXT, NEWER_DESTROY],
    },
];

#[test]
fn calls_have_the_version_of_the_profile(rt: HostRuntime) {
    let alloc = rt.alloc();
    for row in &ROWS {
        assert!(rt; passes(alloc, row) == Ok(true), "{}", row.what);
    }
}
