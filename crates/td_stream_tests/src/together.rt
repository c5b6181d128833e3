//! Replies go out together, and never too late.

use crate::counting::{Counting, Plan, fill};
use crate::messages::{CLOSE, ERROR, REQUEST};
use crate::outside::{Got, Supply, Tap};
use crate::story::joined;
use std::alloc::Global;
use std::cell::Cell;
use std::test::Fail;
use td_cdr::{Memory, Octets};
use td_stream::{Cause, End, serve_stream};

/// A client and a servant, and what comes of them.
#[derive(Clone, Copy)]
struct Case {
    /// The client's bytes, part by part.
    sent: &'static [&'static [u8]],
    /// Where its second piece begins, and how many bytes it has before it sends that.
    cut: usize,
    waits: usize,
    plan: Plan,
    /// The write that fails, and how many bytes each takes at most.
    failing: usize,
    most: usize,
    end: End,
    /// What the replies tell, and how many bytes of them come; behind them comes this.
    content: &'static [u8],
    wrote: usize,
    last: &'static [u8],
    writes: usize,
    answered: u8,
}

/// Three Requests at once, which are answered with two bytes each.
const THREE: Case = Case {
    sent: &[REQUEST, REQUEST, REQUEST],
    cut: 141,
    waits: 0,
    plan: Plan {
        size: 2,
        most: 255,
        sends: false,
        least: 0,
    },
    failing: 0,
    most: usize::MAX,
    end: End::Closed,
    content: &[1, 2, 3],
    wrote: 6,
    last: &[],
    writes: 1,
    answered: 3,
};

/// The bytes that come.
fn given(alloc: Global, case: &Case) -> Result<Vec<u8>, Memory> {
    let mut all = Vec::new(alloc);
    for octet in case.content {
        fill(&mut all, *octet, case.plan.size)?;
    }
    all.truncate(case.wrote);
    all.extend_from_slice(case.last)?;
    Ok(all)
}

/// Whether it comes so.
fn comes(alloc: Global, case: &Case) -> Result<bool, Memory> {
    let sent = Octets::from_vec(joined(alloc, case.sent)?);
    let expected = given(alloc, case)?;
    let got = Cell::new(Got {
        bytes: 0,
        writes: 0,
    });
    let mut source = Supply::new(&got, sent, case.cut, case.waits);
    let mut sink = Tap::new(alloc, &got, case.failing, case.most);
    let mut servant = Counting::new(alloc, &got, case.plan);
    let end = serve_stream(alloc, &mut servant, &mut source, &mut sink);
    Ok(
        end == case.end
            && sink.bytes() == expected.as_slice()
            && got.get().writes == case.writes
            && servant.count_answered() == case.answered,
    )
}

#[test]
fn replies_go_out_with_one_write(rt: HostRuntime) -> Result<(), Fail> {
    let alloc = rt.alloc();
    assert!(rt; comes(alloc, &THREE)?, "three of one piece");
    let pieces = Case {
        cut: 94,
        writes: 2,
        ..THREE
    };
    assert!(rt; comes(alloc, &pieces)?, "two, and one of the next piece");
    let less = Case {
        most: 4,
        writes: 2,
        ..THREE
    };
    assert!(rt;
        comes(alloc, &less)?,
        "a sink that takes less is given the rest"
    );
    Ok(())
}

#[test]
fn a_client_waits_for_no_reply(rt: HostRuntime) -> Result<(), Fail> {
    let alloc = rt.alloc();
    let each = Case {
        cut: 47,
        waits: 2,
        writes: 2,
        ..THREE
    };
    assert!(rt;
        comes(alloc, &each)?,
        "the second piece comes once the first reply has come"
    );
    let half = Case {
        sent: &[REQUEST, REQUEST, REQUEST, REQUEST],
        cut: 160,
        waits: 6,
        content: &[1, 2, 3, 4],
        wrote: 8,
        writes: 2,
        answered: 4,
        ..THREE
    };
    assert!(rt; comes(alloc, &half)?, "half a message stands behind three");
    let unheard = Case {
        waits: 7,
        end: End::ReadFault,
        content: &[1, 2, 3],
        wrote: 6,
        writes: 1,
        answered: 3,
        ..half
    };
    assert!(rt; comes(alloc, &unheard)?, "the source sees what has come");
    Ok(())
}

/// Where each message asks somebody who waits until the replies before have come.
const ASKING: Case = Case {
    plan: Plan {
        size: 2,
        most: 255,
        sends: true,
        least: 2,
    },
    writes: 3,
    ..THREE
};

#[test]
fn replies_go_out_before_a_servant_waits(rt: HostRuntime) -> Result<(), Fail> {
    let alloc = rt.alloc();
    assert!(rt; comes(alloc, &ASKING)?, "each has come");
    let keeps = Case {
        plan: Plan {
            sends: false,
            ..ASKING.plan
        },
        content: &[1, 0, 0],
        writes: 1,
        ..ASKING
    };
    assert!(rt; comes(alloc, &keeps)?, "the servant sees what has come");
    Ok(())
}

#[test]
fn a_failed_write_before_a_servant_waits_ends_a_stream(rt: HostRuntime) -> Result<(), Fail> {
    let alloc = rt.alloc();
    let first = Case {
        failing: 1,
        end: End::WriteFault,
        wrote: 0,
        writes: 1,
        answered: 2,
        ..ASKING
    };
    assert!(rt;
        comes(alloc, &first)?,
        "the message is answered, and none behind it"
    );
    let middle = Case {
        failing: 2,
        most: 1,
        wrote: 1,
        writes: 2,
        ..first
    };
    assert!(rt; comes(alloc, &middle)?, "in the midst of a reply");
    let closing = Case {
        sent: &[REQUEST, REQUEST, CLOSE],
        cut: 106,
        ..first
    };
    assert!(rt;
        comes(alloc, &closing)?,
        "the stream isn't closed behind it"
    );
    let full = Case {
        plan: Plan {
            most: 1,
            ..ASKING.plan
        },
        failing: 1,
        answered: 1,
        ..first
    };
    assert!(rt; comes(alloc, &full)?, "nor does it end when out of memory");
    Ok(())
}

#[test]
fn long_replies_go_out_in_their_order(rt: HostRuntime) -> Result<(), Fail> {
    let alloc = rt.alloc();
    let half = Case {
        plan: Plan {
            size: 40_000,
            ..THREE.plan
        },
        wrote: 120_000,
        writes: 3,
        ..THREE
    };
    assert!(rt; comes(alloc, &half)?, "one is held, one isn't, and one is");
    let long = Case {
        plan: Plan {
            size: 65_537,
            ..THREE.plan
        },
        wrote: 196_611,
        ..half
    };
    assert!(rt; comes(alloc, &long)?, "longer than what is held");
    let fails = Case {
        failing: 2,
        end: End::WriteFault,
        wrote: 40_000,
        writes: 2,
        answered: 2,
        ..half
    };
    assert!(rt;
        comes(alloc, &fails)?,
        "a failed write behind what was held"
    );
    Ok(())
}

/// Two Requests at once, and then a CloseConnection.
const CLOSED: Case = Case {
    sent: &[REQUEST, REQUEST, CLOSE, REQUEST],
    cut: 153,
    waits: 0,
    plan: Plan {
        size: 2,
        most: 255,
        sends: false,
        least: 0,
    },
    failing: 0,
    most: usize::MAX,
    end: End::Closed,
    content: &[1, 2],
    wrote: 4,
    last: &[],
    writes: 1,
    answered: 2,
};

#[test]
fn a_closed_stream_sends_what_is_held(rt: HostRuntime) -> Result<(), Fail> {
    let alloc = rt.alloc();
    assert!(rt; sends(alloc, &CLOSED)?, "CloseConnection");
    let truncated = Case {
        sent: &[REQUEST, REQUEST, b"GIOP\x01\x00"],
        cut: 100,
        end: End::Truncated(94),
        ..CLOSED
    };
    assert!(rt; sends(alloc, &truncated)?, "the input's end in a message");
    Ok(())
}

#[test]
fn a_broken_stream_sends_what_is_held(rt: HostRuntime) -> Result<(), Fail> {
    let alloc = rt.alloc();
    let broken = Case {
        sent: &[REQUEST, REQUEST, b"GIOP\x01\x00\x00\x01\x00\x00\x00\x00"],
        cut: 106,
        end: End::Broken(94, Cause::NotForServer),
        last: ERROR,
        writes: 2,
        ..CLOSED
    };
    assert!(rt;
        sends(alloc, &broken)?,
        "a message that is not for a server"
    );
    let bad = Case {
        sent: &[REQUEST, REQUEST, b"GIOR\x01\x00\x00\x01\x00\x00\x00\x00"],
        end: End::Broken(94, Cause::BadMagic),
        ..broken
    };
    assert!(rt; sends(alloc, &bad)?, "a bad header");
    Ok(())
}

#[test]
fn no_memory_and_a_fault_send_what_is_held(rt: HostRuntime) -> Result<(), Fail> {
    let alloc = rt.alloc();
    let memory = Case {
        sent: THREE.sent,
        cut: 141,
        plan: Plan {
            most: 2,
            ..THREE.plan
        },
        end: End::Memory,
        ..CLOSED
    };
    assert!(rt; sends(alloc, &memory)?, "a servant without memory");
    let fault = Case {
        cut: 94,
        waits: 5,
        end: End::ReadFault,
        ..memory
    };
    assert!(rt; sends(alloc, &fault)?, "a fault of the source");
    Ok(())
}

/// Whether it comes so, and as WriteFault where what is held can't be sent.
fn sends(alloc: Global, case: &Case) -> Result<bool, Memory> {
    let fails = Case {
        failing: 1,
        end: End::WriteFault,
        wrote: 0,
        last: &[],
        writes: 1,
        ..*case
    };
    Ok(comes(alloc, case)? && comes(alloc, &fails)?)
}
