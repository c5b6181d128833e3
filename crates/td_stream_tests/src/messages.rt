//! Messages that are answered, in one piece and cut anywhere.

use crate::story::{Story, comes};
use std::test::Fail;
use td_stream::End;

/// A Request with id 5 and the parameters 7, 8, 9.
pub const REQUEST: &[u8] =
    b"GIOP\x01\x00\x00\x00\x00\x00\x00\x23\x00\x00\x00\x00\x00\x00\x00\x05\x01\x00\x00\x00\x00\x00\x00\x01k\x00\x00\x00\x00\x00\x00\x02e\x00\x00\x00\x00\x00\x00\x00\x07\x08\x09";

/// Its echo.
pub const REPLY: &[u8] =
    b"GIOP\x01\x00\x00\x01\x00\x00\x00\x0f\x00\x00\x00\x00\x00\x00\x00\x05\x00\x00\x00\x00\x07\x08\x09";

/// A Request in little order with id 6 and no parameters.
const LITTLE_REQUEST: &[u8] =
    b"GIOP\x01\x00\x01\x00\x20\x00\x00\x00\x00\x00\x00\x00\x06\x00\x00\x00\x01\x00\x00\x00\x01\x00\x00\x00k\x00\x00\x00\x02\x00\x00\x00e\x00\x00\x00\x00\x00\x00\x00";

/// Its echo.
const LITTLE_REPLY: &[u8] =
    b"GIOP\x01\x00\x01\x01\x0c\x00\x00\x00\x00\x00\x00\x00\x06\x00\x00\x00\x00\x00\x00\x00";

/// A Request that expects no reply.
const ONEWAY: &[u8] =
    b"GIOP\x01\x00\x00\x00\x00\x00\x00\x23\x00\x00\x00\x00\x00\x00\x00\x05\x00\x00\x00\x00\x00\x00\x00\x01k\x00\x00\x00\x00\x00\x00\x02e\x00\x00\x00\x00\x00\x00\x00\x07\x08\x09";

/// A LocateRequest with id 9.
const LOCATE: &[u8] = b"GIOP\x01\x00\x00\x03\x00\x00\x00\x09\x00\x00\x00\x09\x00\x00\x00\x01k";

/// Its reply: the object is here.
const HERE: &[u8] = b"GIOP\x01\x00\x00\x04\x00\x00\x00\x08\x00\x00\x00\x09\x00\x00\x00\x01";

/// A CancelRequest.
const CANCEL: &[u8] = b"GIOP\x01\x00\x00\x02\x00\x00\x00\x04\x00\x00\x00\x05";

/// A MessageError in big order.
pub const ERROR: &[u8] = b"GIOP\x01\x00\x00\x06\x00\x00\x00\x00";

/// A CloseConnection.
pub const CLOSE: &[u8] = b"GIOP\x01\x00\x00\x05\x00\x00\x00\x00";

/// A Request, all of which comes.
pub const PLAIN: Story = Story {
    sent: &[REQUEST],
    pieces: &[],
    reads: &[],
    writes: &[],
    end: End::Closed,
    given: &[REPLY],
};

#[test]
fn messages_are_answered(rt: HostRuntime) -> Result<(), Fail> {
    let alloc = rt.alloc();
    assert!(rt; comes(alloc, &PLAIN)?, "a Request");
    let none = Story {
        sent: &[],
        given: &[],
        ..PLAIN
    };
    assert!(rt; comes(alloc, &none)?, "no message");
    let little = Story {
        sent: &[LITTLE_REQUEST],
        given: &[LITTLE_REPLY],
        ..PLAIN
    };
    assert!(rt; comes(alloc, &little)?, "little order");
    let all = Story {
        sent: &[REQUEST, ONEWAY, LOCATE, CANCEL, LITTLE_REQUEST],
        given: &[REPLY, HERE, LITTLE_REPLY],
        ..PLAIN
    };
    assert!(rt; comes(alloc, &all)?, "of each type");
    Ok(())
}

/// So many bytes in the first read, and one in each of the next.
const CUTS: &[&[usize]] = &[
    &[1],
    &[2],
    &[3],
    &[4],
    &[5],
    &[6],
    &[7],
    &[8],
    &[9],
    &[10],
    &[11],
    &[12],
    &[13],
    &[14],
    &[15],
    &[16],
    &[17],
    &[18],
    &[19],
    &[20],
    &[21],
    &[22],
    &[23],
    &[24],
    &[25],
    &[26],
    &[27],
    &[28],
    &[29],
    &[30],
    &[31],
    &[32],
    &[33],
    &[34],
    &[35],
    &[36],
    &[37],
    &[38],
    &[39],
    &[40],
    &[41],
    &[42],
    &[43],
    &[44],
    &[45],
    &[46],
    &[47],
    &[48],
    &[49],
    &[50],
];

#[test]
fn messages_are_answered_wherever_they_are_cut(rt: HostRuntime) -> Result<(), Fail> {
    let alloc = rt.alloc();
    for pieces in CUTS {
        let cut = Story {
            sent: &[REQUEST, REQUEST],
            pieces,
            given: &[REPLY, REPLY],
            ..PLAIN
        };
        assert!(rt; comes(alloc, &cut)?, "cut");
    }
    Ok(())
}
