//! Heads that are read and written: values worked out by hand from the standard's layouts.

ghost use Rattle.std.specs.Prelude.{◌≡◌, ◌≤◌, [], length};

use std::test::*;
use td_cdr::{CdrFault, Order, Writer};
use td_giop::message_type::{CLOSE_CONNECTION, LOCATE_REPLY, LOCATE_REQUEST, REPLY, REQUEST};
use td_giop::{
    HEADER_SIZE, Raw, read_cancel, read_locate, read_locate_reply, read_reply, read_request, seal,
    start_reply, start_request, write_locate, write_locate_reply, write_plain,
};

/// A Request, big: id 7, answered, key `ab`, operation `op`, and one parameter octet. Padding holds
/// old bytes.
const PLAIN: [u8; 45] = [
    b'G', b'I', b'O', b'P', 1, 0, 0, 0, 0, 0, 0, 33, // header
    0, 0, 0, 0, // contexts
    0, 0, 0, 7, // id
    1, 9, 9, 9, // answered
    0, 0, 0, 2, b'a', b'b', 9, 9, // key
    0, 0, 0, 3, b'o', b'p', 0, 9, // operation
    0, 0, 0, 0, // principal
    5,
];

/// A Request, little, with two contexts and a principal: id 258, not answered, no key, operation `f`.
const WITH_CONTEXTS: [u8; 61] = [
    b'G', b'I', b'O', b'P', 1, 0, 1, 0, 49, 0, 0, 0, // header
    2, 0, 0, 0, // contexts
    1, 0, 0, 0, 1, 0, 0, 0, 4, 9, 9, 9, // the first
    2, 0, 0, 0, 0, 0, 0, 0, // the second
    2, 1, 0, 0, // id
    0, 9, 9, 9, // answered
    0, 0, 0, 0, // key
    2, 0, 0, 0, b'f', 0, 9, 9, // operation
    1, 0, 0, 0, b'x', // principal
];

/// A Reply, big: id 7, status 2, and one octet of its body.
const ANSWER: [u8; 25] = [
    b'G', b'I', b'O', b'P', 1, 0, 0, 1, 0, 0, 0, 13, // header
    0, 0, 0, 0, // contexts
    0, 0, 0, 7, // id
    0, 0, 0, 2, // status
    6,
];

/// A LocateRequest, little: id 3, key `k`.
const LOCATE: [u8; 21] = [
    b'G', b'I', b'O', b'P', 1, 0, 1, 3, 9, 0, 0, 0, // header
    3, 0, 0, 0, // id
    1, 0, 0, 0, b'k', // key
];

/// A LocateReply, big: id 3, status 1.
const LOCATED: [u8; 20] = [
    b'G', b'I', b'O', b'P', 1, 0, 0, 4, 0, 0, 0, 8, // header
    0, 0, 0, 3, // id
    0, 0, 0, 1, // status
];

/// A CloseConnection, little.
const CLOSE: [u8; 12] = [b'G', b'I', b'O', b'P', 1, 0, 1, 5, 0, 0, 0, 0];

/// A message of this type and order, of GIOP 1.0.
fn raw(kind: u8, order: Order, bytes: &[u8]) -> Raw<'_>
    ensures { result.bytes.now ≡ bytes.now }
{
    Raw {
        start: 0,
        kind,
        order,
        bytes,
        minor: 0,
    }
}

/// A Request in big order, of GIOP 1.1.
fn newer_request(bytes: &[u8]) -> Raw<'_>
    ensures { result.bytes.now ≡ bytes.now }
{
    Raw {
        start: 0,
        kind: REQUEST,
        order: Order::Big,
        bytes,
        minor: 1,
    }
}

/// Whether the head of a Request tells this, and its body begins at this place.
fn tells_request(m: &Raw, content: (u32, bool), key: &[u8], operation: &[u8], place: u32) -> bool
    requires { (12 ≤ length m.now.bytes.now) × (length m.now.bytes.now ≤ 100) }
{
    match read_request(m) {
        Ok(head) => {
            (head.id, head.answered) == content
                && head.key == key
                && head.operation == operation
                && head.body.place() == place
        }
        Err(_) => false,
    }
}

/// Whether the head of a Reply tells this, and its body begins at this place.
fn tells_reply(m: &Raw, id: u32, status: u32, place: u32) -> bool
    requires { (12 ≤ length m.now.bytes.now) × (length m.now.bytes.now ≤ 100) }
{
    match read_reply(m) {
        Ok(head) => head.id == id && head.status == status && head.body.place() == place,
        Err(_) => false,
    }
}

#[test]
fn requests_are_read(rt: HostRuntime) {
    let plain = raw(REQUEST, Order::Big, &PLAIN);
    assert!(rt; tells_request(&plain, (7, true), b"ab", b"op", 44));
    let with_contexts = raw(REQUEST, Order::Little, &WITH_CONTEXTS);
    assert!(rt; tells_request(&with_contexts, (258, false), b"", b"f", 61));
    assert!(rt; tells_request(&newer_request(&PLAIN), (7, true), b"ab", b"op", 44));
}

#[test]
fn the_other_heads_are_read(rt: HostRuntime) {
    assert!(rt; tells_reply(&raw(REPLY, Order::Big, &ANSWER), 7, 2, 24));
    let locate = read_locate(&raw(LOCATE_REQUEST, Order::Little, &LOCATE));
    assert!(rt; locate == Ok((3, b"k".as_slice())));
    let located = raw(LOCATE_REPLY, Order::Big, &LOCATED);
    assert!(rt; read_locate_reply(&located) == Ok((3, 1)));
    assert!(rt; read_cancel(&located) == Ok(3));
}

/// Whether the head of a Request is refused with this fault.
fn is_refused(bytes: &[u8], fault: CdrFault) -> bool
    requires { (12 ≤ length bytes.now) × (length bytes.now ≤ 100) }
{
    refuses(&raw(REQUEST, Order::Big, bytes), fault)
}

fn refuses(message: &Raw, fault: CdrFault) -> bool
    requires { (12 ≤ length message.now.bytes.now) × (length message.now.bytes.now ≤ 100) }
{
    match read_request(message) {
        Ok(_) => false,
        Err(f) => f == fault,
    }
}

#[test]
fn a_request_that_is_cut_is_refused_at_the_cut_field(rt: HostRuntime) {
    for (len, fault) in [
        (12, CdrFault::Short(12)),
        (19, CdrFault::Short(16)),
        (20, CdrFault::Short(20)),
        (21, CdrFault::Short(24)),
        (23, CdrFault::Short(24)),
        (27, CdrFault::Short(24)),
        (29, CdrFault::TooLong(24)),
        (38, CdrFault::TooLong(32)),
        (43, CdrFault::Short(40)),
    ] {
        assert!(rt; is_refused(&PLAIN[..len], fault));
    }
}

/// Whether the head of a Request of GIOP 1.1 is refused with this fault.
fn newer_is_refused(bytes: &[u8], fault: CdrFault) -> bool
    requires { (12 ≤ length bytes.now) × (length bytes.now ≤ 100) }
{
    refuses(&newer_request(bytes), fault)
}

/// The reserved octets of GIOP 1.1 stand where GIOP 1.0 has padding: only a head that is cut there differs.
#[test]
fn a_request_that_is_cut_in_its_reserved_octets_is_refused_there(rt: HostRuntime) {
    for (len, fault) in [
        (20, CdrFault::Short(20)),
        (21, CdrFault::Short(21)),
        (22, CdrFault::Short(22)),
        (23, CdrFault::Short(23)),
        (24, CdrFault::Short(24)),
        (27, CdrFault::Short(24)),
    ] {
        assert!(rt; newer_is_refused(&PLAIN[..len], fault));
    }
}

/// The Request with one more fault, further to its front, in each.
fn faulty_requests() -> [([u8; 45], CdrFault); 3] {
    let mut unclosed = PLAIN;
    unclosed[38] = b'!';
    let mut no_boolean = unclosed;
    no_boolean[20] = 2;
    let mut no_context = no_boolean;
    no_context[15] = 3;
    [
        (unclosed, CdrFault::BadString(32)),
        (no_boolean, CdrFault::BadBoolean(20)),
        (no_context, CdrFault::TooLong(20)),
    ]
}

#[test]
fn the_first_fault_of_a_head_is_answered(rt: HostRuntime) {
    for (bytes, fault) in faulty_requests() {
        assert!(rt; is_refused(&bytes, fault));
    }
    let close = raw(CLOSE_CONNECTION, Order::Little, &CLOSE);
    assert!(rt; read_cancel(&close) == Err(CdrFault::Short(12)));
}

/// Whether the writer, once it is sealed, holds these bytes.
fn seals(w: &mut Writer, bytes: &[u8]) -> bool {
    if w.len() < HEADER_SIZE {
        return false;
    }
    seal(w);
    w.bytes() == bytes
}

/// The Request with padding of zeros.
fn without_old_bytes() -> [u8; 45] {
    let mut request = PLAIN;
    for place in [21, 22, 23, 30, 31, 39] {
        request[place] = 0;
    }
    request
}

fn writes_request(w: &mut Writer, minor: u8) -> bool
    requires empty { w.old.bytes ≡ [] }
    requires minor { minor ≤ 1 }
{
    let mut expected = without_old_bytes();
    expected[5] = minor;
    start_request(w, minor, 7, true, b"ab", b"op").is_ok()
        && w.octet(5).is_ok()
        && seals(w, &expected)
}

fn writes_reply(w: &mut Writer, minor: u8) -> bool
    requires empty { w.old.bytes ≡ [] }
    requires minor { minor ≤ 1 }
{
    let mut expected = ANSWER;
    expected[5] = minor;
    start_reply(w, minor, 7, 2).is_ok() && w.octet(6).is_ok() && seals(w, &expected)
}

fn writes_locate(w: &mut Writer, minor: u8) -> bool
    requires empty { w.old.bytes ≡ [] }
    requires minor { minor ≤ 1 }
{
    let mut expected = LOCATE;
    expected[5] = minor;
    write_locate(w, minor, 3, b"k").is_ok() && seals(w, &expected)
}

fn writes_locate_reply(w: &mut Writer, minor: u8) -> bool
    requires empty { w.old.bytes ≡ [] }
    requires minor { minor ≤ 1 }
{
    let mut expected = LOCATED;
    expected[5] = minor;
    write_locate_reply(w, minor, 3, 1).is_ok() && seals(w, &expected)
}

fn writes_close(w: &mut Writer) -> bool
    requires { w.old.bytes ≡ [] }
{
    write_plain(w, CLOSE_CONNECTION).is_ok() && seals(w, &CLOSE)
}

#[test]
fn messages_are_written(rt: HostRuntime) {
    let alloc = rt.alloc();
    for minor in [0, 1] {
        assert!(rt; writes_request(&mut Writer::new(alloc, Order::Big), minor));
        assert!(rt; writes_reply(&mut Writer::new(alloc, Order::Big), minor));
        assert!(rt; writes_locate(&mut Writer::new(alloc, Order::Little), minor));
        assert!(rt; writes_locate_reply(&mut Writer::new(alloc, Order::Big), minor));
    }
    assert!(rt; writes_close(&mut Writer::new(alloc, Order::Little)));
}
