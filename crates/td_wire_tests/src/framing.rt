//! Messages out of a stream that is cut anywhere, and headers that are refused.

ghost use Rattle.std.specs.Prelude.{◌≡◌, ◌+◌, ◌^◌, ◌<◌, ◌≤◌, length};

use std::test::*;
use td_cdr::Order;
use td_giop::{FrameFault, Framer};

/// What a header tells.
#[derive(Clone, Copy)]
struct Reported {
    minor: u8,
    kind: u8,
    order: Order,
}

/// Whether this message is lent, and again when it is asked for again.
fn lends(framer: &mut Framer, start: u64, content: Reported, bytes: &[u8]) -> bool
    ensures { framer.new ≡ framer.old }
{
    match framer.next_message() {
        Ok(Some(m)) => {
            m.start == start
                && m.kind == content.kind
                && m.order == content.order
                && m.minor == content.minor
                && m.bytes == bytes
        }
        _ => false,
    }
}

/// Whether no message is whole.
fn lends_nothing(framer: &mut Framer) -> bool
    ensures { framer.new ≡ framer.old }
{
    match framer.next_message() {
        Ok(None) => true,
        _ => false,
    }
}

/// Whether the header in front is refused with this fault.
fn refuses(framer: &mut Framer, fault: FrameFault) -> bool
    ensures { framer.new ≡ framer.old }
{
    match framer.next_message() {
        Err(f) => f == fault,
        _ => false,
    }
}

/// A message with these flags, and with four bytes behind its header.
fn message_of(content: Reported, flags: u8) -> [u8; 16] {
    let Reported { minor, kind, .. } = content;
    let (high, low) = match content.order {
        Order::Big => (0, 4),
        Order::Little => (4, 0),
    };
    [
        b'G', b'I', b'O', b'P', 1, minor, flags, kind, high, 0, 0, low, 9, 8, 7, 6,
    ]
}

/// Whether a piece was taken.
fn feeds(framer: &mut Framer, piece: &[u8]) -> bool
    requires held { framer.old.start + length framer.old.rest ≤ 100 }
    requires short { length piece.now ≤ 16 }
    ensures { framer.new.start + length framer.new.rest
        ≤ framer.old.start + (length framer.old.rest + length piece.now) }
{
    framer.feed(piece).is_ok()
}

/// Whether two messages come out of a stream that is cut there in the first and in the second.
fn comes_whole(framer: &mut Framer, message: &[u8], cut: usize, content: Reported) -> bool
    requires empty { framer.old.start + length framer.old.rest ≡ 0 }
    requires long { length message.now ≡ 16 }
    requires cut { cut ≤ 16 }
{
    let (front, back) = message.split_at(cut);
    let inside = if cut == 0 { None } else { Some(0) };
    let mut good = feeds(framer, front);
    good &= cut == 16 || lends_nothing(framer) && framer.ended_inside() == inside;
    good &= feeds(framer, back) && feeds(framer, front);
    good &= lends(framer, 0, content, message) && lends(framer, 0, content, message);
    framer.drop_message();
    good &= feeds(framer, back) && lends(framer, 16, content, message);
    framer.drop_message();
    good && lends_nothing(framer) && framer.ended_inside() == None
}

/// In version 1.0 the lowest bit of the flags counts alone. In version 1.1 the next one is 0 in a message without
/// fragments.
#[test]
fn messages_are_whole_wherever_a_stream_is_cut(rt: HostRuntime) -> Result<(), Fail> {
    let alloc = rt.alloc();
    for kind in 0..7u8 {
        for (minor, flags, order) in [
            (0, 0, Order::Big),
            (0, 1, Order::Little),
            (0, 2, Order::Big),
            (0, 0x83, Order::Little),
            (1, 0, Order::Big),
            (1, 1, Order::Little),
            (1, 0xfc, Order::Big),
            (1, 0xfd, Order::Little),
        ] {
            let content = Reported { minor, kind, order };
            let message = message_of(content, flags);
            for cut in 0..17usize {
                let mut framer = Framer::new(alloc, 4).ok().ok_or("a framer")?;
                assert!(rt; comes_whole(&mut framer, &message, cut, content));
            }
        }
    }
    Ok(())
}

/// Whether a header is refused with this fault, again and again, and only once it is whole.
fn is_refused(framer: &mut Framer, header: [u8; 12], fault: FrameFault) -> bool
    requires { framer.old.start + length framer.old.rest ≡ 0 }
{
    let mut good = feeds(framer, &header[..11]);
    good &= lends_nothing(framer) && framer.ended_inside() == Some(0);
    good &= feeds(framer, &header[11..]) && refuses(framer, fault);
    framer.drop_message();
    good && refuses(framer, fault) && framer.ended_inside() == None
}

#[test]
fn bad_headers_are_refused(rt: HostRuntime) -> Result<(), Fail> {
    let alloc = rt.alloc();
    for (header, fault) in [
        (
            *b"GIOR\x01\x00\x00\x00\x00\x00\x00\x04",
            FrameFault::BadMagic,
        ),
        (
            *b"giop\x01\x00\x00\x00\x00\x00\x00\x04",
            FrameFault::BadMagic,
        ),
        (
            *b"GIOR\x02\x00\x00\x07\x00\x00\x00\x05",
            FrameFault::BadMagic,
        ),
        (
            *b"GIOP\x01\x02\x00\x00\x00\x00\x00\x04",
            FrameFault::BadVersion,
        ),
        (
            *b"GIOP\x01\x02\x02\x07\x00\x00\x00\x05",
            FrameFault::BadVersion,
        ),
        (
            *b"GIOP\x02\x00\x00\x00\x00\x00\x00\x04",
            FrameFault::BadVersion,
        ),
        (
            *b"GIOP\x00\x00\x00\x07\x00\x00\x00\x05",
            FrameFault::BadVersion,
        ),
        (
            *b"GIOP\x01\x01\x02\x00\x00\x00\x00\x04",
            FrameFault::Fragmented,
        ),
        (
            *b"GIOP\x01\x01\x03\x00\x04\x00\x00\x00",
            FrameFault::Fragmented,
        ),
        (
            *b"GIOP\x01\x01\xff\x06\x05\x00\x00\x00",
            FrameFault::Fragmented,
        ),
        (
            *b"GIOP\x01\x01\x02\x07\x00\x00\x00\x05",
            FrameFault::Fragmented,
        ),
        (
            *b"GIOP\x01\x01\x00\x07\x00\x00\x00\x04",
            FrameFault::BadType,
        ),
        (
            *b"GIOP\x01\x00\x02\x07\x00\x00\x00\x04",
            FrameFault::BadType,
        ),
        (
            *b"GIOP\x01\x00\x00\x07\x00\x00\x00\x04",
            FrameFault::BadType,
        ),
        (
            *b"GIOP\x01\x00\x01\xff\xff\x00\x00\x00",
            FrameFault::BadType,
        ),
        (
            *b"GIOP\x01\x00\x00\x06\x00\x00\x00\x05",
            FrameFault::TooLarge,
        ),
        (
            *b"GIOP\x01\x01\xfd\x06\x05\x00\x00\x00",
            FrameFault::TooLarge,
        ),
        (
            *b"GIOP\x01\x00\x00\x00\x04\x00\x00\x00",
            FrameFault::TooLarge,
        ),
        (
            *b"GIOP\x01\x00\x01\x00\x05\x00\x00\x00",
            FrameFault::TooLarge,
        ),
        (
            *b"GIOP\x01\x00\x01\x00\x00\x00\x00\x04",
            FrameFault::TooLarge,
        ),
    ] {
        let mut framer = Framer::new(alloc, 4).ok().ok_or("a framer")?;
        assert!(rt; is_refused(&mut framer, header, fault));
    }
    Ok(())
}
