//! Requests and replies, byte by byte.

/// A query of the Lookup A/L for Printer, with ten offers at most and the id 1.
pub const QUERY: &[u8] =
    b"GIOP\x01\0\0\0\0\0\0L\0\0\0\0\0\0\0\x01\x01\0\0\0\0\0\0\x03A/L\0\0\0\0\x06query\0\0\0\0\0\
    \0\0\0\0\0\x08Printer\0\0\0\0\x01\0\0\0\0\0\0\0\x01\0\0\0\0\0\0\0\0\0\0\0\0\0\0\0\x0a";

/// Two offers, a and b, a limit, and no iterator.
pub const FOUND_TWO: &[u8] =
    b"GIOP\x01\0\0\x01\0\0\0P\0\0\0\0\0\0\0\x01\0\0\0\0\0\0\0\x02\0\0\0\x02a\0\0\0\0\0\0\0\0\0\0\
    \0\0\0\0\x02b\0\0\0\0\0\0\0\0\0\0\0\0\0\0\x01\0\0\0\0\0\0\0\0\0\0\0\x01\0\0\0\x0csearch_ca\
    rd\0";

/// One offer, a, and an iterator with the key I.
pub const FOUND_ONE: &[u8] =
    b"GIOP\x01\0\0\x01\0\0\0T\0\0\0\0\0\0\0\x01\0\0\0\0\0\0\0\x01\0\0\0\x02a\0\0\0\0\0\0\0\0\0\0\
    \0\0\0\0\x0aIDL:I:1.0\0\0\0\0\0\0\x01\0\0\0\0\0\0\0\x11\0\x01\0\0\0\0\0\x02h\0\0\x09\0\0\0\
    \x01I\0\0\0\0\0\0\0";

/// The same with an iterator with the key J, at the port 10 of the host i.
pub const FOUND_ELSEWHERE: &[u8] =
    b"GIOP\x01\0\0\x01\0\0\0T\0\0\0\0\0\0\0\x01\0\0\0\0\0\0\0\x01\0\0\0\x02a\0\0\0\0\0\0\0\0\0\0\
    \0\0\0\0\x0aIDL:I:1.0\0\0\0\0\0\0\x01\0\0\0\0\0\0\0\x11\0\x01\0\0\0\0\0\x02i\0\0\x0a\0\0\0\
    \x01J\0\0\0\0\0\0\0";

/// A call of next_n of the iterator J, with the id 2.
pub const NEXT_J: &[u8] =
    b"GIOP\x01\0\0\0\0\0\0(\0\0\0\0\0\0\0\x02\x01\0\0\0\0\0\0\x01J\0\0\0\0\0\0\x07next_n\0\0\0\0\
    \0\0\0\0\x03\xe8";

/// A call of destroy of the iterator J, with the id 3.
pub const DESTROY_J: &[u8] =
    b"GIOP\x01\0\0\0\0\0\0$\0\0\0\0\0\0\0\x03\x01\0\0\0\0\0\0\x01J\0\0\0\0\0\0\x08destroy\0\0\0\
    \0\0";

/// A call of next_n for a thousand offers, with the id 2.
pub const NEXT_2: &[u8] =
    b"GIOP\x01\0\0\0\0\0\0(\0\0\0\0\0\0\0\x02\x01\0\0\0\0\0\0\x01I\0\0\0\0\0\0\x07next_n\0\0\0\0\
    \0\0\0\0\x03\xe8";

/// The same with the id 3.
pub const NEXT_3: &[u8] =
    b"GIOP\x01\0\0\0\0\0\0(\0\0\0\0\0\0\0\x03\x01\0\0\0\0\0\0\x01I\0\0\0\0\0\0\x07next_n\0\0\0\0\
    \0\0\0\0\x03\xe8";

/// A call of destroy, with the id 4.
pub const DESTROY_4: &[u8] =
    b"GIOP\x01\0\0\0\0\0\0$\0\0\0\0\0\0\0\x04\x01\0\0\0\0\0\0\x01I\0\0\0\0\0\0\x08destroy\0\0\0\
    \0\0";

/// The same with the id 3.
pub const DESTROY_3: &[u8] =
    b"GIOP\x01\0\0\0\0\0\0$\0\0\0\0\0\0\0\x03\x01\0\0\0\0\0\0\x01I\0\0\0\0\0\0\x08destroy\0\0\0\
    \0\0";

/// The reply of id 2: the offer b, and some are left.
pub const MORE_B: &[u8] =
    b"GIOP\x01\0\0\x01\0\0\0$\0\0\0\0\0\0\0\x02\0\0\0\0\x01\0\0\0\0\0\0\x01\0\0\0\x02b\0\0\0\0\0\
    \0\0\0\0\0\0";

/// The reply of id 3: the offers c and d, and none is left.
pub const LAST_CD: &[u8] =
    b"GIOP\x01\0\0\x01\0\0\04\0\0\0\0\0\0\0\x03\0\0\0\0\0\0\0\0\0\0\0\x02\0\0\0\x02c\0\0\0\0\0\0\
    \0\0\0\0\0\0\0\0\x02d\0\0\0\0\0\0\0\0\0\0\0";

/// The reply of id 4: the iterator is destroyed.
pub const DESTROYED: &[u8] = b"GIOP\x01\0\0\x01\0\0\0\x0c\0\0\0\0\0\0\0\x04\0\0\0\0";

/// The reply of id 2: no offer, although some are left.
pub const MORE_NONE: &[u8] =
    b"GIOP\x01\0\0\x01\0\0\0\x14\0\0\0\0\0\0\0\x02\0\0\0\0\x01\0\0\0\0\0\0\0";

/// The reply of id 2: no offer, and none is left.
pub const LAST_NONE: &[u8] =
    b"GIOP\x01\0\0\x01\0\0\0\x14\0\0\0\0\0\0\0\x02\0\0\0\0\0\0\0\0\0\0\0\0";

/// The reply of id 3: the iterator is destroyed.
pub const DESTROYED_3: &[u8] = b"GIOP\x01\0\0\x01\0\0\0\x0c\0\0\0\0\0\0\0\x03\0\0\0\0";

/// The reply of id 2: an exception.
pub const UNKNOWN_MAX_LEFT: &[u8] =
    b"GIOP\x01\0\0\x01\0\0\0\x1a\0\0\0\0\0\0\0\x02\0\0\0\x01\0\0\0\x0aIDL:X:1.0\0";

/// The reply of id 1: an exception.
pub const REFUSED: &[u8] =
    b"GIOP\x01\0\0\x01\0\0\0\x1a\0\0\0\0\0\0\0\x01\0\0\0\x01\0\0\0\x0aIDL:X:1.0\0";

/// A reading of register_if of the Lookup A/L, with the id 1.
pub const REGISTER_IF: &[u8] =
    b"GIOP\x01\0\0\0\0\0\00\0\0\0\0\0\0\0\x01\x01\0\0\0\0\0\0\x03A/L\0\0\0\0\x11_get_register_if\
    \0\0\0\0\0\0\0\0";

/// A call of resolve of the register A/R for x and y, with the id 1.
pub const RESOLVE: &[u8] =
    b"GIOP\x01\0\0\0\0\0\06\0\0\0\0\0\0\0\x01\x01\0\0\0\0\0\0\x03A/R\0\0\0\0\x08resolve\0\0\0\0\
    \0\0\0\0\x02\0\0\0\x02x\0\0\0\0\0\0\x02y\0";

/// The reply of id 1: a reference with the key R.
pub const REGISTER: &[u8] =
    b"GIOP\x01\0\0\x01\0\0\09\0\0\0\0\0\0\0\x01\0\0\0\0\0\0\0\x0aIDL:R:1.0\0\0\0\0\0\0\x01\0\0\0\
    \0\0\0\0\x11\0\x01\0\0\0\0\0\x02h\0\0\x09\0\0\0\x01R";

/// A call of `_non_existent` of the Lookup A/L, with the id 1.
pub const NON_EXISTENT: &[u8] = b"GIOP\x01\0\0\0\0\0\0\x2c\
    \0\0\0\0\0\0\0\x01\x01\0\0\0\0\0\0\x03A/L\0\0\0\0\x0e_non_existent\0\0\0\
    \0\0\0\0";

/// The reply of id 1: it is gone.
pub const GONE: &[u8] = b"GIOP\x01\0\0\x01\0\0\0\x0d\0\0\0\0\0\0\0\x01\0\0\0\0\x01";

/// A call of evalDP of the object E, with the id 1: Cost, of the type long, with a long of 5.
pub const EVAL_DP: &[u8] = b"GIOP\x01\0\0\0\0\0\0\x3c\
    \0\0\0\0\0\0\0\x01\x01\0\0\0\0\0\0\x01E\0\0\0\0\0\0\x07evalDP\0\0\
    \0\0\0\0\0\0\0\x05Cost\0\0\0\0\0\0\0\x03\0\0\0\x03\0\0\0\x05";

/// The reply of id 1: a long of 42.
pub const VALUE: &[u8] =
    b"GIOP\x01\0\0\x01\0\0\0\x14\0\0\0\0\0\0\0\x01\0\0\0\0\0\0\0\x03\0\0\0\x2a";

/// In little-endian order: it isn't.
pub const THERE: &[u8] = b"GIOP\x01\0\x01\x01\x0d\0\0\0\
    \0\0\0\0\x01\0\0\0\0\0\0\0\
    \0";

/// NO_MEMORY, with the minor code 7; the call wasn't done.
pub const NO_MEMORY: &[u8] = b"GIOP\x01\0\0\x01\0\0\0\x38\
    \0\0\0\0\0\0\0\x01\0\0\0\x02\
    \0\0\0\x20\
    IDL:omg.org/CORBA/NO_MEMORY:1.0\0\
    \0\0\0\x07\0\0\0\x01";

/// A reply to the request of id 2.
pub const OTHER_ID: &[u8] = b"GIOP\x01\0\0\x01\0\0\0\x0d\
    \0\0\0\0\0\0\0\x02\0\0\0\0\
    \x01";

/// A reply of status 3, which tells another reference of the object.
pub const FORWARD: &[u8] = b"GIOP\x01\0\0\x01\0\0\0\x0d\
    \0\0\0\0\0\0\0\x01\0\0\0\x03\
    \x01";

/// A boolean of 2.
pub const BAD_TRUTH: &[u8] = b"GIOP\x01\0\0\x01\0\0\0\x0d\
    \0\0\0\0\0\0\0\x01\0\0\0\0\
    \x02";

/// A message that closes the connection.
pub const CLOSE: &[u8] = b"GIOP\x01\0\0\x05\0\0\0\0";

/// A header of another protocol.
pub const BAD_MAGIC: &[u8] = b"HTTP/1.1 400";

/// The header of a reply of 64 MiB and a byte.
pub const TOO_LARGE: &[u8] = b"GIOP\x01\0\0\x01\x04\0\0\x01";

/// A boolean in place of a long.
pub const OTHER_TYPE: &[u8] = b"GIOP\x01\0\0\x01\0\0\0\x11\
    \0\0\0\0\0\0\0\x01\0\0\0\0\
    \0\0\0\x08\x01";
