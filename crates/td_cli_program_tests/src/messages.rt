//! Requests and replies, byte by byte.

/// A query for lasers.
pub const LASER_QUERY: &[u8] =
    b"GIOP\x01\0\0\0\0\0\0`\0\0\0\0\0\0\0\x01\x01\0\0\0\0\0\0\x07North/L\0\0\0\0\x06query\0\0\0\0\0\0\
    \0\0\0\0\x06Laser\0\0\0\0\0\0\x0aCost < 10\0\0\0\0\0\0\x09min Cost\0\0\0\0\0\0\0\0\0\0\0\x02\0\0\
    \0d";

/// A call of next_n of its iterator.
pub const LASER_NEXT: &[u8] =
    b"GIOP\x01\0\0\0\0\0\00\0\0\0\0\0\0\0\x02\x01\0\0\0\0\0\0\x09North/I/1\0\0\0\0\0\0\x07next_n\0\
    \0\0\0\0\0\0\0\x03\xe8";

/// A call of destroy of its iterator.
pub const LASER_DESTROY: &[u8] =
    b"GIOP\x01\0\0\0\0\0\0,\0\0\0\0\0\0\0\x03\x01\0\0\0\0\0\0\x09North/I/1\0\0\0\
    \0\0\0\x08destroy\0\0\0\0\0";

/// Their replies: two offers and an iterator, three offers, and nothing.
pub const LASER_REPLIES: &[u8] =
    b"GIOP\x01\0\0\x01\0\0\x01P\0\0\0\0\0\0\0\x01\0\0\0\0\0\0\0\x02\0\0\0\x0eIDL:Laser:1.0\0\0\0\0\0\0\
    \x01\0\0\0\0\0\0\0\x12\0\x01\0\0\0\0\0\x02h\0\0\x09\0\0\0\x02s1\0\0\0\0\0\x02\0\0\0\x05Cost\0\0\
    \0\0\0\0\0\x05\0\0\0\x03\0\0\0\x05Room\0\0\0\0\0\0\0\x12\0\0\0\0\0\0\0\x03R1\0\0\0\0\0\x0eIDL:La\
    ser:1.0\0\0\0\0\0\0\x01\0\0\0\0\0\0\0\x12\0\x01\0\0\0\0\0\x02h\0\0\x09\0\0\0\x02n1\0\0\0\0\0\x03\
    \0\0\0\x05Cost\0\0\0\0\0\0\0\x05\0\0\0\x06\0\0\0\x05Room\0\0\0\0\0\0\0\x12\0\0\0\0\0\0\0\x03R1\0\
    \0\0\0\0\x06Queue\0\0\0\0\0\0\x05\0\0\0\x02\0\0\0)IDL:omg.org/CosTrading/OfferIterator:1.0\0\0\0\
    \0\0\0\0\x01\0\0\0\0\0\0\0\x19\0\x01\0\0\0\0\0\x02h\0\0\x09\0\0\0\x09North/I/1\0\0\0\0\0\0\0GIOP\
    \x01\0\0\x01\0\0\x01Q\0\0\0\0\0\0\0\x02\0\0\0\0\0\0\0\0\0\0\0\x03\0\0\0\x0eIDL:Laser:1.0\0\0\0\0\
    \0\0\x01\0\0\0\0\0\0\0\x14\0\x01\0\0\0\0\0\x02h\0\0\x09\0\0\0\x04n101\0\0\0\x02\0\0\0\x05Cost\0\
    \0\0\0\0\0\0\x05\0\0\0\x06\0\0\0\x05Room\0\0\0\0\0\0\0\x12\0\0\0\0\0\0\0\x05R101\0\0\0\0\0\0\0\
    \x0eIDL:Laser:1.0\0\0\0\0\0\0\x01\0\0\0\0\0\0\0\x13\0\x01\0\0\0\0\0\x02h\0\0\x09\0\0\0\x03n53\0\
    \0\0\0\x02\0\0\0\x05Cost\0\0\0\0\0\0\0\x05\0\0\0\x08\0\0\0\x05Room\0\0\0\0\0\0\0\x12\0\0\0\0\0\0\
    \0\x04R53\0\0\0\0\x0eIDL:Laser:1.0\0\0\0\0\0\0\x01\0\0\0\0\0\0\0\x14\0\x01\0\0\0\0\0\x02h\0\0\
    \x09\0\0\0\x04n153\0\0\0\x02\0\0\0\x05Cost\0\0\0\0\0\0\0\x05\0\0\0\x08\0\0\0\x05Room\0\0\0\0\0\0\
    \0\x12\0\0\0\0\0\0\0\x05R153\0GIOP\x01\0\0\x01\0\0\0\x0c\0\0\0\0\0\0\0\x03\0\0\0\0";

/// A query for two properties, with every option.
pub const QUERY: &[u8] =
    b"GIOP\x01\0\0\0\0\0\x01l\0\0\0\0\0\0\0\x01\x01\0\0\0\0\0\0\x03A/L\0\0\0\0\x06query\0\0\0\0\0\0\0\
    \0\0\0\x08Printer\0\0\0\0\x0aCost < 10\0\0\0\0\0\0\x01\0\0\0\0\0\0\0\x04\0\0\0\x11exact_type_mat\
    ch\0\0\0\0\0\0\0\x08\x01\0\0\0\0\0\0\x0ahop_count\0\0\0\0\0\0\x05\0\0\0\x02\0\0\0\x11link_follow\
    _rule\0\0\0\0\0\0\0\x11\0\0\0s\0\0\0\0\0\0\0(IDL:omg.org/CosTrading/FollowOption:1.0\0\0\0\0\x0d\
    FollowOption\0\0\0\0\0\0\0\x03\0\0\0\x0blocal_only\0\0\0\0\0\x0cif_no_local\0\0\0\0\x07always\0\
    \0\0\0\0\x01\0\0\0\x0brequest_id\0\0\0\0\0\x13\0\0\0\x0c\0\0\0\0\0\0\0\x0a\0\0\0\0\0\0\0\x02\xab\
    \x0c\0\0\0\0\0\x01\0\0\0\x02\0\0\0\x05Cost\0\0\0\0\0\0\0\x05Room\0\0\0\0\0\0\0\x07";

/// Its reply: two offers, and two limits.
pub const FOUND: &[u8] =
    b"GIOP\x01\0\0\x01\0\0\0\xd8\0\0\0\0\0\0\0\x01\0\0\0\0\0\0\0\x02\0\0\0\x0aIDL:P:1.0\0\0\0\0\0\0\
    \x01\0\0\0\0\0\0\0\x12\0\x01\0\0\0\0\0\x02h\0\0\x09\0\0\0\x02p1\0\0\0\0\0\x02\0\0\0\x05Cost\0\0\
    \0\0\0\0\0\x05\0\0\0\x05\0\0\0\x05Room\0\0\0\0\0\0\0\x12\0\0\0\0\0\0\0\x04R 1\0\0\0\0\x0aIDL:P:1\
    .0\0\0\0\0\0\0\x01\0\0\0\0\0\0\0\x12\0\x01\0\0\0\0\0\x02h\0\0\x09\0\0\0\x02p2\0\0\0\0\0\0\0\0\0\
    \x01\0\0\0\0\0\0\0\0\0\0\0\x02\0\0\0\x0ahop_count\0\0\0\0\0\0\x0creturn_card\0";

/// A query without options.
pub const PLAIN_QUERY: &[u8] =
    b"GIOP\x01\0\0\0\0\0\0L\0\0\0\0\0\0\0\x01\x01\0\0\0\0\0\0\x03A/L\0\0\0\0\x06query\0\0\0\0\0\0\0\0\
    \0\0\x08Printer\0\0\0\0\x01\0\0\0\0\0\0\0\x01\0\0\0\0\0\0\0\0\0\0\0\x02\0\0\0d";

/// Its reply: no offers.
pub const FOUND_NONE: &[u8] =
    b"GIOP\x01\0\0\x01\0\0\0 \0\0\0\0\0\0\0\x01\0\0\0\0\0\0\0\0\0\0\0\x01\0\0\0\0\0\0\0\0\0\0\0\0";

/// An export with four properties.
pub const EXPORT: &[u8] =
    b"GIOP\x01\0\0\0\0\0\0\xf4\0\0\0\0\0\0\0\x01\x01\0\0\0\0\0\0\x03A/R\0\0\0\0\x07export\0\0\0\0\0\0\
    \0\0\0\x0aIDL:P:1.0\0\0\0\0\0\0\x01\0\0\0\0\0\0\0\x12\0\x01\0\0\0\0\0\x02h\0\0\x09\0\0\0\x02p1\0\
    \0\0\0\0\x08Printer\0\0\0\0\x04\0\0\0\x05Cost\0\0\0\0\0\0\0\x05\0\0\0\x05\0\0\0\x05Note\0\0\0\0\
    \0\0\0\x12\0\0\0\0\0\0\0\x07a=b: c\0\0\0\0\0\x05Tags\0\0\0\0\0\0\0\x13\0\0\0\x10\0\0\0\0\0\0\0\
    \x12\0\0\0\0\0\0\0\0\0\0\0\x02\0\0\0\x02x\0\0\0\0\0\0\x02y\0\0\0\0\0\0\x05None\0\0\0\0\0\0\0\x13\
    \0\0\0\x0c\0\0\0\0\0\0\0\x03\0\0\0\0\0\0\0\0";

/// Its reply: an id.
pub const EXPORTED: &[u8] = b"GIOP\x01\0\0\x01\0\0\0\x12\0\0\0\0\0\0\0\x01\0\0\0\0\0\0\0\x027\0";

/// Offer 7 is withdrawn.
pub const WITHDRAW: &[u8] =
    b"GIOP\x01\0\0\0\0\0\0.\0\0\0\0\0\0\0\x01\x01\0\0\0\0\0\0\x03A/R\0\0\0\0\x09withdraw\0\0\0\0\0\0\0\
    \0\0\0\0\x027\0";

/// A reply without a result.
pub const DONE: &[u8] = b"GIOP\x01\0\0\x01\0\0\0\x0c\0\0\0\0\0\0\0\x01\0\0\0\0";

/// The same without its last four bytes.
pub const CUT_DONE: &[u8] = b"GIOP\x01\0\0\x01\0\0\0\x0c\0\0\0\0\0\0\0\x01";

/// Offer 7 is described.
pub const DESCRIBE: &[u8] =
    b"GIOP\x01\0\0\0\0\0\0.\0\0\0\0\0\0\0\x01\x01\0\0\0\0\0\0\x03A/R\0\0\0\0\x09describe\0\0\0\0\0\0\0\
    \0\0\0\0\x027\0";

/// Its reply, with six properties, the last of a type for which there is no word.
pub const DESCRIBED: &[u8] =
    b"GIOP\x01\0\0\x01\0\0\x01l\0\0\0\0\0\0\0\x01\0\0\0\0\0\0\0\x0aIDL:P:1.0\0\0\0\0\0\0\x01\0\0\0\0\0\
    \0\0\x12\0\x01\0\0\0\0\0\x02h\0\0\x09\0\0\0\x02p1\0\0\0\0\0\x08Printer\0\0\0\0\x06\0\0\0\x05Cost\
    \0\0\0\0\0\0\0\x02\xff\xfb\0\0\0\0\0\x03On\0\0\0\0\0\x08\x01\0\0\0\0\0\0\x06Grade\0\0\0\0\0\0\
    \x09b\0\0\0\0\0\0\x05Tags\0\0\0\0\0\0\0\x13\0\0\0\x10\0\0\0\0\0\0\0\x12\0\0\0\0\0\0\0\0\0\0\0\
    \x02\0\0\0\x02x\0\0\0\0\0\0\x02y\0\0\0\0\0\0\x05None\0\0\0\0\0\0\0\x13\0\0\0\x0c\0\0\0\0\0\0\0\
    \x03\0\0\0\0\0\0\0\0\0\0\0\x05Rule\0\0\0\0\0\0\0\x11\0\0\0s\0\0\0\0\0\0\0(IDL:omg.org/CosTrading\
    /FollowOption:1.0\0\0\0\0\x0dFollowOption\0\0\0\0\0\0\0\x03\0\0\0\x0blocal_only\0\0\0\0\0\x0cif_\
    no_local\0\0\0\0\x07always\0\0\0\0\0\x02";

/// A link is added.
pub const LINK: &[u8] =
    b"GIOP\x01\0\0\0\0\0\0l\0\0\0\0\0\0\0\x01\x01\0\0\0\0\0\0\x03A/K\0\0\0\0\x09add_link\0\0\0\0\0\0\0\
    \0\0\0\0\x06south\0\0\0\0\0\0\x0aIDL:L:1.0\0\0\0\0\0\0\x01\0\0\0\0\0\0\0\x13\0\x01\0\0\0\0\0\x02\
    g\0\0\x08\0\0\0\x03B/L\0\0\0\0\x01\0\0\0\x02";

/// The links are listed.
pub const LINKS: &[u8] =
    b"GIOP\x01\0\0\0\0\0\0(\0\0\0\0\0\0\0\x01\x01\0\0\0\0\0\0\x03A/K\0\0\0\0\x0blist_links\0\0\0\0\0\0";

/// A reply of two names.
pub const NAMES: &[u8] =
    b"GIOP\x01\0\0\x01\0\0\0%\0\0\0\0\0\0\0\x01\0\0\0\0\0\0\0\x02\0\0\0\x06south\0\0\0\0\0\0\x05east\0";

/// All types are listed.
pub const TYPES: &[u8] =
    b"GIOP\x01\0\0\0\0\0\0,\0\0\0\0\0\0\0\x01\x01\0\0\0\0\0\0\x03A/T\0\0\0\0\x0blist_types\0\0\0\0\0\0\
    \0\0\0\0";

/// A type with two properties and two supertypes is added.
pub const ADD_TYPE: &[u8] =
    b"GIOP\x01\0\0\0\0\0\0\x9b\0\0\0\0\0\0\0\x01\x01\0\0\0\0\0\0\x03A/T\0\0\0\0\x09add_type\0\0\0\0\0\
    \0\0\0\0\0\0\x06Laser\0\0\0\0\0\0\x0aIDL:L:1.0\0\0\0\0\0\0\x02\0\0\0\x04Dpi\0\0\0\0\x05\0\0\0\0\
    \0\0\0\x05Tags\0\0\0\0\0\0\0\x13\0\0\0\x10\0\0\0\0\0\0\0\x12\0\0\0\0\0\0\0\0\0\0\0\x03\0\0\0\x02\
    \0\0\0\x08Printer\0\0\0\0\x07Device\0";

/// Its reply: an incarnation number.
pub const INCARNATION: &[u8] =
    b"GIOP\x01\0\0\x01\0\0\0\x14\0\0\0\0\0\0\0\x01\0\0\0\0\0\0\0\0\0\0\0\x03";

/// A user exception with a member.
pub const USER: &[u8] =
    b"GIOP\x01\0\0\x01\0\0\0\"\0\0\0\0\0\0\0\x01\0\0\0\x01\0\0\0\x0aIDL:X:1.0\0\0\0\0\0\0\x02m\0";

/// A system exception.
pub const SYSTEM: &[u8] =
    b"GIOP\x01\0\0\x01\0\0\0$\0\0\0\0\0\0\0\x01\0\0\0\x02\0\0\0\x0aIDL:Y:1.0\0\0\0\0\0\0\x07\0\0\0\x01";

/// A reply of status 3, which tells another reference of the object.
pub const FORWARD: &[u8] = b"GIOP\x01\0\0\x01\0\0\0\x0c\0\0\0\0\0\0\0\x01\0\0\0\x03";

/// What is printed of the five lasers.
pub const LASER_LINES: &[u8] =
    b"offer IOR:000000000000000e49444c3a4c617365723a312e3000000000000001000000000000001200010000000000\
    0268000009000000027331\n\
    \x20 Cost ulong 3\n\
    \x20 Room string R1\n\
    offer IOR:000000000000000e49444c3a4c617365723a312e3000000000000001000000000000001200010000000000\
    0268000009000000026e31\n\
    \x20 Cost ulong 6\n\
    \x20 Room string R1\n\
    \x20 Queue ulong 2\n\
    offer IOR:000000000000000e49444c3a4c617365723a312e3000000000000001000000000000001400010000000000\
    0268000009000000046e313031\n\
    \x20 Cost ulong 6\n\
    \x20 Room string R101\n\
    offer IOR:000000000000000e49444c3a4c617365723a312e3000000000000001000000000000001300010000000000\
    0268000009000000036e3533\n\
    \x20 Cost ulong 8\n\
    \x20 Room string R53\n\
    offer IOR:000000000000000e49444c3a4c617365723a312e3000000000000001000000000000001400010000000000\
    0268000009000000046e313533\n\
    \x20 Cost ulong 8\n\
    \x20 Room string R153\n\
    limits\n\
    total 5\n";

/// The text of the reference of the first offer.
pub const FIRST: &[u8] =
    b"IOR:000000000000000a49444c3a503a312e30000000000000010000000000000012000100000000000268000009000000027031";

/// The same of the second offer.
pub const SECOND: &[u8] =
    b"IOR:000000000000000a49444c3a503a312e30000000000000010000000000000012000100000000000268000009000000027032";
