//! The files, the requests and the replies of the visitors, worked out by the standard's rules (CORBA's GIOP and CDR).

/// The file of the worked queries.
pub const PRINTERS: &[u8] = b"address h 9\ntrader A\ntype Printer IDL:Printer:1.0\n\
    offer Printer ref:IDL:Printer:1.0,h,9,p1\n\
    offer Printer ref:IDL:Printer:1.0,h,9,p2\n";

/// A file whose third line doesn't fit.
pub const BROKEN: &[u8] = b"address h 9\ntrader A\ntype Printer\n";

/// A query for the printers, of at most ten.
pub const QUERY: &[u8] = b"GIOP\x01\0\0\0\0\0\0L\
    \0\0\0\0\0\0\0\x01\x01\0\0\0\0\0\0\x03\
    A/L\0\0\0\0\x06query\0\0\0\
    \0\0\0\0\0\0\0\x08Printer\0\
    \0\0\0\x01\0\0\0\0\0\0\0\x01\0\0\0\0\
    \0\0\0\0\0\0\0\0\0\0\0\x0a";

/// Its reply, with two offers.
pub const FOUND: &[u8] = b"GIOP\x01\0\0\x01\0\0\0\x90\
    \0\0\0\0\0\0\0\x01\0\0\0\0\0\0\0\x02\
    \0\0\0\x10IDL:Printer:\
    1.0\0\0\0\0\x01\0\0\0\0\0\0\0\x12\
    \0\x01\0\0\0\0\0\x02h\0\0\x09\0\0\0\x02\
    p1\0\0\0\0\0\0\0\0\0\x10IDL:\
    Printer:1.0\0\0\0\0\x01\
    \0\0\0\0\0\0\0\x12\0\x01\0\0\0\0\0\x02\
    h\0\0\x09\0\0\0\x02p2\0\0\0\0\0\0\
    \0\0\0\x01\0\0\0\0\0\0\0\0\0\0\0\0";

/// An export of a third printer.
pub const EXPORT: &[u8] = b"GIOP\x01\0\0\0\0\0\0h\
    \0\0\0\0\0\0\0\x01\x01\0\0\0\0\0\0\x03\
    A/R\0\0\0\0\x07export\0\0\
    \0\0\0\0\0\0\0\x10IDL:Prin\
    ter:1.0\0\0\0\0\x01\0\0\0\0\
    \0\0\0\x12\0\x01\0\0\0\0\0\x02h\0\0\x09\
    \0\0\0\x02p3\0\0\0\0\0\x08Prin\
    ter\0\0\0\0\0";

/// Its reply, with the id 3.
pub const EXPORTED: &[u8] = b"GIOP\x01\0\0\x01\0\0\0\x12\
    \0\0\0\0\0\0\0\x01\0\0\0\0\0\0\0\x02\
    3\0";

/// The same export, and then the description of the offer 3.
pub const EXPORT_AND_DESCRIBE: &[u8] = b"GIOP\x01\0\0\0\0\0\0h\
    \0\0\0\0\0\0\0\x01\x01\0\0\0\0\0\0\x03\
    A/R\0\0\0\0\x07export\0\0\
    \0\0\0\0\0\0\0\x10IDL:Prin\
    ter:1.0\0\0\0\0\x01\0\0\0\0\
    \0\0\0\x12\0\x01\0\0\0\0\0\x02h\0\0\x09\
    \0\0\0\x02p3\0\0\0\0\0\x08Prin\
    ter\0\0\0\0\0\
    GIOP\x01\0\0\0\0\0\0.\
    \0\0\0\0\0\0\0\x02\x01\0\0\0\0\0\0\x03\
    A/R\0\0\0\0\x09describe\0\0\0\0\
    \0\0\0\0\0\0\0\x023\0";

/// The replies to both: the id 3, and the exported reference, its type and no properties.
pub const DESCRIBED: &[u8] = b"GIOP\x01\0\0\x01\0\0\0\x12\
    \0\0\0\0\0\0\0\x01\0\0\0\0\0\0\0\x02\
    3\0\
    GIOP\x01\0\0\x01\0\0\0P\
    \0\0\0\0\0\0\0\x02\0\0\0\0\
    \0\0\0\x10IDL:Printer:\
    1.0\0\0\0\0\x01\0\0\0\0\0\0\0\x12\
    \0\x01\0\0\0\0\0\x02h\0\0\x09\0\0\0\x02\
    p3\0\0\0\0\0\x08Printer\0\
    \0\0\0\0";

/// The reply to the query then, with three offers.
pub const FOUND_THREE: &[u8] = b"GIOP\x01\0\0\x01\0\0\0\xc8\
    \0\0\0\0\0\0\0\x01\0\0\0\0\0\0\0\x03\
    \0\0\0\x10IDL:Printer:\
    1.0\0\0\0\0\x01\0\0\0\0\0\0\0\x12\
    \0\x01\0\0\0\0\0\x02h\0\0\x09\0\0\0\x02\
    p1\0\0\0\0\0\0\0\0\0\x10IDL:\
    Printer:1.0\0\0\0\0\x01\
    \0\0\0\0\0\0\0\x12\0\x01\0\0\0\0\0\x02\
    h\0\0\x09\0\0\0\x02p2\0\0\0\0\0\0\
    \0\0\0\x10IDL:Printer:\
    1.0\0\0\0\0\x01\0\0\0\0\0\0\0\x12\
    \0\x01\0\0\0\0\0\x02h\0\0\x09\0\0\0\x02\
    p3\0\0\0\0\0\0\0\0\0\x01\0\0\0\0\
    \0\0\0\0\0\0\0\0";

/// A query for the printers, of at most one, and then five more of the first iterator of this connection.
pub const IN_BATCHES: &[u8] = b"GIOP\x01\0\0\0\0\0\0L\
    \0\0\0\0\0\0\0\x01\x01\0\0\0\0\0\0\x03\
    A/L\0\0\0\0\x06query\0\0\0\
    \0\0\0\0\0\0\0\x08Printer\0\
    \0\0\0\x01\0\0\0\0\0\0\0\x01\0\0\0\0\
    \0\0\0\0\0\0\0\0\0\0\0\x01\
    GIOP\x01\0\0\0\0\0\0,\
    \0\0\0\0\0\0\0\x01\x01\0\0\0\0\0\0\x05\
    A/I/1\0\0\0\0\0\0\x07next\
    _n\0\0\0\0\0\0\0\0\0\x05";

/// The replies to both: an offer and an iterator, and the other offer, behind which nothing is left.
pub const BATCHES: &[u8] = b"GIOP\x01\0\0\x01\0\0\0\xa0\
    \0\0\0\0\0\0\0\x01\0\0\0\0\0\0\0\x01\
    \0\0\0\x10IDL:Printer:\
    1.0\0\0\0\0\x01\0\0\0\0\0\0\0\x12\
    \0\x01\0\0\0\0\0\x02h\0\0\x09\0\0\0\x02\
    p1\0\0\0\0\0\0\0\0\0)IDL:\
    omg.org/CosTradi\
    ng/OfferIterator\
    :1.0\0\0\0\0\0\0\0\x01\0\0\0\0\
    \0\0\0\x15\0\x01\0\0\0\0\0\x02h\0\0\x09\
    \0\0\0\x05A/I/1\0\0\0\0\0\0\0\
    GIOP\x01\0\0\x01\0\0\0L\
    \0\0\0\0\0\0\0\x01\0\0\0\0\0\0\0\0\
    \0\0\0\x01\0\0\0\x10IDL:Prin\
    ter:1.0\0\0\0\0\x01\0\0\0\0\
    \0\0\0\x12\0\x01\0\0\0\0\0\x02h\0\0\x09\
    \0\0\0\x02p2\0\0\0\0\0\0";

/// Five more of the first iterator of a connection that has none.
pub const NEXT: &[u8] = b"GIOP\x01\0\0\0\0\0\0,\
    \0\0\0\0\0\0\0\x01\x01\0\0\0\0\0\0\x05\
    A/I/1\0\0\0\0\0\0\x07next\
    _n\0\0\0\0\0\0\0\0\0\x05";

/// Its reply: OBJECT_NOT_EXIST.
pub const ABSENT: &[u8] = b"GIOP\x01\0\0\x01\0\0\0@\
    \0\0\0\0\0\0\0\x01\0\0\0\x02\0\0\0'\
    IDL:omg.org/CORB\
    A/OBJECT_NOT_EXI\
    ST:1.0\0\0\0\0\0\0\0\0\0\x01";

/// The file of three traders in a ring, with an offer each.
pub const RING: &[u8] = b"address h 9\n\
    trader A\ntype Printer -\noffer Printer ref:IDL:P:1.0,h,9,a\nlink next B always always\n\
    trader B\ntype Printer -\noffer Printer ref:IDL:P:1.0,h,9,b\nlink next C always always\n\
    trader C\ntype Printer -\noffer Printer ref:IDL:P:1.0,h,9,c\nlink next A always always\n";

/// A query for the printers of A with five hops, under the identifier `q`.
pub const RING_QUERY: &[u8] = b"GIOP\x01\0\0\0\0\0\0\x90\
    \0\0\0\0\0\0\0\x01\x01\0\0\0\0\0\0\x03\
    A/L\0\0\0\0\x06query\0\0\0\
    \0\0\0\0\0\0\0\x08Printer\0\
    \0\0\0\x01\0\0\0\0\0\0\0\x01\0\0\0\0\
    \0\0\0\x02\0\0\0\x0ahop_count\0\0\0\
    \0\0\0\x05\0\0\0\x05\
    \0\0\0\x0brequest_id\0\0\
    \0\0\0\x13\0\0\0\x0c\0\0\0\0\0\0\0\x0a\0\0\0\0\
    \0\0\0\x01q\0\0\0\
    \0\0\0\0\0\0\0\x0a";

/// Its reply: the offers of A, B and C.
pub const RING_OFFERS: &[u8] = b"GIOP\x01\0\0\x01\0\0\0\xbc\
    \0\0\0\0\0\0\0\x01\0\0\0\0\0\0\0\x03\
    \0\0\0\x0aIDL:P:1.0\0\0\0\
    \0\0\0\x01\0\0\0\0\0\0\0\x11\
    \0\x01\0\0\0\0\0\x02h\0\0\x09\0\0\0\x01\
    a\0\0\0\0\0\0\0\
    \0\0\0\x0aIDL:P:1.0\0\0\0\
    \0\0\0\x01\0\0\0\0\0\0\0\x11\
    \0\x01\0\0\0\0\0\x02h\0\0\x09\0\0\0\x01\
    b\0\0\0\0\0\0\0\
    \0\0\0\x0aIDL:P:1.0\0\0\0\
    \0\0\0\x01\0\0\0\0\0\0\0\x11\
    \0\x01\0\0\0\0\0\x02h\0\0\x09\0\0\0\x01\
    c\0\0\0\0\0\0\0\
    \0\0\0\x01\0\0\0\0\0\0\0\0\0\0\0\0";

/// The file of a trader with a printer and a link to the trader B outside.
pub const LINKED: &[u8] = b"address h 9\ntrader A\ntype Printer IDL:Printer:1.0\n\
    offer Printer ref:IDL:Printer:1.0,h,9,p1\n\
    link next ref:IDL:L:1.0,o,7,B/L ref:IDL:R:1.0,o,7,B/R always always\n";

/// A query for the printers under the identifier `q`.
pub const IDENTIFIED: &[u8] = b"GIOP\x01\0\0\0\0\0\0x\
    \0\0\0\0\0\0\0\x01\x01\0\0\0\0\0\0\x03\
    A/L\0\0\0\0\x06query\0\0\0\
    \0\0\0\0\0\0\0\x08Printer\0\
    \0\0\0\x01\0\0\0\0\0\0\0\x01\0\0\0\0\
    \0\0\0\x01\0\0\0\x0brequest_id\0\0\
    \0\0\0\x13\0\0\0\x0c\0\0\0\0\0\0\0\x0a\0\0\0\0\
    \0\0\0\x01q\0\0\0\
    \0\0\0\0\0\0\0\x0a";

/// The query as it is passed on to B: for all properties of a thousand offers, with four hops left, the link's rule and
/// one offer less to be returned than the trader's own thousand.
pub const PASSED_ON: &[u8] = b"GIOP\x01\0\0\0\0\0\x01\x40\
    \0\0\0\0\0\0\0\x01\x01\0\0\0\0\0\0\x03\
    B/L\0\0\0\0\x06query\0\0\0\
    \0\0\0\0\0\0\0\x08Printer\0\
    \0\0\0\x01\0\0\0\0\0\0\0\x01\0\0\0\0\
    \0\0\0\x04\0\0\0\x0brequest_id\0\0\
    \0\0\0\x13\0\0\0\x0c\0\0\0\0\0\0\0\x0a\0\0\0\0\
    \0\0\0\x01q\0\0\0\
    \0\0\0\x0ahop_count\0\0\0\
    \0\0\0\x05\0\0\0\x04\
    \0\0\0\x11link_follow_rule\0\0\0\0\
    \0\0\0\x11\0\0\0s\0\0\0\0\
    \0\0\0(IDL:omg.org/CosTrading/FollowOption:1.0\0\
    \0\0\0\x0dFollowOption\0\0\0\0\
    \0\0\0\x03\
    \0\0\0\x0blocal_only\0\0\
    \0\0\0\x0cif_no_local\0\
    \0\0\0\x07always\0\0\
    \0\0\0\x02\
    \0\0\0\x0creturn_card\0\
    \0\0\0\x05\0\0\x03\xe7\
    \0\0\0\x02\0\0\x03\xe8";

/// The same as B passes it on to this server, with three hops left.
pub const PASSED_BACK: &[u8] = b"GIOP\x01\0\0\0\0\0\x01\x28\
    \0\0\0\0\0\0\0\x01\x01\0\0\0\0\0\0\x03\
    A/L\0\0\0\0\x06query\0\0\0\
    \0\0\0\0\0\0\0\x08Printer\0\
    \0\0\0\x01\0\0\0\0\0\0\0\x01\0\0\0\0\
    \0\0\0\x03\0\0\0\x0brequest_id\0\0\
    \0\0\0\x13\0\0\0\x0c\0\0\0\0\0\0\0\x0a\0\0\0\0\
    \0\0\0\x01q\0\0\0\
    \0\0\0\x0ahop_count\0\0\0\
    \0\0\0\x05\0\0\0\x03\
    \0\0\0\x11link_follow_rule\0\0\0\0\
    \0\0\0\x11\0\0\0s\0\0\0\0\
    \0\0\0(IDL:omg.org/CosTrading/FollowOption:1.0\0\
    \0\0\0\x0dFollowOption\0\0\0\0\
    \0\0\0\x03\
    \0\0\0\x0blocal_only\0\0\
    \0\0\0\x0cif_no_local\0\
    \0\0\0\x07always\0\0\
    \0\0\0\x02\
    \0\0\0\x02\0\0\x03\xe8";

/// Its reply: no offers.
pub const FOUND_NONE: &[u8] = b"GIOP\x01\0\0\x01\0\0\0 \
    \0\0\0\0\0\0\0\x01\0\0\0\0\0\0\0\0\
    \0\0\0\x01\0\0\0\0\0\0\0\0\0\0\0\0";

/// B's reply, with one offer.
pub const THEIRS: &[u8] = b"GIOP\x01\0\0\x01\0\0\0X\
    \0\0\0\0\0\0\0\x01\0\0\0\0\0\0\0\x01\
    \0\0\0\x10IDL:Printer:\
    1.0\0\0\0\0\x01\0\0\0\0\0\0\0\x12\
    \0\x01\0\0\0\0\0\x02o\0\0\x07\0\0\0\x02\
    p3\0\0\0\0\0\0\0\0\0\x01\0\0\0\0\
    \0\0\0\0\0\0\0\0";

/// The reply to the query: the own offer, and B's behind it.
pub const FOUND_BOTH: &[u8] = b"GIOP\x01\0\0\x01\0\0\0\x90\
    \0\0\0\0\0\0\0\x01\0\0\0\0\0\0\0\x02\
    \0\0\0\x10IDL:Printer:\
    1.0\0\0\0\0\x01\0\0\0\0\0\0\0\x12\
    \0\x01\0\0\0\0\0\x02h\0\0\x09\0\0\0\x02\
    p1\0\0\0\0\0\0\0\0\0\x10IDL:\
    Printer:1.0\0\0\0\0\x01\
    \0\0\0\0\0\0\0\x12\0\x01\0\0\0\0\0\x02\
    o\0\0\x07\0\0\0\x02p3\0\0\0\0\0\0\
    \0\0\0\x01\0\0\0\0\0\0\0\0\0\0\0\0";
