//! A file, and messages of two visitors, as another program worked them out from the standards' rules (CORBA's GIOP and
//! CDR), and what they are answered.

/// The file of seven offers.
pub(crate) const OFFERS: &[u8] = b"address h 9\n\
    trader A\n\
    type P IDL:P:1.0\n\
    offer P ref:IDL:P:1.0,h,9,p1\n\
    offer P ref:IDL:P:1.0,h,9,p2\n\
    offer P ref:IDL:P:1.0,h,9,p3\n\
    offer P ref:IDL:P:1.0,h,9,p4\n\
    offer P ref:IDL:P:1.0,h,9,p5\n\
    offer P ref:IDL:P:1.0,h,9,p6\n\
    offer P ref:IDL:P:1.0,h,9,p7\n";

/// A file whose third line doesn't fit.
pub(crate) const BROKEN: &[u8] = b"address h 9\ntrader A\ntype P\n";

/// A query for at most two offers in the reply, and `next_n` of three for its iterator.
pub(crate) const QUERY_AND_NEXT: &[u8] = b"\
    GIOP\x01\0\0\0\0\0\0H\0\0\0\0\0\0\0\x01\x01\0\0\0\0\0\0\x03A/L\0\0\0\0\x06query\0\0\0\0\
    \0\0\0\0\0\0\x02P\0\0\0\0\0\0\x01\0\0\0\0\0\0\0\x01\0\0\0\0\0\0\0\0\0\0\0\0\0\0\0\x02GIO\
    P\x01\0\0\0\0\0\0,\0\0\0\0\0\0\0\x02\x01\0\0\0\0\0\0\x05A/I/1\0\0\0\0\0\0\x07next_n\0\0\
    \0\0\0\0\0\0\0\x03";

/// Two offers with the iterator, and three more, of which TRUE tells that some are left.
pub(crate) const FIRST_FIVE: &[u8] = b"\
    GIOP\x01\0\0\x01\0\0\0\xd0\0\0\0\0\0\0\0\x01\0\0\0\0\0\0\0\x02\0\0\0\x0aIDL:P:1.0\0\0\0\
    \0\0\0\x01\0\0\0\0\0\0\0\x12\0\x01\0\0\0\0\0\x02h\0\0\x09\0\0\0\x02p1\0\0\0\0\0\0\0\0\0\
    \x0aIDL:P:1.0\0\0\0\0\0\0\x01\0\0\0\0\0\0\0\x12\0\x01\0\0\0\0\0\x02h\0\0\x09\0\0\0\x02p2\
    \0\0\0\0\0\0\0\0\0)IDL:omg.org/CosTrading/OfferIterator:1.0\0\0\0\0\0\0\0\x01\0\0\0\0\0\
    \0\0\x15\0\x01\0\0\0\0\0\x02h\0\0\x09\0\0\0\x05A/I/1\0\0\0\0\0\0\0GIOP\x01\0\0\x01\0\0\0\
    \xb0\0\0\0\0\0\0\0\x02\0\0\0\0\x01\0\0\0\0\0\0\x03\0\0\0\x0aIDL:P:1.0\0\0\0\0\0\0\x01\0\
    \0\0\0\0\0\0\x12\0\x01\0\0\0\0\0\x02h\0\0\x09\0\0\0\x02p3\0\0\0\0\0\0\0\0\0\x0aIDL:P:1.0\
    \0\0\0\0\0\0\x01\0\0\0\0\0\0\0\x12\0\x01\0\0\0\0\0\x02h\0\0\x09\0\0\0\x02p4\0\0\0\0\0\0\
    \0\0\0\x0aIDL:P:1.0\0\0\0\0\0\0\x01\0\0\0\0\0\0\0\x12\0\x01\0\0\0\0\0\x02h\0\0\x09\0\0\0\
    \x02p5\0\0\0\0\0\0";

/// `next_n` of three for that iterator.
pub(crate) const NEXT: &[u8] = b"\
    GIOP\x01\0\0\0\0\0\0,\0\0\0\0\0\0\0\x03\x01\0\0\0\0\0\0\x05A/I/1\0\0\0\0\0\0\x07next_n\0\
    \0\0\0\0\0\0\0\0\x03";

/// The last two offers, of which FALSE tells that none are left.
pub(crate) const LAST_TWO: &[u8] = b"\
    GIOP\x01\0\0\x01\0\0\0|\0\0\0\0\0\0\0\x03\0\0\0\0\0\0\0\0\0\0\0\x02\0\0\0\x0aIDL:P:1.0\0\
    \0\0\0\0\0\x01\0\0\0\0\0\0\0\x12\0\x01\0\0\0\0\0\x02h\0\0\x09\0\0\0\x02p6\0\0\0\0\0\0\0\
    \0\0\x0aIDL:P:1.0\0\0\0\0\0\0\x01\0\0\0\0\0\0\0\x12\0\x01\0\0\0\0\0\x02h\0\0\x09\0\0\0\
    \x02p7\0\0\0\0\0\0";
