//! How large a type or an offer may be.

/// How many properties a type has at most, and an offer.
pub const MOST_PROPERTIES: usize = 256;

/// How many encoded bytes the full description of a type has at most, and an offer.
pub const MOST_BYTES: usize = 1048576;
