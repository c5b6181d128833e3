//! The shapes of results.

use std::alloc::Global;
use td_cdr::{Memory, Twin};

/// What a result is made of. A client reads the items of `next_n` as offers, so `IdBatch` is the shape
/// of no operation; an iterator over ids answers it.
#[derive(Clone, Copy, PartialEq, Eq)]
pub enum Shape {
    Nothing,
    Id,
    Number,
    Truth,
    Reference,
    Follow,
    Stem,
    Incarnation,
    Names,
    Offer,
    Link,
    Proxy,
    Typed,
    Found,
    Ids,
    Batch,
    IdBatch,
}
