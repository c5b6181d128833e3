//! What a visit was, item by item.

use crate::answer::SubAnswer;
use crate::fault::PeerFault;
use td_cdr::{Boxed, List, Text};
use td_ops::Outcome;
use td_value::Any;

/// Where a server listens, and the version of the profiles that it publishes. The host has at most 1,000 bytes and no
/// NUL.
#[derive(Drop)]
pub struct Address {
    pub host: Text,
    pub port: u16,
    /// The minor version of IIOP of the server's own references, 0 or 1.
    pub minor: u8,
}

/// What the visit of a query comes to.
#[derive(Drop)]
pub enum Visit {
    Answered {
        answer: SubAnswer,
        /// The trader's max_list at the visit's point.
        max_list: u32,
    },
    Refused(Boxed<Outcome>),
}

/// An item of a visit. Traders are counted from 0, a point is the number of changes that a trader had accepted.
pub enum TraceItem {
    /// A search began, with this mark.
    Search {
        trader: usize,
        point: u64,
        mark: u64,
    },
    /// The query's identifier was remembered, as this mark.
    Repeat {
        trader: usize,
        point: u64,
        mark: u64,
    },
    /// The query was refused.
    Refused {
        trader: usize,
        point: u64,
    },
    /// The query goes on along its path.
    Path {
        trader: usize,
        point: u64,
    },
    /// A dynamic property was evaluated.
    Evaluated(Boxed<Any>),
    /// The evaluator of a dynamic property has no IIOP profile.
    Unreachable,
    /// A trader outside answered.
    Outside(SubAnswer),
    /// A call outside failed.
    Failed(PeerFault),
    /// The search or the path ended.
    Leave,
}

// By hand, since a derived drop is written out at each exit, and proved again in each crate above.
impl Drop for TraceItem {
    fn drop(self) {
        match self {
            TraceItem::Search {
                trader: _trader,
                point: _point,
                mark: _mark,
            } => (),
            TraceItem::Repeat {
                trader: _trader,
                point: _point,
                mark: _mark,
            } => (),
            TraceItem::Refused {
                trader: _trader,
                point: _point,
            } => (),
            TraceItem::Path {
                trader: _trader,
                point: _point,
            } => (),
            TraceItem::Evaluated(_inner) => (),
            TraceItem::Unreachable => (),
            TraceItem::Outside(_inner) => (),
            TraceItem::Failed(_inner) => (),
            TraceItem::Leave => (),
        }
    }
}

/// The items of a visit, and of all visits in it, in order.
pub struct Trace {
    pub items: List<TraceItem>,
}

impl Drop for Trace {
    fn drop(self) {
        let Trace { items: _items } = self;
    }
}
