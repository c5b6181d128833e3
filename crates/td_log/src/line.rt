//! What a line of a log records.

use crate::message::{Recorded, ReplyForm};
use td_cdr::{Boxed, Shared};
use td_ops::{AddLink, Change, Look, Query};
use td_value::Any;

/// What a line of a log records. Traders and calls are counted from 0. Large parts stand in blocks of their own;
/// contracts see the parts.
#[derive(Drop)]
pub enum Line {
    /// A change of a trader, and its reply.
    Change {
        trader: usize,
        form: ReplyForm,
        change: Boxed<Change>,
        reply: Recorded,
    },
    /// A link that was added to a trader, and the reply.
    AddLink {
        trader: usize,
        form: ReplyForm,
        link: Boxed<AddLink>,
        reply: Recorded,
    },
    /// A look at a trader, and its reply.
    Look {
        trader: usize,
        form: ReplyForm,
        look: Boxed<Look>,
        reply: Recorded,
    },
    /// A query that was asked of a trader.
    Ask {
        trader: usize,
        form: ReplyForm,
        query: Shared<Query>,
    },
    /// The call came to its trader.
    Deliver {
        call: usize,
    },
    /// The value that the call waited for came, or that there is none.
    Value {
        call: usize,
        value: Option<Boxed<Any>>,
    },
    /// What the call had ended with was handed to its caller.
    Answer {
        call: usize,
    },
    /// The call was lost.
    Lose {
        call: usize,
    },
    /// The reply to the query of this call.
    Reply {
        call: usize,
        reply: Recorded,
    },
}
