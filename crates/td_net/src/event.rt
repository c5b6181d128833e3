//! What comes to a network, and why it is refused.

use td_cdr::{Boxed, Shared};
use td_ops::{Change, Query};
use td_value::Any;

/// What comes to a network. Traders and calls are counted from 0. Large parts stand in blocks of their own; contracts
/// see the parts.
#[derive(Drop)]
pub enum Event {
    /// A change comes to a trader.
    Change {
        trader: usize,
        change: Boxed<Change>,
    },
    /// A query is asked of a trader: its call is opened, and delivered at once.
    Ask {
        trader: usize,
        query: Shared<Query>,
    },
    /// A call that was sent comes to its trader.
    Deliver {
        call: usize,
    },
    /// The value that a call waits for, or that there is none.
    Value {
        call: usize,
        value: Option<Boxed<Any>>,
    },
    /// What a call has ended with is handed to its caller.
    Answer {
        call: usize,
    },
    /// A call is lost, whatever its state: its caller is handed that it failed, and it goes on.
    Lose {
        call: usize,
    },
}

/// Why an event isn't taken.
#[derive(Clone, Copy, Debug, PartialEq, Eq)]
pub enum NetFault {
    /// There is no trader of this number.
    NoTrader,
    /// There is no call of this number.
    NoCall,
    /// The call isn't in the state that the event needs.
    WrongState,
    /// Memory ran out, for this event or for one before.
    Memory,
}

/// Where a call stands.
#[derive(Clone, Copy, Debug, PartialEq, Eq)]
pub enum CallState {
    /// It hasn't come to its trader.
    Sent,
    /// Its visit was about to go on when memory ran out.
    Running,
    /// Its visit waits for the call of this number.
    Waiting(usize),
    /// Its visit waits for a value.
    Evaluating,
    /// It has its answer.
    Ended,
}
