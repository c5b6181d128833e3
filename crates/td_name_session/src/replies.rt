//! Where the replies of a session are written.

ghost use Rattle.std.specs.Prelude.{◌≡◌, ◌≤◌, [], IfOk};
ghost use Rattle.td_giop.specs.declared.header.TheConstants.{NEWEST_MINOR};
ghost use Rattle.td_name_session.specs.ReplyBytes.{locate_reply};

use crate::writing::write_location;
use std::alloc::Global;
use std::marker::Model;
use td_cdr::{Memory, Order, Writer};

/// How many bytes are reserved: NO_MEMORY and the reply of each change that is accepted fit in them. The longest is the
/// reference of a context with a host of 1,000 bytes.
const RESERVED: usize = 1300;

/// Where a session writes the reply to the message in front: 1,300 bytes are reserved. Contracts see the bytes of the
/// reply.
#[derive(Drop)]
pub struct Replies {
    /// A reply that takes no memory but for the writer's room.
    pub(crate) short: Writer,
    /// Any other reply.
    pub(crate) long: Writer,
    /// Whether the reply to the message in front is the long one.
    pub(crate) is_long: bool,
}

impl Model for Replies {
    ghost use Rattle.std.specs.Prelude.{ℕ, ◌≤◌, List, if◌then◌else◌};

    ghost Value = { List ℕ };

    ghost view = { λ r. if r.is_long then r.long.bytes else r.short.bytes };

    ghost invariant = { λ r. 1300 ≤ r.short.room };
}

impl Replies {
    /// A place for replies, which holds none.
    ///
    /// # Errors
    ///
    /// `Memory` only when out of memory.
    pub fn new(alloc: Global) -> Result<Replies, Memory>
        ensures { IfOk result (λ r. r ≡ []) }
    {
        let mut short = Writer::new(alloc, Order::Big);
        short.reserve(RESERVED)?;
        Ok(Replies {
            short,
            long: Writer::new(alloc, Order::Big),
            is_long: false,
        })
    }

    /// The bytes of the reply; none where the message gets no reply.
    pub fn bytes(&self) -> &[u8]
        ensures { result.now ≡ self.now }
    {
        if self.is_long {
            self.long.bytes()
        } else {
            self.short.bytes()
        }
    }

    /// Leaves no reply.
    pub(crate) fn clear(&mut self)
        ensures { self.new ≡ [] }
    {
        self.is_long = false;
        self.short.clear();
    }

    /// Leaves the LocateReply for a key, for which there is always room.
    pub(crate) fn locate(&mut self, order: Order, minor: u8, id: u32, live: bool)
        requires { minor ≤ NEWEST_MINOR }
        ensures { self.new ≡ locate_reply order minor id live }
    {
        self.is_long = false;
        write_location(&mut self.short, order, minor, id, live);
    }
}
