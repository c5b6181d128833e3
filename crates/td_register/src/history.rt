//! A trader's history.

ghost use Rattle.std.specs.Prelude.{◌≡◌};
ghost use Rattle.td_register.specs.Entries.{entry};

use crate::change_reply::ChangeReply;
use td_ops::Change;

/// An accepted change with its reply.
#[derive(Drop)]
pub struct Accepted {
    pub change: Change,
    pub reply: ChangeReply,
}

/// The change with its reply.
pub fn entry_of(change: Change, reply: ChangeReply) -> Accepted
    ensures { result ≡ entry change reply }
{
    Accepted { change, reply }
}
