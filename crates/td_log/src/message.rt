//! What is told of the messages of a log.

ghost use Rattle.std.specs.Prelude.{◌≡◌, ◌≤◌};
ghost use Rattle.td_giop.specs.declared.header.TheConstants.{NEWEST_MINOR};
ghost use Rattle.td_log.specs.Forms.{minor_of};

use td_cdr::{Octets, Order};
use td_value::Ior;

/// A version of GIOP.
#[derive(Clone, Copy, Debug, PartialEq, Eq)]
pub enum Version {
    V1_0,
    V1_1,
}

impl Version {
    /// Its minor number.
    pub fn minor(self) -> u8
        ensures number { result ≡ minor_of self }
        ensures written { result ≤ NEWEST_MINOR }
    {
        match self {
            Version::V1_0 => 0,
            Version::V1_1 => 1,
        }
    }
}

/// What the reply to a Request has of it (CORBA, chapter on General Inter-ORB Protocol, "Reply Header").
#[derive(Clone, Copy, Debug, PartialEq, Eq)]
pub struct ReplyForm {
    /// The byte order.
    pub order: Order,
    pub version: Version,
    /// The number by which the client knows the Request.
    pub id: u32,
}

/// A recorded Reply.
#[derive(Drop)]
pub struct Recorded {
    /// The whole message.
    pub bytes: Octets,
    /// The reference of the iterator that its result has; nil where it has none.
    pub iterator: Ior,
}
