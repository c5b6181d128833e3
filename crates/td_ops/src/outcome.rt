//! What a call comes to: a result, a user exception or a system exception (OMG's Trading Object
//! Service; CORBA, chapter "Standard Exceptions").

use td_cdr::{Boxed, List, Octets, Text};
use td_exceptions::UserException;
use td_value::{
    FollowOption, IncarnationNumber, Ior, LinkInfo, Offer, OfferInfo, ProxyInfo, TypeStruct,
};

/// A system exception, of those that a trader raises.
#[derive(Clone, Copy, Debug, PartialEq, Eq)]
pub enum SystemKind {
    Marshal,
    NoImplement,
    BadOperation,
    ObjectNotExist,
    ImpLimit,
    NoMemory,
}

/// A result.
#[derive(Drop)]
pub enum Reply {
    Nothing,
    /// The id of an offer.
    Id(Text),
    Number(u32),
    Truth(bool),
    Reference(Ior),
    Follow(FollowOption),
    /// What the identifiers of a trader's queries begin with.
    Stem(Octets),
    Incarnation(IncarnationNumber),
    Names(List<Text>),
    Offer(OfferInfo),
    Link(LinkInfo),
    Proxy(Boxed<ProxyInfo>),
    Typed(TypeStruct),
    /// The answer to a query: the iterator, nil where nothing is left, has the offers behind these.
    Found {
        offers: List<Offer>,
        iterator: Ior,
        limits: List<Text>,
    },
    /// The ids of offers: the iterator, nil where nothing is left, has those behind these.
    Ids {
        ids: List<Text>,
        iterator: Ior,
    },
    /// Offers of an iterator, and whether some are left.
    Batch {
        more: bool,
        offers: List<Offer>,
    },
    /// Ids of an iterator, and whether some are left.
    IdBatch {
        more: bool,
        ids: List<Text>,
    },
}

/// The completion status of a call that wasn't done (CORBA, chapter "Standard Exceptions").
pub const COMPLETED_NO: u32 = 1;

/// The completion status of a call that may have been done.
pub const COMPLETED_MAYBE: u32 = 2;

/// What a call comes to.
#[derive(Drop)]
pub enum Outcome {
    Done(Reply),
    User(UserException),
    System {
        kind: SystemKind,
        minor: u32,
        /// Whether the call was done: 0 it was, 1 it wasn't, 2 it may have been.
        completion: u32,
    },
}

impl Outcome {
    ghost use Rattle.std.specs.Prelude.{◌≡◌};
    ghost use Rattle.td_ops.specs.declared.outcome.Outcome.TheVariants.{System};
    ghost use Rattle.td_ops.specs.declared.outcome.SystemKind.TheVariants.{NoMemory};

    /// NO_MEMORY of a call that wasn't done: its minor code is 0 (CORBA, chapter "Standard
    /// Exceptions").
    pub fn no_memory() -> Outcome
        ensures { result ≡ System NoMemory 0 1 }
    {
        Outcome::System {
            kind: SystemKind::NoMemory,
            minor: 0,
            completion: COMPLETED_NO,
        }
    }
}

/// What a client is told. Of a user exception that is its repository id alone.
#[derive(Drop)]
pub enum Answered {
    Done(Reply),
    User(Text),
    System {
        id: Text,
        minor: u32,
        completion: u32,
    },
}
