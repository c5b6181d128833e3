//! The replies of changes, as a trader's history keeps them.

ghost use Rattle.std.specs.Prelude.{◌≡◌, IfOk, true};
ghost use Rattle.td_ops.specs.declared.outcome.Reply.TheVariants as reply;
ghost use Rattle.td_register.specs.ChangeReplies.{answers_change};
ghost use Rattle.td_register.specs.Ids.{id_of};

use crate::ids::id_of;
use std::alloc::Global;
use std::marker::Model;
use td_cdr::{Memory, Octets, Twin};
use td_ops::Reply;
use td_value::{FollowOption, IncarnationNumber};

/// What a change may be answered with.
#[derive(Drop)]
enum Kind {
    Nothing,
    /// The number of an offer, which tells its id.
    Id(u32),
    Number(u32),
    Truth(bool),
    Follow(FollowOption),
    Stem(Octets),
    Incarnation(IncarnationNumber),
}

/// The reply of a change. A history has one for each change that was accepted: it takes 32 bytes, a [`Reply`], which
/// may be that of any operation, 160. An id takes no memory, since it is kept as the offer's number. Contracts see the
/// reply itself.
pub struct ChangeReply {
    kind: Kind,
}

// By hand, since a derived drop is written out at each exit, and proved again in each crate above.
impl Drop for ChangeReply {
    fn drop(self) {
        let ChangeReply { kind: _kind } = self;
    }
}

impl Model for ChangeReply {
    ghost use Rattle.std.specs.Coded.{codes};
    ghost use Rattle.td_typecode.specs.contracts.code.TypeCode as code;
    ghost use Rattle.td_typecode.specs.contracts.code.Value as value;
    ghost use Rattle.td_ops.specs.declared.outcome.Reply.{Reply};
    ghost use Rattle.td_register.specs.ChangeReplies.{reply_of};

    ghost Value = { Reply };

    ghost coded = { Prim.hlevel (codes, code.the_row.coded, value.the_row.coded) };

    ghost view = { λ r. reply_of r.kind };
}

impl ChangeReply {
    /// Nothing is answered.
    pub fn nothing() -> ChangeReply
        ensures { result ≡ reply.Nothing }
    {
        ChangeReply {
            kind: Kind::Nothing,
        }
    }

    /// The id of the offer of a number.
    pub fn id(number: u32) -> ChangeReply
        ensures { result ≡ reply.Id (id_of number) }
    {
        ChangeReply {
            kind: Kind::Id(number),
        }
    }

    /// A number that an attribute had.
    pub fn number(value: u32) -> ChangeReply
        ensures { result ≡ reply.Number value }
    {
        ChangeReply {
            kind: Kind::Number(value),
        }
    }

    /// A truth value that an attribute had.
    pub fn truth(value: bool) -> ChangeReply
        ensures { result ≡ reply.Truth value }
    {
        ChangeReply {
            kind: Kind::Truth(value),
        }
    }

    /// A rule for following links that an attribute had.
    pub fn follow(value: FollowOption) -> ChangeReply
        ensures { result ≡ reply.Follow value }
    {
        ChangeReply {
            kind: Kind::Follow(value),
        }
    }

    /// A stem that a trader had.
    pub fn stem(value: Octets) -> ChangeReply
        ensures { result ≡ reply.Stem value }
    {
        ChangeReply {
            kind: Kind::Stem(value),
        }
    }

    /// The incarnation of a type that was added.
    pub fn incarnation(value: IncarnationNumber) -> ChangeReply
        ensures { result ≡ reply.Incarnation value }
    {
        ChangeReply {
            kind: Kind::Incarnation(value),
        }
    }

    /// The reply as a client is told it.
    ///
    /// # Errors
    ///
    /// `Memory` only when out of memory.
    pub fn reply(&self, alloc: Global) -> Result<Reply, Memory>
        ensures same { IfOk result (λ r. r ≡ self.now) }
        ensures of_change { answers_change self.now ≡ true }
    {
        match &self.kind {
            Kind::Nothing => Ok(Reply::Nothing),
            Kind::Id(number) => Ok(Reply::Id(id_of(alloc, *number)?)),
            Kind::Number(value) => Ok(Reply::Number(*value)),
            Kind::Truth(value) => Ok(Reply::Truth(*value)),
            Kind::Follow(value) => Ok(Reply::Follow(*value)),
            Kind::Stem(value) => Ok(Reply::Stem(value.copy(alloc)?)),
            Kind::Incarnation(value) => Ok(Reply::Incarnation(value.copy(alloc)?)),
        }
    }
}
