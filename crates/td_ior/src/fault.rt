//! Why a text, a reference or a key is not what it should be.

ghost use Rattle.std.specs.Prelude.{◌≡◌};
ghost use Rattle.td_ior.specs.declared.fault.IorFault.TheVariants.{Memory as memory};

use td_cdr::Memory;
use thiserror::Error;

/// Why a text is no reference, a reference has no IIOP profile, or octets are no key of an object.
#[derive(Clone, Copy, Debug, Error, PartialEq, Eq)]
pub enum IorFault {
    /// The text is in neither form of a reference.
    #[error("the text is no object reference")]
    NotIor,
    /// No profile of the reference is one of IIOP.
    #[error("the reference has no IIOP profile")]
    NoIiop,
    /// The octets are the key of no object.
    #[error("the octets are no object key")]
    BadKey,
    /// Out of memory.
    #[error("there is no memory left")]
    Memory,
}

impl From<Memory> for IorFault {
    ghost from_gives = { λ _ e. e ≡ memory };

    fn from(_memory: Memory) -> IorFault {
        IorFault::Memory
    }
}
