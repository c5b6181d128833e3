//! Why a call or a reply could not be read.

ghost use Rattle.std.specs.Prelude.{◌≡◌};
ghost use Rattle.td_ops.specs.Refusals.{fault_of};
ghost use Rattle.td_ops.specs.declared.fault.OpsFault.TheVariants.{Memory as memory};

use td_cdr::{CdrFault, Memory, ValueFault};
use thiserror::Error;

/// Why a call or a reply could not be read.
#[derive(Clone, Copy, Debug, Error, PartialEq, Eq)]
pub enum OpsFault {
    /// The object has no operation of this name.
    #[error("the object has no such operation")]
    BadOperation,
    /// The bytes spell no parameters or no result; the place counts from the message's first byte.
    #[error("the value at byte {0} is not what the operation has there")]
    Marshal(u32),
    /// A TypeCode of a kind that this project leaves out.
    #[error("a TypeCode of that kind is not supported")]
    NoImplement,
    /// Out of memory.
    #[error("there is no memory left")]
    Memory,
}

impl From<ValueFault> for OpsFault {
    ghost from_gives = { λ v e. e ≡ fault_of v };

    fn from(fault: ValueFault) -> OpsFault {
        match fault {
            ValueFault::Cdr(
                CdrFault::Short(place)
                | CdrFault::BadBoolean(place)
                | CdrFault::BadString(place)
                | CdrFault::TooLong(place),
            )
            | ValueFault::BadKind(place)
            | ValueFault::BadValue(place)
            | ValueFault::Depth(place)
            | ValueFault::Indirection(place) => OpsFault::Marshal(place),
            ValueFault::Unsupported(_) => OpsFault::NoImplement,
            ValueFault::Cdr(CdrFault::Memory) | ValueFault::Memory => OpsFault::Memory,
        }
    }
}

impl From<Memory> for OpsFault {
    ghost from_gives = { λ _ e. e ≡ memory };

    fn from(_memory: Memory) -> OpsFault {
        OpsFault::Memory
    }
}
