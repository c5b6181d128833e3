//! Why a value could not be read.

ghost use Rattle.std.specs.Prelude.{◌≡◌};
ghost use Rattle.td_cdr.specs.declared.value_fault.ValueFault.TheVariants.{Cdr, Memory as memory};

use crate::fault::CdrFault;
use crate::memory::Memory;
use thiserror::Error;

/// Why a TypeCode, a value or a reference could not be read. `Unsupported` tells the kind, each other
/// one the place in the message.
#[derive(Clone, Copy, Debug, Error, PartialEq, Eq)]
pub enum ValueFault {
    /// The bytes spell no value of CDR.
    #[error("{0}")]
    Cdr(CdrFault),
    /// No kind of TypeCode has this number.
    #[error("no TypeCode has the kind at byte {0}")]
    BadKind(u32),
    /// A number, a length or a kind that may not stand there.
    #[error("the value at byte {0} may not stand there")]
    BadValue(u32),
    /// A kind that this project leaves out.
    #[error("TypeCodes of kind {0} are not supported")]
    Unsupported(u32),
    /// More than 16 levels of TypeCodes and anys.
    #[error("the TypeCode at byte {0} is too deep in others")]
    Depth(u32),
    /// An indirection that leads to no TypeCode which began before it in the same outermost one
    /// (CORBA, General Inter-ORB Protocol, "TypeCode").
    #[error("the indirection at byte {0} leads to no TypeCode before it")]
    Indirection(u32),
    /// Out of memory.
    #[error("there is no memory left")]
    Memory,
}

impl From<CdrFault> for ValueFault {
    ghost from_gives = { λ c e. e ≡ Cdr c };

    fn from(fault: CdrFault) -> ValueFault {
        ValueFault::Cdr(fault)
    }
}

impl From<Memory> for ValueFault {
    ghost from_gives = { λ _ e. e ≡ memory };

    fn from(_memory: Memory) -> ValueFault {
        ValueFault::Memory
    }
}
