//! Why a call is refused.

ghost use Rattle.std.specs.Prelude.{◌≡◌, IfOk};
ghost use Rattle.td_exceptions.specs.declared.exception.UserException.TheVariants as user;
ghost use Rattle.td_register.specs.Causes.{refusal_outcome};
ghost use Rattle.td_register.specs.declared.refusal.Fault.TheVariants as fault;
ghost use Rattle.td_register.specs.declared.refusal.Refusal.TheVariants as refusal;

use std::alloc::Global;
use td_cdr::{Memory, Text, Twin};
use td_exceptions::UserException;
use td_ops::{COMPLETED_NO, Outcome, SystemKind};
use td_value::Ior;

/// Why a call is refused.
#[derive(Drop)]
pub enum Refusal {
    Raised(UserException),
    /// The trader doesn't support this: NO_IMPLEMENT.
    NotSupported,
    /// A limit would be passed: IMP_LIMIT.
    Limit,
}

/// Why a call isn't done.
#[derive(Drop)]
pub enum Fault {
    Refused(Refusal),
    /// Out of memory.
    Memory,
}

impl From<Memory> for Fault {
    ghost from_gives = { λ _ e. e ≡ fault.Memory };

    fn from(_memory: Memory) -> Fault {
        Fault::Memory
    }
}

/// An exception as the reason of a refusal.
pub fn raised(exception: UserException) -> Fault
    ensures { result ≡ fault.Refused (refusal.Raised exception) }
{
    Fault::Refused(Refusal::Raised(exception))
}

/// IllegalServiceType as the reason of a refusal.
pub fn illegal_type(service_type: Text) -> Fault
    ensures { result ≡ fault.Refused (refusal.Raised (user.IllegalServiceType service_type)) }
{
    raised(UserException::IllegalServiceType { service_type })
}

/// UnknownServiceType as the reason of a refusal.
pub fn unknown_type(service_type: Text) -> Fault
    ensures { result ≡ fault.Refused (refusal.Raised (user.UnknownServiceType service_type)) }
{
    raised(UserException::UnknownServiceType { service_type })
}

/// InvalidLookupRef as the reason of a refusal.
///
/// # Errors
///
/// `Memory` only when out of memory.
pub fn invalid_lookup(alloc: Global, target: &Ior) -> Result<Fault, Memory>
    ensures { IfOk result (λ f. f
        ≡ fault.Refused (refusal.Raised (user.InvalidLookupRef target.now))) }
{
    Ok(raised(UserException::InvalidLookupRef {
        target: target.copy(alloc)?,
    }))
}

/// The outcome of a call that is refused.
pub fn refusal_outcome(refusal: Refusal) -> Outcome
    ensures { result ≡ refusal_outcome refusal }
{
    match refusal {
        Refusal::Raised(exception) => Outcome::User(exception),
        Refusal::NotSupported => Outcome::System {
            kind: SystemKind::NoImplement,
            minor: 0,
            completion: COMPLETED_NO,
        },
        Refusal::Limit => Outcome::System {
            kind: SystemKind::ImpLimit,
            minor: 0,
            completion: COMPLETED_NO,
        },
    }
}
