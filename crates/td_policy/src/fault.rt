//! Why the policies of an importer are refused.

ghost use Rattle.std.specs.Prelude.{◌≡◌};
ghost use Rattle.td_policy.specs.declared.fault.PolicyFault.TheVariants.{Memory as memory};

use td_cdr::{Boxed, Memory, Text};
use td_value::Policy;

/// The exception that a list of policies is refused with, with its member (exceptions of CosTrading
/// and of interface CosTrading::Lookup). A policy stands in a block of its own, so that a refusal is
/// small; contracts see the policy.
#[derive(Drop)]
pub enum PolicyFault {
    /// An earlier policy has this name.
    DuplicatePolicyName(Text),
    /// The text is no name of a policy.
    IllegalPolicyName(Text),
    /// The policy's value isn't of the policy's type.
    PolicyTypeMismatch(Boxed<Policy>),
    /// The policy's value is of the right type, and may not stand there.
    InvalidPolicyValue(Boxed<Policy>),
    /// Out of memory.
    Memory,
}

impl From<Memory> for PolicyFault {
    ghost from_gives = { λ _ e. e ≡ memory };

    fn from(_memory: Memory) -> PolicyFault {
        PolicyFault::Memory
    }
}
