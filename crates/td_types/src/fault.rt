//! Why the repository refuses a call.

ghost use Rattle.std.specs.Prelude.{◌≡◌};
ghost use Rattle.td_types.specs.declared.fault.TypesFault.TheVariants.{Memory as memory};

use td_cdr::{Boxed, Memory, Text};
use td_value::PropStruct;

/// An exception of the type repository, with its members (interface
/// CosTradingRepos::ServiceTypeRepository, and the exceptions of CosTrading that it raises).
#[derive(Drop)]
pub enum RepoFault {
    /// The text is no name of a service type.
    IllegalServiceType(Text),
    /// No type has this name.
    UnknownServiceType(Text),
    /// A type has this name already.
    ServiceTypeExists(Text),
    /// The text is no name of a property.
    IllegalPropertyName(Text),
    /// A second property has this name.
    DuplicatePropertyName(Text),
    /// The supertype stands twice.
    DuplicateServiceTypeName(Text),
    /// The new type's interface doesn't conform to that of a supertype.
    InterfaceTypeMismatch {
        base_service: Text,
        base_if: Text,
        derived_service: Text,
        derived_if: Text,
    },
    /// Two definitions of a property don't agree.
    ValueTypeRedefinition {
        type_1: Text,
        definition_1: Boxed<PropStruct>,
        type_2: Text,
        definition_2: Boxed<PropStruct>,
    },
    /// The type has a subtype.
    HasSubTypes {
        the_type: Text,
        sub_type: Text,
    },
    /// The type is masked.
    AlreadyMasked(Text),
    /// The type isn't masked.
    NotMasked(Text),
}

/// Why a call of the repository is refused.
#[derive(Drop)]
pub enum TypesFault {
    User(RepoFault),
    /// A limit on types would be passed.
    Full,
    /// Out of memory.
    Memory,
}

impl From<Memory> for TypesFault {
    ghost from_gives = { λ _ e. e ≡ memory };

    fn from(_memory: Memory) -> TypesFault {
        TypesFault::Memory
    }
}
