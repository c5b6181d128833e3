//! The structures of the trading service, and what is asked of the values in them.
#![tactic(auto)]

mod dynamic;
mod ends;
mod enumerations;
mod key;
mod sizes;
mod structures;
mod unions;

pub use dynamic::is_dynamic;
pub use enumerations::{FollowOption, HowManyProps, ListOption, PropertyMode};
pub use key::{Kind, ObjectKey};
pub use sizes::{any_size, offer_size, type_struct_size};
pub use structures::{
    DynamicProp, IncarnationNumber, LinkInfo, Offer, OfferInfo, Policy, PropStruct, Property,
    ProxyInfo, TypeStruct,
};
pub use td_cdr::ValueFault;
pub use td_typecode::{
    Any, Arm, Ior, LEVELS, Member, Mode, Profile, TypeCode, Value, anys_are_spelled,
    codes_are_spelled, read_any, read_ior, read_typecode, write_any, write_ior, write_typecode,
};
pub use unions::{SpecifiedProps, SpecifiedServiceTypes};
