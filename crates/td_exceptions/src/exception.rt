//! The user exceptions of a trader (OMG's Trading Object Service, modules CosTrading, CosTradingDynamic
//! and CosTradingRepos).

use td_cdr::{Boxed, List, Text};
use td_value::{Any, FollowOption, Ior, Policy, PropStruct, Property, TypeCode};

/// A user exception, with its members in the order of their declaration: they hold the item at fault.
/// Those with a TypeCode stand in blocks of their own, since each result on its way has the place of
/// the largest exception.
pub enum UserException {
    NotImplemented,
    IllegalServiceType {
        service_type: Text,
    },
    UnknownServiceType {
        service_type: Text,
    },
    IllegalPropertyName {
        name: Text,
    },
    DuplicatePropertyName {
        name: Text,
    },
    PropertyTypeMismatch {
        service_type: Text,
        property: Boxed<Property>,
    },
    MissingMandatoryProperty {
        service_type: Text,
        name: Text,
    },
    ReadonlyDynamicProperty {
        service_type: Text,
        name: Text,
    },
    IllegalConstraint {
        constraint: Text,
    },
    InvalidLookupRef {
        target: Ior,
    },
    IllegalOfferId {
        id: Text,
    },
    UnknownOfferId {
        id: Text,
    },
    DuplicatePolicyName {
        name: Text,
    },
    IllegalPreference {
        preference: Text,
    },
    IllegalPolicyName {
        name: Text,
    },
    PolicyTypeMismatch {
        policy: Boxed<Policy>,
    },
    InvalidPolicyValue {
        policy: Boxed<Policy>,
    },
    InvalidObjectRef {
        reference: Ior,
    },
    UnknownPropertyName {
        name: Text,
    },
    InterfaceTypeMismatch {
        service_type: Text,
        reference: Ior,
    },
    ProxyOfferId {
        id: Text,
    },
    MandatoryProperty {
        service_type: Text,
        name: Text,
    },
    ReadonlyProperty {
        service_type: Text,
        name: Text,
    },
    NoMatchingOffers {
        constraint: Text,
    },
    IllegalTraderName {
        name: List<Text>,
    },
    UnknownTraderName {
        name: List<Text>,
    },
    IllegalLinkName {
        name: Text,
    },
    UnknownLinkName {
        name: Text,
    },
    DuplicateLinkName {
        name: Text,
    },
    DefaultFollowTooPermissive {
        def_pass_on_follow_rule: FollowOption,
        limiting_follow_rule: FollowOption,
    },
    LimitingFollowTooPermissive {
        limiting_follow_rule: FollowOption,
        max_link_follow_policy: FollowOption,
    },
    IllegalRecipe {
        recipe: Text,
    },
    NotProxyOfferId {
        id: Text,
    },
    DPEvalFailure {
        name: Text,
        returned_type: Boxed<TypeCode>,
        extra_info: Boxed<Any>,
    },
    ServiceTypeExists {
        name: Text,
    },
    /// The InterfaceTypeMismatch of the repository of service types.
    ReposInterfaceTypeMismatch {
        base_service: Text,
        base_if: Text,
        derived_service: Text,
        derived_if: Text,
    },
    HasSubTypes {
        the_type: Text,
        sub_type: Text,
    },
    AlreadyMasked {
        name: Text,
    },
    NotMasked {
        name: Text,
    },
    ValueTypeRedefinition {
        type_1: Text,
        definition_1: Boxed<PropStruct>,
        type_2: Text,
        definition_2: Boxed<PropStruct>,
    },
    DuplicateServiceTypeName {
        name: Text,
    },
}

// By hand, since a derived drop is written out at each exit, and proved again in each crate above.
impl Drop for UserException {
    fn drop(self) {
        match self {
            UserException::NotImplemented => (),
            UserException::IllegalServiceType {
                service_type: _service_type,
            } => (),
            UserException::UnknownServiceType {
                service_type: _service_type,
            } => (),
            UserException::IllegalPropertyName { name: _name } => (),
            UserException::DuplicatePropertyName { name: _name } => (),
            UserException::PropertyTypeMismatch {
                service_type: _service_type,
                property: _property,
            } => (),
            UserException::MissingMandatoryProperty {
                service_type: _service_type,
                name: _name,
            } => (),
            UserException::ReadonlyDynamicProperty {
                service_type: _service_type,
                name: _name,
            } => (),
            UserException::IllegalConstraint {
                constraint: _constraint,
            } => (),
            UserException::InvalidLookupRef { target: _target } => (),
            UserException::IllegalOfferId { id: _id } => (),
            UserException::UnknownOfferId { id: _id } => (),
            UserException::DuplicatePolicyName { name: _name } => (),
            UserException::IllegalPreference {
                preference: _preference,
            } => (),
            UserException::IllegalPolicyName { name: _name } => (),
            UserException::PolicyTypeMismatch { policy: _policy } => (),
            UserException::InvalidPolicyValue { policy: _policy } => (),
            UserException::InvalidObjectRef {
                reference: _reference,
            } => (),
            UserException::UnknownPropertyName { name: _name } => (),
            UserException::InterfaceTypeMismatch {
                service_type: _service_type,
                reference: _reference,
            } => (),
            UserException::ProxyOfferId { id: _id } => (),
            UserException::MandatoryProperty {
                service_type: _service_type,
                name: _name,
            } => (),
            UserException::ReadonlyProperty {
                service_type: _service_type,
                name: _name,
            } => (),
            UserException::NoMatchingOffers {
                constraint: _constraint,
            } => (),
            UserException::IllegalTraderName { name: _name } => (),
            UserException::UnknownTraderName { name: _name } => (),
            UserException::IllegalLinkName { name: _name } => (),
            UserException::UnknownLinkName { name: _name } => (),
            UserException::DuplicateLinkName { name: _name } => (),
            UserException::DefaultFollowTooPermissive {
                def_pass_on_follow_rule: _def_pass_on_follow_rule,
                limiting_follow_rule: _limiting_follow_rule,
            } => (),
            UserException::LimitingFollowTooPermissive {
                limiting_follow_rule: _limiting_follow_rule,
                max_link_follow_policy: _max_link_follow_policy,
            } => (),
            UserException::IllegalRecipe { recipe: _recipe } => (),
            UserException::NotProxyOfferId { id: _id } => (),
            UserException::DPEvalFailure {
                name: _name,
                returned_type: _returned_type,
                extra_info: _extra_info,
            } => (),
            UserException::ServiceTypeExists { name: _name } => (),
            UserException::ReposInterfaceTypeMismatch {
                base_service: _base_service,
                base_if: _base_if,
                derived_service: _derived_service,
                derived_if: _derived_if,
            } => (),
            UserException::HasSubTypes {
                the_type: _the_type,
                sub_type: _sub_type,
            } => (),
            UserException::AlreadyMasked { name: _name } => (),
            UserException::NotMasked { name: _name } => (),
            UserException::ValueTypeRedefinition {
                type_1: _type_1,
                definition_1: _definition_1,
                type_2: _type_2,
                definition_2: _definition_2,
            } => (),
            UserException::DuplicateServiceTypeName { name: _name } => (),
        }
    }
}
