//! The repository ids of user exceptions.

ghost use Rattle.std.specs.Prelude.{◌≡◌};
ghost use Rattle.td_exceptions.specs.Exceptions.{user_id};

use crate::exception::UserException;

/// The repository id of an exception: `IDL:omg.org/`, its scope, `/`, its name, `:1.0`. Takes no memory.
pub fn user_id(exception: &UserException) -> &'static [u8]
    ensures { result.now ≡ user_id exception.now }
{
    match exception {
        UserException::NotImplemented => b"IDL:omg.org/CosTrading/NotImplemented:1.0",
        UserException::IllegalServiceType { .. } =>
            b"IDL:omg.org/CosTrading/IllegalServiceType:1.0",
        UserException::UnknownServiceType { .. } =>
            b"IDL:omg.org/CosTrading/UnknownServiceType:1.0",
        UserException::IllegalPropertyName { .. } =>
            b"IDL:omg.org/CosTrading/IllegalPropertyName:1.0",
        UserException::DuplicatePropertyName { .. } =>
            b"IDL:omg.org/CosTrading/DuplicatePropertyName:1.0",
        UserException::PropertyTypeMismatch { .. } =>
            b"IDL:omg.org/CosTrading/PropertyTypeMismatch:1.0",
        UserException::MissingMandatoryProperty { .. } =>
            b"IDL:omg.org/CosTrading/MissingMandatoryProperty:1.0",
        UserException::ReadonlyDynamicProperty { .. } =>
            b"IDL:omg.org/CosTrading/ReadonlyDynamicProperty:1.0",
        UserException::IllegalConstraint { .. } => b"IDL:omg.org/CosTrading/IllegalConstraint:1.0",
        UserException::InvalidLookupRef { .. } => b"IDL:omg.org/CosTrading/InvalidLookupRef:1.0",
        UserException::IllegalOfferId { .. } => b"IDL:omg.org/CosTrading/IllegalOfferId:1.0",
        UserException::UnknownOfferId { .. } => b"IDL:omg.org/CosTrading/UnknownOfferId:1.0",
        UserException::DuplicatePolicyName { .. } =>
            b"IDL:omg.org/CosTrading/DuplicatePolicyName:1.0",
        UserException::IllegalPreference { .. } =>
            b"IDL:omg.org/CosTrading/Lookup/IllegalPreference:1.0",
        UserException::IllegalPolicyName { .. } =>
            b"IDL:omg.org/CosTrading/Lookup/IllegalPolicyName:1.0",
        UserException::PolicyTypeMismatch { .. } =>
            b"IDL:omg.org/CosTrading/Lookup/PolicyTypeMismatch:1.0",
        UserException::InvalidPolicyValue { .. } =>
            b"IDL:omg.org/CosTrading/Lookup/InvalidPolicyValue:1.0",
        UserException::InvalidObjectRef { .. } =>
            b"IDL:omg.org/CosTrading/Register/InvalidObjectRef:1.0",
        UserException::UnknownPropertyName { .. } =>
            b"IDL:omg.org/CosTrading/Register/UnknownPropertyName:1.0",
        UserException::InterfaceTypeMismatch { .. } =>
            b"IDL:omg.org/CosTrading/Register/InterfaceTypeMismatch:1.0",
        UserException::ProxyOfferId { .. } => b"IDL:omg.org/CosTrading/Register/ProxyOfferId:1.0",
        UserException::MandatoryProperty { .. } =>
            b"IDL:omg.org/CosTrading/Register/MandatoryProperty:1.0",
        UserException::ReadonlyProperty { .. } =>
            b"IDL:omg.org/CosTrading/Register/ReadonlyProperty:1.0",
        UserException::NoMatchingOffers { .. } =>
            b"IDL:omg.org/CosTrading/Register/NoMatchingOffers:1.0",
        UserException::IllegalTraderName { .. } =>
            b"IDL:omg.org/CosTrading/Register/IllegalTraderName:1.0",
        UserException::UnknownTraderName { .. } =>
            b"IDL:omg.org/CosTrading/Register/UnknownTraderName:1.0",
        UserException::IllegalLinkName { .. } => b"IDL:omg.org/CosTrading/Link/IllegalLinkName:1.0",
        UserException::UnknownLinkName { .. } => b"IDL:omg.org/CosTrading/Link/UnknownLinkName:1.0",
        UserException::DuplicateLinkName { .. } =>
            b"IDL:omg.org/CosTrading/Link/DuplicateLinkName:1.0",
        UserException::DefaultFollowTooPermissive { .. } =>
            b"IDL:omg.org/CosTrading/Link/DefaultFollowTooPermissive:1.0",
        UserException::LimitingFollowTooPermissive { .. } =>
            b"IDL:omg.org/CosTrading/Link/LimitingFollowTooPermissive:1.0",
        UserException::IllegalRecipe { .. } => b"IDL:omg.org/CosTrading/Proxy/IllegalRecipe:1.0",
        UserException::NotProxyOfferId { .. } =>
            b"IDL:omg.org/CosTrading/Proxy/NotProxyOfferId:1.0",
        UserException::DPEvalFailure { .. } => b"IDL:omg.org/CosTradingDynamic/DPEvalFailure:1.0",
        UserException::ServiceTypeExists { .. } =>
            b"IDL:omg.org/CosTradingRepos/ServiceTypeRepository/ServiceTypeExists:1.0",
        UserException::ReposInterfaceTypeMismatch { .. } =>
            b"IDL:omg.org/CosTradingRepos/ServiceTypeRepository/InterfaceTypeMismatch:1.0",
        UserException::HasSubTypes { .. } =>
            b"IDL:omg.org/CosTradingRepos/ServiceTypeRepository/HasSubTypes:1.0",
        UserException::AlreadyMasked { .. } =>
            b"IDL:omg.org/CosTradingRepos/ServiceTypeRepository/AlreadyMasked:1.0",
        UserException::NotMasked { .. } =>
            b"IDL:omg.org/CosTradingRepos/ServiceTypeRepository/NotMasked:1.0",
        UserException::ValueTypeRedefinition { .. } =>
            b"IDL:omg.org/CosTradingRepos/ServiceTypeRepository/ValueTypeRedefinition:1.0",
        UserException::DuplicateServiceTypeName { .. } =>
            b"IDL:omg.org/CosTradingRepos/ServiceTypeRepository/DuplicateServiceTypeName:1.0",
    }
}
