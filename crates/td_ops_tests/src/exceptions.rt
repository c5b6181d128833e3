//! User exceptions, by their names.

use std::alloc::Global;
use td_cdr::{Boxed, List, Memory, Octets, Text};
use td_ops::{Outcome, UserException};
use td_value::{
    Any, FollowOption, Ior, Policy, Profile, PropStruct, Property, PropertyMode, TypeCode, Value,
};

/// The exception of a name, with the members that its line has.
pub fn exception(alloc: Global, word: &str) -> Result<Boxed<Outcome>, Memory> {
    match word {
        "NotImplemented" | "DefaultFollowTooPermissive" | "LimitingFollowTooPermissive" =>
            Boxed::new(alloc, Outcome::User(of_none(word))),
        "PolicyTypeMismatch" | "InvalidPolicyValue" => of_policy(alloc, word),
        "DPEvalFailure" => of_failure(alloc),
        "MissingMandatoryProperty"
        | "ReadonlyDynamicProperty"
        | "MandatoryProperty"
        | "ReadonlyProperty"
        | "HasSubTypes" => of_two(alloc, word, b"a", b"bcd"),
        "PropertyTypeMismatch" => of_property(alloc),
        "IllegalTraderName" | "UnknownTraderName" => of_path(alloc, word),
        "InvalidLookupRef" | "InvalidObjectRef" | "InterfaceTypeMismatch" => of_reference(
            alloc, word,
        ),
        "ReposInterfaceTypeMismatch" => of_four(alloc, word, b"bcd", b"ef", b"ghij"),
        "ValueTypeRedefinition" => of_four(alloc, word, b"Cost", b"bcd", b"Cost"),
        _ => of_one(alloc, word, b"a"),
    }
}

/// An exception without members, or with two rules.
fn of_none(word: &str) -> UserException {
    match word {
        "NotImplemented" => UserException::NotImplemented,
        "DefaultFollowTooPermissive" => UserException::DefaultFollowTooPermissive {
            def_pass_on_follow_rule: FollowOption::Always,
            limiting_follow_rule: FollowOption::IfNoLocal,
        },
        _ => UserException::LimitingFollowTooPermissive {
            limiting_follow_rule: FollowOption::Always,
            max_link_follow_policy: FollowOption::IfNoLocal,
        },
    }
}

/// An exception in which one text is to be set.
fn of_one(alloc: Global, word: &str, name: &[u8]) -> Result<Boxed<Outcome>, Memory> {
    let name = Text::from_slice(alloc, name)?;
    Boxed::new(alloc, Outcome::User(named(word, name)))
}

fn named(word: &str, name: Text) -> UserException {
    match word {
        "IllegalServiceType" => UserException::IllegalServiceType { service_type: name },
        "UnknownServiceType" => UserException::UnknownServiceType { service_type: name },
        "IllegalPropertyName" => UserException::IllegalPropertyName { name },
        "DuplicatePropertyName" => UserException::DuplicatePropertyName { name },
        "IllegalConstraint" => UserException::IllegalConstraint { constraint: name },
        "IllegalOfferId" => UserException::IllegalOfferId { id: name },
        "UnknownOfferId" => UserException::UnknownOfferId { id: name },
        "DuplicatePolicyName" => UserException::DuplicatePolicyName { name },
        "IllegalPreference" => UserException::IllegalPreference { preference: name },
        "IllegalPolicyName" => UserException::IllegalPolicyName { name },
        "UnknownPropertyName" => UserException::UnknownPropertyName { name },
        "ProxyOfferId" => UserException::ProxyOfferId { id: name },
        "NoMatchingOffers" => UserException::NoMatchingOffers { constraint: name },
        _ => named_above(word, name),
    }
}

/// The exceptions of links, of proxy offers and of the repository of types.
fn named_above(word: &str, name: Text) -> UserException {
    match word {
        "IllegalLinkName" => UserException::IllegalLinkName { name },
        "UnknownLinkName" => UserException::UnknownLinkName { name },
        "DuplicateLinkName" => UserException::DuplicateLinkName { name },
        "IllegalRecipe" => UserException::IllegalRecipe { recipe: name },
        "NotProxyOfferId" => UserException::NotProxyOfferId { id: name },
        "ServiceTypeExists" => UserException::ServiceTypeExists { name },
        "AlreadyMasked" => UserException::AlreadyMasked { name },
        "NotMasked" => UserException::NotMasked { name },
        _ => UserException::DuplicateServiceTypeName { name },
    }
}

fn number(number: u32) -> Any {
    Any {
        code: TypeCode::ULong,
        value: Value::ULong(number),
    }
}

/// An exception of two texts.
fn of_two(
    alloc: Global,
    word: &str,
    service_type: &[u8],
    name: &[u8],
) -> Result<Boxed<Outcome>, Memory> {
    let service_type = Text::from_slice(alloc, service_type)?;
    let name = Text::from_slice(alloc, name)?;
    let exception = match word {
        "MissingMandatoryProperty" => UserException::MissingMandatoryProperty {
            service_type,
            name,
        },
        "ReadonlyDynamicProperty" => UserException::ReadonlyDynamicProperty { service_type, name },
        "MandatoryProperty" => UserException::MandatoryProperty { service_type, name },
        "ReadonlyProperty" => UserException::ReadonlyProperty { service_type, name },
        _ => UserException::HasSubTypes {
            the_type: service_type,
            sub_type: name,
        },
    };
    Boxed::new(alloc, Outcome::User(exception))
}

/// An exception of a policy.
fn of_policy(alloc: Global, word: &str) -> Result<Boxed<Outcome>, Memory> {
    let policy = Policy {
        name: Text::from_slice(alloc, b"Cost")?,
        value: number(7),
    };
    let policy = Boxed::new(alloc, policy)?;
    let exception = match word {
        "PolicyTypeMismatch" => UserException::PolicyTypeMismatch { policy },
        _ => UserException::InvalidPolicyValue { policy },
    };
    Boxed::new(alloc, Outcome::User(exception))
}

/// PropertyTypeMismatch.
fn of_property(alloc: Global) -> Result<Boxed<Outcome>, Memory> {
    let property = Property {
        name: Text::from_slice(alloc, b"Cost")?,
        value: number(7),
    };
    let property = Boxed::new(alloc, property)?;
    let service_type = Text::from_slice(alloc, b"a")?;
    let exception = UserException::PropertyTypeMismatch {
        service_type,
        property,
    };
    Boxed::new(alloc, Outcome::User(exception))
}

/// DPEvalFailure.
fn of_failure(alloc: Global) -> Result<Boxed<Outcome>, Memory> {
    let extra_info = Boxed::new(alloc, number(9))?;
    let returned_type = Boxed::new(alloc, TypeCode::ULong)?;
    let exception = UserException::DPEvalFailure {
        name: Text::from_slice(alloc, b"a")?,
        returned_type,
        extra_info,
    };
    Boxed::new(alloc, Outcome::User(exception))
}

/// An exception of a trader's name.
fn of_path(alloc: Global, word: &str) -> Result<Boxed<Outcome>, Memory> {
    let mut name = List::new(alloc);
    name.push(Text::from_slice(alloc, b"north")?)?;
    name.push(Text::from_slice(alloc, b"east")?)?;
    let exception = match word {
        "IllegalTraderName" => UserException::IllegalTraderName { name },
        _ => UserException::UnknownTraderName { name },
    };
    Boxed::new(alloc, Outcome::User(exception))
}

/// The reference of a Lookup.
pub fn lookup(alloc: Global) -> Result<Ior, Memory> {
    let mut profiles = List::new(alloc);
    profiles.push(Profile {
        tag: 0,
        octets: Octets::from_slice(alloc, b"\x00\x01\x00")?,
    })?;
    let id = Text::from_slice(alloc, b"IDL:omg.org/CosTrading/Lookup:1.0")?;
    Ok(Ior { id, profiles })
}

/// An exception of a reference.
fn of_reference(alloc: Global, word: &str) -> Result<Boxed<Outcome>, Memory> {
    let service_type = Text::from_slice(alloc, b"a")?;
    let reference = lookup(alloc)?;
    let exception = match word {
        "InvalidLookupRef" => UserException::InvalidLookupRef { target: reference },
        "InvalidObjectRef" => UserException::InvalidObjectRef { reference },
        _ => UserException::InterfaceTypeMismatch {
            service_type,
            reference,
        },
    };
    Boxed::new(alloc, Outcome::User(exception))
}

/// An exception of the repository of types with four texts, of which the first is `a`.
fn of_four(
    alloc: Global,
    word: &str,
    second: &[u8],
    third: &[u8],
    fourth: &[u8],
) -> Result<Boxed<Outcome>, Memory> {
    let first = Text::from_slice(alloc, b"a")?;
    let second = Text::from_slice(alloc, second)?;
    let third = Text::from_slice(alloc, third)?;
    let fourth = Text::from_slice(alloc, fourth)?;
    let exception = match word {
        "ReposInterfaceTypeMismatch" => UserException::ReposInterfaceTypeMismatch {
            base_service: first,
            base_if: second,
            derived_service: third,
            derived_if: fourth,
        },
        _ => UserException::ValueTypeRedefinition {
            type_1: first,
            definition_1: declared(alloc, second)?,
            type_2: third,
            definition_2: declared(alloc, fourth)?,
        },
    };
    Boxed::new(alloc, Outcome::User(exception))
}

fn declared(alloc: Global, name: Text) -> Result<Boxed<PropStruct>, Memory> {
    let declared = PropStruct {
        name,
        value_type: TypeCode::ULong,
        mode: PropertyMode::Readonly,
    };
    Boxed::new(alloc, declared)
}
