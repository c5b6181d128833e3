//! Answers as words, each with a blank in front.

use std::alloc::Global;
use td_cdr::{Memory, Text};
use td_types::{Judgement, RepoFault, TypesFault, TypesReply};
use td_value::{PropStruct, PropertyMode, TypeCode, TypeStruct};

/// A word; `-` for the empty one.
pub(crate) fn put(content: &mut Vec<u8>, word: &[u8]) -> Result<(), Memory> {
    content.push(b' ')?;
    if word.is_empty() {
        content.push(b'-')?;
    }
    content.extend_from_slice(word)?;
    Ok(())
}

/// The text, or `none`.
pub(crate) fn put_text(content: &mut Vec<u8>, text: Option<&Text>) -> Result<(), Memory> {
    match text {
        None => put(content, b"none"),
        Some(text) => put(content, text.as_slice()),
    }
}

pub(crate) fn put_truth(content: &mut Vec<u8>, truth: Option<bool>) -> Result<(), Memory> {
    match truth {
        None => put(content, b"none"),
        Some(true) => put(content, b"yes"),
        Some(false) => put(content, b"no"),
    }
}

pub(crate) fn put_number(
    alloc: Global,
    content: &mut Vec<u8>,
    number: Option<u64>,
) -> Result<(), Memory> {
    match number {
        None => put(content, b"none"),
        Some(number) => {
            content.push(b' ')?;
            put_digits(alloc, content, number)
        }
    }
}

/// The number's digits, with nothing in front.
pub(crate) fn put_digits(alloc: Global, content: &mut Vec<u8>, number: u64) -> Result<(), Memory> {
    let digits = format!(in alloc; "{number}")?;
    content.extend_from_slice(digits.as_bytes())?;
    Ok(())
}

/// Names with `,` between them; `-` for none.
pub(crate) fn put_names(content: &mut Vec<u8>, names: &[Text]) -> Result<(), Memory> {
    if names.is_empty() {
        return put(content, b"");
    }
    for (place, name) in names.iter().enumerate() {
        content.push(if place == 0 { b' ' } else { b',' })?;
        content.extend_from_slice(name.as_slice())?;
    }
    Ok(())
}

/// Properties as `NAME:KIND:MODE` with `,` between them; `-` for none.
pub(crate) fn put_properties(
    content: &mut Vec<u8>,
    properties: &[PropStruct],
) -> Result<(), Memory> {
    if properties.is_empty() {
        return put(content, b"");
    }
    for (place, property) in properties.iter().enumerate() {
        content.push(if place == 0 { b' ' } else { b',' })?;
        content.extend_from_slice(property.name.as_slice())?;
        content.extend_from_slice(kind(&property.value_type))?;
        content.extend_from_slice(mode(property.mode))?;
    }
    Ok(())
}

fn kind(code: &TypeCode) -> &'static [u8] {
    match code {
        TypeCode::Alias { .. } => b":alias:",
        TypeCode::Str { .. } => b":string:",
        TypeCode::Long => b":long:",
        _ => b":other:",
    }
}

fn mode(mode: PropertyMode) -> &'static [u8] {
    match mode {
        PropertyMode::Normal => b"normal",
        PropertyMode::Readonly => b"readonly",
        PropertyMode::Mandatory => b"mandatory",
        PropertyMode::MandatoryReadonly => b"both",
    }
}

/// What a call of the type repository came to. Out of memory is told as such.
pub(crate) fn put_answer(
    alloc: Global,
    content: &mut Vec<u8>,
    answer: Result<TypesReply, TypesFault>,
) -> Result<(), Memory> {
    let put = match &answer {
        Ok(TypesReply::Added(incarnation)) => put_number(alloc, content, Some(*incarnation)),
        Ok(TypesReply::Removed) => put(content, b"removed"),
        Ok(TypesReply::Masked) => put(content, b"masked"),
        Ok(TypesReply::Unmasked) => put(content, b"unmasked"),
        Ok(TypesReply::Names(names)) => put_names(content, names.as_slice()),
        Ok(TypesReply::Described(description)) => put_description(alloc, content, description),
        Err(TypesFault::User(fault)) => put_fault(content, fault),
        Err(TypesFault::Full) => put(content, b"Full"),
        Err(TypesFault::Memory) => put(content, b"Memory"),
    };
    drop(answer);
    put
}

/// The interface, the properties, the supertypes, the mask and the two halves of the incarnation.
fn put_description(alloc: Global, content: &mut Vec<u8>, d: &TypeStruct) -> Result<(), Memory> {
    put(content, d.if_name.as_slice())?;
    put_properties(content, d.props.as_slice())?;
    put_names(content, d.super_types.as_slice())?;
    put_truth(content, Some(d.masked))?;
    put_number(alloc, content, Some(d.incarnation.high as u64))?;
    put_number(alloc, content, Some(d.incarnation.low as u64))
}

/// The exception's name and its members in order.
fn put_fault(content: &mut Vec<u8>, fault: &RepoFault) -> Result<(), Memory> {
    match fault {
        RepoFault::IllegalServiceType(name) => put_all(content, b"IllegalServiceType", &[name]),
        RepoFault::UnknownServiceType(name) => put_all(content, b"UnknownServiceType", &[name]),
        RepoFault::ServiceTypeExists(name) => put_all(content, b"ServiceTypeExists", &[name]),
        RepoFault::IllegalPropertyName(name) => put_all(content, b"IllegalPropertyName", &[name]),
        RepoFault::DuplicatePropertyName(name) => put_all(
            content,
            b"DuplicatePropertyName",
            &[name],
        ),
        RepoFault::DuplicateServiceTypeName(name) => {
            put_all(content, b"DuplicateServiceTypeName", &[name])
        }
        RepoFault::InterfaceTypeMismatch {
            base_service,
            base_if,
            derived_service,
            derived_if,
        } => put_all(
            content,
            b"InterfaceTypeMismatch",
            &[base_service, base_if, derived_service, derived_if],
        ),
        RepoFault::ValueTypeRedefinition {
            type_1,
            definition_1,
            type_2,
            definition_2,
        } => put_redefinition(
            content,
            type_1,
            definition_1.get(),
            type_2,
            definition_2.get(),
        ),
        RepoFault::HasSubTypes { the_type, sub_type } => {
            put_all(content, b"HasSubTypes", &[the_type, sub_type])
        }
        RepoFault::AlreadyMasked(name) => put_all(content, b"AlreadyMasked", &[name]),
        RepoFault::NotMasked(name) => put_all(content, b"NotMasked", &[name]),
    }
}

/// A word and the texts behind it.
pub(crate) fn put_all(content: &mut Vec<u8>, word: &[u8], members: &[&Text]) -> Result<(), Memory> {
    put(content, word)?;
    for member in members {
        put(content, member.as_slice())?;
    }
    Ok(())
}

fn put_redefinition(
    content: &mut Vec<u8>,
    type_1: &Text,
    definition_1: &PropStruct,
    type_2: &Text,
    definition_2: &PropStruct,
) -> Result<(), Memory> {
    put_all(content, b"ValueTypeRedefinition", &[type_1])?;
    put_properties(content, std::slice::from_ref(definition_1))?;
    put(content, type_2.as_slice())?;
    put_properties(content, std::slice::from_ref(definition_2))
}

/// Whether a call would be accepted, or the exception's name and what it tells beside the type's.
pub(crate) fn put_judgement(content: &mut Vec<u8>, judgement: Judgement<'_>) -> Result<(), Memory> {
    match judgement {
        Judgement::Accepted => put(content, b"accepted"),
        Judgement::IllegalServiceType => put(content, b"IllegalServiceType"),
        Judgement::UnknownServiceType => put(content, b"UnknownServiceType"),
        Judgement::HasSubTypes(sub_type) => put_all(content, b"HasSubTypes", &[sub_type]),
        Judgement::AlreadyMasked => put(content, b"AlreadyMasked"),
        Judgement::NotMasked => put(content, b"NotMasked"),
    }
}
