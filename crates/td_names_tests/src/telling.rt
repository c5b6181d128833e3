//! Answers as words, each with a blank in front.

use crate::words::OUTSIDE_ID;
use std::alloc::Global;
use td_cdr::Memory;
use td_ior::{Iiop, iiop_of};
use td_names::{
    NameAnswer, NameBinding, NameComponent, NameException, NameRefusal, NameReply, context_id,
};
use td_typecode::Ior;

/// A word.
pub(crate) fn put(content: &mut Vec<u8>, word: &str) -> Result<(), Memory> {
    content.push(b' ')?;
    content.extend_from_slice(word.as_bytes())?;
    Ok(())
}

/// A number, in decimal.
pub(crate) fn put_number(alloc: Global, content: &mut Vec<u8>, number: u64) -> Result<(), Memory> {
    let digits = number.to_string(alloc)?;
    put(content, digits.as_str())
}

/// What a call came to.
pub(crate) fn put_answer(
    alloc: Global,
    content: &mut Vec<u8>,
    answer: &NameAnswer,
) -> Result<(), Memory> {
    match answer {
        NameAnswer::Done(reply) => put_reply(alloc, content, reply),
        NameAnswer::User(exception) => put_exception(alloc, content, exception),
        NameAnswer::System(refusal) => put(content, refusal_word(*refusal)),
    }
}

fn put_reply(alloc: Global, content: &mut Vec<u8>, reply: &NameReply) -> Result<(), Memory> {
    match reply {
        NameReply::Nothing => put(content, "done"),
        NameReply::Object(object) => put_reference(alloc, content, object),
        NameReply::Bindings(bindings) => put_bindings(content, bindings.as_slice()),
    }
}

fn put_exception(
    alloc: Global,
    content: &mut Vec<u8>,
    exception: &NameException,
) -> Result<(), Memory> {
    match exception {
        NameException::NotFound { why, rest } => {
            put_not_found(alloc, content, *why, rest.as_slice())
        }
        NameException::CannotProceed { context, rest } => {
            put_cannot_proceed(alloc, content, context, rest.as_slice())
        }
        NameException::InvalidName => put(content, "InvalidName"),
        NameException::AlreadyBound => put(content, "AlreadyBound"),
        NameException::NotEmpty => put(content, "NotEmpty"),
    }
}

fn put_not_found(
    alloc: Global,
    content: &mut Vec<u8>,
    why: u32,
    rest: &[NameComponent],
) -> Result<(), Memory> {
    put(content, "NotFound")?;
    put_number(alloc, content, u64::from(why))?;
    put_name(content, rest)
}

fn put_cannot_proceed(
    alloc: Global,
    content: &mut Vec<u8>,
    context: &Ior,
    rest: &[NameComponent],
) -> Result<(), Memory> {
    put(content, "CannotProceed")?;
    put_reference(alloc, content, context)?;
    put_name(content, rest)
}

fn refusal_word(refusal: NameRefusal) -> &'static str {
    match refusal {
        NameRefusal::ImpLimit => "IMP_LIMIT",
        NameRefusal::NoImplement => "NO_IMPLEMENT",
        NameRefusal::ObjectNotExist => "OBJECT_NOT_EXIST",
    }
}

fn put_name(content: &mut Vec<u8>, name: &[NameComponent]) -> Result<(), Memory> {
    let mut mark = b' ';
    for component in name {
        content.push(mark)?;
        put_component(content, component)?;
        mark = b'/';
    }
    Ok(())
}

fn put_component(content: &mut Vec<u8>, component: &NameComponent) -> Result<(), Memory> {
    content.extend_from_slice(component.id.as_slice())?;
    if !component.kind.is_empty() {
        content.push(b'.')?;
        content.extend_from_slice(component.kind.as_slice())?;
    }
    Ok(())
}

fn put_bindings(content: &mut Vec<u8>, bindings: &[NameBinding]) -> Result<(), Memory> {
    put(content, "bindings")?;
    for binding in bindings {
        content.push(b' ')?;
        put_component(content, &binding.name)?;
        let mark = if binding.context { b':' } else { b';' };
        content.push(mark)?;
    }
    Ok(())
}

/// A reference: `KEY@HOST:PORT`, with `context ` in front where its id is that of a context, or `nil`.
fn put_reference(alloc: Global, content: &mut Vec<u8>, reference: &Ior) -> Result<(), Memory> {
    if reference.id.as_slice() == context_id() {
        put(content, "context")?;
    } else if reference.id.as_slice() != OUTSIDE_ID {
        return put(content, "nil");
    }
    match iiop_of(alloc, reference) {
        Ok(profile) => put_profile(alloc, content, &profile),
        Err(_) => put(content, "none"),
    }
}

fn put_profile(alloc: Global, content: &mut Vec<u8>, profile: &Iiop) -> Result<(), Memory> {
    content.push(b' ')?;
    content.extend_from_slice(profile.key.as_slice())?;
    content.push(b'@')?;
    content.extend_from_slice(profile.host.as_slice())?;
    content.push(b':')?;
    let port = u64::from(profile.port).to_string(alloc)?;
    content.extend_from_slice(port.as_bytes())?;
    Ok(())
}
