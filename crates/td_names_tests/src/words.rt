//! Names and references from words.

use std::alloc::Global;
use td_cdr::{List, Memory, Text};
use td_ior::{make_ior, nil};
use td_names::{NameAct, NameComponent};
use td_typecode::Ior;

/// The id of a reference that isn't the server's own.
pub(crate) const OUTSIDE_ID: &[u8] = b"IDL:X:1.0";

/// The first word and those behind it.
pub(crate) fn cut(words: &str) -> (&str, &str) {
    words.split_once(' ').unwrap_or((words, ""))
}

/// A ulong, in decimal.
pub(crate) fn ulong_of(digits: &str) -> u32 {
    digits.parse::<u32>().unwrap_or(0)
}

fn ushort_of(digits: &str) -> u16 {
    digits.parse::<u16>().unwrap_or(0)
}

/// A name: its components with `/` between them, each `ID` or `ID.KIND`; `-` has none. `COMPONENT*COUNT` stands so
/// often.
pub(crate) fn name(alloc: Global, word: &str) -> Result<List<NameComponent>, Memory> {
    let mut name = List::new(alloc);
    if word == "-" {
        return Ok(name);
    }
    for part in word.split('/') {
        put_component(alloc, &mut name, part)?;
    }
    Ok(name)
}

fn put_component(alloc: Global, name: &mut List<NameComponent>, word: &str) -> Result<(), Memory> {
    let (part, count) = word.split_once('*').unwrap_or((word, "1"));
    for _ in 0..ulong_of(count) {
        name.push(component(alloc, part)?)?;
    }
    Ok(())
}

fn component(alloc: Global, part: &str) -> Result<NameComponent, Memory> {
    let (id, kind) = part.split_once('.').unwrap_or((part, ""));
    let id = text(alloc, id)?;
    let kind = text(alloc, kind)?;
    Ok(NameComponent { id, kind })
}

/// A text; `TEXT^COUNT` stands so often.
fn text(alloc: Global, word: &str) -> Result<Text, Memory> {
    let (part, count) = word.split_once('^').unwrap_or((word, "1"));
    let mut bytes = Vec::new(alloc);
    for _ in 0..ulong_of(count) {
        bytes.extend_from_slice(part.as_bytes())?;
    }
    Ok(Text::from_vec(bytes))
}

/// A reference: `KEY@here:PORT` or `KEY@there:PORT`, or `nil`.
pub(crate) fn object(alloc: Global, word: &str) -> Result<Ior, Memory> {
    let (key, address) = word.split_once('@').unwrap_or((word, ""));
    let (host, port) = address.split_once(':').unwrap_or((address, ""));
    match host {
        "here" => make_ior(
            alloc,
            OUTSIDE_ID,
            b"here",
            ushort_of(port),
            key.as_bytes(),
            0,
        ),
        "there" => make_ior(
            alloc,
            OUTSIDE_ID,
            b"there",
            ushort_of(port),
            key.as_bytes(),
            0,
        ),
        _ => Ok(nil(alloc)),
    }
}

fn name_and_object(alloc: Global, words: &str) -> Result<(List<NameComponent>, Ior), Memory> {
    let (first, second) = cut(words);
    let name = name(alloc, first)?;
    let object = object(alloc, second)?;
    Ok((name, object))
}

/// The call of a word and its parameters.
pub(crate) fn act(alloc: Global, word: &str, words: &str) -> Result<NameAct, Memory> {
    match word {
        "bind" | "bind_context" | "rebind" => binding_act(alloc, word, words),
        "new_context" => Ok(NameAct::NewContext),
        "destroy" => Ok(NameAct::Destroy),
        "list" => Ok(NameAct::List),
        _ => named_act(alloc, word, words),
    }
}

fn binding_act(alloc: Global, word: &str, words: &str) -> Result<NameAct, Memory> {
    let (name, object) = name_and_object(alloc, words)?;
    match word {
        "bind" => Ok(NameAct::Bind { name, object }),
        "bind_context" => Ok(NameAct::BindContext { name, object }),
        _ => Ok(NameAct::Rebind { name, object }),
    }
}

fn named_act(alloc: Global, word: &str, words: &str) -> Result<NameAct, Memory> {
    let name = name(alloc, words)?;
    match word {
        "resolve" => Ok(NameAct::Resolve { name }),
        "unbind" => Ok(NameAct::Unbind { name }),
        _ => Ok(NameAct::BindNewContext { name }),
    }
}
