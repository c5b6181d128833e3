//! Properties and offers from lines of text.

use std::alloc::Global;
use td_cdr::{Boxed, List, Memory, Shared, Text};
use td_value::{Any, Ior, Offer, Property, TypeCode, Value};

/// The text of a `&str`.
pub fn text(alloc: Global, text: &str) -> Result<Text, Memory> {
    Text::from_slice(alloc, text.as_bytes())
}

fn narrow(text: &str) -> i16 {
    text.parse().unwrap_or(0)
}

fn first_byte(text: &str) -> u8 {
    match text.as_bytes().first() {
        None => 0,
        Some(byte) => *byte,
    }
}

/// The TypeCode of a kind by name.
fn plain(kind: &str) -> TypeCode {
    match kind {
        "short" => TypeCode::Short,
        "ushort" => TypeCode::UShort,
        "long" => TypeCode::Long,
        "ulong" => TypeCode::ULong,
        "longlong" => TypeCode::LongLong,
        "ulonglong" => TypeCode::ULongLong,
        "octet" => TypeCode::Octet,
        "char" => TypeCode::Char,
        "boolean" => TypeCode::Boolean,
        "string" => TypeCode::Str { bound: 0 },
        _ => TypeCode::Void,
    }
}

fn sequence_of(alloc: Global, item: TypeCode) -> Result<TypeCode, Memory> {
    let item = Boxed::new(alloc, item)?;
    Ok(TypeCode::Sequence { item, bound: 0 })
}

fn alias_of(alloc: Global, item: TypeCode) -> Result<TypeCode, Memory> {
    let item = Boxed::new(alloc, item)?;
    Ok(TypeCode::Alias {
        id: Boxed::new(alloc, Text::new(alloc))?,
        name: Boxed::new(alloc, Text::new(alloc))?,
        item,
    })
}

/// How a kind is wrapped: a letter for each, from the inside out: `s` a sequence, `a` an alias.
fn wrapped(alloc: Global, kind: TypeCode, how: &str) -> Result<TypeCode, Memory> {
    match how {
        "a" => alias_of(alloc, kind),
        "s" => sequence_of(alloc, kind),
        "as" => sequence_of(alloc, alias_of(alloc, kind)?),
        "sa" => alias_of(alloc, sequence_of(alloc, kind)?),
        _ => Ok(kind),
    }
}

fn plain_value(alloc: Global, kind: &str, value: &str) -> Result<Value, Memory> {
    match kind {
        "short" => Ok(Value::Short(narrow(value))),
        "ushort" => Ok(Value::UShort(value.parse().unwrap_or(0))),
        "long" => Ok(Value::Long(value.parse().unwrap_or(0))),
        "ulong" => Ok(Value::ULong(value.parse().unwrap_or(0))),
        "longlong" => Ok(Value::LongLong(value.parse().unwrap_or(0))),
        "ulonglong" => Ok(Value::ULongLong(value.parse().unwrap_or(0))),
        "octet" => Ok(Value::Octet(value.parse().unwrap_or(0))),
        "char" => Ok(Value::Char(first_byte(value))),
        "boolean" => Ok(Value::Boolean(value == "TRUE")),
        "string" => Ok(Value::Str(text(alloc, value)?)),
        _ => Ok(Value::Empty),
    }
}

/// Items with `,` between them; no text at all is no item.
fn items(alloc: Global, kind: &str, values: &str) -> Result<Value, Memory> {
    let mut items = List::new(alloc);
    if values.is_empty() {
        return Ok(Value::Items(items));
    }
    for value in values.split(',') {
        items.push(plain_value(alloc, kind, value)?)?;
    }
    Ok(Value::Items(items))
}

fn value(alloc: Global, kind: &str, how: &str, value: &str) -> Result<Value, Memory> {
    if how.contains('s') {
        items(alloc, kind, value)
    } else {
        plain_value(alloc, kind, value)
    }
}

fn any(alloc: Global, kind: &str, how: &str, text: &str) -> Result<Boxed<Any>, Memory> {
    let code = Boxed::new(alloc, wrapped(alloc, plain(kind), how)?)?;
    let value = value(alloc, kind, how, text)?;
    Boxed::new(
        alloc,
        Any {
            code: code.into_inner(),
            value,
        },
    )
}

/// A property as `NAME KIND HOW VALUE`.
fn property(alloc: Global, line: &str) -> Result<Boxed<Property>, Memory> {
    let (name, rest) = line.split_once(' ').unwrap_or((line, ""));
    let (kind, rest) = rest.split_once(' ').unwrap_or((rest, ""));
    let (how, value) = rest.split_once(' ').unwrap_or((rest, ""));
    let value = any(alloc, kind, how, value)?;
    let name = text(alloc, name)?;
    Boxed::new(
        alloc,
        Property {
            name,
            value: value.into_inner(),
        },
    )
}

/// Properties with `;` between them.
pub fn properties(alloc: Global, line: &str) -> Result<List<Property>, Memory> {
    let mut properties = List::new(alloc);
    if line.is_empty() {
        return Ok(properties);
    }
    for one in line.split(';') {
        let made = property(alloc, one)?;
        properties.push(made.into_inner())?;
    }
    Ok(properties)
}

/// An offer of an interface of this name.
fn offer(alloc: Global, name: &str, line: &str) -> Result<Boxed<Offer>, Memory> {
    let reference = Ior {
        id: text(alloc, name)?,
        profiles: List::new(alloc),
    };
    let reference = Shared::new(alloc, reference)?;
    let properties = Shared::new(alloc, properties(alloc, line)?)?;
    Boxed::new(
        alloc,
        Offer {
            reference,
            properties,
        },
    )
}

/// Offers, each as `NAME=PROPERTIES`, with `|` between them.
pub fn offers(alloc: Global, line: &str) -> Result<List<Offer>, Memory> {
    let mut offers = List::new(alloc);
    for one in line.split('|') {
        let (name, properties) = one.split_once('=').unwrap_or((one, ""));
        let made = offer(alloc, name, properties)?;
        offers.push(made.into_inner())?;
    }
    Ok(offers)
}

/// The names of offers, one behind the other.
pub fn names(alloc: Global, offers: &List<Offer>) -> Result<Text, Memory> {
    let mut names = Vec::new(alloc);
    for offer in offers.as_slice() {
        names.extend_from_slice(offer.reference.id.as_slice())?;
    }
    Ok(Text::from_vec(names))
}
