//! Values from words.

use crate::telling::put_digits;
use std::alloc::Global;
use td_cdr::{Boxed, List, Memory, Text};
use td_value::{FollowOption, PropStruct, PropertyMode, TypeCode};

/// The first word and those behind it; `-` where there are none.
pub(crate) fn cut(words: &str) -> (&str, &str) {
    words.split_once(' ').unwrap_or((words, "-"))
}

/// What stands before and behind the first colon.
pub(crate) fn two(word: &str) -> (&str, &str) {
    word.split_once(':').unwrap_or((word, ""))
}

/// The decimal number, or 0.
pub(crate) fn number_of(digits: &str) -> u64 {
    digits.parse::<u64>().unwrap_or(0)
}

/// A ulong, in decimal.
pub(crate) fn ulong_of(digits: &str) -> u32 {
    digits.parse::<u32>().unwrap_or(0)
}

/// A word, and how often it stands: `WORD*COUNT`, or once.
fn counted(word: &str) -> (&str, u64) {
    match word.split_once('*') {
        Some((word, count)) => (word, number_of(count)),
        None => (word, 1),
    }
}

/// The rule of a digit: 0 is local_only, 1 if_no_local, 2 always.
pub(crate) fn rule_of(digit: &str) -> FollowOption {
    match digit {
        "0" => FollowOption::LocalOnly,
        "1" => FollowOption::IfNoLocal,
        _ => FollowOption::Always,
    }
}

/// The text of a word, as often as it says; `-` is the empty one. In it `#` is the number, and `<` the number before.
pub(crate) fn text(alloc: Global, word: &str, number: u64) -> Result<Text, Memory> {
    let mut bytes = Vec::new(alloc);
    if word != "-" {
        let (word, count) = counted(word);
        for _ in 0..count {
            extend(alloc, &mut bytes, word, number)?;
        }
    }
    Ok(Text::from_vec(bytes))
}

fn extend(alloc: Global, bytes: &mut Vec<u8>, word: &str, number: u64) -> Result<(), Memory> {
    for byte in word.as_bytes() {
        match byte {
            b'#' => put_digits(alloc, bytes, number)?,
            b'<' => put_digits(alloc, bytes, number.saturating_sub(1))?,
            _ => bytes.push(*byte)?,
        }
    }
    Ok(())
}

/// Names with `,` between them, each as often as it says; `-` is none.
pub(crate) fn names(alloc: Global, words: &str, number: u64) -> Result<List<Text>, Memory> {
    let mut names = List::new(alloc);
    if words == "-" {
        return Ok(names);
    }
    for word in words.split(',') {
        let (word, count) = counted(word);
        for _ in 0..count {
            names.push(text(alloc, word, number)?)?;
        }
    }
    Ok(names)
}

/// Properties with `,` between them; `-` is none. `PROPERTY*COUNT` is one for each number from this one on.
pub(crate) fn properties(
    alloc: Global,
    words: &str,
    number: u64,
) -> Result<List<PropStruct>, Memory> {
    let mut properties = List::new(alloc);
    if words == "-" {
        return Ok(properties);
    }
    for word in words.split(',') {
        let (word, count) = counted(word);
        for place in 0..count {
            properties.push(property(alloc, word, number.saturating_add(place))?)?;
        }
    }
    Ok(properties)
}

/// A property as `NAME:KIND:MODE`.
fn property(alloc: Global, word: &str, number: u64) -> Result<PropStruct, Memory> {
    let (name, rest) = two(word);
    let (kind, mode) = two(rest);
    let name = text(alloc, name, number)?;
    Ok(PropStruct {
        name,
        value_type: value_type(alloc, kind)?,
        mode: mode_of(mode),
    })
}

fn mode_of(word: &str) -> PropertyMode {
    match word {
        "readonly" => PropertyMode::Readonly,
        "mandatory" => PropertyMode::Mandatory,
        "both" => PropertyMode::MandatoryReadonly,
        _ => PropertyMode::Normal,
    }
}

/// The TypeCode of a kind by name; an alias is one of long.
fn value_type(alloc: Global, kind: &str) -> Result<TypeCode, Memory> {
    match kind {
        "alias" => Ok(TypeCode::Alias {
            id: Boxed::new(alloc, Text::new(alloc))?,
            name: Boxed::new(alloc, Text::new(alloc))?,
            item: Boxed::new(alloc, TypeCode::Long)?,
        }),
        "string" => Ok(TypeCode::Str { bound: 0 }),
        _ => Ok(TypeCode::Long),
    }
}
