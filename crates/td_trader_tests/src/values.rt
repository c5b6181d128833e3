//! Parameters from words, as bytes.

use std::alloc::Global;
use td_cdr::{Memory, Writer};

/// Two parts with `;` between them, the second empty where there is none.
pub fn two(words: &str) -> (&str, &str) {
    words.split_once(';').unwrap_or((words, ""))
}

/// A word, and how often it stands: `WORD*COUNT`, or once.
pub fn counted(word: &str) -> (&str, u32) {
    match word.split_once('*') {
        Some((word, count)) => (word, count.parse::<u32>().unwrap_or(0)),
        None => (word, 1),
    }
}

/// Appends the parts one after the other, each as its letter says: `t` a text, `n` names, `r` a reference, `p`
/// properties, `s` the properties of a type, `q` policies, `d` desired properties, `f` a rule for following links, `b`
/// a truth value, `o` octets, `u` a number, which is ten where none is said.
pub fn put_all(alloc: Global, w: &mut Writer, letters: &str, parts: &str) -> Result<(), Memory> {
    let mut rest = parts;
    for letter in letters.as_bytes() {
        let (part, behind) = two(rest);
        put(alloc, w, *letter, part)?;
        rest = behind;
    }
    Ok(())
}

/// Some properties are desired, and their names follow.
const SOME: u32 = 1;

fn put(alloc: Global, w: &mut Writer, letter: u8, part: &str) -> Result<(), Memory> {
    match letter {
        b't' => w.string(part.as_bytes()),
        b'r' => put_reference(w, part),
        b'p' => put_properties(alloc, w, part),
        b'n' | b's' | b'q' => put_each(w, letter, part),
        b'd' => {
            w.u32(SOME)?;
            put_each(w, b'n', part)
        }
        b'f' => w.u32(rule_of(part)),
        b'b' => w.octet(if part == "TRUE" { 1 } else { 0 }),
        b'o' => put_octets(w, part),
        _ => w.u32(part.parse::<u32>().unwrap_or(10)),
    }
}

/// The IIOP profile of an object `k` at port 1 of a host `a`.
const PROFILE: &[u8] = b"\0\x01\0\0\0\0\0\x02a\0\0\x01\0\0\0\x01k";

/// The reference of an id, without a profile; behind `@` with the profile of an object that can be reached.
fn put_reference(w: &mut Writer, word: &str) -> Result<(), Memory> {
    match word.strip_prefix('@') {
        Some(id) => {
            w.string(id.as_bytes())?;
            w.u32(1)?;
            w.u32(0)?;
            w.octets(PROFILE)
        }
        None => {
            w.string(word.as_bytes())?;
            w.u32(0)
        }
    }
}

fn rule_of(word: &str) -> u32 {
    match word {
        "local_only" => 0,
        "if_no_local" => 1,
        _ => 2,
    }
}

/// The octets of a word, as often as it says.
fn put_octets(w: &mut Writer, word: &str) -> Result<(), Memory> {
    let (word, count) = counted(word);
    let len = u32::try_from(word.len()).unwrap_or(0);
    w.u32(len.wrapping_mul(count))?;
    for _ in 0..count {
        w.append(word.as_bytes())?;
    }
    Ok(())
}

/// A sequence of these words.
fn put_each(w: &mut Writer, letter: u8, words: &str) -> Result<(), Memory> {
    if words.is_empty() {
        return w.u32(0);
    }
    w.u32(u32::try_from(words.split(' ').count()).unwrap_or(0))?;
    for word in words.split(' ') {
        put_item(w, letter, word)?;
    }
    Ok(())
}

fn put_item(w: &mut Writer, letter: u8, word: &str) -> Result<(), Memory> {
    match letter {
        b'n' => w.string(word.as_bytes()),
        b's' => put_named(w, word, ULONG, mode_of(word)),
        b'q' => put_policy(w, word),
        _ => put_property(w, word),
    }
}

/// What a type says of the property Cost, which is mandatory, of Serial, which is readonly, and of others.
fn mode_of(name: &str) -> &'static [u8] {
    match name {
        "Cost" => b"\0\0\0\x02",
        "Serial" => b"\0\0\0\x01",
        _ => b"\0\0\0\0",
    }
}

/// The numbers of kinds of types.
const ULONG: u32 = 5;

const BOOLEAN: u32 = 8;

const STRUCT: u32 = 15;

const STRING: u32 = 18;

const SEQUENCE: u32 = 19;

/// A name, the kind of a type, and the bytes behind it.
fn put_named(w: &mut Writer, name: &str, kind: u32, rest: &[u8]) -> Result<(), Memory> {
    w.string(name.as_bytes())?;
    w.u32(kind)?;
    w.append(rest)
}

/// A DynamicProp: the nil evaluator, a returned type of ulong, and no extra_info.
const DYNAMIC: &[u8] = b"\
    \0\0\0\x80\0\0\0\0\0\0\0.IDL:omg.org/CosTradingDynamic/DynamicProp:1.0\0\0\0\0\0\0\
    \x01\0\0\0\0\0\0\0\x03\0\0\0\x01\0\0\0\0\0\0\0\x0e\0\0\0\x11\0\0\0\0\0\0\0\x01\0\0\0\0\0\0\0\
    \x01\0\0\0\0\0\0\0\x01\0\0\0\0\0\0\0\x0c\0\0\0\x01\0\0\0\0\0\0\0\x0b\0\0\0\x01\0\0\0\0\0\0\0\
    \0\0\0\0\x05\0\0\0\0";

/// A property that is a ulong of 7, or behind `text-` an empty string, or behind `dynamic-` one that is evaluated to a
/// ulong.
fn put_property(w: &mut Writer, word: &str) -> Result<(), Memory> {
    match word.split_once('-') {
        Some(("dynamic", name)) => put_named(w, name, STRUCT, DYNAMIC),
        Some((_, name)) => put_named(w, name, STRING, b"\0\0\0\0\0\0\0\x01\0"),
        None => put_named(w, word, ULONG, b"\0\0\0\x07"),
    }
}

/// The properties of these words, or `NAME*COUNT` for so many, whose names are numbered.
fn put_properties(alloc: Global, w: &mut Writer, words: &str) -> Result<(), Memory> {
    let (name, count) = counted(words);
    if count == 1 {
        return put_each(w, b'p', words);
    }
    w.u32(count)?;
    for number in 0..count {
        let name = format!(in alloc; "{name}{number}")?;
        put_property(w, name.as_str())?;
    }
    Ok(())
}

/// The type of a sequence of octets, and of a sequence of strings, behind its kind.
const OCTETS: &[u8] = b"\0\0\0\x0c\0\0\0\0\0\0\0\x0a\0\0\0\0";

const TEXTS: &[u8] = b"\0\0\0\x10\0\0\0\0\0\0\0\x12\0\0\0\0\0\0\0\0";

/// A policy as `NAME=VALUE`; a name alone is TRUE.
fn put_policy(w: &mut Writer, word: &str) -> Result<(), Memory> {
    let (name, value) = word.split_once('=').unwrap_or((word, "TRUE"));
    match (name, value) {
        ("request_id", _) => {
            put_named(w, name, SEQUENCE, OCTETS)?;
            put_octets(w, value)
        }
        ("starting_trader", _) => {
            put_named(w, name, SEQUENCE, TEXTS)?;
            put_path(w, value)
        }
        (_, "TRUE") => put_named(w, name, BOOLEAN, b"\x01"),
        (_, "FALSE") => put_named(w, name, BOOLEAN, b"\0"),
        _ => {
            put_named(w, name, ULONG, b"")?;
            w.u32(value.parse::<u32>().unwrap_or(0))
        }
    }
}

/// So many names: the first, and `c` for the rest.
fn put_path(w: &mut Writer, word: &str) -> Result<(), Memory> {
    let (first, count) = counted(word);
    w.u32(count)?;
    for place in 0..count {
        let name = if place == 0 { first } else { "c" };
        w.string(name.as_bytes())?;
    }
    Ok(())
}
