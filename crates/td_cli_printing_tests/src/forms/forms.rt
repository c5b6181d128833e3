//! Values as people write them, by the rules for the server's file and for command lines.

use std::alloc::Global;
use td_cdr::{Boxed, Memory};
use td_forms::{code_of, mode_named, rule_named, truth_named, value_of, value_type_of};
use td_ior::number_up_to;
use td_value::{FollowOption, PropertyMode, TypeCode, Value};

/// Words of types and texts that spell a value of the type: `TYPE TEXT`.
const SPELLED: &str = "short 0
short 32767
short -32768
long -2147483648
long 2147483647
ushort 65535
ulong 4294967295
longlong 9223372036854775807
longlong -9223372036854775808
ulonglong 18446744073709551615
octet 255
char x
char \u{20}
boolean TRUE
boolean FALSE
string 
string a b,c
seq:short 
seq:short 1,-2,3
seq:string ,
seq:boolean TRUE,FALSE
seq:char a,b";

/// Words of types and texts that spell none.
const UNSPELLED: &str = "short 32768
short -32769
short -0
short 01
short +1
short -
short 
long 2147483648
ushort -1
ushort 65536
ulong 4294967296
longlong 9223372036854775808
longlong -9223372036854775809
ulonglong 18446744073709551616
octet 256
char 
char ab
boolean true
seq:short 1,,2
seq:short 1, 2
seq:char ,
seq:octet 256";

/// Words that stand for no type.
const NO_TYPES: &str = "float seq: seq:any seq:seq:long Long SEQ:long long,";

/// Whether the text of a line spells a value of the type before it; `None` where that is no type.
fn is_spelled(alloc: Global, line: &str) -> Option<bool> {
    let (word, text) = line.split_once(' ')?;
    let value_type = value_type_of(word.as_bytes())?;
    match value_of(alloc, value_type, text.as_bytes()) {
        Ok(value) => Some(value.is_some()),
        Err(_) => None,
    }
}

#[test]
fn values_are_spelled(rt: HostRuntime) {
    let alloc = rt.alloc();
    for (table, spelled) in [(SPELLED, true), (UNSPELLED, false)] {
        for line in table.lines() {
            assert!(rt; is_spelled(alloc, line) == Some(spelled), "{line}");
        }
    }
}

fn are_no_types(words: &str) -> bool {
    for word in words.split_whitespace() {
        if value_type_of(word.as_bytes()).is_some() {
            return false;
        }
    }
    true
}

fn boxed_value(alloc: Global, word: &[u8], text: &[u8]) -> Result<Option<Boxed<Value>>, Memory> {
    let Some(value_type) = value_type_of(word) else {
        return Ok(None);
    };
    match value_of(alloc, value_type, text)? {
        Some(value) => Ok(Some(Boxed::new(alloc, value)?)),
        None => Ok(None),
    }
}

fn is_short(value: &Value, n: i16) -> bool {
    match value {
        Value::Short(found) => *found == n,
        _ => false,
    }
}

fn are_shorts(value: &Value, first: i16, second: i16) -> bool {
    match value {
        Value::Items(items) => match items.as_slice() {
            [a, b] => is_short(a, first) && is_short(b, second),
            _ => false,
        },
        _ => false,
    }
}

fn is_sequence_of_octets(code: &TypeCode) -> bool {
    match code {
        TypeCode::Sequence { item, bound } => *bound == 0 && matches!(item.get(), TypeCode::Octet),
        _ => false,
    }
}

fn boxed_code(alloc: Global, word: &[u8]) -> Result<Option<Boxed<TypeCode>>, Memory> {
    match value_type_of(word) {
        Some(value_type) => Ok(Some(Boxed::new(alloc, code_of(alloc, value_type)?)?)),
        None => Ok(None),
    }
}

/// Whether the names of truths, modes and rules are these alone, and numbers end where they shall.
fn are_named() -> bool {
    truth_named(b"TRUE") == Some(true)
        && truth_named(b"True") == None
        && mode_named(b"mandatory_readonly") == Some(PropertyMode::MandatoryReadonly)
        && mode_named(b"mandatory_") == None
        && rule_named(b"if_no_local") == Some(FollowOption::IfNoLocal)
        && rule_named(b"2") == None
        && number_up_to(b"64", 64) == Some(64)
        && number_up_to(b"65", 64) == None
}

/// Whether the text of a sequence of shorts spells its two numbers.
fn spells_shorts(alloc: Global) -> Result<bool, Memory> {
    match boxed_value(alloc, b"seq:short", b"-32768,17")? {
        Some(value) => Ok(are_shorts(value.get(), -32768, 17)),
        None => Ok(false),
    }
}

/// Whether the word of a sequence of octets names its TypeCode.
fn names_octets(alloc: Global) -> Result<bool, Memory> {
    match boxed_code(alloc, b"seq:octet")? {
        Some(code) => Ok(is_sequence_of_octets(code.get())),
        None => Ok(false),
    }
}

#[test]
fn values_codes_and_names(rt: HostRuntime) {
    let alloc = rt.alloc();
    assert!(rt; spells_shorts(alloc) == Ok(true));
    assert!(rt; names_octets(alloc) == Ok(true));
    assert!(rt; are_named() && are_no_types(NO_TYPES));
}
