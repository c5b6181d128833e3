//! Calls of a type repository.

use crate::telling::{
    put, put_answer, put_judgement, put_number, put_properties, put_text, put_truth,
};
use crate::words::{cut, names, properties, text};
use std::alloc::Global;
use td_cdr::{Memory, Text};
use td_types::Types;
use td_value::PropStruct;

/// Adds the type of `NAME INTERFACE PROPERTIES SUPERTYPES`.
pub(crate) fn add(
    alloc: Global,
    types: &mut Types,
    words: &str,
    number: u64,
    content: &mut Vec<u8>,
) -> Result<(), Memory> {
    let (name, rest) = cut(words);
    let (if_name, rest) = cut(rest);
    let (props, supers) = cut(rest);
    let name = text(alloc, name, number)?;
    let if_name = text(alloc, if_name, number)?;
    let props = properties(alloc, props, number)?;
    let supers = names(alloc, supers, number)?;
    put_answer(alloc, content, types.add(name, if_name, props, supers))
}

/// A call on the type of a name, or the list of all types or of those since an incarnation.
pub(crate) fn call(
    alloc: Global,
    types: &mut Types,
    word: &str,
    rest: &str,
    content: &mut Vec<u8>,
) -> Result<(), Memory> {
    let name = text(alloc, rest, 0)?;
    let answer = match word {
        "remove" => types.remove(&name),
        "mask" => types.mask(&name),
        "unmask" => types.unmask(&name),
        "describe" => types.describe(&name),
        "fully" => types.fully_describe(&name),
        _ => types.list(rest.parse::<u64>().ok()),
    };
    put_answer(alloc, content, answer)
}

/// What is looked up of one type or of two, or of the interfaces of these ids.
pub(crate) fn look(
    alloc: Global,
    types: &Types,
    word: &str,
    rest: &str,
    content: &mut Vec<u8>,
) -> Result<(), Memory> {
    let (first, second) = cut(rest);
    let first = text(alloc, first, 0)?;
    let second = text(alloc, second, 0)?;
    look_up(alloc, types, word, &first, &second, content)
}

fn look_up(
    alloc: Global,
    types: &Types,
    word: &str,
    first: &Text,
    second: &Text,
    content: &mut Vec<u8>,
) -> Result<(), Memory> {
    let name = first.as_slice();
    match word {
        "conforms" => put_truth(content, Some(types.conforms(first, second))),
        "interface_conforms" => {
            put_truth(
                content,
                Some(types.interface_conforms(name, second.as_slice())),
            )
        }
        "subtypes" => subtypes(alloc, types, first, content),
        "how_many_below" => how_many_below(alloc, types, first, content),
        "incarnation" => put_number(alloc, content, Some(types.incarnation())),
        "incarnation_of" => put_number(alloc, content, types.incarnation_of(name)),
        "interface_of" => put_text(content, types.interface_of(name)),
        "is_masked" => put_truth(content, types.is_masked(name)),
        "full_properties" => put_properties(content, types.full_properties(name)),
        "full_property" => put_property(content, types.full_property(name, second.as_slice())),
        "how_many_properties" => {
            put_number(
                alloc,
                content,
                Some(types.full_properties(name).len() as u64),
            )
        }
        "judge_remove" => put_judgement(content, types.judge_remove(first)),
        "judge_mask" => put_judgement(content, types.judge_mask(first)),
        "judge_unmask" => put_judgement(content, types.judge_unmask(first)),
        _ => put(content, b"no such call"),
    }
}

fn put_property(content: &mut Vec<u8>, property: Option<&PropStruct>) -> Result<(), Memory> {
    match property {
        None => put(content, b"none"),
        Some(property) => put_properties(content, std::slice::from_ref(property)),
    }
}

/// The incarnations of the types that conform.
fn subtypes(
    alloc: Global,
    types: &Types,
    base: &Text,
    content: &mut Vec<u8>,
) -> Result<(), Memory> {
    let numbers = types.subtypes(base)?;
    for number in numbers.as_slice() {
        put_number(alloc, content, Some(*number))?;
    }
    Ok(())
}

fn how_many_below(
    alloc: Global,
    types: &Types,
    base: &Text,
    content: &mut Vec<u8>,
) -> Result<(), Memory> {
    let numbers = types.subtypes(base)?;
    put_number(alloc, content, Some(numbers.len() as u64))
}
