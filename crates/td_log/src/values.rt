//! Octets and values in hexadecimal digits.

ghost use Rattle.std.specs.Prelude.{◌≡◌, ◌<◌, ◌^◌, length, Some, IfOk, IfSome};
ghost use Rattle.std.specs.Option.{option_map};
ghost use Rattle.td_cdr.specs.ValueFaults.{is_memory};
ghost use Rattle.td_log.specs.Lines.{alone, any_of, parse_any, given_value, some_any, value_of, value_with};
ghost use Rattle.td_log.specs.Messages.{octets_of};
ghost use Rattle.td_log.specs.Words.{is_empty};

use crate::line::Line;
use crate::words::two_words;
use hex::FromHexError;
use std::alloc::Global;
use td_cdr::{Boxed, Memory, Octets, Order, Reader};
use td_ior::number_of;
use td_value::{Any, ValueFault, read_any};

/// The octets that hexadecimal digits spell, two for each.
///
/// # Errors
///
/// `Memory` only when out of memory.
pub(crate) fn octets_of(alloc: Global, digits: &[u8]) -> Result<Option<Octets>, Memory>
    requires { length digits.now < 2 ^ 32 }
    ensures octets { IfOk result (λ o. o ≡ octets_of digits.now) }
    ensures short { IfOk result (λ o. IfSome o (λ octets. length octets < 2 ^ 32)) }
{
    match hex::decode(alloc, digits) {
        Ok(octets) => Ok(Some(Octets::from_vec(octets))),
        Err(FromHexError::OutOfMemory) => Err(Memory),
        Err(_) => Ok(None),
    }
}

/// The value of an any that these octets spell, with nothing behind it.
#[tactic(auto, unfolding(crate::specs::Lines::any_of))]
fn any_of(alloc: Global, octets: &[u8]) -> Result<Option<Boxed<Any>>, Memory>
    requires { length octets.now < 2 ^ 32 }
    ensures { IfOk result (λ v. v ≡ any_of octets.now) }
{
    let mut reader = Reader::new(octets, 0, Order::Big);
    match read_any(alloc, &mut reader) {
        Ok(value) => alone(alloc, value, &reader),
        Err(fault) => {
            if is_memory(&fault) {
                Err(Memory)
            } else {
                Ok(None)
            }
        }
    }
}

fn is_memory(fault: &ValueFault) -> bool
    ensures { result ≡ is_memory fault.now }
{
    matches!(fault, ValueFault::Memory)
}

/// The value, where the reader is at the end.
fn alone(alloc: Global, value: Any, reader: &Reader) -> Result<Option<Boxed<Any>>, Memory>
    ensures { IfOk result (λ v. v ≡ alone (Ok (value, reader.now))) }
{
    if !is_spent(reader) {
        drop(value);
        return Ok(None);
    }
    let value = Boxed::new(alloc, value)?;
    Ok(Some(value))
}

/// Whether nothing is left.
fn is_spent(reader: &Reader) -> bool
    ensures { result ≡ is_empty reader.now.rest }
{
    match reader.left() {
        [] => true,
        [_, ..] => false,
    }
}

/// The value that a word spells in hexadecimal digits.
fn parse_any(alloc: Global, word: &[u8]) -> Result<Option<Boxed<Any>>, Memory>
    requires { length word.now < 2 ^ 32 }
    ensures { IfOk result (λ v. v ≡ parse_any word.now) }
{
    match octets_of(alloc, word)? {
        Some(octets) => any_of(alloc, octets.as_slice()),
        None => Ok(None),
    }
}

/// The same, as a value that is there.
fn some_any(alloc: Global, word: &[u8]) -> Result<Option<Option<Boxed<Any>>>, Memory>
    requires { length word.now < 2 ^ 32 }
    ensures { IfOk result (λ v. v ≡ some_any word.now) }
{
    let value = parse_any(alloc, word)?;
    Ok(some_of(value))
}

/// A value that is there.
fn some_of(value: Option<Boxed<Any>>) -> Option<Option<Boxed<Any>>>
    ensures { result ≡ option_map (λ v. Some v) value }
{
    match value {
        Some(value) => Some(Some(value)),
        None => None,
    }
}

/// The value that a word spells, or that there is none: `-`.
fn given_value(alloc: Global, word: &[u8]) -> Result<Option<Option<Boxed<Any>>>, Memory>
    requires { length word.now < 2 ^ 32 }
    ensures { IfOk result (λ v. v ≡ given_value word.now) }
{
    if word == b"-".as_slice() {
        return Ok(Some(None));
    }
    some_any(alloc, word)
}

/// The value that a call gets, or that it gets none: `CALL ANY` and `CALL -`.
///
/// # Errors
///
/// `Memory` only when out of memory.
#[tactic(auto, unfolding(crate::specs::Lines::value_of))]
pub(crate) fn value_of(alloc: Global, text: &[u8]) -> Result<Option<Line>, Memory>
    requires { length text.now < 2 ^ 32 }
    ensures { IfOk result (λ l. l ≡ value_of text.now) }
{
    let Some((number, word)) = two_words(text) else {
        return Ok(None);
    };
    match number_of(number) {
        Some(call) => value_with(alloc, call as usize, word),
        None => Ok(None),
    }
}

/// The value that this call gets.
fn value_with(alloc: Global, call: usize, word: &[u8]) -> Result<Option<Line>, Memory>
    requires { length word.now < 2 ^ 32 }
    ensures { IfOk result (λ l. l ≡ value_with call word.now) }
{
    match given_value(alloc, word)? {
        Some(value) => Ok(Some(Line::Value { call, value })),
        None => Ok(None),
    }
}
