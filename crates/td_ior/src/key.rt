//! The keys of a trader's objects, `NAME/L` and so on.

ghost use Rattle.std.specs.Prelude.{◌≡◌, ◌++◌, nat_eq, OnOk, IfOk};
ghost use Rattle.std.specs.List.{position};
ghost use Rattle.std.specs.Option.{option_map};
ghost use Rattle.td_value.specs.declared.key.Kind.TheVariants.{Iterator};
ghost use Rattle.td_ior.specs.Keys.{key_of, kind_of, letter_kind, iterator_of, at_slash, kind_piece, written_key};
ghost use Rattle.td_ior.specs.Keys.{ReadsKey};

use crate::fault::IorFault;
use crate::number::number_of;
use std::alloc::Global;
use td_cdr::{Memory, Octets, Text, is_trader_name};
use td_value::{Kind, ObjectKey};

/// The object whose key these octets are: `NAME/L`, `/R`, `/K`, `/P`, `/A`, `/T`, or `NAME/I/n` with n
/// from 1 in decimal without leading zeros. NAME is a trader's name.
///
/// # Errors
///
/// `BadKey` exactly where the octets are the key of no object; `Memory` when out of memory.
pub fn read_key(alloc: Global, octets: &[u8]) -> Result<ObjectKey, IorFault>
    ensures { ReadsKey (key_of octets.now) result }
{
    let Some((name, kind)) = key_parts(octets) else {
        return Err(IorFault::BadKey);
    };
    let trader = Text::from_slice(alloc, name)?;
    Ok(ObjectKey { trader, kind })
}

/// The trader's name in a key, and which object it is of; `None` exactly where the octets are the key of no object.
/// Takes no memory.
#[tactic(auto, unfolding(crate::specs::Keys::key_of))]
pub fn key_parts(octets: &[u8]) -> Option<(&[u8], Kind)>
    ensures { option_map (λ p. record { trader = p.0.now; kind = p.1 }) result ≡ key_of octets.now }
{
    let (name, object) = at_slash(octets)?;
    let kind = kind_of(object)?;
    if is_trader_name(name) {
        Some((name, kind))
    } else {
        None
    }
}

/// What stands before the first slash and what stands after it.
fn at_slash(octets: &[u8]) -> Option<(&[u8], &[u8])>
    ensures { option_map (λ p. (p.0.now, p.1.now)) result ≡ at_slash octets.now }
{
    let place = slash_place(octets)?;
    Some((&octets[..place], &octets[place + 1..]))
}

fn slash_place(octets: &[u8]) -> Option<usize>
    ensures { result ≡ position (λ b. nat_eq b 47) octets.now }
{
    octets.iter().position(|byte| *byte == b'/')
}

/// The kind that stands behind the trader's name.
fn kind_of(object: &[u8]) -> Option<Kind>
    ensures { result ≡ kind_of object.now }
{
    if let Some(number) = object.strip_prefix(b"I/".as_slice()) {
        return iterator_of(number);
    }
    let [letter] = object else {
        return None;
    };
    letter_kind(*letter)
}

fn iterator_of(word: &[u8]) -> Option<Kind>
    ensures { result ≡ iterator_of word.now }
{
    let number = number_of(word)?;
    if number == 0 {
        None
    } else {
        Some(Kind::Iterator(number))
    }
}

fn letter_kind(letter: u8) -> Option<Kind>
    ensures { result ≡ letter_kind letter }
{
    match letter {
        b'L' => Some(Kind::Lookup),
        b'R' => Some(Kind::Register),
        b'K' => Some(Kind::Link),
        b'P' => Some(Kind::Proxy),
        b'A' => Some(Kind::Admin),
        b'T' => Some(Kind::Types),
        _ => None,
    }
}

/// The key of an object. The trader has a trader's name, and an iterator a number from 1, else what is
/// written is no key.
///
/// # Errors
///
/// `Memory` only when out of memory.
pub fn write_key(alloc: Global, key: &ObjectKey) -> Result<Octets, Memory>
    ensures { IfOk result (λ octets. octets ≡ written_key key.now) }
{
    let mut octets = Vec::from_slice(alloc, key.trader.as_slice())?;
    octets.push(b'/')?;
    put_kind(alloc, &mut octets, key.kind)?;
    Ok(Octets::from_vec(octets))
}

fn put_kind(alloc: Global, octets: &mut Vec<u8>, kind: Kind) -> Result<(), Memory>
    ensures { OnOk result (octets.new.items ≡ octets.old.items ++ kind_piece kind) }
{
    match kind {
        Kind::Lookup => octets.push(b'L')?,
        Kind::Register => octets.push(b'R')?,
        Kind::Link => octets.push(b'K')?,
        Kind::Proxy => octets.push(b'P')?,
        Kind::Admin => octets.push(b'A')?,
        Kind::Types => octets.push(b'T')?,
        Kind::Iterator(number) => put_iterator(alloc, octets, number)?,
    }
    Ok(())
}

fn put_iterator(alloc: Global, octets: &mut Vec<u8>, number: u64) -> Result<(), Memory>
    ensures { OnOk result (octets.new.items ≡ octets.old.items ++ kind_piece (Iterator number)) }
{
    let digits = number.to_string(alloc)?;
    octets.extend_from_slice(b"I/")?;
    octets.extend_from_slice(digits.as_bytes())?;
    Ok(())
}
