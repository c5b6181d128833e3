//! References as text.

ghost use Rattle.std.specs.Prelude.{codes, ◌≡◌, ◌<◌, ◌^◌, ◌++◌, length, Some, MatchOption, IfSome, IfOk};
ghost use Rattle.hex.specs.Hex.{IsBytes, encode_lower};
ghost use Rattle.std.specs.Option.{option_map, option_copied};
ghost use Rattle.td_cdr.specs.Text.{HasNoNul};
ghost use Rattle.td_typecode.specs.References.{reference as references};
ghost use Rattle.td_ior.specs.Enclosed.{enclosed_in, encapsulate_value};
ghost use Rattle.td_ior.specs.Texts.{cut_last, without_mark, parts_of, hex_form, plain_form, reference_in, ReadsText};
ghost use Rattle.td_ior.specs.Texts.{printed_ior};

use crate::enclosed::start_of;
use crate::fault::IorFault;
use crate::number::port_of;
use crate::profile::make_ior;
use hex::FromHexError;
use std::alloc::Global;
use td_cdr::{Memory, Octets, Order, Text, Writer, has_nul};
use td_value::{Ior, ValueFault, read_ior, write_ior};

/// The minor version of IIOP in a reference of the form `ref:ID,HOST,PORT,KEY`.
const PLAIN_MINOR: u8 = 0;

/// The reference that a text spells: `IOR:` and the hexadecimal digits, in either case, of an
/// encapsulation of it, or `ref:ID,HOST,PORT,KEY`, cut at its last three commas, with ID and HOST
/// without NUL and PORT in decimal without leading zeros from 0 to 65535. The second form stands for
/// the reference that `make_ior` makes with minor version 0. Octets behind the reference in the
/// encapsulation are ignored.
///
/// # Errors
///
/// `NotIor` exactly where the text is in neither form; `Memory` when out of memory.
pub fn read_text(alloc: Global, text: &[u8]) -> Result<Ior, IorFault>
    ensures { ReadsText (reference_in text.now) result }
{
    if let Some(digits) = text.strip_prefix(b"IOR:".as_slice()) {
        return hex_form(alloc, digits);
    }
    plain_form(alloc, text)
}

/// The reference whose encapsulation these digits spell.
fn hex_form(alloc: Global, digits: &[u8]) -> Result<Ior, IorFault>
    ensures { ReadsText (hex_form digits.now) result }
{
    match hex::decode(alloc, digits) {
        Ok(octets) => enclosed_reference(alloc, octets.as_slice()),
        Err(FromHexError::OutOfMemory) => Err(IorFault::Memory),
        Err(_) => Err(IorFault::NotIor),
    }
}

fn enclosed_reference(alloc: Global, octets: &[u8]) -> Result<Ior, IorFault>
    ensures { ReadsText (enclosed_in references octets.now) result }
{
    let Some(mut inside) = start_of(octets) else {
        return Err(IorFault::NotIor);
    };
    match read_ior(alloc, &mut inside) {
        Ok(reference) => Ok(reference),
        Err(ValueFault::Memory) => Err(IorFault::Memory),
        Err(_) => Err(IorFault::NotIor),
    }
}

/// The reference in the form `ref:ID,HOST,PORT,KEY`.
fn plain_form(alloc: Global, text: &[u8]) -> Result<Ior, IorFault>
    ensures { ReadsText (plain_form text.now) result }
{
    let Some(parts) = parts_of(text) else {
        return Err(IorFault::NotIor);
    };
    let reference = make_ior(
        alloc,
        parts.id,
        parts.host,
        parts.port,
        parts.key,
        PLAIN_MINOR,
    )?;
    Ok(reference)
}

/// What stands before the last comma and what stands after it.
fn cut_last(word: &[u8]) -> Option<(&[u8], &[u8])>
    ensures { option_map (λ c. (c.0.now, c.1.now)) result ≡ cut_last word.now }
{
    for end in (0..word.len()).rev() {
        if word[end] == b',' {
            let (before, rest) = word.split_at(end);
            let (_comma, after) = rest.split_at(1);
            return Some((before, after));
        }
    }
    None
}

/// What follows `ref:`.
fn without_mark(word: &[u8]) -> Option<&[u8]>
    ensures { option_copied result ≡ without_mark word.now }
{
    word.strip_prefix(b"ref:".as_slice())
}

/// The parts of a reference in the form `ref:ID,HOST,PORT,KEY`.
#[derive(Drop)]
struct Parts<'a> {
    id: &'a [u8],
    host: &'a [u8],
    port: u16,
    key: &'a [u8],
}

#[tactic(auto, unfolding(crate::specs::Texts::parts_of))]
fn parts_of(text: &[u8]) -> Option<Parts<'_>>
    ensures parts { MatchOption result (parts_of text.now ≡ None) (λ p. parts_of text.now
        ≡ Some (record { id = p.id.now; host = p.host.now; port = p.port; key = p.key.now })) }
    ensures plain { IfSome result (λ p. HasNoNul p.host.now) }
{
    let (rest, key) = cut_last(without_mark(text)?)?;
    let (rest, port) = cut_last(rest)?;
    let (id, host) = cut_last(rest)?;
    let port = port_of(port)?;
    if has_nul(id) || has_nul(host) {
        return None;
    }
    Some(Parts {
        id,
        host,
        port,
        key,
    })
}

/// The reference as text: `IOR:` and the lower-case digits of its encapsulation in big order. Its type
/// id has no NUL, else what is printed is no reference.
///
/// # Errors
///
/// `Memory` when out of memory, or where the encapsulation would come to 2^32 octets.
pub fn print_text(alloc: Global, reference: &Ior) -> Result<Text, Memory>
    ensures printed { IfOk result (λ t. t ≡ printed_ior reference.now) }
    ensures back { IfOk result (λ t. references.format.admits reference.now
        → reference_in t ≡ Some reference.now) }
{
    let octets = enclose(alloc, reference)?;
    hex_text(alloc, octets.as_slice())
}

/// `IOR:` and the octets' digits.
fn hex_text(alloc: Global, octets: &[u8]) -> Result<Text, Memory>
    ensures { IfOk result (λ t. t ≡ codes "IOR:" ++ encode_lower octets.now) }
{
    let digits = hex::encode(alloc, octets)?;
    let mut text = Vec::from_slice(alloc, b"IOR:")?;
    text.extend_from_slice(digits.as_bytes())?;
    Ok(Text::from_vec(text))
}

/// The octets of an encapsulation of the reference.
fn enclose(alloc: Global, reference: &Ior) -> Result<Octets, Memory>
    ensures held { IfOk result (λ o. o ≡ encapsulate_value references reference.now) }
    ensures short { IfOk result (λ o. length o < 2 ^ 32) }
    ensures octets { IfOk result (λ o. IsBytes o) }
{
    let mut w = Writer::inside(alloc, Order::Big)?;
    write_ior(alloc, &mut w, reference)?;
    owned(alloc, w.bytes())
}

fn owned(alloc: Global, octets: &[u8]) -> Result<Octets, Memory>
    ensures same { IfOk result (λ o. o ≡ octets.now) }
    ensures octets { IsBytes octets.now }
{
    Octets::from_slice(alloc, octets)
}
