//! Where the encoding of an offer ends, by arithmetic: nothing is written for it. Only where its
//! properties are numbers and strings; what has more to it is written to be measured.

ghost use Rattle.std.specs.Prelude.{◌≡◌, ◌+◌, ◌<◌, IfSome, length};
ghost use Rattle.td_cdr.specs.Format.{none_or};
ghost use Rattle.td_cdr.specs.Gap.{gap};
ghost use Rattle.td_cdr.specs.Sound.{octets, sequence, text};
ghost use Rattle.td_cdr.specs.declared.order.Order.TheVariants.{Big};
ghost use Rattle.td_typecode.specs.declared.code.Value.{out-Value};
ghost use Rattle.td_typecode.specs.Labels.{plain_piece};
ghost use Rattle.td_typecode.specs.References.{profile, reference};
ghost use Rattle.td_typecode.specs.Values.{any_value, text_in};
ghost use Rattle.td_value.specs.Structures.{offer, property};

use crate::structures::Property;
use td_cdr::{List, Octets, Text};
use td_typecode::{Any, Ior, Label, Profile, TypeCode, Value, label_of};

/// Where bytes end that begin at a place, behind the padding to a multiple of `size`. None where that
/// is past the largest number.
#[inline(always)]
fn end_behind(place: usize, size: usize, bytes: usize) -> Option<usize>
    requires { 0 < size }
    ensures { IfSome result (λ end. end ≡ place + (gap size place + bytes)) }
{
    let gap = (size - place % size) % size;
    place.checked_add(gap)?.checked_add(bytes)
}

/// Where a string ends: its bytes and a closing NUL, behind their number.
fn text_end(place: usize, t: &Text) -> Option<usize>
    ensures { IfSome result (λ end.
        end ≡ place + length (text.format.writes t.now Big place)) }
{
    end_behind(place, 4, t.len().checked_add(5)?)
}

/// Where octets end, behind their number.
fn octets_end(place: usize, v: &Octets) -> Option<usize>
    ensures { IfSome result (λ end.
        end ≡ place + length (octets.format.writes v.now Big place)) }
{
    end_behind(place, 4, v.len().checked_add(4)?)
}

fn profile_end(place: usize, p: &Profile) -> Option<usize>
    ensures { IfSome result (λ end.
        end ≡ place + length (profile.format.writes p.now Big place)) }
{
    let tag = end_behind(place, 4, 4)?;
    octets_end(tag, &p.octets)
}

fn profiles_end(place: usize, profiles: &[Profile]) -> Option<usize>
    ensures { IfSome result (λ end.
        end ≡ place + length ((sequence profile).format.writes profiles.now Big place)) }
{
    let mut end = end_behind(place, 4, 4)?;
    for p in profiles {
        end = profile_end(end, p)?;
    }
    Some(end)
}

fn reference_end(place: usize, ior: &Ior) -> Option<usize>
    ensures { IfSome result (λ end.
        end ≡ place + length (reference.format.writes ior.now Big place)) }
{
    let id = text_end(place, &ior.id)?;
    profiles_end(id, ior.profiles.as_slice())
}

/// Where the number that spells a plain value ends.
fn number_end(place: usize, value: &Value) -> Option<usize>
    ensures { IfSome result (λ end.
        end ≡ place + length (plain_piece value.now Big place)) }
{
    match label_of(value) {
        Label::One(_) => end_behind(place, 1, 1),
        Label::Two(_) => end_behind(place, 2, 2),
        Label::Four(_) => end_behind(place, 4, 4),
        Label::Eight(_) => end_behind(place, 8, 8),
    }
}

/// Where the string ends that the value is. None where it is another value.
fn string_end(place: usize, value: &Value) -> Option<usize>
    ensures { IfSome result (λ end. end ≡ place
        + length (none_or text.format.writes (text_in (out-Value value.now)) Big place)) }
{
    match value {
        Value::Str(t) => text_end(place, t),
        _ => None,
    }
}

/// Where an any ends whose value is a number or a string. None where its TypeCode is another one.
fn any_end(place: usize, any: &Any) -> Option<usize>
    ensures { IfSome result (λ end.
        end ≡ place + length (any_value.format.writes any.now Big place)) }
{
    let kind = end_behind(place, 4, 4)?;
    match &any.code {
        TypeCode::Str { .. } => {
            let bound = end_behind(kind, 4, 4)?;
            string_end(bound, &any.value)
        }
        TypeCode::Null => None,
        TypeCode::Void => None,
        TypeCode::AnyCode => None,
        TypeCode::Code => None,
        TypeCode::ObjRef { .. } => None,
        TypeCode::Struct { .. } => None,
        TypeCode::Union { .. } => None,
        TypeCode::Enum { .. } => None,
        TypeCode::Sequence { .. } => None,
        TypeCode::Array { .. } => None,
        TypeCode::Alias { .. } => None,
        TypeCode::Except { .. } => None,
        TypeCode::Linked(_) => None,
        _ => number_end(kind, &any.value),
    }
}

fn property_end(place: usize, p: &Property) -> Option<usize>
    ensures { IfSome result (λ end.
        end ≡ place + length (property.format.writes p.now Big place)) }
{
    let name = text_end(place, &p.name)?;
    any_end(name, &p.value)
}

fn properties_end(place: usize, properties: &[Property]) -> Option<usize>
    ensures { IfSome result (λ end.
        end ≡ place + length ((sequence property).format.writes properties.now Big place)) }
{
    let mut end = end_behind(place, 4, 4)?;
    for p in properties {
        end = property_end(end, p)?;
    }
    Some(end)
}

/// The encoded bytes of an offer whose properties are numbers and strings. None of another one, and
/// where it is longer than the largest number.
pub(crate) fn plain_offer_size(reference: &Ior, properties: &List<Property>) -> Option<usize>
    ensures { IfSome result (λ n. n ≡ length (offer.format.writes
        (record { reference = reference.now; properties = properties.now }) Big 0)) }
{
    let end = reference_end(0, reference)?;
    properties_end(end, properties.as_slice())
}
