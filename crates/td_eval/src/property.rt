//! Properties, and what their values are in the languages (Trading Object Service, "The Constraint Language").

ghost use Rattle.std.specs.Prelude.{◌≡◌, Some, None, option_map, option_and_then, if◌then◌else◌};
ghost use Rattle.std.specs.List.{list_any};
ghost use Rattle.td_eval.specs.Comparing.{equals};
ghost use Rattle.td_eval.specs.Kinds.{kind_of, item_kind, is_numeric, is_textual, sort_of, with_kind, scalar};
ghost use Rattle.td_eval.specs.Kinds.{simple_under, all_under, list_under, content_of};
ghost use Rattle.td_eval.specs.declared.simple.Simple.TheVariants.{Truth as SimpleTruth};
ghost use Rattle.td_eval.specs.Operands.{view};
ghost use Rattle.td_eval.specs.Properties.{property, content_named};
ghost use Rattle.td_eval.specs.Values.{operand, is_of, membership, within};

use crate::arithmetic::fraction;
use crate::comparison::equals;
use crate::simple::{Operand, Sort};
use std::slice;
use td_value::{Any, Property, TypeCode, Value};

/// The value of the property of a name; of two of one name the first counts.
#[tactic(auto, unfolding(crate::specs::Properties::property))]
pub(crate) fn property<'a>(map: &'a [Property], name: &[u8]) -> Option<&'a Any>
    ensures { option_map (λ a. a.now) result ≡ property map.now name.now }
{
    let found = map
        .iter()
        .find(|property| property.name.as_slice() == name)?;
    Some(&found.value)
}

/// The kind of a TypeCode, its aliases taken off. A graph has none, and so no value of the languages.
fn kind_of(code: &TypeCode) -> u32
    ensures { result ≡ kind_of code.now }
{
    match code {
        TypeCode::Null => 0,
        TypeCode::Void => 1,
        TypeCode::Short => 2,
        TypeCode::Long => 3,
        TypeCode::UShort => 4,
        TypeCode::ULong => 5,
        TypeCode::Boolean => 8,
        TypeCode::Char => 9,
        TypeCode::Octet => 10,
        TypeCode::AnyCode => 11,
        TypeCode::Code => 12,
        TypeCode::ObjRef { .. } => 14,
        TypeCode::Struct { .. } => 15,
        TypeCode::Union { .. } => 16,
        TypeCode::Enum { .. } => 17,
        TypeCode::Str { .. } => 18,
        TypeCode::Sequence { .. } => 19,
        TypeCode::Array { .. } => 20,
        TypeCode::Alias { item, .. } => kind_of(item.get()),
        TypeCode::Except { .. } => 22,
        TypeCode::LongLong => 23,
        TypeCode::ULongLong => 24,
        TypeCode::Linked(_) => 0xffff_ffff,
    }
}

/// The kind of a sequence's items, where the TypeCode is one, its aliases taken off.
fn item_kind(code: &TypeCode) -> Option<u32>
    ensures { result ≡ item_kind code.now }
{
    match code {
        TypeCode::Alias { item, .. } => item_kind(item.get()),
        TypeCode::Sequence { item, .. } => Some(kind_of(item.get())),
        _ => None,
    }
}

fn is_numeric(kind: u32) -> bool
    ensures { result ≡ is_numeric kind }
{
    kind == 2 || kind == 3 || kind == 4 || kind == 5 || kind == 10 || kind == 23 || kind == 24
}

fn is_textual(kind: u32) -> bool
    ensures { result ≡ is_textual kind }
{
    kind == 9 || kind == 18
}

/// What values of a kind are.
#[tactic(auto, unfolding(crate::specs::Kinds::sort_of))]
fn sort_of(kind: u32) -> Option<Sort>
    ensures { result ≡ sort_of kind }
{
    if is_numeric(kind) {
        Some(Sort::Numbers)
    } else if is_textual(kind) {
        Some(Sort::Texts)
    } else if kind == 8 {
        Some(Sort::Truths)
    } else {
        None
    }
}

/// A kind with a value, where there is one.
fn with_kind(kind: u32, operand: Option<Operand>) -> Option<(u32, Operand)>
    ensures { option_map (λ p. (p.0, view p.1)) result
        ≡ with_kind kind (option_map view operand.entry) }
{
    match operand {
        None => None,
        Some(operand) => Some((kind, operand)),
    }
}

/// The kind under which a value stands, with what it is in the languages.
fn scalar(value: &Value) -> Option<(u32, Operand)>
    ensures { option_map (λ p. (p.0, view p.1)) result ≡ scalar value.now }
{
    match value {
        Value::Short(n) => Some((2, Operand::Number(i64::from(*n), 1))),
        Value::Long(n) => Some((3, Operand::Number(i64::from(*n), 1))),
        Value::UShort(n) => Some((4, Operand::Number(i64::from(*n), 1))),
        Value::ULong(n) => Some((5, Operand::Number(i64::from(*n), 1))),
        Value::Boolean(truth) => Some((8, Operand::Truth(*truth))),
        Value::Char(byte) => Some((9, Operand::Text(slice::from_ref(byte)))),
        Value::Octet(n) => Some((10, Operand::Number(i64::from(*n), 1))),
        Value::Str(text) => Some((18, Operand::Text(text.as_slice()))),
        Value::LongLong(n) => with_kind(23, fraction(i128::from(*n), 1)),
        Value::ULongLong(n) => with_kind(24, fraction(i128::from(*n), 1)),
        _ => None,
    }
}

/// What a value is that stands under a kind.
#[tactic(auto, unfolding(crate::specs::Kinds::simple_under))]
fn simple_under<'a>(kind: u32, value: &'a Value) -> Option<Operand<'a>>
    ensures { option_map view result ≡ simple_under kind value.now }
{
    match scalar(value) {
        None => None,
        Some((own, operand)) => { if own == kind { Some(operand) } else { None } }
    }
}

/// What an any is, where it is no list.
#[tactic(auto, unfolding(crate::specs::Kinds::content_of), using(crate::proofs::Operating::operands))]
fn simple_of<'a>(any: &'a Any) -> Option<Operand<'a>>
    ensures { option_map view result ≡ operand (content_of any.now) }
{
    match item_kind(&any.code) {
        None => simple_under(kind_of(&any.code), &any.value),
        Some(_) => None,
    }
}

/// What the property of a name is, where it is no list.
#[tactic(auto, unfolding(crate::specs::Properties::content_named))]
pub(crate) fn simple_named<'a>(map: &'a [Property], name: &[u8]) -> Option<Operand<'a>>
    ensures { option_map view result ≡ operand (content_named map.now name.now) }
{
    match property(map, name) {
        None => None,
        Some(any) => simple_of(any),
    }
}

fn is_of(sort: Sort, operand: Operand) -> bool
    ensures { result ≡ is_of sort (view operand.entry) }
{
    match (sort, operand) {
        (Sort::Numbers, Operand::Number(_, _)) => true,
        (Sort::Texts, Operand::Text(_)) => true,
        (Sort::Truths, Operand::Truth(_)) => true,
        _ => false,
    }
}

/// Whether a value is one of these under a kind, where each of them is something.
#[tactic(auto, using(crate::proofs::Operating::by_item))]
fn contains(item: Operand, kind: u32, items: &[Value]) -> Option<bool>
    ensures { result ≡ option_map (list_any (equals (view item.entry))) (all_under kind items.now) }
{
    let mut found = false;
    for value in items {
        match simple_under(kind, value) {
            None => return None,
            Some(other) => found = found || equals(item, other),
        }
    }
    Some(found)
}

/// Whether a value is an item of a sequence whose items are of a kind.
#[tactic(auto, unfolding(crate::specs::Kinds::list_under))]
fn is_among(item: Operand, kind: u32, items: &Value) -> Option<Operand<'static>>
    ensures { option_map view result ≡ option_and_then (membership (view item.entry))
        (list_under kind items.now) }
{
    match (sort_of(kind), items) {
        (Some(sort), Value::Items(items)) => match contains(item, kind, items.as_slice()) {
            None => None,
            Some(found) => truth_if(is_of(sort, item), found),
        },
        _ => None,
    }
}

fn truth_if(wanted: bool, truth: bool) -> Option<Operand<'static>>
    ensures { option_map view result ≡ (if wanted then Some (SimpleTruth truth) else None) }
{
    if wanted {
        Some(Operand::Truth(truth))
    } else {
        None
    }
}

#[tactic(auto, unfolding(crate::specs::Kinds::content_of), using(crate::proofs::Operating::member_of_one))]
fn membership(item: Operand, any: &Any) -> Option<Operand<'static>>
    ensures { option_map view result ≡ option_and_then (membership (view item.entry))
        (content_of any.now) }
{
    match item_kind(&any.code) {
        None => None,
        Some(kind) => is_among(item, kind, &any.value),
    }
}

/// Whether a value is an item of the property of a name.
#[tactic(auto, unfolding(crate::specs::Properties::content_named))]
pub(crate) fn within(item: Operand, map: &[Property], name: &[u8]) -> Option<Operand<'static>>
    ensures { option_map view result
        ≡ within (Some (view item.entry)) (content_named map.now name.now) }
{
    match property(map, name) {
        None => None,
        Some(any) => membership(item, any),
    }
}
