//! The values of single policies (OMG's Trading Object Service, "Policies").

ghost use Rattle.std.specs.Prelude.{◌≡◌, IfOk, option_copied};
ghost use Rattle.td_policy.specs.declared.fault.PolicyFault.TheVariants as fault;
ghost use Rattle.td_policy.specs.Faults.{IsFault, LeavesValue};
ghost use Rattle.td_policy.specs.Stated.{stated_value};
ghost use Rattle.td_policy.specs.Values.{truth, number, rule, rule_numbered, texts, octets, items_of, text_of};
ghost use Rattle.td_policy.specs.Values.{octet_of};

use crate::codes::{is_number, is_octets, is_rule, is_texts, is_truth};
use crate::fault::PolicyFault;
use std::alloc::Global;
use td_cdr::{Boxed, List, Memory, Octets, Text, Twin};
use td_value::{FollowOption, Policy, Value};

/// How many names starting_trader has at most, and a name of links.
pub const MOST_NAMES: usize = 64;

/// How many octets request_id has at most.
const MOST_OCTETS: usize = 256;

/// Puts a policy's truth value into its field.
pub(crate) fn put_truth(
    alloc: Global,
    policy: &Policy,
    field: &mut Option<bool>,
) -> Result<(), PolicyFault>
    ensures { LeavesValue (stated_value truth policy.now) field.new result }
{
    if !is_truth(&policy.value.code) {
        return Err(type_mismatch(alloc, policy));
    }
    match &policy.value.value {
        Value::Boolean(b) => {
            *field = Some(*b);
            Ok(())
        }
        _ => Err(invalid_value(alloc, policy)),
    }
}

/// Puts a policy's number into its field.
pub(crate) fn put_number(
    alloc: Global,
    policy: &Policy,
    field: &mut Option<u32>,
) -> Result<(), PolicyFault>
    ensures { LeavesValue (stated_value number policy.now) field.new result }
{
    if !is_number(&policy.value.code) {
        return Err(type_mismatch(alloc, policy));
    }
    match &policy.value.value {
        Value::ULong(n) => {
            *field = Some(*n);
            Ok(())
        }
        _ => Err(invalid_value(alloc, policy)),
    }
}

/// Puts a policy's rule into its field.
pub(crate) fn put_rule(
    alloc: Global,
    policy: &Policy,
    field: &mut Option<FollowOption>,
) -> Result<(), PolicyFault>
    ensures { LeavesValue (stated_value rule policy.now) field.new result }
{
    if !is_rule(alloc, &policy.value.code)? {
        return Err(type_mismatch(alloc, policy));
    }
    match rule_in(&policy.value.value) {
        Some(rule) => {
            *field = Some(rule);
            Ok(())
        }
        None => Err(invalid_value(alloc, policy)),
    }
}

/// Puts a policy's texts into its field, unless there are too many.
pub(crate) fn put_texts(
    alloc: Global,
    policy: &Policy,
    field: &mut Option<List<Text>>,
) -> Result<(), PolicyFault>
    ensures { LeavesValue (stated_value (texts 64) policy.now) field.new result }
{
    if !is_texts(alloc, &policy.value.code)? {
        return Err(type_mismatch(alloc, policy));
    }
    match texts_in(alloc, &policy.value.value)? {
        Some(items) => {
            *field = Some(items);
            Ok(())
        }
        None => Err(invalid_value(alloc, policy)),
    }
}

/// Puts a policy's octets into its field, unless there are too many.
pub(crate) fn put_octets(
    alloc: Global,
    policy: &Policy,
    field: &mut Option<Octets>,
) -> Result<(), PolicyFault>
    ensures { LeavesValue (stated_value (octets 256) policy.now) field.new result }
{
    if !is_octets(alloc, &policy.value.code)? {
        return Err(type_mismatch(alloc, policy));
    }
    match octets_in(alloc, &policy.value.value)? {
        Some(items) => {
            *field = Some(items);
            Ok(())
        }
        None => Err(invalid_value(alloc, policy)),
    }
}

/// The rule that a value holds.
fn rule_in(value: &Value) -> Option<FollowOption>
    ensures { result ≡ rule.value_of value.now }
{
    match value {
        Value::Enum(n) => rule_numbered(*n),
        _ => None,
    }
}

/// The rule of a number.
fn rule_numbered(n: u32) -> Option<FollowOption>
    ensures { result ≡ rule_numbered n }
{
    match n {
        0 => Some(FollowOption::LocalOnly),
        1 => Some(FollowOption::IfNoLocal),
        2 => Some(FollowOption::Always),
        _ => None,
    }
}

/// The texts that a value holds, unless there are too many.
fn texts_in(alloc: Global, value: &Value) -> Result<Option<List<Text>>, Memory>
    ensures { IfOk result (λ items. items ≡ (texts 64).value_of value.now) }
{
    match value {
        Value::Items(values) => {
            if values.len() <= MOST_NAMES {
                copy_texts(alloc, values.as_slice())
            } else {
                Ok(None)
            }
        }
        _ => Ok(None),
    }
}

/// The octets that a value holds, unless there are too many.
fn octets_in(alloc: Global, value: &Value) -> Result<Option<Octets>, Memory>
    ensures { IfOk result (λ items. items ≡ (octets 256).value_of value.now) }
{
    match value {
        Value::Items(values) => {
            if values.len() <= MOST_OCTETS {
                copy_octets(alloc, values.as_slice())
            } else {
                Ok(None)
            }
        }
        _ => Ok(None),
    }
}

/// The texts in these values, if each is one.
fn copy_texts(alloc: Global, values: &[Value]) -> Result<Option<List<Text>>, Memory>
    ensures { IfOk result (λ items. items ≡ items_of text_of values.now) }
{
    let mut items = List::new(alloc);
    for value in values {
        match text_in(value) {
            Some(text) => items.push(text.copy(alloc)?)?,
            None => return Ok(None),
        }
    }
    Ok(Some(items))
}

/// The octets in these values, if each is one.
fn copy_octets(alloc: Global, values: &[Value]) -> Result<Option<Octets>, Memory>
    ensures { IfOk result (λ items. items ≡ items_of octet_of values.now) }
{
    let mut items = List::new(alloc);
    for value in values {
        match octet_in(value) {
            Some(octet) => items.push(octet)?,
            None => return Ok(None),
        }
    }
    Ok(Some(items))
}

/// The text that a value is.
fn text_in(value: &Value) -> Option<&Text>
    ensures { option_copied result ≡ text_of value.now }
{
    match value {
        Value::Str(text) => Some(text),
        _ => None,
    }
}

/// The octet that a value is.
fn octet_in(value: &Value) -> Option<u8>
    ensures { result ≡ octet_of value.now }
{
    match value {
        Value::Octet(octet) => Some(*octet),
        _ => None,
    }
}

/// The refusal of a policy whose value isn't of its type.
fn type_mismatch(alloc: Global, policy: &Policy) -> PolicyFault
    ensures { IsFault (fault.PolicyTypeMismatch policy.now) result }
{
    match boxed_copy(alloc, policy) {
        Ok(policy) => PolicyFault::PolicyTypeMismatch(policy),
        Err(Memory) => PolicyFault::Memory,
    }
}

/// The refusal of a policy whose value may not stand there.
fn invalid_value(alloc: Global, policy: &Policy) -> PolicyFault
    ensures { IsFault (fault.InvalidPolicyValue policy.now) result }
{
    match boxed_copy(alloc, policy) {
        Ok(policy) => PolicyFault::InvalidPolicyValue(policy),
        Err(Memory) => PolicyFault::Memory,
    }
}

/// A copy in a block of its own.
fn boxed_copy(alloc: Global, policy: &Policy) -> Result<Boxed<Policy>, Memory>
    ensures { IfOk result (λ twin. twin ≡ policy.now) }
{
    Boxed::new(alloc, policy.copy(alloc)?)
}
