//! Single policies, as a trader writes them (OMG's Trading Object Service, "Policies").

ghost use Rattle.std.specs.Prelude.{◌≡◌, map, IfOk};
ghost use Rattle.td_typecode.specs.declared.code.Value.TheVariants as value;
ghost use Rattle.td_policy.specs.Values.{policy, truth, number, rule, texts, octets};

use crate::codes::{octets_code, rule_code, texts_code};
use std::alloc::Global;
use td_cdr::{List, Memory, Text, Twin};
use td_value::{Any, FollowOption, Policy, TypeCode, Value};

/// A policy with a truth value.
///
/// # Errors
///
/// `Memory` only when out of memory.
pub fn truth_policy(alloc: Global, name: &[u8], b: bool) -> Result<Policy, Memory>
    ensures { IfOk result (λ p. p ≡ policy truth name.now b) }
{
    let code = TypeCode::Boolean;
    let value = Value::Boolean(b);
    named(alloc, name, Any { code, value })
}

/// A policy with a number.
///
/// # Errors
///
/// `Memory` only when out of memory.
pub fn number_policy(alloc: Global, name: &[u8], n: u32) -> Result<Policy, Memory>
    ensures { IfOk result (λ p. p ≡ policy number name.now n) }
{
    let code = TypeCode::ULong;
    let value = Value::ULong(n);
    named(alloc, name, Any { code, value })
}

/// A policy with a rule for following links.
///
/// # Errors
///
/// `Memory` only when out of memory.
pub fn rule_policy(alloc: Global, name: &[u8], r: FollowOption) -> Result<Policy, Memory>
    ensures { IfOk result (λ p. p ≡ policy rule name.now r) }
{
    let code = rule_code(alloc)?;
    let value = Value::Enum(r.number());
    named(alloc, name, Any { code, value })
}

/// A policy with a sequence of strings.
///
/// # Errors
///
/// `Memory` only when out of memory.
pub fn texts_policy(alloc: Global, name: &[u8], items: &[Text]) -> Result<Policy, Memory>
    ensures { IfOk result (λ p. p ≡ policy (texts 0) name.now items.now) }
{
    let values = text_values(alloc, items)?;
    let code = texts_code(alloc)?;
    let value = Value::Items(values);
    named(alloc, name, Any { code, value })
}

/// A policy with a sequence of octets.
///
/// # Errors
///
/// `Memory` only when out of memory.
pub fn octets_policy(alloc: Global, name: &[u8], items: &[u8]) -> Result<Policy, Memory>
    ensures { IfOk result (λ p. p ≡ policy (octets 0) name.now items.now) }
{
    let values = octet_values(alloc, items)?;
    let code = octets_code(alloc)?;
    let value = Value::Items(values);
    named(alloc, name, Any { code, value })
}

/// A policy of this name with this value.
fn named(alloc: Global, name: &[u8], value: Any) -> Result<Policy, Memory>
    ensures { IfOk result (λ p. p ≡ record { name = name.now; value = value }) }
{
    match Text::from_slice(alloc, name) {
        Ok(name) => Ok(Policy { name, value }),
        Err(memory) => {
            drop(value);
            Err(memory)
        }
    }
}

/// A value of each text.
fn text_values(alloc: Global, items: &[Text]) -> Result<List<Value>, Memory>
    ensures { IfOk result (λ vs. vs ≡ map (λ t. value.Str t) items.now) }
{
    let mut values = List::with_room(alloc, items.len())?;
    for item in items {
        values.push(Value::Str(item.copy(alloc)?))?;
    }
    Ok(values)
}

/// A value of each octet.
fn octet_values(alloc: Global, items: &[u8]) -> Result<List<Value>, Memory>
    ensures { IfOk result (λ vs. vs ≡ map (λ o. value.Octet o) items.now) }
{
    let mut values = List::with_room(alloc, items.len())?;
    for item in items {
        values.push(Value::Octet(*item))?;
    }
    Ok(values)
}
