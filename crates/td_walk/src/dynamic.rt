//! Dynamic properties (OMG's Trading Object Service, module CosTradingDynamic).

ghost use Rattle.std.specs.Prelude.{◌≡◌, IfOk, is_some, option_map, option_copied};
ghost use Rattle.td_typecode.specs.Values.{any_in, code_in, reference_in};
ghost use Rattle.td_typecode.specs.declared.code.Value.{out-Value};
ghost use Rattle.td_eval.specs.Properties.{property};
ghost use Rattle.td_ior.specs.Profiles.{iiop_of};
ghost use Rattle.td_walk.specs.Lent.{lent};
ghost use Rattle.td_walk.specs.Resolving.{dynamic_of, dynamic_named, dynamic_among, dynamic_from};
ghost use Rattle.td_walk.specs.Resolving.{may_stand, value_from};

use crate::answer::StepAnswer;
use std::alloc::Global;
use td_cdr::{Boxed, Memory, Twin};
use td_ior::{IorFault, iiop_of};
use td_sameness::same_type;
use td_value::{Any, Ior, Property, TypeCode, Value, any_size, is_dynamic};

/// The most bytes of an evaluated value.
pub const LONGEST_VALUE: usize = 16_384;

/// A DynamicProp that lies in a property.
#[derive(Clone, Copy)]
pub(crate) struct Dynamic<'a> {
    pub(crate) evaluator: &'a Ior,
    pub(crate) returned: &'a TypeCode,
    pub(crate) extra: &'a Any,
}

fn reference_in(value: &Value) -> Option<&Ior>
    ensures { option_copied result ≡ reference_in (out-Value value.now) }
{
    match value {
        Value::ObjRef(reference) => Some(reference.get()),
        _ => None,
    }
}

fn code_in(value: &Value) -> Option<&TypeCode>
    ensures { option_copied result ≡ code_in (out-Value value.now) }
{
    match value {
        Value::Code(code) => Some(code.get()),
        _ => None,
    }
}

fn any_in(value: &Value) -> Option<&Any>
    ensures { option_copied result ≡ any_in (out-Value value.now) }
{
    match value {
        Value::AnyValue(any) => Some(any.get()),
        _ => None,
    }
}

fn dynamic_from<'a>(
    evaluator: Option<&'a Ior>,
    returned: Option<&'a TypeCode>,
    extra: Option<&'a Any>,
) -> Option<Dynamic<'a>>
    ensures { option_map lent result ≡ dynamic_from (option_copied evaluator.entry)
        (option_copied returned.entry) (option_copied extra.entry) }
{
    Some(Dynamic {
        evaluator: evaluator?,
        returned: returned?,
        extra: extra?,
    })
}

/// The DynamicProp with these members.
fn dynamic_among(members: &[Value]) -> Option<Dynamic<'_>>
    ensures { option_map lent result ≡ dynamic_among members.now }
{
    match members {
        [evaluator, returned, extra] => {
            dynamic_from(reference_in(evaluator), code_in(returned), any_in(extra))
        }
        _ => None,
    }
}

/// The DynamicProp that an any holds.
#[tactic(auto, unfolding(crate::specs::Resolving::dynamic_of))]
fn dynamic_of(any: &Any) -> Option<Dynamic<'_>>
    ensures { option_map lent result ≡ dynamic_of any.now }
{
    if !is_dynamic(&any.code) {
        return None;
    }
    match &any.value {
        Value::Struct(members) => dynamic_among(members.as_slice()),
        _ => None,
    }
}

/// The value of the property of a name; of two of one name the first counts.
#[tactic(auto, unfolding(td_eval::specs::Properties::property))]
fn property<'a>(properties: &'a [Property], name: &[u8]) -> Option<&'a Any>
    ensures { option_copied result ≡ property properties.now name.now }
{
    let found = properties
        .iter()
        .find(|property| property.name.as_slice() == name)?;
    Some(&found.value)
}

/// The DynamicProp of a property of this name.
#[tactic(auto, unfolding(crate::specs::Resolving::dynamic_named))]
pub(crate) fn dynamic_named<'a>(properties: &'a [Property], name: &[u8]) -> Option<Dynamic<'a>>
    ensures { option_map lent result ≡ dynamic_named properties.now name.now }
{
    match property(properties, name) {
        None => None,
        Some(any) => dynamic_of(any),
    }
}

/// Whether the reference has an IIOP profile.
fn is_reachable(alloc: Global, reference: &Ior) -> Result<bool, Memory>
    ensures { IfOk result (λ reachable. reachable ≡ is_some (iiop_of reference.now)) }
{
    match iiop_of(alloc, reference) {
        Ok(_) => Ok(true),
        Err(IorFault::NoIiop) => Ok(false),
        Err(_) => Err(Memory),
    }
}

/// Whether the value is of the returned type, and not too long from place 0 on.
#[tactic(auto, unfolding(crate::specs::Resolving::may_stand))]
fn may_stand(alloc: Global, dynamic: Dynamic<'_>, any: &Any) -> Result<bool, Memory>
    ensures { IfOk result (λ may. may ≡ may_stand (lent dynamic.entry) any.now) }
{
    if !same_type(alloc, &any.code, dynamic.returned)? {
        return Ok(false);
    }
    let size = any_size(alloc, any)?;
    Ok(size <= LONGEST_VALUE)
}

/// A copy of the value, where it may stand and its evaluator can be reached.
#[tactic(auto, unfolding(crate::specs::Resolving::value_from))]
pub(crate) fn value_from(
    alloc: Global,
    dynamic: Dynamic<'_>,
    answer: &StepAnswer,
) -> Result<Option<Boxed<Any>>, Memory>
    ensures { IfOk result (λ value. value ≡ value_from (lent dynamic.entry) answer.now) }
{
    let StepAnswer::Evaluated(any) = answer else {
        return Ok(None);
    };
    if is_reachable(alloc, dynamic.evaluator)? && may_stand(alloc, dynamic, any.get())? {
        Ok(Some(any.copy(alloc)?))
    } else {
        Ok(None)
    }
}
