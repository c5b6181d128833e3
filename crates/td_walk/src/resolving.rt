//! The properties of an offer after its evaluations (OMG's Trading Object Service, module CosTradingDynamic).

ghost use Rattle.std.specs.Prelude.{◌≡◌, IfOk, option_and_then};
ghost use Rattle.std.specs.Option.{option_copied};
ghost use Rattle.td_walk.specs.Resolving.{evaluation_of, is_evaluated, resolved_value, resolved_property, resolved};

use crate::evaluation::Evaluation;
use std::alloc::Global;
use td_cdr::{List, Memory, Twin};
use td_value::{Any, Property, is_dynamic};

fn evaluation_of<'a>(made: &'a [Evaluation], name: &[u8]) -> Option<&'a Evaluation>
    ensures { option_copied result ≡ evaluation_of made.now name.now }
{
    made.iter().find(|one| one.name.as_slice() == name)
}

/// Whether a property of this name was evaluated.
pub(crate) fn is_evaluated(made: &[Evaluation], name: &[u8]) -> bool
    ensures { result ≡ is_evaluated made.now name.now }
{
    evaluation_of(made, name).is_some()
}

/// What an evaluation gave.
fn given(evaluation: Option<&Evaluation>) -> Option<&Any>
    ensures { option_copied result
        ≡ option_and_then (λ e. e.value) (option_copied evaluation.entry) }
{
    match evaluation {
        None => None,
        Some(evaluation) => match &evaluation.value {
            None => None,
            Some(value) => Some(value.get()),
        },
    }
}

fn resolved_value<'a>(made: &'a [Evaluation], property: &'a Property) -> Option<&'a Any>
    ensures { option_copied result ≡ resolved_value made.now property.now }
{
    if is_dynamic(&property.value.code) {
        given(evaluation_of(made, property.name.as_slice()))
    } else {
        Some(&property.value)
    }
}

fn resolved_property(
    alloc: Global,
    made: &[Evaluation],
    property: &Property,
) -> Result<Option<Property>, Memory>
    ensures { IfOk result (λ resolved. resolved ≡ resolved_property made.now property.now) }
{
    let Some(value) = resolved_value(made, property) else {
        return Ok(None);
    };
    let name = property.name.copy(alloc)?;
    match value.copy(alloc) {
        Ok(value) => Ok(Some(Property { name, value })),
        Err(memory) => Err(memory),
    }
}

/// Copies of the properties after these evaluations: a dynamic one has the value that was evaluated, or is absent.
///
/// # Errors
///
/// `Memory` only when out of memory.
#[tactic(auto, unfolding(crate::specs::Resolving::resolved))]
pub fn resolved(
    alloc: Global,
    made: &[Evaluation],
    properties: &[Property],
) -> Result<List<Property>, Memory>
    ensures { IfOk result (λ ps. ps ≡ resolved made.now properties.now) }
{
    let mut resolved = List::new(alloc);
    for property in properties {
        match resolved_property(alloc, made, property)? {
            None => {}
            Some(property) => resolved.push(property)?,
        }
    }
    Ok(resolved)
}
