//! The evaluations of an offer's dynamic properties, in the order in which they are asked for.

ghost use Rattle.std.specs.Prelude.{◌≡◌, IfOk, OnOk, Some, map};
ghost use Rattle.td_walk.specs.Lent.{lent};
ghost use Rattle.td_walk.specs.Questions.{AsksOrGives, UnchangedIfAsking, made_up_to};
ghost use Rattle.td_walk.specs.Visits.{question_on, evaluated_property, evaluated_name, evaluate_names};

use crate::answer::Next;
use crate::dynamic::{Dynamic, dynamic_named, value_from};
use crate::evaluation::Evaluation;
use crate::left::Left;
use crate::resolving::is_evaluated;
use std::alloc::Global;
use td_cdr::{Boxed, List, Memory, Text, Twin};
use td_value::Property;

/// The question for a dynamic property.
fn question_on(alloc: Global, name: &Text, dynamic: Dynamic<'_>) -> Result<Next, Memory>
    ensures { IfOk result (λ question. question ≡ question_on name.now (lent dynamic.entry)) }
{
    let evaluator = dynamic.evaluator.copy(alloc)?;
    let name = name.copy(alloc)?;
    let returned = Boxed::new(alloc, dynamic.returned.copy(alloc)?)?;
    let extra = Boxed::new(alloc, dynamic.extra.copy(alloc)?)?;
    Ok(Next::Evaluate {
        evaluator,
        name,
        returned,
        extra,
    })
}

/// Adds what the first answer gives for a dynamic property, or gives the question where there is no answer.
fn evaluate(
    alloc: Global,
    made: &mut List<Evaluation>,
    name: &Text,
    dynamic: Dynamic<'_>,
    left: &mut Left<'_>,
) -> Result<Option<Next>, Memory>
    ensures content { IfOk result (λ question.
        AsksOrGives (evaluated_property made.old name.now (Some (lent dynamic.entry))
        left.old.answers.now) question made.new left.new.answers.now) }
    ensures kept { IfOk result (λ question. UnchangedIfAsking question made.old made.new) }
{
    let Some(answer) = left.read() else {
        return Ok(Some(question_on(alloc, name, dynamic)?));
    };
    let value = value_from(alloc, dynamic, answer)?;
    let name = name.copy(alloc)?;
    made.push(Evaluation { name, value })?;
    Ok(None)
}

/// Evaluates the property of a name where it is dynamic, and not twice.
fn evaluate_name(
    alloc: Global,
    properties: &[Property],
    made: &mut List<Evaluation>,
    name: &Text,
    left: &mut Left<'_>,
) -> Result<Option<Next>, Memory>
    ensures content { IfOk result (λ question.
        AsksOrGives (evaluated_name properties.now made.old name.now left.old.answers.now)
        question made.new left.new.answers.now) }
    ensures kept { IfOk result (λ question. UnchangedIfAsking question made.old made.new) }
{
    if is_evaluated(made.as_slice(), name.as_slice()) {
        return Ok(None);
    }
    match dynamic_named(properties, name.as_slice()) {
        None => Ok(None),
        Some(dynamic) => evaluate(alloc, made, name, dynamic, left),
    }
}

/// Evaluates the dynamic properties of these names in order, as far as there are answers.
///
/// # Errors
///
/// `Memory` only when out of memory.
pub fn evaluate_named(
    alloc: Global,
    properties: &[Property],
    made: &mut List<Evaluation>,
    names: &[Text],
    left: &mut Left<'_>,
) -> Result<Option<Next>, Memory>
    ensures content { IfOk result (λ question.
        AsksOrGives (evaluate_names properties.now made.old names.now left.old.answers.now) question
        made.new
        left.new.answers.now) }
    ensures stopped { OnOk result
        (made.new ≡ made_up_to properties.now made.old names.now left.old.answers.now) }
{
    for name in names {
        let question = evaluate_name(alloc, properties, made, name, left)?;
        if question.is_some() {
            return Ok(question);
        }
    }
    Ok(None)
}

/// Evaluates the dynamic properties of all names that the offer has, in its order.
///
/// # Errors
///
/// `Memory` only when out of memory.
pub fn evaluate_each(
    alloc: Global,
    properties: &[Property],
    made: &mut List<Evaluation>,
    left: &mut Left<'_>,
) -> Result<Option<Next>, Memory>
    ensures content { IfOk result (λ question.
        AsksOrGives (evaluate_names properties.now made.old (map (λ p. p.name) properties.now)
        left.old.answers.now) question made.new left.new.answers.now) }
    ensures stopped { OnOk result
        (made.new ≡ made_up_to properties.now made.old (map (λ p. p.name) properties.now)
        left.old.answers.now) }
{
    for property in properties {
        let question = evaluate_name(alloc, properties, made, &property.name, left)?;
        if question.is_some() {
            return Ok(question);
        }
    }
    Ok(None)
}
