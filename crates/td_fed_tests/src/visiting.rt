//! The questions of a visit and its answer, with given answers.

use crate::scripts::{limited, number, offered};
use std::alloc::Global;
use td_cdr::{Boxed, List, Memory, Text};
use td_out::MemWords;
use td_store::Local;
use td_value::{Any, TypeCode, Value};
use td_visit::Frame;
use td_walk::{Next, StepAnswer, SubAnswer};

// ---- what is asked, and what is answered

/// Whether a question is `value NAME`, an evaluation, `to ID` or `with CONSTRAINT`, one of another trader.
fn is_question(next: &Next, question: &str) -> bool {
    let (word, rest) = question.split_once(' ').unwrap_or((question, ""));
    match next {
        Next::Evaluate { name, .. } => word == "value" && name.as_slice() == rest.as_bytes(),
        Next::Forward { target, query, .. } => match word {
            "to" => target.id.as_slice() == rest.as_bytes(),
            "with" => query.get().constraint.as_slice() == rest.as_bytes(),
            _ => false,
        },
        Next::Done => false,
    }
}

/// Whether this is the question; `?` isn't looked at.
fn asks(alloc: Global, frame: &mut Frame, question: &str) -> Result<bool, Memory> {
    if question == "?" {
        return Ok(true);
    }
    let next = frame.next(alloc)?;
    let passed = is_question(&next, question);
    drop(next);
    Ok(passed)
}

/// A text of so many bytes.
fn letters(alloc: Global, count: usize) -> Result<Boxed<Any>, Memory> {
    let mut bytes = Vec::new(alloc);
    bytes.resize(count, b'a')?;
    Boxed::new(
        alloc,
        Any {
            code: TypeCode::Str { bound: 0 },
            value: Value::Str(Text::from_vec(bytes)),
        },
    )
}

fn truth(alloc: Global) -> Result<Boxed<Any>, Memory> {
    Boxed::new(
        alloc,
        Any {
            code: TypeCode::Boolean,
            value: Value::Boolean(true),
        },
    )
}

fn evaluated(alloc: Global, word: &str, rest: &str) -> Result<Boxed<Any>, Memory> {
    match word {
        "number" => number(alloc, rest.parse::<u32>().unwrap_or(0)),
        "text" => letters(alloc, rest.parse::<usize>().unwrap_or(0)),
        _ => truth(alloc),
    }
}

/// `failed`, `offer`, `limit POLICY`, `number N`, `TRUE`, or `text LENGTH`.
fn answer(alloc: Global, words: &str) -> Result<StepAnswer, Memory> {
    let (word, rest) = words.split_once(' ').unwrap_or((words, ""));
    match word {
        "failed" => Ok(StepAnswer::Failed),
        "offer" => Ok(StepAnswer::Offers(offered(alloc)?)),
        "limit" => Ok(StepAnswer::Offers(limited(alloc, rest)?)),
        _ => Ok(StepAnswer::Evaluated(evaluated(alloc, word, rest)?)),
    }
}

/// Hands over an answer to this question, which is repeated until it is answered.
fn takes(alloc: Global, frame: &mut Frame, question: &str, words: &str) -> Result<bool, Memory> {
    let asked = asks(alloc, frame, question)? && asks(alloc, frame, question)?;
    frame.take(answer(alloc, words)?)?;
    Ok(asked)
}

/// Steps as `QUESTION: ANSWER`, with `|` between them.
fn takes_all(alloc: Global, frame: &mut Frame, steps: &str) -> Result<bool, Memory> {
    for step in steps.split('|') {
        let (question, words) = step.split_once(": ").unwrap_or((step, ""));
        if !question.is_empty() && !takes(alloc, frame, question, words)? {
            return Ok(false);
        }
    }
    Ok(true)
}

// ---- how a visit ends

/// The answer of a visit without a further question.
fn finished(alloc: Global, frame: Frame) -> Result<Option<SubAnswer>, Memory> {
    let mut frame = frame;
    match frame.next(alloc) {
        Ok(Next::Done) => {
            let mut words = MemWords::new(List::new(alloc));
            Ok(Some(frame.finish(alloc, &mut words)?))
        }
        other => {
            drop(other);
            drop(frame);
            Ok(None)
        }
    }
}

/// How many properties the offers have together.
fn properties_of(answer: &SubAnswer) -> usize {
    let mut count: usize = 0;
    for offer in answer.offers.as_slice() {
        count = count.saturating_add(offer.properties.len());
    }
    count
}

fn are_limits(limits: &[Text], words: &str) -> bool {
    let mut names = words.split(' ');
    for limit in limits {
        if limit.as_slice() != names.next().unwrap_or("").as_bytes() {
            return false;
        }
    }
    names.next().unwrap_or("").is_empty()
}

/// Whether there are so many offers with so many properties, and these limits.
fn is_answer(answer: &SubAnswer, content: &str) -> bool {
    let (offers, rest) = content.split_once(' ').unwrap_or((content, ""));
    let (properties, limits) = rest.split_once(' ').unwrap_or((rest, ""));
    offers.parse::<usize>() == Ok(answer.offers.len())
        && properties.parse::<usize>() == Ok(properties_of(answer))
        && are_limits(answer.limits.as_slice(), limits)
}

fn ends_so(alloc: Global, frame: Frame, content: &str) -> bool {
    match finished(alloc, frame) {
        Ok(Some(answer)) => is_answer(&answer, content),
        _ => false,
    }
}

fn goes_so(alloc: Global, frame: Frame, steps: &str, content: &str) -> bool {
    let mut frame = frame;
    match takes_all(alloc, &mut frame, steps) {
        Ok(true) => ends_so(alloc, frame, content),
        _ => {
            drop(frame);
            false
        }
    }
}

/// Whether a visit asks these questions, and ends with this answer behind those that it is given: `STEPS => ANSWER`.
pub(crate) fn is_visited(alloc: Global, local: Boxed<Local>, content: &str) -> bool {
    let (steps, end) = content.split_once(" => ").unwrap_or((content, ""));
    match Frame::new(alloc, local) {
        Ok(frame) => goes_so(alloc, frame, steps, end),
        Err(_) => false,
    }
}
