//! Which candidates match, and which of their properties are evaluated besides (OMG's Trading Object Service,
//! interface Lookup, query).

ghost use Rattle.std.specs.Prelude.{◌≡◌, ◌≤◌, ◌++◌, [], ◌∷◌, drop, length, IfOk, OnOk};
ghost use Rattle.td_store.specs.Candidates.{has_dynamic};
ghost use Rattle.td_walk.specs.Questions.{AsksOrGives, TellsMore, UnchangedIfAsking, made_up_to};
ghost use Rattle.td_walk.specs.Resolving.{resolved};
ghost use Rattle.td_visit.specs.Resuming.{tried_on, made_trying, searched_on, searched_up_to, made_completing};
ghost use Rattle.td_visit.specs.Resuming.{completed_up_to};
ghost use Rattle.td_walk.specs.Visits.{matches_all, if_matching, complete_offer, all_completed, evaluate_names};
ghost use Rattle.td_eval.specs.Mentioning.{names_asked};
ghost use Rattle.td_eval.specs.Values.{matches_constraint};

use crate::progress::{Completion, Scan};
use crate::queue::Queue;
use std::alloc::Global;
use std::mem;
use td_cdr::{List, Memory, Shared, Text};
use td_eval::{matches, names_asked};
use td_lang::Constraint;
use td_store::{FoundOffer, Local, OfferRecord, ProxyPart};
use td_value::{Property, SpecifiedProps, is_dynamic};
use td_walk::{Evaluation, Found, Left, Next, evaluate_each, evaluate_named, resolved};

/// Whether the offer matches whatever is asked.
fn matches_all(proxy: &Option<Shared<ProxyPart>>) -> bool
    ensures { result ≡ matches_all proxy.now }
{
    match proxy {
        None => false,
        Some(part) => part.if_match_all,
    }
}

/// Whether one of the properties is evaluated when it is asked for.
fn has_dynamic(properties: &[Property]) -> bool
    ensures { result ≡ has_dynamic properties.now }
{
    for property in properties {
        if is_dynamic(&property.value.code) {
            return true;
        }
    }
    false
}

/// Whether the constraint holds of the properties after these evaluations. Properties of which none is dynamic
/// aren't copied.
#[tactic(auto, using(crate::proofs::Resolved::as_they_are))]
fn is_matching(
    alloc: Global,
    constraint: &Constraint,
    made: &[Evaluation],
    properties: &List<Property>,
    dynamic: bool,
) -> Result<bool, Memory>
    requires { dynamic ≡ has_dynamic properties.now }
    ensures { IfOk result (λ holds. holds
        ≡ matches_constraint (resolved made.now properties.now) constraint.now) }
{
    if !dynamic {
        return matches(constraint, properties);
    }
    let resolved = resolved(alloc, made, properties.as_slice())?;
    matches(constraint, &resolved)
}

/// Adds the offer: a copy that shares its parts.
fn add_found(
    alloc: Global,
    offer: &OfferRecord,
    dynamic: bool,
    made: List<Evaluation>,
    found: &mut List<Found>,
) -> Result<(), Memory>
    requires { dynamic ≡ has_dynamic offer.now.properties }
    ensures { OnOk result (found.new ≡ found.old ++ record { offer = offer.now; made = made }
        ∷ []) }
{
    let offer = FoundOffer::of(alloc, offer, dynamic)?;
    found.push(Found { offer, made })
}

/// Adds the offer, where the constraint holds of what its evaluations made of its properties.
fn add_matching(
    alloc: Global,
    local: &Local,
    offer: &OfferRecord,
    dynamic: bool,
    made: List<Evaluation>,
    found: &mut List<Found>,
) -> Result<(), Memory>
    requires { dynamic ≡ has_dynamic offer.now.properties }
    ensures { OnOk result (found.new ≡ found.old ++ if_matching local.now offer.now made) }
{
    if is_matching(
        alloc,
        &local.constraint,
        made.as_slice(),
        &offer.properties,
        dynamic,
    )? {
        add_found(alloc, offer, dynamic, made, found)
    } else {
        Ok(())
    }
}

/// Evaluates the dynamic properties among those of these names, as far as there are answers. No name is looked for
/// where no property is dynamic.
#[tactic(auto, using(crate::proofs::Resolved::no_evaluations))]
fn evaluate_dynamic(
    alloc: Global,
    properties: &[Property],
    dynamic: bool,
    made: &mut List<Evaluation>,
    names: &[Text],
    left: &mut Left<'_>,
) -> Result<Option<Next>, Memory>
    requires { dynamic ≡ has_dynamic properties.now }
    ensures content { IfOk result (λ question.
        AsksOrGives (evaluate_names properties.now made.old names.now left.old.answers.now) question
        made.new
        left.new.answers.now) }
    ensures stopped { OnOk result
        (made.new ≡ made_up_to properties.now made.old names.now left.old.answers.now) }
{
    if !dynamic {
        return Ok(None);
    }
    evaluate_named(alloc, properties, made, names, left)
}

/// Adds the candidate where it matches, or gives the question to which there is no answer; then the evaluations that
/// there are answers to are made.
fn try_candidate(
    alloc: Global,
    local: &Local,
    names: &[Text],
    offer: &OfferRecord,
    made: &mut List<Evaluation>,
    found: &mut List<Found>,
    left: &mut Left<'_>,
) -> Result<Option<Next>, Memory>
    requires { names.now ≡ names_asked local.now.constraint local.now.preference }
    ensures content { IfOk result (λ question.
        TellsMore (tried_on local.now offer.now made.old left.old.answers.now)
        question found.old found.new left.new.answers.now) }
    ensures kept { IfOk result (λ question. UnchangedIfAsking question found.old found.new) }
    ensures stopped { OnOk result
        (made.new ≡ made_trying local.now offer.now made.old left.old.answers.now) }
{
    let properties = offer.properties.as_slice();
    let dynamic = has_dynamic(properties);
    if matches_all(&offer.proxy) {
        let made = mem::replace(made, List::new(alloc));
        add_found(alloc, offer, dynamic, made, found)?;
        return Ok(None);
    }
    let question = evaluate_dynamic(alloc, properties, dynamic, made, names, left)?;
    if question.is_some() {
        return Ok(question);
    }
    let made = mem::replace(made, List::new(alloc));
    add_matching(alloc, local, offer, dynamic, made, found)?;
    Ok(None)
}

/// The offers that are searched, by rising number.
fn candidates_of(local: &Local) -> &[OfferRecord]
    ensures { result.now ≡ local.now.candidates }
{
    local.candidates.as_slice()
}

/// Goes on with the search: adds the candidates that match, in order, as far as there are answers.
///
/// # Errors
///
/// `Memory` only when out of memory.
pub(crate) fn search(
    alloc: Global,
    local: &Local,
    scan: &mut Scan,
    left: &mut Left<'_>,
) -> Result<Option<Next>, Memory>
    requires { scan.old.tried ≤ length local.now.candidates }
    ensures content { IfOk result (λ question.
        AsksOrGives (searched_on local.now (drop scan.old.tried local.now.candidates)
        scan.old.found scan.old.made left.old.answers.now)
        question scan.new.found left.new.answers.now) }
    ensures stopped { OnOk result
        (scan.new ≡ searched_up_to local.now (drop scan.old.tried local.now.candidates)
        scan.old.tried scan.old.found scan.old.made left.old.answers.now) }
{
    let names = names_asked(alloc, &local.constraint, &local.preference)?;
    let most = local.effective.match_card as usize;
    let (_tried, candidates) = candidates_of(local).split_at(scan.tried);
    for offer in candidates {
        if scan.found.len() >= most {
            return Ok(None);
        }
        let question = try_candidate(
            alloc,
            local,
            names.as_slice(),
            offer,
            &mut scan.made,
            &mut scan.found,
            left,
        )?;
        if question.is_some() {
            return Ok(question);
        }
        scan.tried += 1;
    }
    Ok(None)
}

/// Evaluates the desired dynamic properties of an offer that aren't yet, as far as there are answers.
fn complete(
    alloc: Global,
    desired: &SpecifiedProps,
    offer: &FoundOffer,
    made: &mut List<Evaluation>,
    left: &mut Left<'_>,
) -> Result<Option<Next>, Memory>
    ensures content { IfOk result (λ question.
        AsksOrGives (complete_offer desired.now offer.now made.old left.old.answers.now)
        question made.new left.new.answers.now) }
    ensures stopped { OnOk result
        (made.new ≡ made_completing desired.now offer.now made.old left.old.answers.now) }
{
    if !offer.is_ordinary() {
        return Ok(None);
    }
    let properties = offer.properties().as_slice();
    match desired {
        SpecifiedProps::None => Ok(None),
        SpecifiedProps::Some(names) => {
            let dynamic = offer.has_dynamic();
            evaluate_dynamic(alloc, properties, dynamic, made, names.as_slice(), left)
        }
        SpecifiedProps::All => evaluate_each(alloc, properties, made, left),
    }
}

/// The one list and then the other.
fn followed(first: List<Found>, second: List<Found>) -> Result<List<Found>, Memory>
    ensures { IfOk result (λ all. all ≡ first ++ second) }
{
    if first.is_empty() {
        return Ok(second);
    }
    let mut all = first.into_vec();
    let mut more = second.into_vec();
    all.append(&mut more)?;
    Ok(List::from_vec(all))
}

/// Completes the offers that matched where nothing is desired of them: they stay as they are.
fn complete_undesired(alloc: Global, completion: &mut Completion) -> Result<(), Memory>
    ensures { OnOk result (completion.new
        ≡ record { waiting = []; complete = completion.old.complete ++ completion.old.waiting }) }
{
    let waiting = mem::replace(&mut completion.waiting, Queue::new(alloc));
    let complete = mem::replace(&mut completion.complete, List::new(alloc));
    completion.complete = followed(complete, waiting.into_list())?;
    Ok(())
}

/// Completes the offers that matched, in order, as far as there are answers.
fn complete_each(
    alloc: Global,
    desired: &SpecifiedProps,
    completion: &mut Completion,
    left: &mut Left<'_>,
) -> Result<Option<Next>, Memory>
    ensures content { IfOk result (λ question.
        AsksOrGives (all_completed desired.now completion.old.complete completion.old.waiting
        left.old.answers.now) question completion.new.complete left.new.answers.now) }
    ensures stopped { OnOk result
        (completion.new ≡ completed_up_to desired.now completion.old.complete completion.old.waiting
        left.old.answers.now) }
{
    while let Some(one) = completion.waiting.pop_front() {
        let Found { offer, mut made } = one;
        let question = complete(alloc, desired, &offer, &mut made, left)?;
        let one = Found { offer, made };
        if question.is_some() {
            completion.waiting.push_front(one)?;
            return Ok(question);
        }
        completion.complete.push(one)?;
    }
    Ok(None)
}

/// Goes on with the evaluation of desired properties: completes the offers that matched, in order, as far as there
/// are answers.
///
/// # Errors
///
/// `Memory` only when out of memory.
#[tactic(auto, using(crate::proofs::Undesired::undesired))]
pub(crate) fn complete_all(
    alloc: Global,
    desired: &SpecifiedProps,
    completion: &mut Completion,
    left: &mut Left<'_>,
) -> Result<Option<Next>, Memory>
    ensures content { IfOk result (λ question.
        AsksOrGives (all_completed desired.now completion.old.complete completion.old.waiting
        left.old.answers.now) question completion.new.complete left.new.answers.now) }
    ensures stopped { OnOk result
        (completion.new ≡ completed_up_to desired.now completion.old.complete completion.old.waiting
        left.old.answers.now) }
{
    match desired {
        SpecifiedProps::None => {
            complete_undesired(alloc, completion)?;
            Ok(None)
        }
        SpecifiedProps::Some(_) => complete_each(alloc, desired, completion, left),
        SpecifiedProps::All => complete_each(alloc, desired, completion, left),
    }
}
