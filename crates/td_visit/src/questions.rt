//! Which other traders are asked, in order (OMG's Trading Object Service, "Link Follow Behavior" and interface Proxy).

ghost use Rattle.std.specs.Prelude.{◌≡◌, ◌+◌, ◌^◌, ◌<◌, ◌≤◌, ◌∷◌, [], None, cond, drop, is_some, length, IfOk, OnOk};
ghost use Rattle.std.specs.List.{list_any};
ghost use Rattle.td_visit.specs.Resuming.{none_asked, asks_first, first_wanted, step_asks, passed_by};
ghost use Rattle.td_visit.specs.Resuming.{with_answer};
ghost use Rattle.td_visit.specs.Resuming.{IsPlaceInSearch, IsPlaceOnPath, IsPlace, CallsTo, Forwards, ForwardsBy};
ghost use Rattle.td_walk.specs.SubQueries.{link_step, call_of, proxy_step, path_query};
ghost use Rattle.td_walk.specs.Visits.{count_ordinary, is_ordinary, less, path_step, steps, sub_answer};
ghost use Rattle.td_walk.specs.declared.answer.Next.TheVariants.{Forward};

use crate::progress::Others;
use crate::recipe::expanded;
use std::alloc::Global;
use td_cdr::{Memory, Shared, Twin};
use td_ops::Query;
use td_store::{FoundOffer, LinkRecord, Local, ProxyPart};
use td_value::Ior;
use td_walk::{
    Found, Next, StepAnswer, fewer_wanted, follows, has_hops, is_full, sub_query_for_link,
    sub_query_for_path, sub_query_for_proxy, wanted_behind,
};

/// No other trader was asked yet.
pub(crate) fn none_asked(local_match: bool, wanted: Option<u32>) -> Others
    ensures { result ≡ none_asked local_match wanted }
{
    Others {
        local_match,
        wanted,
        offers: 0,
        links: 0,
        given: 0,
    }
}

/// Whether an ordinary offer matched.
fn has_ordinary(found: &[Found]) -> bool
    ensures { result ≡ list_any (λ f. is_ordinary f.offer) found.now }
{
    found.iter().any(|one| one.offer.is_ordinary())
}

/// One more, where the offer is an ordinary one.
fn counted(count: usize, one: &Found) -> usize
    requires { count < 2 ^ 63 }
    ensures { result ≡ count + cond (is_ordinary one.now.offer) 1 0 }
{
    if one.offer.is_ordinary() {
        count + 1
    } else {
        count
    }
}

/// How many ordinary offers matched.
fn count_ordinary(found: &[Found]) -> usize
    ensures { result ≡ count_ordinary found.now }
{
    let mut count: usize = 0;
    for one in found {
        count = counted(count, one);
    }
    count
}

/// Other traders are asked, of which none was asked yet: for what is wanted behind the offers that matched here.
pub(crate) fn asks_first(local: &Local, found: &[Found]) -> Others
    ensures { result ≡ asks_first local.now found.now }
{
    none_asked(
        has_ordinary(found),
        wanted_behind(local, count_ordinary(found)),
    )
}

/// The question to another trader.
fn forward(alloc: Global, target: &Ior, query: Query) -> Result<Next, Memory>
    ensures { IfOk result (λ question. question ≡ Forward target.now query) }
{
    let query = Shared::new(alloc, query)?;
    let target = target.copy(alloc)?;
    Ok(Next::Forward { target, query })
}

/// The question along the path.
fn path_question(alloc: Global, local: &Local, link: &LinkRecord) -> Result<Next, Memory>
    ensures { IfOk result (λ question. question ≡ Forward link.now.target (path_query local.now)) }
{
    let query = sub_query_for_path(alloc, local)?;
    forward(alloc, &link.target, query)
}

#[tactic(auto, unfolding(td_walk::specs::SubQueries::link_step))]
fn link_step(
    alloc: Global,
    local: &Local,
    wanted: Option<u32>,
    local_match: bool,
    link: &LinkRecord,
) -> Result<Option<Next>, Memory>
    ensures { IfOk result (λ step. step ≡ link_step local.now wanted local_match link.now) }
{
    if is_full(wanted) || !follows(local, local_match, link) {
        return Ok(None);
    }
    let query = sub_query_for_link(alloc, local, wanted, link)?;
    Ok(Some(forward(alloc, &link.target, query)?))
}

fn call_of(
    alloc: Global,
    local: &Local,
    wanted: Option<u32>,
    offer: &FoundOffer,
    part: &ProxyPart,
) -> Result<Option<Next>, Memory>
    ensures { IfOk result (λ step. step ≡ call_of local.now wanted offer.now part.now) }
{
    if is_full(wanted) || !has_hops(local) {
        return Ok(None);
    }
    match expanded(alloc, &local.query.constraint, offer, part)? {
        None => Ok(None),
        Some(constraint) => {
            let query = sub_query_for_proxy(alloc, local, wanted, part, constraint)?;
            Ok(Some(forward(alloc, offer.reference(), query)?))
        }
    }
}

#[tactic(auto, unfolding(td_walk::specs::SubQueries::proxy_step))]
fn proxy_step(
    alloc: Global,
    local: &Local,
    wanted: Option<u32>,
    offer: &FoundOffer,
) -> Result<Option<Next>, Memory>
    ensures { IfOk result (λ step. step ≡ proxy_step local.now wanted offer.now) }
{
    match offer.proxy() {
        None => Ok(None),
        Some(part) => call_of(alloc, local, wanted, offer, part),
    }
}

/// How many offers an answer gives.
fn count_offers(answer: &StepAnswer) -> usize
    ensures { result ≡ length (sub_answer answer.now).offers }
{
    match answer {
        StepAnswer::Offers(given) => given.offers.len(),
        StepAnswer::Evaluated(_) => 0,
        StepAnswer::Failed => 0,
    }
}

/// How many offers are still wanted behind an answer.
#[tactic(auto, using(crate::proofs::Turns::fewer))]
fn less(wanted: Option<u32>, answer: &StepAnswer) -> Option<u32>
    ensures { result ≡ less wanted (sub_answer answer.now) }
{
    fewer_wanted(wanted, count_offers(answer))
}

/// What is asked at this step: its question, where there is no answer to it; an answer is passed by, and its offers
/// are wanted no more.
#[tactic(auto, using(crate::proofs::Turns::pass_steps))]
fn pass(step: Option<Next>, answers: &[StepAnswer], others: &mut Others) -> Option<Next>
    requires { others.old.given ≤ length answers.now }
    ensures asks { result ≡ step_asks step (drop others.old.given answers.now) }
    ensures passes { others.new ≡ passed_by step (drop others.old.given answers.now) others.old }
{
    let question = step?;
    let (_given, left) = answers.split_at(others.given);
    match left.split_first() {
        None => Some(question),
        Some((answer, _left)) => {
            drop(question);
            pass_answer(answer, others);
            None
        }
    }
}

/// Whether a link's trader is asked: where offers are wanted, and the link is followed.
#[tactic(auto, unfolding(td_walk::specs::SubQueries::link_step))]
fn is_asked(local: &Local, others: &Others, link: &LinkRecord) -> bool
    ensures { result
        ≡ is_some (link_step local.now others.now.wanted others.now.local_match link.now) }
{
    !is_full(others.wanted) && follows(local, others.local_match, link)
}

/// One answer more is passed by: its offers are wanted no more.
fn pass_answer(answer: &StepAnswer, others: &mut Others)
    requires { others.old.given < 2 ^ 63 }
    ensures { others.new ≡ with_answer others.old (sub_answer answer.now) }
{
    others.wanted = less(others.wanted, answer);
    others.given += 1;
}

/// The question to a link's trader, where there is no answer to it. One to which there is an answer isn't put together
/// again: the answer is passed by.
#[tactic(auto, using(crate::proofs::Turns::link_steps))]
fn ask_over_link(
    alloc: Global,
    local: &Local,
    link: &LinkRecord,
    answers: &[StepAnswer],
    others: &mut Others,
) -> Result<Option<Next>, Memory>
    requires { others.old.given ≤ length answers.now }
    ensures asks { IfOk result (λ question. question ≡ step_asks
        (link_step local.now others.old.wanted others.old.local_match link.now)
        (drop others.old.given answers.now)) }
    ensures passes { OnOk result (others.new ≡ passed_by
        (link_step local.now others.old.wanted others.old.local_match link.now)
        (drop others.old.given answers.now) others.old) }
{
    let (_given, left) = answers.split_at(others.given);
    match left.split_first() {
        None => link_step(alloc, local, others.wanted, others.local_match, link),
        Some((answer, _left)) => {
            if is_asked(local, others, link) {
                pass_answer(answer, others);
            }
            Ok(None)
        }
    }
}

/// Goes on with the proxy offers that matched, by number: calls their traders, as far as there are answers.
fn call_proxies(
    alloc: Global,
    local: &Local,
    found: &[Found],
    answers: &[StepAnswer],
    others: &mut Others,
) -> Result<Option<Next>, Memory>
    requires { IsPlaceInSearch local.now found.now answers.now others.old }
    ensures place { OnOk result (IsPlaceInSearch local.now found.now answers.now others.new) }
    ensures calls { IfOk result
        (λ question. CallsTo local.now found.now answers.now others.new question) }
{
    let (_passed, matched) = found.split_at(others.offers);
    for one in matched {
        let step = proxy_step(alloc, local, others.wanted, &one.offer)?;
        let question = pass(step, answers, others);
        if question.is_some() {
            return Ok(question);
        }
        others.offers += 1;
    }
    Ok(None)
}

/// The links, in the order of adding.
fn links_of(local: &Local) -> &[LinkRecord]
    ensures { result.now ≡ local.now.links }
{
    local.links.as_slice()
}

/// Goes on with the traders of the proxy offers, and then with those to which the links lead, in the order of adding.
#[tactic(auto, using(crate::proofs::Turns::called))]
fn ask_others(
    alloc: Global,
    local: &Local,
    found: &[Found],
    answers: &[StepAnswer],
    others: &mut Others,
) -> Result<Option<Next>, Memory>
    requires { IsPlaceInSearch local.now found.now answers.now others.old }
    ensures place { OnOk result (IsPlaceInSearch local.now found.now answers.now others.new) }
    ensures asks { IfOk result (λ question.
        Forwards (first_wanted local.now found.now)
        (steps local.now found.now) answers.now others.new.given question) }
{
    let called = call_proxies(alloc, local, found, answers, others)?;
    if called.is_some() {
        return Ok(called);
    }
    let (_passed, links) = links_of(local).split_at(others.links);
    for link in links {
        let question = ask_over_link(alloc, local, link, answers, others)?;
        if question.is_some() {
            return Ok(question);
        }
        others.links += 1;
    }
    Ok(None)
}

/// Asks the trader along the path.
#[tactic(auto, using(crate::proofs::Turns::along))]
fn ask_along(
    alloc: Global,
    local: &Local,
    link: &LinkRecord,
    answers: &[StepAnswer],
    others: &mut Others,
) -> Result<Option<Next>, Memory>
    requires { IsPlaceOnPath answers.now others.old }
    ensures place { OnOk result (IsPlaceOnPath answers.now others.new) }
    ensures asks { IfOk result (λ question.
        Forwards None (path_step local.now link.now ∷ []) answers.now others.new.given question) }
{
    match answers.split_first() {
        None => Ok(Some(path_question(alloc, local, link)?)),
        Some(_) => {
            others.given = 1;
            Ok(None)
        }
    }
}

/// Goes on with the questions to other traders, as far as there are answers.
///
/// # Errors
///
/// `Memory` only when out of memory.
#[tactic(auto, using(crate::proofs::Turns::by_path))]
pub(crate) fn ask(
    alloc: Global,
    local: &Local,
    found: &[Found],
    answers: &[StepAnswer],
    others: &mut Others,
) -> Result<Option<Next>, Memory>
    requires { IsPlace local.now found.now answers.now others.old }
    ensures place { OnOk result (IsPlace local.now found.now answers.now others.new) }
    ensures asks { IfOk result (λ question.
        ForwardsBy local.now.path local.now found.now answers.now others.new.given question) }
{
    match &local.path {
        None => ask_others(alloc, local, found, answers, others),
        Some(link) => ask_along(alloc, local, link, answers, others),
    }
}
