//! What a visit answers (OMG's Trading Object Service, interface Lookup, query, limits_applied).

ghost use Rattle.std.specs.Prelude.{◌≡◌, ℕ, ◌++◌, ◌+◌, take, IfOk, OnOk, OnErr};
ghost use Rattle.std.specs.List.{flat_map, list_any};
ghost use Rattle.td_cdr.specs.Seen.{is_among};
ghost use Rattle.td_walk.specs.Answers.{offer_of, own_offers, joined_offers, is_limit, limit, limits_applied};
ghost use Rattle.td_walk.specs.Answers.{drawn_by, IsRankedAnswer};
ghost use Rattle.td_store.specs.Candidates.{has_dynamic};
ghost use Rattle.td_walk.specs.Resolving.{resolved};

use std::alloc::Global;
use td_cdr::{List, Memory, Shared, Text};
use td_eval::rank;
use td_ops::is_among;
use td_out::Words;
use td_store::Local;
use td_value::Offer;
use td_walk::{Evaluation, Found, Gathered, SubAnswer, resolved};

/// The offer with its properties after these evaluations. Those of which none is dynamic stay as they are.
#[tactic(auto, using(crate::proofs::Resolved::as_they_are))]
fn resolve(
    alloc: Global,
    made: &[Evaluation],
    dynamic: bool,
    offer: &mut Offer,
) -> Result<(), Memory>
    requires { dynamic ≡ has_dynamic offer.old.properties }
    ensures { OnOk result (offer.new
        ≡ record {
          reference = offer.old.reference;
          properties = resolved made.now offer.old.properties;
        }) }
{
    if !dynamic {
        return Ok(());
    }
    let resolved = resolved(alloc, made, offer.properties.as_slice())?;
    offer.properties = Shared::new(alloc, resolved)?;
    Ok(())
}

/// The offer as it is answered.
fn offer_of(alloc: Global, one: Found) -> Result<Offer, Memory>
    ensures { IfOk result (λ offer. offer ≡ offer_of one) }
{
    let Found { offer, made } = one;
    let dynamic = offer.has_dynamic();
    let mut offer = offer.into_offer();
    match resolve(alloc, made.as_slice(), dynamic, &mut offer) {
        Ok(()) => Ok(offer),
        Err(memory) => {
            drop(offer);
            Err(memory)
        }
    }
}

/// Adds the ordinary offers that matched, as resolved.
fn add_own(alloc: Global, offers: &mut Vec<Offer>, found: List<Found>) -> Result<(), Memory>
    ensures { OnOk result (offers.new.items ≡ offers.old.items ++ own_offers found) }
{
    for one in found.into_vec() {
        if one.offer.is_ordinary() {
            offers.push(offer_of(alloc, one)?)?;
        }
    }
    Ok(())
}

/// Adds the offers of the other traders.
fn add_given(offers: &mut Vec<Offer>, given: List<SubAnswer>) -> Result<(), Memory>
    ensures { OnOk result (offers.new.items ≡ offers.old.items ++ flat_map (λ a. a.offers) given) }
{
    for answer in given.into_vec() {
        let mut more = answer.offers.into_vec();
        offers.append(&mut more)?;
    }
    Ok(())
}

fn joined(alloc: Global, gathered: Gathered) -> Result<List<Offer>, Memory>
    ensures { IfOk result (λ offers. offers ≡ joined_offers gathered) }
{
    let Gathered { found, given } = gathered;
    let mut offers = Vec::new(alloc);
    add_own(alloc, &mut offers, found)?;
    add_given(&mut offers, given)?;
    Ok(List::from_vec(offers))
}

/// Whether another trader names the limit.
fn is_given(given: &[SubAnswer], name: &[u8]) -> bool
    ensures { result ≡ list_any (λ a. is_among name.now a.limits) given.now }
{
    given
        .iter()
        .any(|answer| is_among(name, answer.limits.as_slice()))
}

fn is_limit(over: &[Text], given: &[SubAnswer], name: &[u8]) -> bool
    ensures { result ≡ is_limit over.now given.now name.now }
{
    is_among(name, over) || is_given(given, name)
}

fn add_limit(
    alloc: Global,
    limits: &mut List<Text>,
    name: &[u8],
    over: &[Text],
    given: &[SubAnswer],
) -> Result<(), Memory>
    ensures { OnOk result (limits.new ≡ limits.old ++ limit over.now given.now name.now) }
{
    if is_limit(over, given, name) {
        limits.push(Text::from_slice(alloc, name)?)
    } else {
        Ok(())
    }
}

/// The names of the policies that limited the query, in order. Mostly no limit was met, and none is looked for.
#[tactic(auto, using(crate::proofs::Unlimited::none_applied))]
fn limits_applied(
    alloc: Global,
    over: &List<Text>,
    given: &List<SubAnswer>,
) -> Result<List<Text>, Memory>
    ensures { IfOk result (λ limits. limits ≡ limits_applied over.now given.now) }
{
    if over.is_empty() && given.is_empty() {
        return Ok(List::new(alloc));
    }
    name_limits(alloc, over.as_slice(), given.as_slice())
}

/// The same, of which each name is looked for.
fn name_limits(alloc: Global, over: &[Text], given: &[SubAnswer]) -> Result<List<Text>, Memory>
    ensures { IfOk result (λ limits. limits ≡ limits_applied over.now given.now) }
{
    let mut limits = List::new(alloc);
    add_limit(alloc, &mut limits, b"hop_count", over, given)?;
    add_limit(alloc, &mut limits, b"link_follow_rule", over, given)?;
    add_limit(alloc, &mut limits, b"match_card", over, given)?;
    add_limit(alloc, &mut limits, b"return_card", over, given)?;
    add_limit(alloc, &mut limits, b"search_card", over, given)?;
    Ok(limits)
}

/// The first so many offers.
fn cut(offers: List<Offer>, most: u32) -> List<Offer>
    ensures { result ≡ take most offers }
{
    let mut offers = offers.into_vec();
    offers.truncate(most as usize);
    List::from_vec(offers)
}

/// What the visit answers: the offers in the order of the preference, cut, with the limits.
///
/// # Errors
///
/// `Memory` only when out of memory; no word was then drawn.
pub(crate) fn answer_of<W: Words>(
    alloc: Global,
    local: &Local,
    gathered: Gathered,
    words: &mut W,
) -> Result<SubAnswer, Memory>
    ensures answer { IfOk result (λ a. IsRankedAnswer local.now gathered (W.word words.old) a) }
    ensures drawn { OnOk result
        ((k : ℕ) → W.word words.new k ≡ W.word words.old (k + drawn_by local.now gathered)) }
    ensures kept { OnErr result ((k : ℕ) → W.word words.new k ≡ W.word words.old k) }
    ensures seeding { W.last_seeding words.new ≡ W.last_seeding words.old }
    ensures same { W.same words.old words.new }
{
    let limits = limits_applied(alloc, &local.effective.over, &gathered.given)?;
    let offers = joined(alloc, gathered)?;
    let ranked = rank(&local.preference, offers, words)?;
    Ok(SubAnswer {
        offers: cut(ranked, local.effective.return_card),
        limits,
    })
}
