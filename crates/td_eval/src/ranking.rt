//! In which order offers are wanted (Trading Object Service, "Preferences").

ghost use Rattle.std.specs.Prelude.{◌≡◌, ℕ, ◌+◌, ◌-◌, pos, int_lt, length, vec_len, if◌then◌else◌, Some, None};
ghost use Rattle.std.specs.Prelude.{option_map, IfOk, OnOk, OnErr};
ghost use Rattle.std.specs.Ordering.{is_lt};
ghost use Rattle.td_eval.specs.Ranks.{pair};
ghost use Rattle.td_eval.specs.Ranking.{number_of, truth_of, rank_of, descends, comes_first, goes_before, IsArranged};
ghost use Rattle.td_eval.specs.Ranking.{shuffle_of, draw_count, IsRanked};
ghost use Rattle.td_eval.specs.Values.{simple_value};

use crate::arithmetic::times;
use crate::evaluation::{self, operand_of};
use crate::simple::Operand;
use std::cmp::Ordering;
use td_cdr::{List, Memory};
use td_lang::{Expr, Preference};
use td_out::Words;
use td_value::{Offer, Property};

/// What ranks an offer: a fraction, whose denominator is positive.
#[derive(Clone, Copy)]
pub(crate) struct Key {
    numerator: i64,
    denominator: i64,
}

/// The number that an expression gives. Each value's denominator is positive, and it is asked here, so that the
/// order of ranks is one whatever made them.
fn number_of(e: &Expr, map: &[Property]) -> Option<Key>
    ensures { option_map pair result ≡ number_of (simple_value map.now e.now) }
{
    match operand_of(e, map) {
        Some(Operand::Number(numerator, denominator)) => positive(numerator, denominator),
        _ => None,
    }
}

fn positive(numerator: i64, denominator: i64) -> Option<Key>
    ensures { option_map pair result
        ≡ (if int_lt (pos 0) denominator then Some (numerator, denominator) else None) }
{
    if 0 < denominator {
        Some(Key {
            numerator,
            denominator,
        })
    } else {
        None
    }
}

/// The rank of a truth value: FALSE below TRUE.
fn truth_of(e: &Expr, map: &[Property]) -> Option<Key>
    ensures { option_map pair result ≡ truth_of (simple_value map.now e.now) }
{
    match evaluation::truth_of(e, map) {
        Some(true) => Some(Key {
            numerator: 1,
            denominator: 1,
        }),
        Some(false) => Some(Key {
            numerator: 0,
            denominator: 1,
        }),
        None => None,
    }
}

/// What ranks an offer, where the preference's expression gives it.
#[tactic(auto, unfolding(crate::specs::Ranking::rank_of))]
fn rank_of(preference: &Preference, offer: &Offer) -> Option<Key>
    ensures { option_map pair result ≡ rank_of preference.now offer.now }
{
    match preference {
        Preference::Min(e) | Preference::Max(e) => number_of(e, offer.properties.as_slice()),
        Preference::With(e) => truth_of(e, offer.properties.as_slice()),
        Preference::Empty | Preference::First | Preference::Random => None,
    }
}

/// Whether the greater rank comes first.
fn descends(preference: &Preference) -> bool
    ensures { result ≡ descends preference.now }
{
    matches!(preference, Preference::Max(_) | Preference::With(_))
}

fn order_of(descending: bool, x: Key, y: Key) -> Ordering
    ensures { is_lt result ≡ comes_first descending (Some (pair x)) (Some (pair y)) }
{
    let left = times(x.numerator, y.denominator);
    let right = times(y.numerator, x.denominator);
    if descending {
        number_order(right, left)
    } else {
        number_order(left, right)
    }
}

#[tactic(auto, using(crate::proofs::LessThan::lt_of_cmp))]
fn number_order(left: i128, right: i128) -> Ordering
    ensures { is_lt result ≡ int_lt left right }
{
    left.cmp(&right)
}

/// How two ranks are ordered: what has none comes last.
fn rank_order(descending: bool, first: Option<Key>, second: Option<Key>) -> Ordering
    ensures { is_lt result ≡ comes_first descending (option_map pair first)
        (option_map pair second) }
{
    match (first, second) {
        (Some(x), Some(y)) => order_of(descending, x, y),
        (Some(_), None) => Ordering::Less,
        (None, Some(_)) => Ordering::Greater,
        (None, None) => Ordering::Equal,
    }
}

/// How two offers are ordered.
fn compare(preference: &Preference, first: &Offer, second: &Offer) -> Ordering
    ensures { is_lt result ≡ goes_before preference.now first.now second.now }
{
    rank_order(
        descends(preference),
        rank_of(preference, first),
        rank_of(preference, second),
    )
}

/// Puts offers into order, and leaves those that tie as they stood.
fn sort(preference: &Preference, offers: &mut Vec<Offer>) -> Result<(), Memory>
    ensures { OnOk result (IsArranged preference.now offers.old.items offers.new.items) }
{
    offers.sort_by(|first, second| compare(preference, first, second))?;
    Ok(())
}

/// Exchanges offers by the words that are drawn, from the last place down.
fn shuffle<W: Words>(offers: &mut Vec<Offer>, words: &mut W)
    ensures exchanged { offers.new.items
        ≡ shuffle_of (W.word words.old) 0 (vec_len offers.old - 1) offers.old.items }
    ensures drawn { (k : ℕ) → W.word words.new k ≡ W.word words.old (k + (vec_len offers.old - 1)) }
    ensures seeding { W.last_seeding words.new ≡ W.last_seeding words.old }
    ensures same { W.same words.old words.new }
{
    for below in (0..offers.len().saturating_sub(1)).rev() {
        let place = below + 1;
        let word = words.next();
        let other = word % (place as u64 + 1);
        offers.swap(place, other as usize);
    }
}

/// The offers in the order that the preference asks for. `Min`, `Max` and `With` leave offers that tie as they
/// stood, and put those last, in their order, for which the expression gives no number, or for `With` no truth
/// value. `Random` draws one word for each place from the last one down to place 1.
///
/// # Errors
///
/// `Memory` only when out of memory; no word was then drawn.
pub fn rank<W: Words>(
    preference: &Preference,
    offers: List<Offer>,
    words: &mut W,
) -> Result<List<Offer>, Memory>
    ensures ranked { IfOk result
        (λ ranked. IsRanked preference.now (W.word words.old) offers ranked) }
    ensures drawn { OnOk result
        ((k : ℕ) → W.word words.new k
        ≡ W.word words.old (k + draw_count preference.now (length offers))) }
    ensures kept { OnErr result ((k : ℕ) → W.word words.new k ≡ W.word words.old k) }
    ensures seeding { W.last_seeding words.new ≡ W.last_seeding words.old }
    ensures same { W.same words.old words.new }
{
    let mut offers = offers.into_vec();
    match preference {
        Preference::Empty | Preference::First => {}
        Preference::Random => shuffle(&mut offers, words),
        Preference::Min(_) | Preference::Max(_) | Preference::With(_) => {
            sort(preference, &mut offers)?;
        }
    }
    Ok(List::from_vec(offers))
}
