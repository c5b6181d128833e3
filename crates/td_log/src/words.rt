//! The words of a line.

ghost use Rattle.std.specs.Prelude.{◌≡◌, ◌<◌, ◌≤◌, [], ◌∷◌, ◌++◌, length, nat_eq, is_some, IfOk, IfSome};
ghost use Rattle.std.specs.List.{position};
ghost use Rattle.std.specs.Option.{option_map, option_copied};
ghost use Rattle.td_ior.specs.Number.{number_of};
ghost use Rattle.td_log.specs.Words.{cut_word, numbers_of, one_number, one_word, three_words, two_words};

use std::alloc::Global;
use td_cdr::{List, Memory};
use td_ior::number_of;

fn space_place(text: &[u8]) -> Option<usize>
    ensures { result ≡ position (λ b. nat_eq b 32) text.now }
{
    text.iter().position(|byte| *byte == b' ')
}

/// The word before the first space, and what stands behind that space.
#[tactic(auto, unfolding(crate::specs::Words::cut_word))]
pub(crate) fn cut_word(text: &[u8]) -> Option<(&[u8], &[u8])>
    ensures cut { option_map (λ c. (c.0.now, c.1.now)) result ≡ cut_word text.now }
    ensures word { IfSome result (λ c. length c.0.now ≤ length text.now) }
    ensures shorter { IfSome result (λ c. length c.1.now < length text.now) }
{
    let place = space_place(text)?;
    Some((&text[..place], &text[place + 1..]))
}

fn has_space(text: &[u8]) -> bool
    ensures { result ≡ is_some (cut_word text.now) }
{
    cut_word(text).is_some()
}

/// A text without a space.
pub(crate) fn one_word(text: &[u8]) -> Option<&[u8]>
    ensures word { option_copied result ≡ one_word text.now }
    ensures within { IfSome result (λ w. length w.now ≤ length text.now) }
{
    if has_space(text) { None } else { Some(text) }
}

/// The words of a text that has two.
#[tactic(auto, unfolding(crate::specs::Words::two_words))]
pub(crate) fn two_words(text: &[u8]) -> Option<(&[u8], &[u8])>
    ensures words { option_map (λ w. (w.0.now, w.1.now)) result ≡ two_words text.now }
    ensures within { IfSome result (λ w. length w.1.now ≤ length text.now) }
{
    let (first, rest) = cut_word(text)?;
    let second = one_word(rest)?;
    Some((first, second))
}

/// The words of a text that has three.
#[tactic(auto, unfolding(crate::specs::Words::three_words))]
pub(crate) fn three_words(text: &[u8]) -> Option<(&[u8], &[u8], &[u8])>
    ensures words { option_map (λ w. (w.0.now, w.1.now, w.2.now)) result ≡ three_words text.now }
    ensures second { IfSome result (λ w. length w.1.now ≤ length text.now) }
    ensures third { IfSome result (λ w. length w.2.now ≤ length text.now) }
{
    let (first, rest) = cut_word(text)?;
    let (second, rest) = cut_word(rest)?;
    let third = one_word(rest)?;
    Some((first, second, third))
}

/// The number that a text of one word spells.
pub(crate) fn one_number(text: &[u8]) -> Option<u64>
    ensures { result ≡ one_number text.now }
{
    let word = one_word(text)?;
    number_of(word)
}

/// The numbers that a text spells, with one space between two.
///
/// # Errors
///
/// `Memory` only when out of memory.
pub(crate) fn numbers_of(alloc: Global, text: &[u8]) -> Result<Option<List<u64>>, Memory>
    ensures { IfOk result (λ ns. ns ≡ numbers_of text.now) }
{
    let mut numbers = List::new(alloc);
    let mut rest = text;
    'words: loop {
        match cut_word(rest) {
            Some((word, others)) => {
                let Some(number) = number_of(word) else {
                    return Ok(None);
                };
                numbers.push(number)?;
                rest = others;
            }
            None => return last_number(numbers, rest),
        }
    }
}

/// These numbers, and the one that the last word spells.
fn last_number(numbers: List<u64>, word: &[u8]) -> Result<Option<List<u64>>, Memory>
    ensures { IfOk result (λ ns. ns ≡ option_map (λ n. numbers ++ n ∷ []) (number_of word.now)) }
{
    let Some(number) = number_of(word) else {
        return Ok(None);
    };
    let mut numbers = numbers;
    numbers.push(number)?;
    Ok(Some(numbers))
}
