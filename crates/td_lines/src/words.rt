//! The words of a line.

ghost use Rattle.std.specs.Prelude.{◌≡◌, ◌<◌, ◌≤◌, false, length, slice_index, is_some, IfOk, IfSome};
ghost use Rattle.std.specs.List.{position};
ghost use Rattle.std.specs.Option.{option_map, option_copied};
ghost use Rattle.td_lines.specs.Words.{behind_space, cut_front, cut_word, five_words, four_words, is_blank};
ghost use Rattle.td_lines.specs.Words.{one_word, three_and_text, three_words, two_and_text, two_words, words};

use std::alloc::Global;
use td_cdr::{List, Memory, Text};

fn is_blank(byte: u8) -> bool
    ensures { result ≡ is_blank byte }
{
    byte == b' ' || byte == b'\t'
}

/// What is left of a line from its first word on.
fn skip_blanks(line: &[u8]) -> &[u8]
    ensures same { cut_word result.now ≡ cut_word line.now }
    ensures begins { 0 < length result.now → is_blank (slice_index result.now 0) ≡ false }
    ensures shorter { length result.now ≤ length line.now }
{
    let mut rest = line;
    while let Some((first, others)) = rest.split_first() {
        if !is_blank(*first) {
            break;
        }
        rest = others;
    }
    rest
}

fn blank_place(line: &[u8]) -> Option<usize>
    ensures { result ≡ position is_blank line.now }
{
    line.iter().position(|byte| is_blank(*byte))
}

/// The word that a line begins with, and what stands right behind it.
fn cut_front(line: &[u8]) -> (&[u8], &[u8])
    ensures { (result.0.now, result.1.now) ≡ cut_front line.now }
{
    let end = blank_place(line).unwrap_or(line.len());
    line.split_at(end)
}

/// The first word of a line, and what stands right behind it.
pub(crate) fn cut_word(line: &[u8]) -> Option<(&[u8], &[u8])>
    ensures cut { option_map (λ c. (c.0.now, c.1.now)) result ≡ cut_word line.now }
    ensures shorter { IfSome result (λ c. length c.1.now < length line.now) }
{
    let rest = skip_blanks(line);
    if rest.is_empty() {
        return None;
    }
    Some(cut_front(rest))
}

fn has_word(line: &[u8]) -> bool
    ensures { result ≡ is_some (cut_word line.now) }
{
    cut_word(line).is_some()
}

/// The words of a line, in order.
///
/// # Errors
///
/// `Memory` only when out of memory.
pub(crate) fn words_of(alloc: Global, line: &[u8]) -> Result<List<Text>, Memory>
    ensures { IfOk result (λ found. found ≡ words line.now) }
{
    let mut found = List::new(alloc);
    let mut rest = line;
    'words: loop {
        match cut_word(rest) {
            Some((word, others)) => {
                found.push(Text::from_slice(alloc, word)?)?;
                rest = others;
            }
            None => return Ok(found),
        }
    }
}

/// The word of a line that has one.
#[tactic(auto, unfolding(crate::specs::Words::one_word))]
pub(crate) fn one_word(line: &[u8]) -> Option<&[u8]>
    ensures { option_copied result ≡ one_word line.now }
{
    let (a, rest) = cut_word(line)?;
    if has_word(rest) { None } else { Some(a) }
}

/// The words of a line that has two.
#[tactic(auto, unfolding(crate::specs::Words::two_words))]
pub(crate) fn two_words(line: &[u8]) -> Option<(&[u8], &[u8])>
    ensures { option_map (λ w. (w.0.now, w.1.now)) result ≡ two_words line.now }
{
    let (a, rest) = cut_word(line)?;
    let (b, rest) = cut_word(rest)?;
    if has_word(rest) { None } else { Some((a, b)) }
}

/// The words of a line that has three.
#[tactic(auto, unfolding(crate::specs::Words::three_words))]
pub(crate) fn three_words(line: &[u8]) -> Option<(&[u8], &[u8], &[u8])>
    ensures { option_map (λ w. (w.0.now, w.1.now, w.2.now)) result ≡ three_words line.now }
{
    let (a, rest) = cut_word(line)?;
    let (b, rest) = cut_word(rest)?;
    let (c, rest) = cut_word(rest)?;
    if has_word(rest) {
        None
    } else {
        Some((a, b, c))
    }
}

/// The words of a line that has four.
#[tactic(auto, unfolding(crate::specs::Words::four_words))]
pub(crate) fn four_words(line: &[u8]) -> Option<(&[u8], &[u8], &[u8], &[u8])>
    ensures { option_map (λ w. (w.0.now, w.1.now, w.2.now, w.3.now)) result ≡ four_words line.now }
{
    let (a, rest) = cut_word(line)?;
    let (b, rest) = cut_word(rest)?;
    let (c, rest) = cut_word(rest)?;
    let (d, rest) = cut_word(rest)?;
    if has_word(rest) {
        None
    } else {
        Some((a, b, c, d))
    }
}

/// The words of a line that has five.
#[tactic(auto, unfolding(crate::specs::Words::five_words))]
pub(crate) fn five_words(line: &[u8]) -> Option<(&[u8], &[u8], &[u8], &[u8], &[u8])>
    ensures { option_map (λ w. (w.0.now, w.1.now, w.2.now, w.3.now, w.4.now)) result
        ≡ five_words line.now }
{
    let (a, rest) = cut_word(line)?;
    let (b, rest) = cut_word(rest)?;
    let (c, rest) = cut_word(rest)?;
    let (d, rest) = cut_word(rest)?;
    let (e, rest) = cut_word(rest)?;
    if has_word(rest) {
        None
    } else {
        Some((a, b, c, d, e))
    }
}

/// What stands behind a space.
fn behind_space(rest: &[u8]) -> Option<&[u8]>
    ensures { option_copied result ≡ behind_space rest.now }
{
    rest.strip_prefix(b" ".as_slice())
}

/// Two words, and the rest of the line behind a space.
#[tactic(auto, unfolding(crate::specs::Words::two_and_text))]
pub(crate) fn two_and_text(line: &[u8]) -> Option<(&[u8], &[u8], &[u8])>
    ensures { option_map (λ w. (w.0.now, w.1.now, w.2.now)) result ≡ two_and_text line.now }
{
    let (a, rest) = cut_word(line)?;
    let (b, rest) = cut_word(rest)?;
    let text = behind_space(rest)?;
    Some((a, b, text))
}

/// Three words, and the rest of the line behind a space.
#[tactic(auto, unfolding(crate::specs::Words::three_and_text))]
pub(crate) fn three_and_text(line: &[u8]) -> Option<(&[u8], &[u8], &[u8], &[u8])>
    ensures { option_map (λ w. (w.0.now, w.1.now, w.2.now, w.3.now)) result
        ≡ three_and_text line.now }
{
    let (a, rest) = cut_word(line)?;
    let (b, rest) = cut_word(rest)?;
    let (c, rest) = cut_word(rest)?;
    let text = behind_space(rest)?;
    Some((a, b, c, text))
}
