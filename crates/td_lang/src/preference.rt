//! Reading preferences.

ghost use Rattle.std.specs.Prelude.{◌≡◌, ◌≤◌, drop, length, IfOk, IfSome};
ghost use Rattle.td_lang.specs.declared.expr.Preference.{Preference};
ghost use Rattle.td_lang.specs.Constraints.{UnlessMemory};
ghost use Rattle.td_lang.specs.Lexing.{GivesFault};
ghost use Rattle.td_lang.specs.Preferences.{Prefers, LooksAhead, preference_of, tape_preference, spot_preference};
ghost use Rattle.td_lang.specs.Preferences.{behind};
ghost use Rattle.td_lang.specs.Preferences.{alone};
ghost use Rattle.td_lang.specs.Tape.{tape};

use crate::constraint::LONGEST;
use crate::expr::Preference;
use crate::fault::LangFault;
use crate::lexer::{blank_length, token_at};
use crate::reader::read_from;
use crate::token::{Keyword, Token};
use std::alloc::Global;

/// The preference of a text: `Empty` where it has nothing but blanks, `first`, `random`, or `min`, `max` or
/// `with` and an expression (Trading Object Service, "Preferences").
///
/// # Errors
///
/// `TooLong` above 4,096 bytes. Otherwise the first fault in reading order: `Float` at a number with a
/// fraction or an exponent, `Depth` at the 65th open parenthesis, `Syntax` at the first token that no
/// preference has there, or at the length where the text ends early. `Memory` only when out of memory.
#[tactic(auto, using(crate::proofs::PreferenceReading::said))]
pub fn read_preference(alloc: Global, text: &[u8]) -> Result<Preference, LangFault>
    ensures says { UnlessMemory (Prefers text.now) result }
    ensures gives { GivesFault (λ p. p) result (preference_of text.now) }
{
    find_preference(alloc, text)
}

fn find_preference(alloc: Global, text: &[u8]) -> Result<Preference, LangFault>
    ensures { GivesFault (λ p. p) result (preference_of text.now) }
{
    if text.len() > LONGEST {
        return Err(LangFault::TooLong);
    }
    choose(alloc, text)
}

fn choose(alloc: Global, text: &[u8]) -> Result<Preference, LangFault>
    requires { length text.now ≤ 4096 }
    ensures { GivesFault (λ p. p) result (tape_preference (tape 0 0 text.now)) }
{
    match next_token(alloc, text, 0)? {
        None => Ok(Preference::Empty),
        Some((place, token, next)) => {
            let Token::Keyword(word) = token else {
                return Err(LangFault::Syntax(place));
            };
            behind(alloc, text, word, next)
        }
    }
}

/// The next token of a text from a place on: its place, and where the text goes on behind it.
fn next_token(alloc: Global, text: &[u8], from: u32) -> Result<Option<(u32, Token, u32)>, LangFault>
    requires short { length text.now ≤ 4096 }
    requires place { from ≤ length text.now }
    ensures looks { LooksAhead text.now (tape 0 from (drop from text.now)) result }
    ensures within { IfOk result (λ found. IfSome found (λ t. t.2 ≤ length text.now)) }
{
    let (_, rest) = text.split_at(from as usize);
    let blanks = blank_length(rest);
    if blanks == rest.len() {
        return Ok(None);
    }
    let (_, solid) = rest.split_at(blanks);
    let place = from + blanks as u32;
    match token_at(alloc, place, solid) {
        Ok((token, size)) => Ok(Some((place, token, place + size as u32))),
        Err(fault) => Err(fault),
    }
}

/// The preference that begins with a word, where the text goes on at a place.
fn behind(alloc: Global, text: &[u8], word: Keyword, place: u32) -> Result<Preference, LangFault>
    requires short { length text.now ≤ 4096 }
    requires place { place ≤ length text.now }
    ensures { GivesFault (λ p. p) result (behind word (tape 0 place (drop place text.now))) }
{
    match word {
        Keyword::First => match end_at(alloc, text, place) {
            Ok(()) => Ok(Preference::First),
            Err(fault) => Err(fault),
        },
        Keyword::Random => match end_at(alloc, text, place) {
            Ok(()) => Ok(Preference::Random),
            Err(fault) => Err(fault),
        },
        Keyword::Min => Ok(Preference::Min(read_from(alloc, text, place)?)),
        Keyword::Max => Ok(Preference::Max(read_from(alloc, text, place)?)),
        Keyword::With => Ok(Preference::With(read_from(alloc, text, place)?)),
    }
}

/// Refuses a token from a place on.
fn end_at(alloc: Global, text: &[u8], place: u32) -> Result<(), LangFault>
    requires short { length text.now ≤ 4096 }
    requires place { place ≤ length text.now }
    ensures { (p : Preference)
        → GivesFault (λ _. p) result (alone p (tape 0 place (drop place text.now))) }
{
    match next_token(alloc, text, place)? {
        None => Ok(()),
        Some((other, _token, _next)) => Err(LangFault::Syntax(other)),
    }
}
