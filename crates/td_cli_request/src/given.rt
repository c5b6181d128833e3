//! Words that may be missing, and rules.

ghost use Rattle.std.specs.Prelude.{option_map};
ghost use Rattle.td_forms.specs.Words.{rule_named};
ghost use Rattle.td_cli_request.specs.Forms.{ParsesTo};
ghost use Rattle.td_cli_request.specs.Given.{how_many_in, number_given, octets_given, octets_in, rule_given, number_in};

use crate::fault::AskFault;
use hex::FromHexError;
use std::alloc::Global;
use td_cdr::Octets;
use td_forms::rule_named;
use td_ior::number_up_to;
use td_value::FollowOption;

/// How many offers are asked for where the words don't say.
const HOW_MANY: u32 = 100;

/// The number below 2^32 that a word spells.
fn parse_number_word(word: &str) -> Result<u32, AskFault>
    ensures { ParsesTo (number_in word.now) result }
{
    match number_up_to(word.as_bytes(), 4294967295) {
        Some(number) => Ok(number as u32),
        None => Err(AskFault::Form),
    }
}

/// The number that a word spells, where there is a word.
pub(crate) fn number_given(word: Option<&str>) -> Result<Option<u32>, AskFault>
    ensures { ParsesTo (number_given (option_map (λ w. w.now) word.entry)) result }
{
    let Some(word) = word else {
        return Ok(None);
    };
    let number = parse_number_word(word)?;
    Ok(Some(number))
}

/// How many offers are asked for.
pub(crate) fn parse_how_many(word: Option<&str>) -> Result<u32, AskFault>
    ensures { ParsesTo (how_many_in (option_map (λ w. w.now) word.entry)) result }
{
    match word {
        None => Ok(HOW_MANY),
        Some(word) => parse_number_word(word),
    }
}

/// The rule that a word stands for.
pub(crate) fn parse_rule(word: &str) -> Result<FollowOption, AskFault>
    ensures { ParsesTo (rule_named word.now) result }
{
    match rule_named(word.as_bytes()) {
        Some(rule) => Ok(rule),
        None => Err(AskFault::Form),
    }
}

/// The rule that a word stands for, where there is a word.
pub(crate) fn rule_given(word: Option<&str>) -> Result<Option<FollowOption>, AskFault>
    ensures { ParsesTo (rule_given (option_map (λ w. w.now) word.entry)) result }
{
    let Some(word) = word else {
        return Ok(None);
    };
    let rule = parse_rule(word)?;
    Ok(Some(rule))
}

/// The octets that hexadecimal digits spell.
fn parse_octets(alloc: Global, digits: &str) -> Result<Octets, AskFault>
    ensures { ParsesTo (octets_in digits.now) result }
{
    match hex::decode(alloc, digits.as_bytes()) {
        Ok(octets) => Ok(Octets::from_vec(octets)),
        Err(FromHexError::OutOfMemory) => Err(AskFault::Memory),
        Err(_) => Err(AskFault::Form),
    }
}

/// The octets that a word spells in hexadecimal digits, where there is a word.
pub(crate) fn octets_given(alloc: Global, word: Option<&str>) -> Result<Option<Octets>, AskFault>
    ensures { ParsesTo (octets_given (option_map (λ w. w.now) word.entry)) result }
{
    let Some(digits) = word else {
        return Ok(None);
    };
    let octets = parse_octets(alloc, digits)?;
    Ok(Some(octets))
}
