//! What a proxy offer's recipe makes (Trading Object Service, "Proxy").

ghost use Rattle.std.specs.Prelude.{◌≡◌, ◌++◌, vec_len, IfOk, OnOk};
ghost use Rattle.td_lang.specs.Spelling.{needs_backslash, inside_quotes};
ghost use Rattle.td_eval.specs.Operands.{view};
ghost use Rattle.td_eval.specs.Expansion.{number_literal, text_literal, truth_literal, literal, importer_text};
ghost use Rattle.td_eval.specs.Expansion.{part_text, expansion};
ghost use Rattle.td_eval.specs.Putting.{PutsText};

use crate::property::simple_named;
use crate::simple::Operand;
use std::alloc::Global;
use td_cdr::{List, Memory, Text, has_nul};
use td_lang::{Part, Recipe};
use td_value::Property;

/// The most bytes of an expansion.
const LONGEST: usize = 65_536;

fn put_number(alloc: Global, out: &mut Vec<u8>, number: i64) -> Result<(), Memory>
    ensures { OnOk result (out.new.items ≡ out.old.items ++ number_literal number) }
{
    if number < 0 {
        out.push(b'-')?;
    }
    let size = number.unsigned_abs();
    let digits = format!(in alloc; "{size}")?;
    out.extend_from_slice(digits.as_bytes())?;
    Ok(())
}

/// Whether a byte of a quoted text has a backslash in front.
fn needs_backslash(byte: u8) -> bool
    ensures { result ≡ needs_backslash byte }
{
    byte == b'\'' || byte == b'\\'
}

/// The bytes of a quoted text, without the quotes.
fn put_inside(out: &mut Vec<u8>, text: &[u8]) -> Result<(), Memory>
    ensures { OnOk result (out.new.items ≡ out.old.items ++ inside_quotes text.now) }
{
    for byte in text {
        if needs_backslash(*byte) {
            out.push(b'\\')?;
        }
        out.push(*byte)?;
    }
    Ok(())
}

fn put_text(out: &mut Vec<u8>, text: &[u8]) -> Result<(), Memory>
    ensures { OnOk result (out.new.items ≡ out.old.items ++ text_literal text.now) }
{
    out.push(b'\'')?;
    put_inside(out, text)?;
    out.push(b'\'')?;
    Ok(())
}

fn truth_literal(truth: bool) -> &'static [u8]
    ensures { result.now ≡ truth_literal truth }
{
    if truth {
        b"TRUE".as_slice()
    } else {
        b"FALSE".as_slice()
    }
}

/// Puts a value's literal behind the bytes, and answers whether it has one.
fn put_literal(alloc: Global, out: &mut Vec<u8>, value: Operand) -> Result<bool, Memory>
    ensures { IfOk result (λ put.
        PutsText (literal (view value.entry)) out.old.items out.new.items put) }
{
    match value {
        Operand::Number(numerator, denominator) => {
            if denominator != 1 {
                return Ok(false);
            }
            put_number(alloc, out, numerator)?;
            Ok(true)
        }
        Operand::Text(text) => {
            if has_nul(text) {
                return Ok(false);
            }
            put_text(out, text)?;
            Ok(true)
        }
        Operand::Truth(truth) => {
            out.extend_from_slice(truth_literal(truth))?;
            Ok(true)
        }
    }
}

/// The importer's constraint as it is passed on.
fn importer_text(constraint: &[u8]) -> &[u8]
    ensures { result.now ≡ importer_text constraint.now }
{
    match constraint {
        [] => b"TRUE".as_slice(),
        _ => constraint,
    }
}

/// Puts what a part gives behind the bytes, and answers whether it gives something.
#[tactic(auto, unfolding(crate::specs::Expansion::part_text))]
fn put_part(
    alloc: Global,
    out: &mut Vec<u8>,
    part: &Part,
    constraint: &[u8],
    map: &[Property],
) -> Result<bool, Memory>
    ensures { IfOk result (λ put. PutsText (part_text constraint.now map.now part.now)
        out.old.items out.new.items put) }
{
    match part {
        Part::Byte(byte) => {
            out.push(*byte)?;
            Ok(true)
        }
        Part::Constraint => {
            out.extend_from_slice(importer_text(constraint))?;
            Ok(true)
        }
        Part::Property(name) => match simple_named(map, name.as_slice()) {
            None => Ok(false),
            Some(value) => put_literal(alloc, out, value),
        },
    }
}

/// What the recipe makes of the importer's constraint and the proxy offer's properties: the concatenation of
/// what its parts give. There is none where a named property is absent, dynamic, a list, outside the languages'
/// numbers or a text with a NUL, and where there would be more than 65,536 bytes.
///
/// # Errors
///
/// `Memory` only when out of memory.
#[tactic(auto, using(crate::proofs::Parts::by_part))]
pub fn expand_recipe(
    alloc: Global,
    recipe: &Recipe,
    constraint: &Text,
    map: &List<Property>,
) -> Result<Option<Text>, Memory>
    ensures { IfOk result (λ text. text ≡ expansion constraint.now map.now recipe.now.parts) }
{
    let constraint = constraint.as_slice();
    let map = map.as_slice();
    let parts = recipe.parts.as_slice();
    let mut out = Vec::new(alloc);
    for part in parts {
        let put = put_part(alloc, &mut out, part, constraint, map)?;
        if !put {
            return Ok(None);
        }
        if out.len() > LONGEST {
            return Ok(None);
        }
    }
    Ok(Some(Text::from_vec(out)))
}
