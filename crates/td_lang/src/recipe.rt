//! Recipes: how a proxy offer makes the constraint that it passes on.

ghost use Rattle.std.specs.Prelude.{◌≡◌, ◌<◌, ◌≤◌, nat_eq, length, IfOk, OnSome, IfSome};
ghost use Rattle.std.specs.List.{position};
ghost use Rattle.td_lang.specs.Recipes.{ReadsRecipe, part_in_front, escape_part, dollar_part, property_part};
ghost use Rattle.td_lang.specs.Recipes.{named_part};

use crate::constraint::LONGEST;
use crate::expr::{Part, Recipe};
use crate::fault::LangFault;
use std::alloc::Global;
use td_cdr::{List, Memory, Text, is_identifier};

/// The recipe that a text spells (Trading Object Service, "Proxy"): `$*` is the importer's constraint,
/// `$(name)` the property of that name, `\c` the byte c, and any other byte itself. The name is an
/// identifier, with nothing round it.
///
/// # Errors
///
/// `TooLong` above 4,096 bytes, before any other; `Syntax` at the first `$` that begins neither form,
/// and at a `\` that ends the text; `Memory` when out of memory.
pub fn read_recipe(alloc: Global, text: &[u8]) -> Result<Recipe, LangFault>
    ensures { ReadsRecipe text.now result }
{
    if text.len() > LONGEST {
        return Err(LangFault::TooLong);
    }
    let mut parts = List::new(alloc);
    let mut place = 0;
    'parts: while place < text.len() {
        let (_read, rest) = text.split_at(place);
        let Some((part, size)) = part_in_front(alloc, rest)? else {
            return Err(LangFault::Syntax(place as u32));
        };
        parts.push(part)?;
        place += size;
    }
    Ok(Recipe { parts })
}

/// The part that the bytes begin with, and how many bytes it takes.
fn part_in_front(alloc: Global, bytes: &[u8]) -> Result<Option<(Part, usize)>, Memory>
    ensures gives { IfOk result (λ found. found ≡ part_in_front bytes.now) }
{
    let Some((first, more)) = bytes.split_first() else {
        return Ok(None);
    };
    match *first {
        b'\\' => Ok(escape_part(more)),
        b'$' => dollar_part(alloc, more),
        byte => Ok(Some((Part::Byte(byte), 1))),
    }
}

/// The part of a backslash before these bytes.
fn escape_part(more: &[u8]) -> Option<(Part, usize)>
    ensures { result ≡ escape_part more.now }
{
    let byte = more.first()?;
    Some((Part::Byte(*byte), 2))
}

/// The part of a `$` before these bytes.
fn dollar_part(alloc: Global, more: &[u8]) -> Result<Option<(Part, usize)>, Memory>
    ensures { IfOk result (λ found. found ≡ dollar_part more.now) }
{
    let Some((first, more)) = more.split_first() else {
        return Ok(None);
    };
    match *first {
        b'*' => Ok(Some((Part::Constraint, 2))),
        b'(' => property_part(alloc, more),
        _ => Ok(None),
    }
}

/// The part of a `$(` before these bytes.
#[tactic(auto, unfolding(crate::specs::Recipes::property_part))]
fn property_part(alloc: Global, more: &[u8]) -> Result<Option<(Part, usize)>, Memory>
    ensures { IfOk result (λ found. found ≡ property_part more.now) }
{
    match end_of_name(more) {
        Some(size) => named_part(alloc, more, size),
        None => Ok(None),
    }
}

fn end_of_name(more: &[u8]) -> Option<usize>
    ensures place { result ≡ position (λ b. nat_eq b 41) more.now }
    ensures within { IfSome result (λ size. size < length more.now) }
{
    more.iter().position(|byte| *byte == b')')
}

fn named_part(alloc: Global, more: &[u8], size: usize) -> Result<Option<(Part, usize)>, Memory>
    requires { size < length more.now }
    ensures { IfOk result (λ found. found ≡ named_part more.now size) }
{
    let name = &more[..size];
    if !is_identifier(name) {
        return Ok(None);
    }
    let name = Text::from_slice(alloc, name)?;
    Ok(Some((Part::Property(name), size + 3)))
}
