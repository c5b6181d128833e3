//! The items of a sequence, between commas.

ghost use Rattle.std.specs.Prelude.{◌≡◌, ◌<◌, ◌∷◌, [], length, IfOk, MatchOption};
ghost use Rattle.std.specs.List.{position, slice_split};
ghost use Rattle.td_forms.specs.Pieces.{PutsValue, join_values};
ghost use Rattle.td_forms.specs.Values.{all_values, is_comma, item_value, items_of};

use crate::item::ItemType;
use crate::values::item_value;
use std::alloc::Global;
use td_cdr::{List, Memory};
use td_value::Value;

fn comma_place(text: &[u8]) -> Option<usize>
    ensures { result ≡ position is_comma text.now }
{
    text.iter().position(|byte| *byte == b',')
}

/// What stands in front of the first comma, and what stands behind it.
fn first_part(text: &[u8]) -> (&[u8], Option<&[u8]>)
    ensures { MatchOption result.1 (slice_split is_comma text.now ≡ result.0.now ∷ [])
        (λ others. (slice_split is_comma text.now ≡ result.0.now ∷ slice_split is_comma others.now)
        × (length others.now < length text.now)) }
{
    let Some(place) = comma_place(text) else {
        return (text, None);
    };
    let (part, behind) = text.split_at(place);
    let (_comma, others) = behind.split_at(1);
    (part, Some(others))
}

/// Puts the value that a text spells behind these, where it spells one.
fn put_item(
    alloc: Global,
    items: &mut List<Value>,
    item: ItemType,
    text: &[u8],
) -> Result<bool, Memory>
    ensures { IfOk result (λ put. PutsValue (item_value item text.now) put items.old items.new) }
{
    match item_value(alloc, item, text)? {
        Some(value) => {
            items.push(value)?;
            Ok(true)
        }
        None => Ok(false),
    }
}

/// The items that a text spells, behind these.
fn put_items(
    alloc: Global,
    mut items: List<Value>,
    item: ItemType,
    text: &[u8],
) -> Result<Option<List<Value>>, Memory>
    ensures { IfOk result (λ found. found
        ≡ join_values items (all_values item (slice_split is_comma text.now))) }
{
    let mut rest = text;
    'parts: loop {
        let (part, others) = first_part(rest);
        if !put_item(alloc, &mut items, item, part)? {
            return Ok(None);
        }
        match others {
            Some(others) => rest = others,
            None => return Ok(Some(items)),
        }
    }
}

/// The items that a text spells. An empty text has none.
pub(crate) fn items_of(
    alloc: Global,
    item: ItemType,
    text: &[u8],
) -> Result<Option<List<Value>>, Memory>
    ensures { IfOk result (λ found. found ≡ items_of item text.now) }
{
    let items = List::new(alloc);
    if text.is_empty() {
        return Ok(Some(items));
    }
    put_items(alloc, items, item, text)
}
