//! The places at which interfaces are declared.

ghost use Rattle.std.specs.Prelude.{◌≡◌, IfOk};
ghost use Rattle.td_types.specs.Repository.{is_among};
ghost use Rattle.td_types.specs.Reaching.{ArePlaces, AreLinks};

use std::alloc::Global;
use td_cdr::{List, Memory, Text};

/// Of each declaration, the places at which its bases are declared.
///
/// # Errors
///
/// `Memory` only when out of memory.
pub(crate) fn links_of(
    alloc: Global,
    declared: &[(Text, List<Text>)],
) -> Result<Vec<List<usize>>, Memory>
    ensures { IfOk result (λ links. AreLinks declared.now links.items) }
{
    let mut links = Vec::new(alloc);
    for entry in declared {
        let places = places_of(alloc, declared, entry.1.as_slice())?;
        links.push(places)?;
    }
    Ok(links)
}

/// The places at which one of these ids is declared.
///
/// # Errors
///
/// `Memory` only when out of memory.
pub(crate) fn places_of(
    alloc: Global,
    declared: &[(Text, List<Text>)],
    ids: &[Text],
) -> Result<List<usize>, Memory>
    ensures { IfOk result (λ places. ArePlaces declared.now ids.now places) }
{
    let mut places = List::new(alloc);
    for (place, entry) in declared.iter().enumerate() {
        if is_among(entry.0.as_slice(), ids) {
            places.push(place)?;
        }
    }
    Ok(places)
}

/// Whether an id is one of these.
pub(crate) fn is_among(id: &[u8], ids: &[Text]) -> bool
    ensures { result ≡ is_among id.now ids.now }
{
    ids.iter().any(|known| id == known.as_slice())
}
