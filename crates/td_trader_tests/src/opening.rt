//! A trader without types, offers and links.

ghost use Rattle.std.specs.Prelude.{◌≡◌, ◌∷◌, [], IfOk};

use std::alloc::Global;
use td_cdr::{List, Memory, Octets, Shared, Text, copy_three};
use td_changes::Bounds;
use td_policy::{Attributes, OwnReferences, default_attributes};
use td_store::{Links, Offers, Store};
use td_trader::Trader;
use td_types::Types;
use td_value::Ior;

/// A trader with an empty store, which gave this number last and accepts so many changes. It remembers two identifiers,
/// and five queries may begin.
#[tactic(auto, using(td_trader::proofs::KeepingLimits::no_offers))]
pub fn opened(alloc: Global, last_offer: u32, changes: u64) -> Result<Trader, Memory> {
    let (name, stem) = names(alloc)?;
    match empty_store(alloc, last_offer) {
        Ok(store) => Trader::new(
            alloc,
            name,
            store,
            stem,
            Bounds {
                ring: 2,
                changes,
                begins: 5,
            },
        ),
        Err(memory) => {
            drop(name);
            drop(stem);
            Err(memory)
        }
    }
}

/// The trader's name, and the empty store's own stem.
fn names(alloc: Global) -> Result<(Text, Octets), Memory>
    ensures { IfOk result (λ p. p.1 ≡ 65 ∷ []) }
{
    let name = Text::from_slice(alloc, b"A")?;
    match Octets::from_slice(alloc, b"A") {
        Ok(stem) => Ok((name, stem)),
        Err(memory) => {
            drop(name);
            Err(memory)
        }
    }
}

/// A store that has nothing, and gave this number last.
pub fn empty_store(alloc: Global, last_offer: u32) -> Result<Store, Memory>
    ensures offers { IfOk result (λ s. s.offers ≡ []) }
    ensures stem { IfOk result (λ s. s.attributes.request_id_stem ≡ 65 ∷ []) }
{
    let types = Types::new(alloc, List::new(alloc))?;
    match parts(alloc) {
        Ok((offers, (links, attributes))) => Ok(Store {
            types,
            offers,
            links,
            attributes,
            last_offer,
        }),
        Err(memory) => {
            drop(types);
            Err(memory)
        }
    }
}

fn parts(alloc: Global) -> Result<(Offers, (Links, Attributes)), Memory>
    ensures offers { IfOk result (λ p. p.0 ≡ []) }
    ensures stem { IfOk result (λ p. p.1.1.request_id_stem ≡ 65 ∷ []) }
{
    let offers = Offers::new(alloc)?;
    match attributes(alloc) {
        Ok(attributes) => Ok((offers, (Links::new(alloc), attributes))),
        Err(memory) => {
            drop(offers);
            Err(memory)
        }
    }
}

fn attributes(alloc: Global) -> Result<Attributes, Memory>
    ensures { IfOk result (λ a. a.request_id_stem ≡ 65 ∷ []) }
{
    let name = Text::from_slice(alloc, b"A")?;
    let own = own_references(alloc)?;
    default_attributes(alloc, &name, own)
}

/// Six nil references.
fn own_references(alloc: Global) -> Result<OwnReferences, Memory> {
    let nil = Shared::new(alloc, nil(alloc))?;
    let (lookup, (register, link)) = copy_three(alloc, &nil, &nil, &nil)?;
    let (proxy, (admin, types)) = copy_three(alloc, &nil, &nil, &nil)?;
    Ok(OwnReferences {
        lookup,
        register,
        link,
        proxy,
        admin,
        types,
    })
}

fn nil(alloc: Global) -> Ior {
    Ior {
        id: Text::new(alloc),
        profiles: List::new(alloc),
    }
}
