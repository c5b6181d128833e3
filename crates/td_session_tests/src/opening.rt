//! Servers that no session has used.

ghost use Rattle.std.specs.Prelude.{◌≡◌, ◌∷◌, [], IfOk};
ghost use Rattle.td_objects.specs.References.{IsAddress};
ghost use Rattle.td_trader.specs.PlainTraders.{AreBounds};

use std::alloc::Global;
use td_cdr::{List, Memory, Octets, Shared, Text, copy_three};
use td_changes::Bounds;
use td_file::{FileFault, Opened, read_file};
use td_peers::MemPeers;
use td_policy::{Attributes, OwnReferences, default_attributes};
use td_store::{Links, Offers, Store};
use td_trader::{Solo, Trader};
use td_types::Types;
use td_value::Ior;
use td_walk::Address;

/// Where a server is reached, its traders, and the peers outside.
#[derive(Drop)]
pub struct Server {
    pub home: Address,
    pub solo: Solo,
    pub peers: MemPeers,
    ghost reached: { IsAddress home },
}

/// What was opened, with these peers.
fn with_peers(opened: Opened, peers: MemPeers) -> Server
    requires { IsAddress opened.home }
{
    let Opened { home, seed, solo } = opened;
    drop(seed);
    Server { home, solo, peers }
}

/// The server of a file with these peers.
pub fn opened_server(alloc: Global, file: &[u8], peers: MemPeers) -> Result<Server, FileFault> {
    if file.len() > 1000000 {
        drop(peers);
        return Err(FileFault::Memory);
    }
    match read_file(alloc, file) {
        Ok(opened) => Ok(with_peers(opened, peers)),
        Err(fault) => {
            drop(peers);
            Err(fault)
        }
    }
}

/// The server's address and peers with these traders in place of its own.
fn with_traders(server: Server, solo: Solo) -> Server {
    let Server {
        home,
        solo: own,
        peers,
    } = server;
    drop(own);
    Server { home, solo, peers }
}

/// The server of a trader A with an empty store and these bounds.
pub fn bounded_server(alloc: Global, bounds: Bounds, peers: MemPeers) -> Result<Server, FileFault>
    requires { AreBounds bounds }
{
    let solo = alone(alloc, bounded(alloc, bounds)?)?;
    match opened_server(alloc, b"address h 9\n", peers) {
        Ok(server) => Ok(with_traders(server, solo)),
        Err(fault) => {
            drop(solo);
            Err(fault)
        }
    }
}

#[tactic(auto, using(td_trader::proofs::KeepingLimits::no_offers))]
fn bounded(alloc: Global, bounds: Bounds) -> Result<Trader, Memory>
    requires { AreBounds bounds }
{
    let (name, stem) = names(alloc)?;
    match empty_store(alloc) {
        Ok(store) => Trader::new(alloc, name, store, stem, bounds),
        Err(memory) => {
            drop(name);
            drop(stem);
            Err(memory)
        }
    }
}

/// The trader's name, and the empty store's own stem.
fn names(alloc: Global) -> Result<(Text, Octets), Memory>
    ensures { IfOk result (λ p. p.1 ≡ 65 ∷ []) }
{
    let name = Text::from_slice(alloc, b"A")?;
    match Octets::from_slice(alloc, b"A") {
        Ok(stem) => Ok((name, stem)),
        Err(memory) => {
            drop(name);
            Err(memory)
        }
    }
}

/// The one trader of a group.
#[tactic(auto, using(crate::proofs::Groups::lone))]
fn alone(alloc: Global, trader: Trader) -> Result<Solo, Memory> {
    let mut traders = Vec::new(alloc);
    traders.push(trader)?;
    Ok(Solo { traders })
}

/// A store without types, offers and links.
fn empty_store(alloc: Global) -> Result<Store, Memory>
    ensures offers { IfOk result (λ s. s.offers ≡ []) }
    ensures stem { IfOk result (λ s. s.attributes.request_id_stem ≡ 65 ∷ []) }
{
    let types = Types::new(alloc, List::new(alloc))?;
    match parts(alloc) {
        Ok((offers, (links, attributes))) => Ok(Store {
            types,
            offers,
            links,
            attributes,
            last_offer: 0,
        }),
        Err(memory) => {
            drop(types);
            Err(memory)
        }
    }
}

fn parts(alloc: Global) -> Result<(Offers, (Links, Attributes)), Memory>
    ensures offers { IfOk result (λ p. p.0 ≡ []) }
    ensures stem { IfOk result (λ p. p.1.1.request_id_stem ≡ 65 ∷ []) }
{
    let offers = Offers::new(alloc)?;
    match links_and_attributes(alloc) {
        Ok(others) => Ok((offers, others)),
        Err(memory) => {
            drop(offers);
            Err(memory)
        }
    }
}

fn links_and_attributes(alloc: Global) -> Result<(Links, Attributes), Memory>
    ensures { IfOk result (λ p. p.1.request_id_stem ≡ 65 ∷ []) }
{
    let links = Links::new(alloc);
    match attributes(alloc) {
        Ok(attributes) => Ok((links, attributes)),
        Err(memory) => {
            drop(links);
            Err(memory)
        }
    }
}

fn attributes(alloc: Global) -> Result<Attributes, Memory>
    ensures { IfOk result (λ a. a.request_id_stem ≡ 65 ∷ []) }
{
    let name = Text::from_slice(alloc, b"A")?;
    let own = own_references(alloc)?;
    default_attributes(alloc, &name, own)
}

/// Six nil references.
fn own_references(alloc: Global) -> Result<OwnReferences, Memory> {
    let nil = Shared::new(alloc, nil(alloc))?;
    let (lookup, (register, link)) = copy_three(alloc, &nil, &nil, &nil)?;
    let (proxy, (admin, types)) = copy_three(alloc, &nil, &nil, &nil)?;
    Ok(OwnReferences {
        lookup,
        register,
        link,
        proxy,
        admin,
        types,
    })
}

fn nil(alloc: Global) -> Ior {
    Ior {
        id: Text::new(alloc),
        profiles: List::new(alloc),
    }
}
