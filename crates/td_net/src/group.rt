//! The traders of a network, and which of them a target is.

ghost use Rattle.std.specs.Prelude.{◌≡◌, IfOk, map};
ghost use Rattle.std.specs.List.{position};
ghost use Rattle.td_net.specs.Worlds.{inside, is_named};
ghost use Rattle.td_targets.specs.Targets.{lookup_of, place_of};
ghost use Rattle.td_trader.specs.Solos.{solo_view};

use std::alloc::Global;
use td_cdr::Memory;
use td_ior::{Kind, ObjectKey};
use td_targets::home_key;
use td_trader::Trader;
use td_value::Ior;
use td_walk::Address;

/// The traders of a network, and where the server of all of them listens.
#[derive(Drop)]
pub(crate) struct Group {
    pub traders: Vec<Trader>,
    pub home: Address,
}

impl Group {
    /// The number of the trader whose Lookup a target is, where it is one of the network's.
    ///
    /// # Errors
    ///
    /// `Memory` only when out of memory.
    pub(crate) fn inside(&self, alloc: Global, target: &Ior) -> Result<Option<usize>, Memory>
        ensures { IfOk result (λ k. k ≡ inside self.now.traders.items self.now.home target.now) }
    {
        match home_key(alloc, &self.home, target)? {
            Some(key) => Ok(lookup_of(self.traders.as_slice(), &key)),
            None => Ok(None),
        }
    }
}

fn lookup_of(traders: &[Trader], key: &ObjectKey) -> Option<usize>
    ensures { result ≡ lookup_of (map solo_view traders.now) key.now }
{
    match key.kind {
        Kind::Lookup => place_of(traders, key.trader.as_slice()),
        _ => None,
    }
}

/// The number of the trader of a name.
#[tactic(auto, using(crate::proofs::Members::place_by_position))]
fn place_of(traders: &[Trader], name: &[u8]) -> Option<usize>
    ensures { result ≡ place_of (map solo_view traders.now) name.now }
{
    position_of(traders, name)
}

fn position_of(traders: &[Trader], name: &[u8]) -> Option<usize>
    ensures { result ≡ position (is_named name.now) traders.now }
{
    traders
        .iter()
        .position(|trader| trader.name().as_slice() == name)
}
