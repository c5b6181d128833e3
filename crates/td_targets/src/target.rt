//! Which reference is an object of the group.

ghost use Rattle.std.specs.Prelude.{◌≡◌, IfOk};
ghost use Rattle.td_targets.specs.Targets.{home_key, inside_group, key_at, lookup_of, place_of, register_inside};
ghost use Rattle.td_targets.specs.Targets.{register_of};

use std::alloc::Global;
use td_cdr::Memory;
use td_ior::{Iiop, IorFault, Kind, ObjectKey, iiop_of, read_key};
use td_trader::Traders;
use td_value::Ior;
use td_walk::Address;

/// The number of the trader whose Lookup a target is, where its profile has the server's host and port and the
/// key of the Lookup of one of the group.
///
/// # Errors
///
/// `Memory` only when out of memory.
pub fn inside_group<T: Traders>(
    alloc: Global,
    traders: &T,
    home: &Address,
    target: &Ior,
) -> Result<Option<usize>, Memory>
    ensures { IfOk result (λ k. k ≡ inside_group home.now (T.world traders.now) target.now) }
{
    match home_key(alloc, home, target)? {
        Some(key) => Ok(lookup_of(traders, &key)),
        None => Ok(None),
    }
}

/// The number of the trader whose Register this is, if it is one's of the group.
///
/// # Errors
///
/// `Memory` only when out of memory.
pub fn register_inside<T: Traders>(
    alloc: Global,
    traders: &T,
    home: &Address,
    register: &Ior,
) -> Result<Option<usize>, Memory>
    ensures { IfOk result (λ k. k ≡ register_inside home.now (T.world traders.now) register.now) }
{
    match home_key(alloc, home, register)? {
        Some(key) => Ok(register_of(traders, &key)),
        None => Ok(None),
    }
}

/// The key of the object of this server that a reference stands for: of one whose profile has the server's host and
/// port, and an object key in the form of this server's.
///
/// # Errors
///
/// `Memory` only when out of memory.
pub fn home_key(alloc: Global, home: &Address, reference: &Ior) -> Result<Option<ObjectKey>, Memory>
    ensures { IfOk result (λ key. key ≡ home_key home.now reference.now) }
{
    match iiop_of(alloc, reference) {
        Ok(profile) => key_at(alloc, home, &profile),
        Err(IorFault::NoIiop) => Ok(None),
        Err(_) => Err(Memory),
    }
}

fn key_at(alloc: Global, home: &Address, profile: &Iiop) -> Result<Option<ObjectKey>, Memory>
    ensures { IfOk result (λ key. key ≡ key_at home.now profile.now) }
{
    if profile.host.as_slice() != home.host.as_slice() || profile.port != home.port {
        return Ok(None);
    }
    match read_key(alloc, profile.key.as_slice()) {
        Ok(key) => Ok(Some(key)),
        Err(IorFault::BadKey) => Ok(None),
        Err(_) => Err(Memory),
    }
}

fn lookup_of<T: Traders>(traders: &T, key: &ObjectKey) -> Option<usize>
    ensures { result ≡ lookup_of (T.world traders.now) key.now }
{
    match key.kind {
        Kind::Lookup => place_of(traders, key.trader.as_slice()),
        _ => None,
    }
}

fn register_of<T: Traders>(traders: &T, key: &ObjectKey) -> Option<usize>
    ensures { result ≡ register_of (T.world traders.now) key.now }
{
    match key.kind {
        Kind::Register => place_of(traders, key.trader.as_slice()),
        _ => None,
    }
}

/// The number of the trader of a name.
pub fn place_of<T: Traders>(traders: &T, name: &[u8]) -> Option<usize>
    ensures { result ≡ place_of (T.world traders.now) name.now }
{
    let count = traders.count();
    let mut place = 0;
    while place < count {
        if traders.name(place).as_slice() == name {
            return Some(place);
        }
        place += 1;
    }
    None
}
