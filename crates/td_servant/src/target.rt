//! Where a target is: in the group, outside, or nowhere that can be reached.

ghost use Rattle.std.specs.Prelude.{◌≡◌, IfOk};
ghost use Rattle.td_targets.specs.Targets.{inside_group};
ghost use Rattle.td_servant.specs.Targets.{group_target, target_of};

use std::alloc::Global;
use td_cdr::Memory;
use td_ior::{IorFault, iiop_of};
use td_targets::inside_group;
use td_trader::Traders;
use td_value::Ior;
use td_walk::Address;

/// Where a target is that is to be asked.
#[derive(Clone, Copy, Debug, PartialEq, Eq)]
pub enum Target {
    /// It is the Lookup of the trader of this number.
    Inside(usize),
    /// It isn't one of this server's.
    Outside,
    /// It has no IIOP profile.
    Unreachable,
}

/// Where a target is.
///
/// # Errors
///
/// `Memory` only when out of memory.
pub(crate) fn target_of<T: Traders>(
    alloc: Global,
    traders: &T,
    home: &Address,
    target: &Ior,
) -> Result<Target, Memory>
    ensures { IfOk result (λ t. t ≡ target_of home.now (T.world traders.now) target.now) }
{
    match iiop_of(alloc, target) {
        Ok(profile) => {
            drop(profile);
            place_in(alloc, traders, home, target)
        }
        Err(IorFault::NoIiop) => Ok(Target::Unreachable),
        Err(_) => Err(Memory),
    }
}

/// Where a target is that can be reached.
fn place_in<T: Traders>(
    alloc: Global,
    traders: &T,
    home: &Address,
    target: &Ior,
) -> Result<Target, Memory>
    ensures { IfOk result (λ t. t
        ≡ group_target (inside_group home.now (T.world traders.now) target.now)) }
{
    let found = inside_group(alloc, traders, home, target)?;
    Ok(group_target(found))
}

fn group_target(found: Option<usize>) -> Target
    ensures { result ≡ group_target found }
{
    match found {
        Some(trader) => Target::Inside(trader),
        None => Target::Outside,
    }
}
