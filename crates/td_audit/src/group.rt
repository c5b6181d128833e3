//! The traders of a network, by their names.

ghost use Rattle.std.specs.Prelude.{◌≡◌, IfOk};
ghost use Rattle.td_audit.specs.Auditing.{names_of};

use std::alloc::Global;
use td_cdr::{List, Memory, Text, Twin};
use td_trader::Trader;
use td_walk::Address;

/// Where the server of a network's traders listens, and their names in order.
#[derive(Drop)]
pub(crate) struct Group {
    pub home: Address,
    pub names: List<Text>,
}

/// The group of these traders.
///
/// # Errors
///
/// `Memory` only when out of memory.
pub(crate) fn group_of(alloc: Global, home: &Address, traders: &[Trader]) -> Result<Group, Memory>
    ensures home { IfOk result (λ g. g.home ≡ home.now) }
    ensures names { IfOk result (λ g. g.names ≡ names_of traders.now) }
{
    let names = names_of(alloc, traders)?;
    let host = home.host.copy(alloc)?;
    Ok(Group {
        home: Address {
            host,
            port: home.port,
            minor: home.minor,
        },
        names,
    })
}

fn names_of(alloc: Global, traders: &[Trader]) -> Result<List<Text>, Memory>
    ensures { IfOk result (λ names. names ≡ names_of traders.now) }
{
    let mut names = List::new(alloc);
    for trader in traders {
        names.push(trader.name().copy(alloc)?)?;
    }
    Ok(names)
}
