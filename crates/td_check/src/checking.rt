//! The lines that tell what a file opens.

ghost use Rattle.std.specs.Prelude.{◌≡◌, ◌++◌, IfOk, OnOk};
ghost use Rattle.td_check.specs.Checked.{all_lines, check_lines, trader_lines};
ghost use Rattle.td_file.specs.Files.{seen};
ghost use Rattle.td_objects.specs.References.{IsAddress};

use crate::counting::put_count_line;
use crate::objects::put_references;
use std::alloc::Global;
use td_cdr::{Memory, Octets};
use td_file::Opened;
use td_trader::Trader;
use td_walk::Address;

/// Appends the lines of a trader.
fn put_trader(
    alloc: Global,
    text: &mut Vec<u8>,
    home: &Address,
    trader: &Trader,
) -> Result<(), Memory>
    requires { IsAddress home.now }
    ensures { OnOk result (text.new.items ≡ text.old.items ++ trader_lines home.now trader.now) }
{
    put_count_line(alloc, text, trader)?;
    put_references(alloc, text, home, trader.name())
}

/// Appends the lines of these traders.
fn put_all(
    alloc: Global,
    text: &mut Vec<u8>,
    home: &Address,
    traders: &[Trader],
) -> Result<(), Memory>
    requires { IsAddress home.now }
    ensures { OnOk result (text.new.items ≡ text.old.items ++ all_lines home.now traders.now) }
{
    for trader in traders {
        put_trader(alloc, text, home, trader)?;
    }
    Ok(())
}

/// The lines that tell what a file opens.
///
/// # Errors
///
/// `Memory` only when out of memory.
pub fn check_lines(alloc: Global, opened: &Opened) -> Result<Octets, Memory>
    requires { IsAddress opened.now.home }
    ensures { IfOk result (λ t. t ≡ check_lines (seen opened.now)) }
{
    let mut text = Vec::new(alloc);
    let traders = opened.solo.traders.as_slice();
    put_all(alloc, &mut text, &opened.home, traders)?;
    Ok(Octets::from_vec(text))
}
