//! How many offers traders have.

ghost use Rattle.std.specs.Prelude.{◌≡◌, IfOk};
ghost use Rattle.td_drill.specs.Drills.{offers_in};

use crate::tally::sum;
use td_cdr::Memory;
use td_trader::Trader;

/// How many offers these traders have in all.
///
/// # Errors
///
/// `Memory` where the number has no place in 64 bits.
pub(crate) fn count_all(traders: &[Trader]) -> Result<u64, Memory>
    ensures { IfOk result (λ n. n ≡ offers_in traders.now) }
{
    let mut count = 0;
    for trader in traders {
        count = sum(count, trader.store().offers.len() as u64)?;
    }
    Ok(count)
}
