//! Which of the 64 places for workers are free: the bits of a word.

ghost use Rattle.std.specs.Prelude.{◌<◌, length, IfSome};

use crate::source::Job;
use crate::worker::Worker;

/// The bit of a place.
pub(crate) fn bit(slot: u32) -> u64 {
    1u64.wrapping_shl(slot)
}

/// The first free place, if one is: at most 64 work at once.
pub(crate) fn free_slot<D, J: Job<D>>(working: &[Worker<D, J>]) -> Option<u32>
    ensures { IfSome result (λ slot. length working.now < 64) }
{
    let mut taken = 0u64;
    for worker in working {
        taken |= bit(worker.slot);
    }
    let slot = taken.trailing_ones();
    if slot < u64::BITS && working.len() < u64::BITS as usize {
        Some(slot)
    } else {
        None
    }
}
