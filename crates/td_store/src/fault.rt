//! Why nothing is inserted.

ghost use Rattle.std.specs.Prelude.{◌≡◌};
ghost use Rattle.td_store.specs.declared.fault.StoreFault.TheVariants.{Memory as memory};

use td_cdr::Memory;

/// Why an offer or a link isn't inserted.
#[derive(Clone, Copy, Debug, PartialEq, Eq)]
pub enum StoreFault {
    /// As many are there as may be.
    Full,
    /// Out of memory.
    Memory,
}

impl From<Memory> for StoreFault {
    ghost from_gives = { λ _ f. f ≡ memory };

    fn from(_memory: Memory) -> StoreFault {
        StoreFault::Memory
    }
}
