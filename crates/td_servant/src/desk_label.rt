//! What an iterator is put on the desk with (OMG's Trading Object Service, interfaces OfferIterator and
//! OfferIdIterator).

ghost use Rattle.std.specs.Prelude.{◌≡◌, IfOk};

use std::alloc::Global;
use td_cdr::{Memory, Text, Twin};
use td_value::Ior;

/// The name of the trader that an iterator is kept for, and the iterator's reference.
#[derive(Drop)]
pub struct DeskLabel {
    pub trader: Text,
    pub reference: Ior,
}

impl DeskLabel {
    /// The label of the iterator with this reference, with a copy of the trader's name.
    ///
    /// # Errors
    ///
    /// `Memory` only when out of memory.
    pub fn new(alloc: Global, name: &Text, reference: Ior) -> Result<DeskLabel, Memory>
        ensures trader { IfOk result (λ l. l.trader ≡ name.now) }
        ensures reference { IfOk result (λ l. l.reference ≡ reference) }
    {
        match name.copy(alloc) {
            Ok(trader) => Ok(DeskLabel { trader, reference }),
            Err(memory) => {
                drop(reference);
                Err(memory)
            }
        }
    }
}
