//! The ids of offers (OMG's Trading Object Service, the exceptions IllegalOfferId and UnknownOfferId of
//! module CosTrading).

ghost use Rattle.std.specs.Prelude.{◌≡◌, IfOk};
ghost use Rattle.td_register.specs.Ids.{id_of, number_in};

use itoa::Buffer;
use std::alloc::Global;
use td_cdr::{Memory, Text};
use td_ior::number_up_to;

/// The last number that an offer may have.
const LAST_NUMBER: u64 = 4294967295;

/// An offer's id: its number in decimal.
///
/// # Errors
///
/// `Memory` only when out of memory.
pub fn id_of(alloc: Global, number: u32) -> Result<Text, Memory>
    ensures { IfOk result (λ id. id ≡ id_of number) }
{
    let mut digits = Buffer::new();
    Text::from_slice(alloc, digits.format(number).as_bytes())
}

/// The number that an id spells, from 1 to 4,294,967,295, in decimal without leading zeros.
pub fn number_in(id: &[u8]) -> Option<u32>
    ensures { result ≡ number_in id.now }
{
    match number_up_to(id, LAST_NUMBER) {
        None | Some(0) => None,
        Some(number) => Some(number as u32),
    }
}
