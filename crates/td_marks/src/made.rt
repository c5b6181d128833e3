//! Identifiers that a trader makes for queries that state none.

ghost use Rattle.std.specs.Prelude.{◌≡◌, ◌+◌, ◌<◌, ◌^◌, IfOk};
ghost use Rattle.td_marks.specs.Making.{made_from};

use std::alloc::Global;
use td_cdr::{Memory, Octets};

/// An identifier that was made of a trader's stem and a value of its counter.
#[derive(Debug, Drop)]
pub struct Made {
    /// The stem, then the value as eight bytes, most significant first.
    pub identifier: Octets,
    /// The counter once this identifier is marked: one above the value.
    pub counter: u64,
}

/// The identifier of a stem and a value.
///
/// # Errors
///
/// `Memory` only when out of memory.
pub(crate) fn make(alloc: Global, stem: &[u8], value: u64) -> Result<Made, Memory>
    requires { value + 1 < 2 ^ 64 }
    ensures { IfOk result (λ made. made ≡ made_from stem.now value) }
{
    let mut bytes = Vec::with_capacity(alloc, stem.len().saturating_add(8))?;
    bytes.extend_from_slice(stem)?;
    bytes.extend_from_slice(&value.to_be_bytes())?;
    Ok(Made {
        identifier: Octets::from_vec(bytes),
        counter: value + 1,
    })
}
