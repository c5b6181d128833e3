//! The keys of iterators.

ghost use Rattle.std.specs.Prelude.{◌≡◌, option_map};
ghost use Rattle.td_desk_calls.specs.Calls.{iterator_key};

use td_ior::{Kind, key_parts};

/// The trader's name and the number in the key of an iterator, whatever trader it names; `None` for any other key.
pub fn iterator_key(key: &[u8]) -> Option<(&[u8], u64)>
    ensures { option_map (λ p. (p.0.now, p.1)) result ≡ iterator_key key.now }
{
    let (trader, kind) = key_parts(key)?;
    match kind {
        Kind::Iterator(number) => Some((trader, number)),
        _ => None,
    }
}
