//! The octets of an encapsulation that stands alone.

ghost use Rattle.std.specs.Prelude.{◌≡◌, MatchOption};
ghost use Rattle.td_ior.specs.Enclosed.{start_of};

use td_cdr::{Order, Reader};

/// A reader of what these octets hold, behind the first one, which tells its order and from which
/// alignment counts. None where they are no octets of an encapsulation.
pub(crate) fn start_of(octets: &[u8]) -> Option<Reader<'_>>
    ensures { MatchOption result (start_of octets.now ≡ None) (λ r. start_of octets.now ≡ Some r) }
{
    let (first, _) = octets.split_first()?;
    if octets.len() > u32::MAX as usize {
        return None;
    }
    match *first {
        0 => Some(Reader::new(octets, 1, Order::Big)),
        1 => Some(Reader::new(octets, 1, Order::Little)),
        _ => None,
    }
}
