//! Nil references.

ghost use Rattle.std.specs.Prelude.{◌≡◌};
ghost use Rattle.td_ior.specs.Nil.{is_nil, nil};

use std::alloc::Global;
use td_cdr::{List, Text};
use td_value::Ior;

/// Whether a reference is nil: it has neither an id nor a profile.
pub fn is_nil(reference: &Ior) -> bool
    ensures { result ≡ is_nil reference.now }
{
    reference.id.len() == 0 && reference.profiles.len() == 0
}

/// The nil reference, which takes no memory.
pub fn nil(alloc: Global) -> Ior
    ensures { result ≡ nil }
{
    Ior {
        id: Text::new(alloc),
        profiles: List::new(alloc),
    }
}
