//! Values that have names.

ghost use Rattle.std.specs.Prelude.{◌≡◌, List, ℕ};
ghost use Rattle.td_cdr.specs.Format.{value_named};

/// A value that a text names, as an operation or an exception.
pub trait Named: Copy {
    ghost name_of: { Self → List ℕ };

    /// Its name.
    fn name(self) -> &'static [u8]
        ensures { result.now ≡ name_of self };
}

/// The first of these that has the name.
pub fn find_named<K: Named>(all: &[K], name: &[u8]) -> Option<K>
    ensures { result ≡ value_named K.name_of all.now name.now }
{
    for item in all {
        if name == item.name() {
            return Some(*item);
        }
    }
    None
}
