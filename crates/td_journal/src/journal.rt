//! What a session notes its Requests in.

ghost use Rattle.std.specs.Prelude.{◌≡◌, [], ◌∷◌, ◌++◌, List, OnOk};
ghost use Rattle.td_servant.specs.declared.entry.Entry.{Entry as TheEntry};

use std::alloc::Global;
use td_cdr::Memory;
use td_servant::Entry;

/// What a session notes its Requests in: an entry for each, in order. Contracts see the list of entries, whether or not
/// they are kept.
pub trait Journal {
    /// What was noted, in order.
    ghost entries: { Self → List TheEntry };

    /// Whether room was taken for one entry more.
    ghost has_room: { Self → Type 0 };

    /// A journal in which nothing is noted. It keeps the allocator, where it grows.
    fn empty(alloc: Global) -> Self
        ensures { entries result ≡ [] };

    /// Takes room for one entry more.
    ///
    /// # Errors
    ///
    /// `Memory` only when out of memory; what was noted stays.
    fn take_room(&mut self) -> Result<(), Memory>
        ensures entries { entries self.new ≡ entries self.old }
        ensures room { OnOk result (has_room self.new) };

    /// Notes an entry behind the others, in room that was taken. Takes no memory.
    fn note(&mut self, entry: Entry)
        requires { has_room self.old }
        ensures { entries self.new ≡ entries self.old ++ entry ∷ [] };
}
