//! A box that contracts see as the value in it.

ghost use Rattle.std.specs.Prelude.{◌≡◌, [], ◌↔◌, length, IsTrue, IfOk};

use crate::list::List;
use crate::memory::Memory;
use crate::text::Text;
use crate::twin::Twin;
use std::alloc::Global;
use std::marker::Model;

/// A value in a block of its own. Contracts see it as the value, so that a copy is equal to its
/// original, which can't be said of a `Box`.
#[derive(Debug)]
pub struct Boxed<T> {
    inner: Box<T>,
}

// By hand, since a derived drop is written out at each exit, and proved again in each crate above.
impl<T: Drop> Drop for Boxed<T> {
    fn drop(self) {
        let Boxed { inner: _inner } = self;
    }
}

impl<T> Model for Boxed<T> {
    ghost Value = { T };

    ghost coded = { T.code };

    ghost view = { λ b. b.inner.value };
}

impl<T> Boxed<T> {
    /// The value.
    pub fn get(&self) -> &T
        ensures { result.now ≡ self.now }
    {
        &self.inner
    }

    /// The value, taken out.
    pub fn into_inner(self) -> T
        ensures { result ≡ self }
    {
        let Boxed { inner } = self;
        Box::into_inner(inner)
    }
}

impl<T> Boxed<List<T>> {
    /// The items of the list in it, in order.
    pub fn as_slice(&self) -> &[T]
        ensures { result.now ≡ self.now }
    {
        self.inner.as_slice()
    }

    /// Whether the list in it has none.
    pub fn is_empty(&self) -> bool
        ensures { IsTrue result ↔ (self.now ≡ []) }
    {
        self.inner.is_empty()
    }

    /// How many items the list in it has.
    pub fn len(&self) -> usize
        ensures { result ≡ length self.now }
    {
        self.inner.len()
    }
}

impl Boxed<Text> {
    /// A block with the text of a slice's bytes.
    ///
    /// # Errors
    ///
    /// `Memory` only when out of memory.
    pub fn from_slice(alloc: Global, bytes: &[u8]) -> Result<Boxed<Text>, Memory>
        ensures { IfOk result (λ b. b ≡ bytes.now) }
    {
        Boxed::new(alloc, Text::from_slice(alloc, bytes)?)
    }

    /// The bytes of the text in it, in order.
    pub fn as_slice(&self) -> &[u8]
        ensures { result.now ≡ self.now }
    {
        self.inner.as_slice()
    }
}

impl<T: Drop> Boxed<T> {
    /// A block with the value.
    ///
    /// # Errors
    ///
    /// `Memory` only when out of memory; the value is then dropped.
    pub fn new(alloc: Global, value: T) -> Result<Boxed<T>, Memory>
        ensures { IfOk result (λ b. b ≡ value) }
    {
        Ok(Boxed {
            inner: Box::new(alloc, value)?,
        })
    }
}

impl<T: Twin + Drop> Boxed<T> {
    /// A block with a copy of the value.
    ///
    /// # Errors
    ///
    /// `Memory` only when out of memory.
    pub fn copy_of(alloc: Global, value: &T) -> Result<Boxed<T>, Memory>
        ensures { IfOk result (λ b. b ≡ value.now) }
    {
        Boxed::new(alloc, value.copy(alloc)?)
    }
}

impl<T: Twin + Drop> Twin for Boxed<T> {
    fn copy(&self, alloc: Global) -> Result<Boxed<T>, Memory> {
        Boxed::copy_of(alloc, self.get())
    }
}
