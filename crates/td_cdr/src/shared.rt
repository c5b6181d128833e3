//! A value with several owners, in any threads, that contracts see as the value.

ghost use Rattle.std.specs.Prelude.{◌≡◌, IfOk};

use crate::memory::Memory;
use crate::reader::Reader;
use crate::spelled::Spelled;
use crate::twin::Twin;
use crate::value_fault::ValueFault;
use crate::writer::Writer;
use std::alloc::Global;
use std::marker::Model;
use std::ops::Deref;
use std::sync::Arc;

/// A value in a block of its own that has several owners. A copy is one owner more, and takes no memory. Contracts see
/// it as the value, so that a copy is equal to its original, which can't be said of an `Arc`.
pub struct Shared<T> {
    inner: Arc<T>,
}

// By hand, since a derived drop is written out at each exit, and proved again in each crate above.
impl<T: Drop> Drop for Shared<T> {
    fn drop(self) {
        let Shared { inner: _inner } = self;
    }
}

impl<T> Model for Shared<T> {
    ghost Value = { T };

    ghost coded = { T.code };

    ghost view = { λ s. s.inner.value };
}

impl<T> Shared<T> {
    /// The value.
    pub fn get(&self) -> &T
        ensures { result.now ≡ self.now }
    {
        &self.inner
    }
}

impl<T: Drop> Shared<T> {
    /// A block with the value, and its first owner.
    ///
    /// # Errors
    ///
    /// `Memory` only when out of memory; the value is then dropped.
    pub fn new(alloc: Global, value: T) -> Result<Shared<T>, Memory>
        ensures { IfOk result (λ s. s ≡ value) }
    {
        Ok(Shared {
            inner: Arc::new(alloc, value)?,
        })
    }
}

impl<T: Twin + Drop> Shared<T> {
    /// A block with a copy of the value, and its first owner.
    ///
    /// # Errors
    ///
    /// `Memory` only when out of memory.
    pub fn of(alloc: Global, value: &T) -> Result<Shared<T>, Memory>
        ensures { IfOk result (λ s. s ≡ value.now) }
    {
        Shared::new(alloc, value.copy(alloc)?)
    }
}

impl<T> Deref for Shared<T> {
    type Target = T;

    ghost deref_gives = { λ s x. x ≡ s };

    fn deref(&self) -> &T {
        self.get()
    }
}

// One owner more. It is refused only beside 2^63 others, for which no memory has room.
impl<T> Twin for Shared<T> {
    fn copy(&self, _alloc: Global) -> Result<Shared<T>, Memory> {
        Ok(Shared {
            inner: Arc::try_clone(&self.inner)?,
        })
    }
}

// It is spelled as the value.
impl<T: Spelled + Drop> Spelled for Shared<T> {
    ghost format = { T.format };

    ghost faults = { T.faults };

    fn read(alloc: Global, r: &mut Reader) -> Result<Shared<T>, ValueFault> {
        let value = T::read(alloc, r)?;
        Ok(Shared::new(alloc, value)?)
    }

    fn write(&self, alloc: Global, w: &mut Writer) -> Result<(), Memory> {
        self.get().write(alloc, w)
    }

    ghost lawful = { T.lawful };

    ghost refuses = { T.refuses };
}

/// Blocks with copies of two values.
///
/// # Errors
///
/// `Memory` only when out of memory.
pub fn share_two<A: Twin + Drop, B: Twin + Drop>(
    alloc: Global,
    a: &A,
    b: &B,
) -> Result<(Shared<A>, Shared<B>), Memory>
    ensures { IfOk result (λ shared. shared ≡ (a.now, b.now)) }
{
    let first = Shared::of(alloc, a)?;
    let second = Shared::of(alloc, b)?;
    Ok((first, second))
}

/// Blocks with copies of three values.
///
/// # Errors
///
/// `Memory` only when out of memory.
pub fn share_three<A: Twin + Drop, B: Twin + Drop, C: Twin + Drop>(
    alloc: Global,
    a: &A,
    b: &B,
    c: &C,
) -> Result<(Shared<A>, (Shared<B>, Shared<C>)), Memory>
    ensures { IfOk result (λ shared. shared ≡ (a.now, (b.now, c.now))) }
{
    let first = Shared::of(alloc, a)?;
    let others = share_two(alloc, b, c)?;
    Ok((first, others))
}

/// Blocks with two values.
///
/// # Errors
///
/// `Memory` only when out of memory; the values are then dropped.
pub fn share_owned_two<A: Drop, B: Drop>(
    alloc: Global,
    owned: (A, B),
) -> Result<(Shared<A>, Shared<B>), Memory>
    ensures { IfOk result (λ shared. (shared.0 ≡ owned.0) × (shared.1 ≡ owned.1)) }
{
    let (first, second) = owned;
    let first = Shared::new(alloc, first)?;
    let second = Shared::new(alloc, second)?;
    Ok((first, second))
}

/// Blocks with three values.
///
/// # Errors
///
/// `Memory` only when out of memory; the values are then dropped.
pub fn share_owned_three<A: Drop, B: Drop, C: Drop>(
    alloc: Global,
    owned: (A, (B, C)),
) -> Result<(Shared<A>, (Shared<B>, Shared<C>)), Memory>
    ensures { IfOk result (λ shared. (shared.0 ≡ owned.0) × (shared.1.0 ≡ owned.1.0)
        × (shared.1.1 ≡ owned.1.1)) }
{
    let (first, others) = owned;
    let first = Shared::new(alloc, first)?;
    let others = share_owned_two(alloc, others)?;
    Ok((first, others))
}

/// Blocks with copies of four values.
///
/// # Errors
///
/// `Memory` only when out of memory.
pub fn share_four<A: Twin + Drop, B: Twin + Drop, C: Twin + Drop, D: Twin + Drop>(
    alloc: Global,
    a: &A,
    b: &B,
    c: &C,
    d: &D,
) -> Result<(Shared<A>, (Shared<B>, (Shared<C>, Shared<D>))), Memory>
    ensures { IfOk result (λ shared. shared ≡ (a.now, (b.now, (c.now, d.now)))) }
{
    let first = Shared::of(alloc, a)?;
    let others = share_three(alloc, b, c, d)?;
    Ok((first, others))
}
