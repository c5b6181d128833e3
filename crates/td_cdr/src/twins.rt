//! Values that are copied one after another.

ghost use Rattle.std.specs.Prelude.{◌≡◌, IfOk};

use crate::memory::Memory;
use crate::twin::Twin;
use std::alloc::Global;

/// Copies of two values.
///
/// # Errors
///
/// `Memory` only when out of memory.
pub fn copy_two<A: Twin + Drop, B: Twin>(alloc: Global, a: &A, b: &B) -> Result<(A, B), Memory>
    ensures { IfOk result (λ twins. twins ≡ (a.now, b.now)) }
{
    let first = a.copy(alloc)?;
    let second = b.copy(alloc)?;
    Ok((first, second))
}

/// Copies of three values.
///
/// # Errors
///
/// `Memory` only when out of memory.
pub fn copy_three<A: Twin + Drop, B: Twin + Drop, C: Twin>(
    alloc: Global,
    a: &A,
    b: &B,
    c: &C,
) -> Result<(A, (B, C)), Memory>
    ensures { IfOk result (λ twins. twins ≡ (a.now, (b.now, c.now))) }
{
    let first = a.copy(alloc)?;
    let others = copy_two(alloc, b, c)?;
    Ok((first, others))
}

/// Copies of four values.
///
/// # Errors
///
/// `Memory` only when out of memory.
pub fn copy_four<A: Twin + Drop, B: Twin + Drop, C: Twin + Drop, D: Twin>(
    alloc: Global,
    a: &A,
    b: &B,
    c: &C,
    d: &D,
) -> Result<(A, (B, (C, D))), Memory>
    ensures { IfOk result (λ twins. twins ≡ (a.now, (b.now, (c.now, d.now)))) }
{
    let first = a.copy(alloc)?;
    let others = copy_three(alloc, b, c, d)?;
    Ok((first, others))
}
