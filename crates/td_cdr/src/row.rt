//! Values that are written one after another. Where one fails, some of them may be written.

ghost use Rattle.std.specs.Prelude.{◌≡◌};
ghost use Rattle.td_cdr.specs.Format.{Puts, ◌&◌};

use crate::memory::Memory;
use crate::spelled::Spelled;
use crate::writer::Writer;
use std::alloc::Global;

/// Two values.
///
/// # Errors
///
/// `Memory` only when out of memory; the first of the values may then be written.
pub fn put_two<A: Spelled, B: Spelled>(
    alloc: Global,
    w: &mut Writer,
    a: &A,
    b: &B,
) -> Result<(), Memory>
    ensures { Puts ((A.format & B.format).writes (a.now, b.now)) w.old w.new result }
{
    a.write(alloc, w)?;
    b.write(alloc, w)
}

/// Three values.
///
/// # Errors
///
/// `Memory` only when out of memory; the first of the values may then be written.
pub fn put_three<A: Spelled, B: Spelled, C: Spelled>(
    alloc: Global,
    w: &mut Writer,
    a: &A,
    b: &B,
    c: &C,
) -> Result<(), Memory>
    ensures { Puts ((A.format & B.format & C.format).writes (a.now, (b.now, c.now)))
        w.old w.new result }
{
    a.write(alloc, w)?;
    put_two(alloc, w, b, c)
}

/// Four values.
///
/// # Errors
///
/// `Memory` only when out of memory; the first of the values may then be written.
pub fn put_four<A: Spelled, B: Spelled, C: Spelled, D: Spelled>(
    alloc: Global,
    w: &mut Writer,
    a: &A,
    b: &B,
    c: &C,
    d: &D,
) -> Result<(), Memory>
    ensures { let row = A.format & B.format & C.format & D.format in
        Puts (row.writes (a.now, (b.now, (c.now, d.now)))) w.old w.new result }
{
    a.write(alloc, w)?;
    put_three(alloc, w, b, c, d)
}

/// Five values.
///
/// # Errors
///
/// `Memory` only when out of memory; the first of the values may then be written.
pub fn put_five<A: Spelled, B: Spelled, C: Spelled, D: Spelled, E: Spelled>(
    alloc: Global,
    w: &mut Writer,
    a: &A,
    b: &B,
    c: &C,
    d: &D,
    e: &E,
) -> Result<(), Memory>
    ensures { let row = A.format & B.format & C.format & D.format & E.format in
        Puts (row.writes (a.now, (b.now, (c.now, (d.now, e.now))))) w.old w.new result }
{
    a.write(alloc, w)?;
    put_four(alloc, w, b, c, d, e)
}

/// Six values.
///
/// # Errors
///
/// `Memory` only when out of memory; the first of the values may then be written.
pub fn put_six<A: Spelled, B: Spelled, C: Spelled, D: Spelled, E: Spelled, F: Spelled>(
    alloc: Global,
    w: &mut Writer,
    a: &A,
    b: &B,
    c: &C,
    d: &D,
    e: &E,
    f: &F,
) -> Result<(), Memory>
    ensures { let row = A.format & B.format & C.format & D.format & E.format & F.format in
        Puts (row.writes (a.now, (b.now, (c.now, (d.now, (e.now, f.now)))))) w.old w.new result }
{
    a.write(alloc, w)?;
    put_five(alloc, w, b, c, d, e, f)
}
