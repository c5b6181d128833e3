//! A sink over a writer of `std`.

ghost use Rattle.std.specs.Prelude.{◌≡◌, Option, None, IfOk, take};
ghost use Rattle.std.specs.Io.KnownBytes.{WriteAppends, Appends, Keeps};
ghost use Rattle.td_out.specs.Causes.{HasCause, TakesPiece};

use crate::fault::Failed;
use crate::sink::Sink;
use std::io::{ErrorKind, Write};
use std::marker::Model;

/// A sink over a writer of `std`, such as standard output. It holds nothing back: after each write it
/// flushes the writer. It tells nothing of its content.
#[derive(Drop)]
pub struct StdSink<W> {
    writer: W,
    faults: u64,
}

impl<W> Model for StdSink<W> {
    ghost use Rattle.td_out.specs.Over.{Over};

    ghost Value = { Over W };

    ghost view = { λ s. record { inner = s.writer; faults = s.faults } };
}

impl<W> StdSink<W> {
    /// A sink that writes to this writer. No fault was counted yet.
    pub fn new(writer: W) -> StdSink<W>
        ensures { result ≡ record { inner = writer; faults = 0 } }
    {
        StdSink { writer, faults: 0 }
    }
}

impl<W: Write> Sink for StdSink<W> {
    ghost written = { λ _. None };

    ghost faults = { λ s. s.faults };

    ghost same = { λ _ _. Unit {0} };

    ghost same_on = { λ _ _ _ _ _. tt };

    /// A write that takes nothing of a piece that isn't empty is a fault, and so is a flush that fails.
    /// Of a writer whose bytes are known, they grow by those that it took.
    fn write(&mut self, piece: &[u8]) -> Result<usize, Failed>
        ensures same { Unit {0} }
        ensures some { TakesPiece result piece.now }
        ensures bytes { WriteAppends None None result piece.now }
        ensures cause { HasCause self.old.faults self.new.faults result }
        ensures passed { IfOk result
            (λ n. Appends (W.contents self.old.inner) (W.contents self.new.inner)
            (take n piece.now)) }
    {
        match write_through(&mut self.writer, piece) {
            Ok(size) => Ok(size),
            Err(fault) => {
                self.faults = self.faults.saturating_add(1);
                Err(fault)
            }
        }
    }
}

/// One write, and the flush after it.
fn write_through<W: Write>(writer: &mut W, piece: &[u8]) -> Result<usize, Failed>
    ensures some { TakesPiece result piece.now }
    ensures bytes { IfOk result (λ n. Appends (W.contents writer.old) (W.contents writer.new)
        (take n piece.now)) }
{
    let size = write_some(writer, piece)?;
    flush(writer)?;
    Ok(size)
}

/// One write, which is tried again where a signal interrupted it.
///
/// # Errors
///
/// `Failed` where the writer fails, or takes nothing of a piece that isn't empty.
pub fn write_some<W: Write>(writer: &mut W, piece: &[u8]) -> Result<usize, Failed>
    ensures some { TakesPiece result piece.now }
    ensures bytes { IfOk result (λ n. Appends (W.contents writer.old) (W.contents writer.new)
        (take n piece.now)) }
{
    for _ in 0..u64::MAX {
        match writer.write(piece) {
            Ok(size) => {
                if size == 0 && !piece.is_empty() {
                    return Err(Failed);
                }
                return Ok(size);
            }
            Err(e) => {
                if e.kind() != ErrorKind::Interrupted {
                    return Err(Failed);
                }
            }
        }
    }
    Err(Failed)
}

/// A flush, which is tried again where a signal interrupted it.
fn flush<W: Write>(writer: &mut W) -> Result<(), Failed>
    ensures { Keeps (W.contents writer.old) (W.contents writer.new) }
{
    for _ in 0..u64::MAX {
        match writer.flush() {
            Ok(()) => return Ok(()),
            Err(e) => {
                if e.kind() != ErrorKind::Interrupted {
                    return Err(Failed);
                }
            }
        }
    }
    Err(Failed)
}
