//! A source over a reader of `std`.

ghost use Rattle.std.specs.Prelude.{◌≡◌, Option, None};
ghost use Rattle.std.specs.Io.{ReadsAtMost};
ghost use Rattle.std.specs.Io.KnownBytes.{ReadConsumes};
ghost use Rattle.td_out.specs.Causes.{HasCause};

use crate::fault::Failed;
use crate::source::Source;
use std::io::{ErrorKind, Read};
use std::marker::Model;

/// A source over a reader of `std`, such as standard input or a file. It tells nothing of its content.
#[derive(Drop)]
pub struct StdSource<R> {
    reader: R,
    faults: u64,
}

impl<R> Model for StdSource<R> {
    ghost use Rattle.td_out.specs.Over.{Over};

    ghost Value = { Over R };

    ghost view = { λ s. record { inner = s.reader; faults = s.faults } };
}

impl<R> StdSource<R> {
    /// A source that reads from this reader. No fault was counted yet.
    pub fn new(reader: R) -> StdSource<R>
        ensures { result ≡ record { inner = reader; faults = 0 } }
    {
        StdSource { reader, faults: 0 }
    }
}

impl<R: Read> Source for StdSource<R> {
    ghost left = { λ _. None };

    ghost faults = { λ s. s.faults };

    ghost same = { λ _ _. Unit {0} };

    ghost same_on = { λ _ _ _ _ _. tt };

    /// Reads once from the reader. Of a reader whose bytes are known, they are its next ones.
    fn read(&mut self, into: &mut [u8]) -> Result<usize, Failed>
        ensures same { Unit {0} }
        ensures bound { ReadsAtMost result into.new }
        ensures bytes { ReadConsumes None None result into.new }
        ensures cause { HasCause self.old.faults self.new.faults result }
        ensures passed { ReadConsumes (R.remaining self.old.inner)
            (R.remaining self.new.inner) result into.new }
    {
        match read_some(&mut self.reader, into) {
            Ok(size) => Ok(size),
            Err(fault) => {
                self.faults = self.faults.saturating_add(1);
                Err(fault)
            }
        }
    }
}

/// One read, which is tried again where a signal interrupted it.
///
/// # Errors
///
/// `Failed` where the reader fails.
pub fn read_some<R: Read>(reader: &mut R, into: &mut [u8]) -> Result<usize, Failed>
    ensures bound { ReadsAtMost result into.new }
    ensures bytes { ReadConsumes (R.remaining reader.old) (R.remaining reader.new) result into.new }
{
    for _ in 0..u64::MAX {
        match reader.read(into) {
            Ok(size) => return Ok(size),
            Err(e) => {
                if e.kind() != ErrorKind::Interrupted {
                    return Err(Failed);
                }
            }
        }
    }
    Err(Failed)
}
