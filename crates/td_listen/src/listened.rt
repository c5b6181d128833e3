//! How `listen` ended, the status of the program for it, and the line that it leaves.

ghost use Rattle.std.specs.Prelude.{◌≡◌};
ghost use Rattle.td_out.specs.SinkTexts.{GivesText};
ghost use Rattle.td_listen.specs.Listens.{line_of, status_of};

use td_command::{Ended, report, write_numbered};
use td_file::LineCause;
use td_out::Sink;

/// How `listen` ended.
#[derive(Clone, Copy, Debug, PartialEq, Eq)]
pub enum Listened {
    /// The words are no command.
    Usage,
    /// The file can't be had.
    Missing,
    /// The file has more than 64 MiB.
    TooLong,
    /// The file is refused at the line of this number, counted from 1, and why.
    Refused(u32, LineCause),
    /// Out of memory.
    Memory,
    /// The acceptor failed.
    Unaccepted,
    /// No visitor was left.
    Over,
}

impl Listened {
    /// The status of the program.
    pub fn status(&self) -> u8
        ensures { result ≡ status_of self.now }
    {
        match self {
            Listened::Usage => 2,
            Listened::Missing => 10,
            Listened::TooLong => 3,
            Listened::Refused(_, _) => 3,
            Listened::Memory => 9,
            Listened::Unaccepted => 11,
            Listened::Over => 0,
        }
    }
}

/// Writes the line for it. Where the sink fails, the rest of the line is lost.
pub(crate) fn tell<E: Sink>(faults: &mut E, listened: Listened)
    ensures { GivesText (line_of listened) (E.written faults.old) (E.written faults.new)
        (E.faults faults.old) (E.faults faults.new) }
{
    match listened {
        Listened::Usage => report(faults, Ended::Usage),
        Listened::Missing => report(faults, Ended::Missing),
        Listened::TooLong => report(faults, Ended::TooLong),
        Listened::Refused(number, cause) => report(faults, Ended::Refused(number, cause)),
        Listened::Memory => report(faults, Ended::Memory),
        Listened::Unaccepted => {
            let _ = write_numbered(faults, b"status ", 11, b"\n");
        }
        Listened::Over => {}
    }
}
