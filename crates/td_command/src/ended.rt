//! How a command ended, and the status of the program for it.

ghost use Rattle.std.specs.Prelude.{◌≡◌};
ghost use Rattle.td_command.specs.Status.{status_of};

use td_file::LineCause;
use td_session::End;

/// How a command ended.
#[derive(Clone, Copy, Debug, PartialEq, Eq)]
pub enum Ended {
    /// The words are no command.
    Usage,
    /// The file can't be had.
    Missing,
    /// The file has more than 64 MiB.
    TooLong,
    /// The file is refused at the line of this number, counted from 1, and why.
    Refused(u32, LineCause),
    /// Out of memory, before a session began or anything was printed.
    Memory,
    /// All was printed.
    Printed,
    /// The sink failed before all was printed.
    PrintFault,
    /// The session ended so.
    Served(End),
}

impl Ended {
    /// The status of the program.
    pub fn status(&self) -> u8
        ensures { result ≡ status_of self.now }
    {
        match self {
            Ended::Usage => 2,
            Ended::Missing => 10,
            Ended::TooLong => 3,
            Ended::Refused(_, _) => 3,
            Ended::Memory => 9,
            Ended::Printed => 0,
            Ended::PrintFault => 7,
            Ended::Served(End::Closed) => 0,
            Ended::Served(End::Broken(_, _)) => 4,
            Ended::Served(End::Truncated(_)) => 5,
            Ended::Served(End::ReadFault) => 6,
            Ended::Served(End::WriteFault) => 7,
            Ended::Served(End::Long) => 8,
            Ended::Served(End::Memory) => 9,
        }
    }
}
