//! How a command on logs ended, and the status of the program for it.

ghost use Rattle.std.specs.Prelude.{◌≡◌};
ghost use Rattle.td_audit_run.specs.Status.{status_of};

use td_file::LineCause;

/// How a command on logs ended.
#[derive(Clone, Copy, Debug, PartialEq, Eq)]
pub enum Audited {
    /// The words are no such command.
    Usage,
    /// The file or the log can't be had.
    Missing,
    /// The file or the log has more than 64 MiB.
    TooLong,
    /// The file is refused at the line of this number, counted from 1, and why.
    Refused(u32, LineCause),
    /// The line of this number of the log isn't in its table.
    Strange(u32),
    /// Out of memory, before anything was printed.
    Memory,
    /// All was printed: the log is what the network does, or a log was made.
    Printed,
    /// The verdict was printed that the log isn't what the network does.
    Denied,
    /// The sink failed before all was printed.
    PrintFault,
}

impl Audited {
    /// The status of the program.
    pub fn status(&self) -> u8
        ensures { result ≡ status_of self.now }
    {
        match self {
            Audited::Usage => 2,
            Audited::Missing => 10,
            Audited::TooLong => 3,
            Audited::Refused(_, _) => 3,
            Audited::Strange(_) => 13,
            Audited::Memory => 9,
            Audited::Printed => 0,
            Audited::Denied => 12,
            Audited::PrintFault => 7,
        }
    }
}
