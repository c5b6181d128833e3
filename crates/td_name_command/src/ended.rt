//! How a command ended: the status of the program, and the line that it leaves.

ghost use Rattle.std.specs.Prelude.{◌≡◌};
ghost use Rattle.td_name_command.specs.Ends.{line_of, status_of};

use td_name_session::End;

/// How a command ended.
#[derive(Clone, Copy)]
pub(crate) enum Ended {
    /// The words are no command.
    Usage,
    /// Out of memory, before a session began.
    Memory,
    /// The session ended so.
    Served(End),
}

impl Ended {
    /// The status of the program.
    pub(crate) fn status(&self) -> u8
        ensures { result ≡ status_of self.now }
    {
        match self {
            Ended::Usage => 2,
            Ended::Memory => 9,
            Ended::Served(End::Closed) => 0,
            Ended::Served(End::Broken(_, _)) => 4,
            Ended::Served(End::Truncated(_)) => 5,
            Ended::Served(End::ReadFault) => 6,
            Ended::Served(End::WriteFault) => 7,
            Ended::Served(End::Long) => 8,
            Ended::Served(End::Memory) => 9,
        }
    }

    /// What goes to standard error: `usage`, `status N`, or nothing where the status is 0.
    pub(crate) fn line(&self) -> &'static [u8]
        ensures { result.now ≡ line_of self.now }
    {
        match self {
            Ended::Usage => b"usage\n",
            Ended::Memory => b"status 9\n",
            Ended::Served(End::Closed) => b"",
            Ended::Served(End::Broken(_, _)) => b"status 4\n",
            Ended::Served(End::Truncated(_)) => b"status 5\n",
            Ended::Served(End::ReadFault) => b"status 6\n",
            Ended::Served(End::WriteFault) => b"status 7\n",
            Ended::Served(End::Long) => b"status 8\n",
            Ended::Served(End::Memory) => b"status 9\n",
        }
    }
}
