//! How the command ended: the status of the program, and the line that it leaves.

ghost use Rattle.std.specs.Prelude.{◌≡◌};
ghost use Rattle.td_name_listen.specs.Listens.{line_of, status_of};

/// How the command ended.
#[derive(Clone, Copy, Debug, PartialEq, Eq)]
pub enum Listened {
    /// The words are no command.
    Usage,
    /// Out of memory.
    Memory,
    /// The acceptor failed.
    Unaccepted,
    /// No visitor was left.
    Over,
}

impl Listened {
    /// The status of the program.
    pub fn status(&self) -> u8
        ensures { result ≡ status_of self.now }
    {
        match self {
            Listened::Usage => 2,
            Listened::Memory => 9,
            Listened::Unaccepted => 11,
            Listened::Over => 0,
        }
    }

    /// What goes to standard error: `usage`, `status N`, or nothing where the status is 0.
    pub(crate) fn line(&self) -> &'static [u8]
        ensures { result.now ≡ line_of self.now }
    {
        match self {
            Listened::Usage => b"usage\n",
            Listened::Memory => b"status 9\n",
            Listened::Unaccepted => b"status 11\n",
            Listened::Over => b"",
        }
    }
}
