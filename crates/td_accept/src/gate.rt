//! What a session waits for before it begins.

/// A gate through which each session goes in and out. Sessions are numbered from 1.
pub trait Gate: Sync {
    /// A session begins once this returns.
    fn enter(&self, session: u64);

    /// A session has ended.
    fn leave(&self, session: u64);
}

/// A gate that stands open.
#[derive(Clone, Copy, Debug, PartialEq, Eq)]
pub struct NoGate;

impl Gate for NoGate {
    fn enter(&self, _session: u64) {}

    fn leave(&self, _session: u64) {}
}
