//! Why a call on the desk does nothing.

/// Why a call on the desk does nothing.
#[derive(Clone, Copy, Debug, PartialEq, Eq)]
pub enum DeskFault {
    /// No iterator of that trader and number is there.
    Absent,
    /// As many calls of its kind were done as may be.
    Full,
    /// For running out of memory alone.
    Memory,
}
