//! The objects of a trader, as their keys name them.

use std::alloc::Global;
use td_cdr::{Memory, Text, Twin};

/// Which object of a trader is meant.
#[derive(Clone, Copy, Debug, PartialEq, Eq)]
pub enum Kind {
    Lookup,
    Register,
    Link,
    Proxy,
    Admin,
    /// The repository of service types.
    Types,
    /// The iterator of this number, counted from 1.
    Iterator(u64),
}

/// The key of an object of this server.
pub struct ObjectKey {
    /// The trader's name.
    pub trader: Text,
    pub kind: Kind,
}

// By hand, since a derived drop is written out at each exit, and proved again in each crate above.
impl Drop for ObjectKey {
    fn drop(self) {
        let ObjectKey {
            trader: _trader,
            kind: _kind,
        } = self;
    }
}
