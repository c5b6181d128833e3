//! Why a connection wasn't taken.

use std::io::ErrorKind;

/// Where the cause lies that a connection wasn't taken.
#[derive(Clone, Copy, Debug, PartialEq, Eq)]
pub(crate) enum AcceptFault {
    /// In the connection, over which the network failed before it was taken.
    Connection,
    /// In what the system is short of for a moment: descriptors, buffers or memory.
    Resources,
    /// In the listener.
    Listener,
}

// Error numbers of Linux that have no `ErrorKind` of their own, of accept(2) and dup(2).
const ENFILE: i32 = 23;

const EMFILE: i32 = 24;

const ENONET: i32 = 64;

const EPROTO: i32 = 71;

const ENOPROTOOPT: i32 = 92;

const EOPNOTSUPP: i32 = 95;

const ENOBUFS: i32 = 105;

const EHOSTDOWN: i32 = 112;

impl AcceptFault {
    /// The cause behind an error of this kind, with this number of the system's.
    pub(crate) fn new(kind: ErrorKind, number: Option<i32>) -> AcceptFault {
        match kind {
            ErrorKind::Interrupted
            | ErrorKind::ConnectionAborted
            | ErrorKind::NetworkDown
            | ErrorKind::NetworkUnreachable
            | ErrorKind::HostUnreachable => AcceptFault::Connection,
            ErrorKind::OutOfMemory => AcceptFault::Resources,
            _ => match number {
                Some(ENONET | EPROTO | ENOPROTOOPT | EOPNOTSUPP | EHOSTDOWN) => {
                    AcceptFault::Connection
                }
                Some(ENFILE | EMFILE | ENOBUFS) => AcceptFault::Resources,
                _ => AcceptFault::Listener,
            },
        }
    }
}
