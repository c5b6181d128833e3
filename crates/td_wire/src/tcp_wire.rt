//! A wire over TCP.

ghost use Rattle.std.specs.Prelude.{◌≡◌, ◌≤◌, None, IfNone};
ghost use Rattle.std.specs.Io.{ReadsAtMost};
ghost use Rattle.std.specs.Result.{IsErr};
ghost use Rattle.td_out.specs.Causes.{next_count, TakesPiece};

use crate::pool::ConnectionPool;
use crate::tcp_call::{Deadline, TcpCall};
use crate::tcp_connection::{TcpConnection, open};
use crate::unreachable::Reach;
use crate::wire::Wire;
use std::io::{Read, Write};
use std::marker::Model;
use std::net::{Net, OpenStream};
use std::rt::Clock;
use td_out::Failed;

/// A wire over TCP. A host is a name, which the system looks up, or an address; each of its addresses is tried. It
/// tells nothing of its content.
///
/// A call, from `connect` to `finish`, has its limits: 10 seconds for each address, 60 seconds for all of it, and 256
/// MiB that are read. What would go past them is a fault. With a pool, `connect` may take a connection over which an
/// earlier call was done, and it fails at once where the peer couldn't be reached just before.
#[derive(Drop)]
pub struct TcpWire<'a, R: Net> {
    rt: &'a R,
    pool: Option<&'a ConnectionPool<R::Stream>>,
    call: Option<TcpCall<R::Stream>>,
    faults: u64,
}

impl<'a, R: Net> Model for TcpWire<'a, R> {
    ghost use Rattle.std.specs.Prelude.{ℕ};

    // the count of faults
    ghost Value = { ℕ };

    ghost view = { λ s. s.faults };
}

impl<'a, R: Net> TcpWire<'a, R> {
    /// A wire that connects to nothing yet, and keeps no connection. No fault was counted yet.
    pub fn new(rt: &'a R) -> TcpWire<'a, R>
        ensures { result ≡ 0 }
    {
        TcpWire::with_pool(rt, None)
    }

    /// A wire that connects to nothing yet. It keeps its connections in the pool, where there is one, and takes them
    /// from there. No fault was counted yet.
    pub fn with_pool(rt: &'a R, pool: Option<&'a ConnectionPool<R::Stream>>) -> TcpWire<'a, R>
        ensures { result ≡ 0 }
    {
        TcpWire {
            rt,
            pool,
            call: None,
            faults: 0,
        }
    }

    /// Counts a fault. The count stands still at 2^64 - 1.
    fn count_fault(&mut self)
        ensures after { self.new ≡ next_count self.old }
        ensures later { self.old ≤ self.new }
    {
        self.faults = self.faults.saturating_add(1);
    }
}

impl<'a, R: Net + Clock> Wire for TcpWire<'a, R> {
    ghost content = { λ _. None };

    ghost faults = { λ s. s };

    ghost same = { λ _ _. Unit {0} };

    ghost same_self = { λ _. tt };

    ghost same_on = { λ _ _ _ _ _. tt };

    /// A host that is no text, or at none of whose addresses a connection can be made in time, is a fault.
    fn connect(&mut self, host: &[u8], port: u16) -> Result<(), Failed> {
        self.call = None;
        match begin_call(self.rt, self.pool, host, port) {
            Ok(call) => {
                self.call = Some(call);
                Ok(())
            }
            Err(fault) => {
                self.count_fault();
                Err(fault)
            }
        }
    }

    /// No connection that stands is a fault, and so is a call that has read as much or taken as long as it may.
    fn read(&mut self, into: &mut [u8]) -> Result<usize, Failed> {
        match read_from(&mut self.call, self.rt, into) {
            Ok(size) => Ok(size),
            Err(fault) => {
                self.count_fault();
                Err(fault)
            }
        }
    }

    /// No connection that stands is a fault, and so are a call that has taken as long as it may, and a write that takes
    /// nothing of a piece that isn't empty.
    fn write(&mut self, piece: &[u8]) -> Result<usize, Failed> {
        match write_to(&mut self.call, self.rt, piece) {
            Ok(size) => Ok(size),
            Err(fault) => {
                self.count_fault();
                Err(fault)
            }
        }
    }

    /// The connection goes into the pool where nothing is owed over it, and ends else. A peer that has taken as long as
    /// it may isn't called for some seconds.
    fn finish(&mut self, whole: bool) {
        match (self.pool, self.call.take()) {
            (Some(pool), Some(call)) => end_call(self.rt, pool, call, whole),
            _ => {}
        }
    }
}

/// Begins a call to this host and port.
fn begin_call<R: Net + Clock>(
    rt: &R,
    pool: Option<&ConnectionPool<R::Stream>>,
    host: &[u8],
    port: u16,
) -> Result<TcpCall<R::Stream>, Failed> {
    let Some(deadline) = Deadline::of_call(rt) else {
        return Err(Failed);
    };
    match pool {
        Some(pool) => begin_with(rt, pool, deadline, host, port),
        None => {
            let stream = open(rt, deadline, host, port)?;
            Ok(TcpCall::new(TcpConnection::new(None, stream), deadline, false))
        }
    }
}

/// Begins a call over a connection out of the pool, or else over a new one.
fn begin_with<R: Net + Clock>(
    rt: &R,
    pool: &ConnectionPool<R::Stream>,
    deadline: Deadline,
    host: &[u8],
    port: u16,
) -> Result<TcpCall<R::Stream>, Failed> {
    let reach = pool.reach(rt, host, port);
    if reach == Reach::Refused {
        return Err(Failed);
    }
    let connection = match pool.take(host, port) {
        Some(connection) => connection,
        None => open_for(rt, pool, deadline, host, port)?,
    };
    Ok(TcpCall::new(connection, deadline, reach == Reach::Retry))
}

/// Makes a connection that can be kept in the pool. Where none can be made, the peer isn't called for some seconds.
fn open_for<R: Net + Clock>(
    rt: &R,
    pool: &ConnectionPool<R::Stream>,
    deadline: Deadline,
    host: &[u8],
    port: u16,
) -> Result<TcpConnection<R::Stream>, Failed> {
    match open(rt, deadline, host, port) {
        Ok(stream) => Ok(TcpConnection::new(pool.peer(host, port), stream)),
        Err(fault) => {
            pool.put_unreachable(rt, pool.peer(host, port));
            Err(fault)
        }
    }
}

/// Ends a call: keeps its connection where nothing is owed over it, and notes whether the peer could be reached.
fn end_call<S: OpenStream + Drop, C: Clock>(
    clock: &C,
    pool: &ConnectionPool<S>,
    call: TcpCall<S>,
    whole: bool,
) {
    let TcpCall {
        connection,
        deadline,
        left: _left,
        is_retry,
    } = call;
    if !whole && deadline.rest(clock).is_none() {
        pool.put_unreachable(clock, connection.into_peer());
        return;
    }
    if is_retry {
        pool.remove_unreachable(&connection);
    }
    if whole {
        pool.put(connection);
    } else {
        drop(connection);
    }
}

/// One read of the call. Where none is made, it fails.
fn read_from<S: OpenStream + Read + Write, C: Clock>(
    call: &mut Option<TcpCall<S>>,
    clock: &C,
    into: &mut [u8],
) -> Result<usize, Failed>
    ensures bound { ReadsAtMost result into.new }
    ensures none { IfNone call.old (IsErr result) }
{
    match call {
        Some(call) => call.read(clock, into),
        None => Err(Failed),
    }
}

/// One write of the call. Where none is made, it fails.
fn write_to<S: OpenStream + Read + Write, C: Clock>(
    call: &mut Option<TcpCall<S>>,
    clock: &C,
    piece: &[u8],
) -> Result<usize, Failed>
    ensures some { TakesPiece result piece.now }
    ensures none { IfNone call.old (IsErr result) }
{
    match call {
        Some(call) => call.write(clock, piece),
        None => Err(Failed),
    }
}
