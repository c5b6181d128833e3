//! An acceptor over TCP.

ghost use Rattle.std.specs.Prelude.{◌≡◌, ◌≤◌, None, true, false, IfOk, is_some};
ghost use Rattle.td_accept.specs.Doors.{GivesVisitor};
ghost use Rattle.td_out.specs.Causes.{next_count, HasCause};

use crate::accept::Accept;
use crate::connection::next_connection;
use crate::refusable_wire::RefusableWire;
use crate::tcp_sink::TcpSink;
use crate::tcp_source::TcpSource;
use crate::visitor::Visitor;
use std::marker::Model;
use std::net::{Net, OpenListener, OpenStream, TcpListener};
use std::rt::Clock;
use td_out::{ChaChaWords, Failed};
use td_wire::{ConnectionPool, TcpWire};

/// An acceptor over TCP. A host is a name, which the system looks up, or an address. Each connection is a visitor; it
/// holds nothing back, so that a reply goes out at once. It tells nothing of its content.
#[derive(Drop)]
pub struct TcpAccept<'a, R: Net> {
    rt: &'a R,
    pool: Option<&'a ConnectionPool<R::Stream>>,
    listener: Option<R::Listener>,
    faults: u64,
}

impl<'a, R: Net> Model for TcpAccept<'a, R> {
    ghost use Rattle.std.specs.Prelude.{is_some};
    ghost use Rattle.td_accept.specs.Listening.{TcpAcceptState};

    ghost Value = { TcpAcceptState };

    ghost view = { λ a. record { bound = is_some a.listener; faults = a.faults } };
}

impl<'a, R: Net> TcpAccept<'a, R> {
    /// An acceptor that is bound to nothing yet. No fault was counted yet. The wires of its visitors share the pool of
    /// connections, where there is one.
    pub fn new(rt: &'a R, pool: Option<&'a ConnectionPool<R::Stream>>) -> TcpAccept<'a, R>
        ensures { result ≡ record { bound = false; faults = 0 } }
    {
        TcpAccept {
            rt,
            pool,
            listener: None,
            faults: 0,
        }
    }

    /// Counts a fault. The count stands still at 2^64 - 1.
    fn count_fault(&mut self)
        ensures after { self.new ≡ record self.old { faults = next_count self.old.faults } }
        ensures later { self.old.faults ≤ self.new.faults }
    {
        self.faults = self.faults.saturating_add(1);
    }
}

impl<'a, R: Net + Clock + Sync> Accept for TcpAccept<'a, R>
where
    R::Stream: Send,
{
    type S = TcpSource<'a, R, R::Stream>;

    type K = TcpSink<'a, R, R::Stream>;

    type L = RefusableWire<TcpWire<'a, R>>;

    type W = ChaChaWords;

    ghost content = { λ _. None };

    ghost bound = { λ a. a.bound };

    ghost faults = { λ a. a.faults };

    ghost same = { λ _ _. Unit {0} };

    ghost same_self = { λ _. tt };

    ghost same_on = { λ _ _ _ _ _. tt };

    /// A host that is no text, or none of whose addresses can be bound, is a fault.
    fn bind(&mut self, host: &[u8], port: u16) -> Result<(), Failed> {
        match listen(self.rt, host, port) {
            Ok(listener) => {
                self.listener = Some(listener);
                Ok(())
            }
            Err(fault) => {
                self.count_fault();
                Err(fault)
            }
        }
    }

    /// It never comes to the end of its visitors.
    fn next(
        &mut self,
    ) -> Result<
        Option<
            Visitor<
                TcpSource<'a, R, R::Stream>,
                TcpSink<'a, R, R::Stream>,
                RefusableWire<TcpWire<'a, R>>,
                ChaChaWords,
            >,
        >,
        Failed,
    >
        requires { self.old.bound ≡ true }
        ensures same { Unit {0} }
        ensures bound { self.new.bound ≡ true }
        ensures content { GivesVisitor None None result }
        ensures cause { HasCause self.old.faults self.new.faults result }
        ensures endless { IfOk result (λ visitor. is_some visitor ≡ true) }
    {
        match connect(self.rt, &self.listener) {
            Ok((stream, twin)) => Ok(Some(Visitor {
                source: TcpSource::new(self.rt, stream),
                sink: TcpSink::new(self.rt, twin),
                wire: RefusableWire::new(TcpWire::with_pool(self.rt, self.pool)),
                words: ChaChaWords::new(),
            })),
            Err(fault) => {
                self.count_fault();
                Err(fault)
            }
        }
    }
}

/// A listener at the first of the host's addresses that can be bound.
fn listen<R: Net>(rt: &R, host: &[u8], port: u16) -> Result<R::Listener, Failed> {
    let Ok(host) = std::str::from_utf8(host) else {
        return Err(Failed);
    };
    match TcpListener::bind(rt, (host, port)) {
        Ok(listener) => Ok(listener),
        Err(_) => Err(Failed),
    }
}

/// The next connection of the listener, for reading and for writing. Where it was bound to nothing, it fails.
fn connect<R: Clock, L: OpenListener>(
    rt: &R,
    listener: &Option<L>,
) -> Result<(L::Stream, L::Stream), Failed>
where
    L::Stream: OpenStream,
{
    match listener {
        Some(listener) => next_connection(rt, listener),
        None => Err(Failed),
    }
}
