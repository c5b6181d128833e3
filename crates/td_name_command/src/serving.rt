//! A session with new naming contexts.

ghost use Rattle.std.specs.Prelude.{◌≡◌, ◌≤◌, [], length, IfOk};
ghost use Rattle.td_cdr.specs.Text.{HasNoNul};
ghost use Rattle.td_name_command.specs.Runs.{ObeysAt};
ghost use Rattle.td_name_command.specs.Words.{home};
ghost use Rattle.td_naming.specs.Histories.{past};
ghost use Rattle.td_stream.specs.Outside.{outside};

use crate::ended::Ended;
use std::alloc::Global;
use td_cdr::{Memory, Text};
use td_name_session::{NameRoom, serve_names};
use td_naming::Naming;
use td_out::{Sink, Source};

/// Serves a session with the root alone, without bindings, whose references have this host and port.
pub(crate) fn serve_new<S: Source, K: Sink>(
    alloc: Global,
    host: &str,
    port: u16,
    source: &mut S,
    sink: &mut K,
) -> Ended
    requires plain { HasNoNul host.now }
    requires short { length host.now ≤ 1000 }
    ensures { ObeysAt (home host.now port) result
        (outside (S.left source.old) (S.faults source.old) (K.written sink.old) (K.faults sink.old))
        (outside (S.left source.new) (S.faults source.new) (K.written sink.new)
        (K.faults sink.new)) }
{
    let Ok(mut names) = new_naming(alloc, host, port) else {
        return Ended::Memory;
    };
    let Ok(mut room) = NameRoom::new(alloc) else {
        return Ended::Memory;
    };
    let end = serve_names(alloc, &mut names, &mut room, source, sink);
    Ended::Served(end)
}

/// The root alone, without bindings, of a server that listens at this host and port.
///
/// # Errors
///
/// `Memory` only when out of memory.
pub fn new_naming(alloc: Global, host: &str, port: u16) -> Result<Naming, Memory>
    requires plain { HasNoNul host.now }
    requires short { length host.now ≤ 1000 }
    ensures { IfOk result (λ n. n ≡ past (home host.now port) []) }
{
    let host = Text::from_slice(alloc, host.as_bytes())?;
    Naming::new(alloc, host, port)
}
