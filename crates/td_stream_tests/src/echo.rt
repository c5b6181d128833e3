//! A servant that sends each Request's body back.

ghost use Rattle.std.specs.Prelude.{◌≡◌, ◌≤◌, [], OnOk, if◌then◌else◌};
ghost use Rattle.td_giop.specs.declared.header.TheConstants.{NEWEST_MINOR};
ghost use Rattle.td_giop.specs.Written.{locate_reply_written, seal_size};
ghost use Rattle.td_stream.specs.Heads.{asked_of};
ghost use Rattle.td_stream.specs.Outside.{outside};
ghost use Rattle.td_stream_tests.specs.Echoes.{Any, EchoesAll, EchoesSo, echo_of};

use std::alloc::Global;
use td_cdr::{Memory, Order, Writer};
use td_giop::{Raw, RequestHead, seal, start_reply, write_locate_reply};
use td_out::{Sink, Source};
use td_stream::{End, Head, SendsHeld, Servant, serve_stream};

/// Sends each Request's body back, and has an object for each key.
#[derive(Drop)]
pub struct Echo {
    reply: Writer,
}

impl Echo {
    /// A servant that has answered nothing.
    pub fn new(alloc: Global) -> Echo {
        Echo {
            reply: Writer::new(alloc, Order::Big),
        }
    }
}

impl Servant for Echo {
    ghost use Rattle.std.proofs.Common.{arith};

    ghost serves = { λ s m r t. EchoesSo tt m r tt };

    ghost stays = { λ s t. Any tt tt };

    ghost same = { λ _ _. Unit {0} };

    ghost content = { λ s. s.reply.bytes };

    ghost budget = { λ _. 0 };

    ghost spends = { λ _ _ _ _ _. Prim.search arith };

    ghost stays_itself = { λ _. tt };

    ghost same_itself = { λ _. tt };

    ghost same_on = { λ _ _ _ _ _. tt };

    fn answer<G: SendsHeld>(
        &mut self,
        _alloc: Global,
        message: &Raw<'_>,
        head: &Head<'_>,
        _held: &mut G,
    ) -> Result<(), Memory> {
        self.reply.restart(message.order);
        match head {
            Head::Request(request) => write_echo(&mut self.reply, message.minor, request),
            Head::Locate(id, _key) => write_here(&mut self.reply, message.minor, *id),
            Head::Cancel(_id) => Ok(()),
        }
    }

    fn reply(&self) -> &[u8] {
        self.reply.bytes()
    }
}

/// Writes the Reply to a Request that expects one.
fn write_echo(reply: &mut Writer, minor: u8, request: &RequestHead<'_>) -> Result<(), Memory>
    requires empty { reply.old.bytes ≡ [] }
    requires minor { minor ≤ NEWEST_MINOR }
    ensures { OnOk result (reply.new.bytes ≡ (if request.now.answered
        then echo_of reply.old.order minor (asked_of request.now) request.now.body else [])) }
{
    if !request.answered {
        return Ok(());
    }
    start_reply(reply, minor, request.id, 0)?;
    reply.append(request.body.left())?;
    seal(reply);
    Ok(())
}

/// Writes a LocateReply: the object is here.
fn write_here(reply: &mut Writer, minor: u8, id: u32) -> Result<(), Memory>
    requires empty { reply.old.bytes ≡ [] }
    requires minor { minor ≤ NEWEST_MINOR }
    ensures { OnOk result (reply.new.bytes
        ≡ seal_size reply.old.order (locate_reply_written reply.old.order minor id 1)) }
{
    write_locate_reply(reply, minor, id, 1)?;
    seal(reply);
    Ok(())
}

/// Serves a stream by sending the bodies of its Requests back.
pub fn serve_echo<S: Source, K: Sink>(alloc: Global, source: &mut S, sink: &mut K) -> End
    ensures { EchoesAll result
        (outside (S.left source.old) (S.faults source.old) (K.written sink.old) (K.faults sink.old))
        (outside (S.left source.new) (S.faults source.new) (K.written sink.new)
        (K.faults sink.new)) }
{
    let mut echo = Echo::new(alloc);
    serve_stream(alloc, &mut echo, source, sink)
}
