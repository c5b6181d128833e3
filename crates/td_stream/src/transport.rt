//! The transport: the messages of a stream are answered in order until it ends.

ghost use Rattle.std.specs.Prelude.{◌≡◌, ◌+◌, ◌^◌, ◌≤◌, [], false, length, if◌then◌else◌};
ghost use Rattle.td_stream.specs.Completeness.{Completes};
ghost use Rattle.td_stream.specs.Messages.{message_limit};
ghost use Rattle.td_stream.specs.Outbound.{outbound, SendsAll};
ghost use Rattle.td_stream.specs.Outside.{outside};
ghost use Rattle.td_stream.specs.Steps.{cause_of};
ghost use Rattle.td_stream.specs.Streams.{Streams};
ghost use Rattle.td_stream.specs.declared.end.End.TheVariants.{WriteFault};

use crate::end::{Cause, End};
use crate::front::{Front, serve_front};
use crate::outbox::{Outbox, give_back};
use crate::piece::{Piece, take_piece};
use crate::servant::Servant;
use std::alloc::Global;
use td_cdr::Memory;
use td_giop::{FrameFault, Framer, SERVER_LIMIT};
use td_out::{Sink, Source};

/// How many bytes of a stream are taken at most.
const BYTES_LIMIT: u64 = 1 << 40;

/// How many Requests of a stream are answered at most.
const REQUEST_LIMIT: u64 = 1_000_000;

/// A MessageError in big order.
const MESSAGE_ERROR: [u8; 12] = [b'G', b'I', b'O', b'P', 1, 0, 0, 6, 0, 0, 0, 0];

/// How far a stream has come.
#[derive(Drop)]
struct Transport {
    framer: Framer,
    /// How many bytes were taken.
    taken: u64,
    /// How many Requests were answered.
    requests: u64,
    ghost counted: { framer.start + length framer.rest ≡ taken },
    ghost limited: { framer.limit ≡ message_limit },
    ghost short: { taken ≤ 2 ^ 40 },
    ghost few: { requests ≤ 1000000 },
}

impl Transport {
    ghost use Rattle.std.specs.Prelude.{◌≡◌, ℕ, ◌+◌, ◌^◌, ◌<◌, ◌≤◌, Ok, None, [], IfOk};
    ghost use Rattle.td_giop.specs.Stream.{first_at};
    ghost use Rattle.td_stream.specs.Ends.{BreaksOff, EndsInput, EndsAtBad};
    ghost use Rattle.td_stream.specs.Messages.{message_limit};
    ghost use Rattle.td_stream.specs.Outbound.{outbound};
    ghost use Rattle.td_stream.specs.Progress.{Advances, Proceeds, stand};

    /// A stream of which nothing was taken.
    fn new(alloc: Global) -> Result<Transport, Memory>
        ensures { IfOk result (λ s. (s.framer.rest ≡ []) × (s.taken ≡ 0) × (s.requests ≡ 0)) }
    {
        Ok(Transport {
            framer: Framer::new(alloc, SERVER_LIMIT)?,
            taken: 0,
            requests: 0,
        })
    }

    /// Answers the message in front, or takes a piece, or says how the stream ends.
    fn turn<'k, V: Servant, S: Source, K: Sink>(
        &mut self,
        alloc: Global,
        servant: &mut V,
        source: &mut S,
        outbox: &mut Outbox<'k, K>,
    ) -> Option<End>
        requires room { V.budget servant.old ≤ 2 ^ 62 + self.old.requests }
        ensures same { V.same servant.old servant.new }
        ensures same_sink { outbox.new.sink.ghost_name ≡ outbox.old.sink.ghost_name }
        ensures proceeds { Proceeds V.serves V.stays servant.old servant.new
            (stand (S.left source.old)
            (S.faults source.old) self.old.framer.rest self.old.taken self.old.requests
            (outbound (K.written outbox.old.sink.now)
            (K.faults outbox.old.sink.now) outbox.old.held.items outbox.old.failed))
            (stand (S.left source.new)
            (S.faults source.new) self.new.framer.rest self.new.taken self.new.requests
            (outbound (K.written outbox.new.sink.now)
            (K.faults outbox.new.sink.now) outbox.new.held.items outbox.new.failed)) result }
    {
        if self.requests == REQUEST_LIMIT {
            return Some(finish(outbox, End::Long));
        }
        match serve_front(alloc, servant, &mut self.framer, outbox) {
            Front::Nothing => self.take(source, outbox),
            Front::Bad(fault) => Some(self.end_at_bad_header(outbox, fault)),
            Front::Closes => Some(finish(outbox, End::Closed)),
            Front::Breaks(cause) => Some(self.break_off(outbox, cause)),
            Front::Full => Some(finish(outbox, End::Memory)),
            Front::Answered { request } => {
                self.framer.drop_message();
                self.requests += u64::from(request);
                if outbox.has_failed() {
                    Some(End::WriteFault)
                } else {
                    None
                }
            }
        }
    }

    /// Takes a piece of the stream, where no whole message is in front. What is held is sent before.
    fn take<'k, S: Source, K: Sink>(
        &mut self,
        source: &mut S,
        outbox: &mut Outbox<'k, K>,
    ) -> Option<End>
        requires served { first_at message_limit self.old.framer.rest ≡ Ok None }
        requires open { self.old.requests < 1000000 }
        ensures same_sink { outbox.new.sink.ghost_name ≡ outbox.old.sink.ghost_name }
        ensures takes { Advances [] result
            (stand (S.left source.old)
            (S.faults source.old) self.old.framer.rest self.old.taken self.old.requests
            (outbound (K.written outbox.old.sink.now)
            (K.faults outbox.old.sink.now) outbox.old.held.items outbox.old.failed))
            (stand (S.left source.new)
            (S.faults source.new) self.new.framer.rest self.new.taken self.new.requests
            (outbound (K.written outbox.new.sink.now)
            (K.faults outbox.new.sink.now) outbox.new.held.items outbox.new.failed)) }
    {
        outbox.send();
        if outbox.has_failed() {
            return Some(End::WriteFault);
        }
        if self.taken == BYTES_LIMIT {
            return Some(End::Long);
        }
        match take_piece(&mut self.framer, source, BYTES_LIMIT - self.taken) {
            Piece::Came(count) => {
                self.taken += count;
                None
            }
            Piece::Ended => Some(self.end_of_input()),
            Piece::Failed => Some(End::ReadFault),
            Piece::Memory => Some(End::Memory),
        }
    }

    /// How a stream ends whose input has ended.
    fn end_of_input(&self) -> End
        requires { first_at message_limit self.now.framer.rest ≡ Ok None }
        ensures { EndsInput self.now.framer result }
    {
        match self.framer.ended_inside() {
            Some(place) => End::Truncated(place),
            None => End::Closed,
        }
    }

    /// Ends a stream that is at a bad header.
    fn end_at_bad_header<'k, K: Sink>(&self, outbox: &mut Outbox<'k, K>, fault: FrameFault) -> End
        ensures same_sink { outbox.new.sink.ghost_name ≡ outbox.old.sink.ghost_name }
        ensures ends { EndsAtBad self.now.framer.start self.now.taken fault result
            (outbound (K.written outbox.old.sink.now)
            (K.faults outbox.old.sink.now) outbox.old.held.items outbox.old.failed)
            (outbound (K.written outbox.new.sink.now)
            (K.faults outbox.new.sink.now) outbox.new.held.items outbox.new.failed) }
    {
        if self.taken == BYTES_LIMIT {
            return finish(outbox, End::Long);
        }
        self.break_off(outbox, cause_of(fault))
    }

    /// Ends the stream: sends what is held, and a MessageError behind it, as far as the sink takes it.
    fn break_off<'k, K: Sink>(&self, outbox: &mut Outbox<'k, K>, cause: Cause) -> End
        ensures same_sink { outbox.new.sink.ghost_name ≡ outbox.old.sink.ghost_name }
        ensures breaks { BreaksOff self.now.framer.start cause result
            (outbound (K.written outbox.old.sink.now)
            (K.faults outbox.old.sink.now) outbox.old.held.items outbox.old.failed)
            (outbound (K.written outbox.new.sink.now)
            (K.faults outbox.new.sink.now) outbox.new.held.items outbox.new.failed) }
    {
        outbox.send();
        if outbox.has_failed() {
            return End::WriteFault;
        }
        outbox.write_error(&MESSAGE_ERROR);
        End::Broken(self.framer.place(), cause)
    }
}

/// Sends what is held, and says how the stream ends then.
fn finish<'k, K: Sink>(outbox: &mut Outbox<'k, K>, end: End) -> End
    ensures same_sink { outbox.new.sink.ghost_name ≡ outbox.old.sink.ghost_name }
    ensures sends { SendsAll
        (outbound (K.written outbox.old.sink.now)
        (K.faults outbox.old.sink.now) outbox.old.held.items outbox.old.failed)
        (outbound (K.written outbox.new.sink.now)
        (K.faults outbox.new.sink.now) outbox.new.held.items outbox.new.failed) }
    ensures end { result ≡ (if outbox.new.failed then WriteFault else end) }
{
    outbox.send();
    if outbox.has_failed() {
        End::WriteFault
    } else {
        end
    }
}

/// What a bad header means for the stream.
fn cause_of(fault: FrameFault) -> Cause
    ensures { result ≡ cause_of fault }
{
    match fault {
        FrameFault::BadMagic => Cause::BadMagic,
        FrameFault::BadVersion => Cause::BadVersion,
        FrameFault::BadType => Cause::BadType,
        FrameFault::TooLarge => Cause::TooLarge,
        FrameFault::Fragmented => Cause::Fragmented,
    }
}

/// Answers the messages of a source in order, and writes their replies to a sink, until the stream ends. Replies
/// go out together: before more of the source is read, before the stream ends, before the servant waits for
/// anybody, and where 64 KiB are held. Where such a write fails, the message that is being answered is the last.
///
/// Where the source is whole messages that a server can be sent, within a stream's limits, and none of the
/// outside fails, those before the first CloseConnection or MessageError are all answered, or memory runs out.
pub fn serve_stream<V: Servant, S: Source, K: Sink>(
    alloc: Global,
    servant: &mut V,
    source: &mut S,
    sink: &mut K,
) -> End
    requires { V.budget servant.old ≤ 2 ^ 62 }
    ensures same { V.same servant.old servant.new }
    ensures streams { Streams V.serves V.stays servant.old servant.new result
        (outside (S.left source.old) (S.faults source.old) (K.written sink.old) (K.faults sink.old))
        (outside (S.left source.new) (S.faults source.new) (K.written sink.new)
        (K.faults sink.new)) }
    ensures complete { Completes V.serves V.stays servant.old servant.new result
        (outside (S.left source.old) (S.faults source.old) (K.written sink.old) (K.faults sink.old))
        (outside (S.left source.new) (S.faults source.new) (K.written sink.new)
        (K.faults sink.new)) }
{
    let mut outbox = Outbox::new(alloc, sink);
    let end = serve_all(alloc, servant, source, &mut outbox);
    let Outbox { sink, held, .. } = outbox;
    drop(held);
    give_back(sink);
    end
}

/// Answers the messages of a stream, turn by turn.
fn serve_all<'k, V: Servant, S: Source, K: Sink>(
    alloc: Global,
    servant: &mut V,
    source: &mut S,
    outbox: &mut Outbox<'k, K>,
) -> End
    requires budget { V.budget servant.old ≤ 2 ^ 62 }
    requires held { outbox.old.held.items ≡ [] }
    requires works { outbox.old.failed ≡ false }
    ensures same { V.same servant.old servant.new }
    ensures same_sink { outbox.new.sink.ghost_name ≡ outbox.old.sink.ghost_name }
    ensures streams { Streams V.serves V.stays servant.old servant.new result
        (outside (S.left source.old) (S.faults source.old) (K.written outbox.old.sink.now)
        (K.faults outbox.old.sink.now))
        (outside (S.left source.new) (S.faults source.new) (K.written outbox.new.sink.now)
        (K.faults outbox.new.sink.now)) }
    ensures complete { Completes V.serves V.stays servant.old servant.new result
        (outside (S.left source.old) (S.faults source.old) (K.written outbox.old.sink.now)
        (K.faults outbox.old.sink.now))
        (outside (S.left source.new) (S.faults source.new) (K.written outbox.new.sink.now)
        (K.faults outbox.new.sink.now)) }
{
    let Ok(mut transport) = Transport::new(alloc) else {
        return End::Memory;
    };
    loop {
        match transport.turn(alloc, servant, source, outbox) {
            Some(end) => return end,
            None => {}
        }
    }
}
