//! Messages for iterators.

ghost use Rattle.std.specs.Prelude.{◌≡◌, ◌⊎◌, IsErr, MatchOption, OnErr, OnOk, false};
ghost use Rattle.td_cell.specs.Passes.{SameCell, SameNumbers, knowledge};
ghost use Rattle.td_desk_calls.specs.Calls.{asked_by};
ghost use Rattle.td_desk_calls.specs.Serving.{LocatesIterator, ServesIterator};
ghost use Rattle.td_desk_calls.specs.declared.desk_call.DeskCall.{DeskCall as called};
ghost use Rattle.td_ops.specs.Calls.{call_read};
ghost use Rattle.td_dispatch.specs.ReplyBytes.{IsWritable};
ghost use Rattle.td_session.specs.Stages.{Stage};
ghost use Rattle.td_shared.specs.Calling.{IsCallOf, NotesCall};
ghost use Rattle.td_shared.specs.Serving.{IsKeyed, IsUnkeyed, StaysBy};
ghost use Rattle.td_shared.specs.Stages.{shared_stage};
ghost use Rattle.td_stream.specs.Heads.{HasHead, IsMessage};
ghost use Rattle.td_value.specs.declared.key.Kind.TheVariants as kind;

use crate::entry::SharedEntry;
use crate::journal::SharedJournal;
use crate::sharing::Sharing;
use std::alloc::Global;
use std::sync::Wait;
use td_cdr::Memory;
use td_desk_calls::{DeskCall, IteratorCall, answer_request, iterator_key, locate};
use td_dispatch::{Replies, ReplyTo};
use td_giop::{Raw, RequestHead};
use td_stream::Head;

/// The iterator that a message is for, by the message's key, of whatever trader; `None` for a message for no iterator.
pub(crate) fn iterator_of<'m>(message: &Raw<'_>, head: &Head<'m>) -> Option<IteratorCall<'m>>
    requires whole { IsMessage message.now }
    requires head { HasHead message.now head.now }
    ensures { MatchOption result (IsUnkeyed message.now.bytes.now)
        (λ call. IsCallOf message.now head.now call × IsWritable call.to) }
{
    match head {
        Head::Request(request) => match iterator_key(request.key) {
            Some((trader, number)) => Some(IteratorCall {
                to: ReplyTo {
                    order: message.order,
                    minor: message.minor,
                    id: request.id,
                    answered: request.answered,
                },
                trader,
                number,
            }),
            None => None,
        },
        Head::Locate(id, key) => match iterator_key(key) {
            Some((trader, number)) => Some(IteratorCall {
                to: ReplyTo {
                    order: message.order,
                    minor: message.minor,
                    id: *id,
                    answered: true,
                },
                trader,
                number,
            }),
            None => None,
        },
        Head::Cancel(_id) => None,
    }
}

/// Answers a message for an iterator, and notes its call in room that was taken.
///
/// # Errors
///
/// `Memory` when memory ran out for a LocateRequest, and where a call of the desk was `Full`, which is told beside.
pub(crate) fn answer_keyed<'d, 's, 'j, R: Wait, J: SharedJournal>(
    alloc: Global,
    sharing: &mut Sharing<'d, 's, 'j, R, J>,
    replies: &mut Replies,
    message: &Raw<'_>,
    head: &Head<'_>,
    call: &IteratorCall<'_>,
) -> Result<(), Memory>
    requires whole { IsMessage message.now }
    requires head { HasHead message.now head.now }
    requires call { IsCallOf message.now head.now call.now }
    requires version { IsWritable call.now.to }
    requires room { J.has_room sharing.old.journal.now }
    ensures pass { sharing.new.pass.ghost_name ≡ sharing.old.pass.ghost_name }
    ensures journal { sharing.new.journal.ghost_name ≡ sharing.old.journal.ghost_name }
    ensures desk { sharing.new.desk ≡ sharing.old.desk }
    ensures cell { SameCell sharing.new.pass.now sharing.old.pass.now }
    ensures numbers { SameNumbers (knowledge sharing.old.pass.now)
        (knowledge sharing.new.pass.now) }
    ensures full { OnOk result (sharing.new.full ≡ sharing.old.full) }
    ensures keyed { OnOk result ((s : Stage) → IsKeyed
        (shared_stage s (knowledge sharing.old.pass.now) (J.entries sharing.old.journal.now))
        message.now.bytes.now replies.new
        (shared_stage s (knowledge sharing.new.pass.now) (J.entries sharing.new.journal.now))) }
    ensures stays { OnErr result (sharing.old.full ≡ false
        → StaysBy sharing.new.full (knowledge sharing.old.pass.now)
        (knowledge sharing.new.pass.now)) }
    ensures unnoted { OnErr result
        ((J.entries sharing.new.journal.now) ≡ (J.entries sharing.old.journal.now)) }
{
    match head {
        Head::Request(request) => serve_request(alloc, sharing, replies, call, request),
        Head::Locate(_id, _key) => serve_locate(alloc, sharing, replies, call),
        Head::Cancel(_id) => unreachable!(),
    }
}

/// Answers a Request for an iterator.
fn serve_request<'d, 's, 'j, R: Wait, J: SharedJournal>(
    alloc: Global,
    sharing: &mut Sharing<'d, 's, 'j, R, J>,
    replies: &mut Replies,
    call: &IteratorCall<'_>,
    request: &RequestHead<'_>,
) -> Result<(), Memory>
    requires version { IsWritable call.now.to }
    requires room { J.has_room sharing.old.journal.now }
    ensures pass { sharing.new.pass.ghost_name ≡ sharing.old.pass.ghost_name }
    ensures journal { sharing.new.journal.ghost_name ≡ sharing.old.journal.ghost_name }
    ensures desk { sharing.new.desk ≡ sharing.old.desk }
    ensures cell { SameCell sharing.new.pass.now sharing.old.pass.now }
    ensures numbers { SameNumbers (knowledge sharing.old.pass.now)
        (knowledge sharing.new.pass.now) }
    ensures serves { (c : called)
        × NotesCall c (J.entries sharing.old.journal.now) (J.entries sharing.new.journal.now)
        sharing.old.full sharing.new.full result
        × ServesIterator call.now.to call.now.trader.now call.now.number
        (knowledge sharing.old.pass.now)
        (asked_by (call_read (kind.Iterator call.now.number)
        request.now.operation.now request.now.body)) replies.new c
        (knowledge sharing.new.pass.now) }
{
    let came = answer_request(
        sharing.rt,
        alloc,
        sharing.desk,
        sharing.pass,
        replies,
        call,
        request,
    );
    note_call(sharing.journal, &mut sharing.full, came)
}

/// Answers a LocateRequest for an iterator.
fn serve_locate<'d, 's, 'j, R: Wait, J: SharedJournal>(
    alloc: Global,
    sharing: &mut Sharing<'d, 's, 'j, R, J>,
    replies: &mut Replies,
    call: &IteratorCall<'_>,
) -> Result<(), Memory>
    requires version { IsWritable call.now.to }
    requires room { J.has_room sharing.old.journal.now }
    ensures pass { sharing.new.pass.ghost_name ≡ sharing.old.pass.ghost_name }
    ensures journal { sharing.new.journal.ghost_name ≡ sharing.old.journal.ghost_name }
    ensures desk { sharing.new.desk ≡ sharing.old.desk }
    ensures cell { SameCell sharing.new.pass.now sharing.old.pass.now }
    ensures numbers { SameNumbers (knowledge sharing.old.pass.now)
        (knowledge sharing.new.pass.now) }
    ensures locates { ((c : called)
        × NotesCall c (J.entries sharing.old.journal.now) (J.entries sharing.new.journal.now)
        sharing.old.full sharing.new.full result
        × LocatesIterator call.now.to call.now.trader.now call.now.number
        (knowledge sharing.old.pass.now) replies.new c (knowledge sharing.new.pass.now))
        ⊎ (IsErr result × (knowledge sharing.new.pass.now ≡ knowledge sharing.old.pass.now)
        × ((J.entries sharing.new.journal.now) ≡ (J.entries sharing.old.journal.now))
        × (sharing.new.full ≡ sharing.old.full)) }
{
    match locate(sharing.rt, alloc, sharing.desk, sharing.pass, replies, call) {
        Ok(came) => note_call(sharing.journal, &mut sharing.full, came),
        Err(memory) => Err(memory),
    }
}

/// Notes the place of a call of the desk, or that the desk was full.
fn note_call<J: SharedJournal>(
    journal: &mut J,
    full: &mut bool,
    came: DeskCall,
) -> Result<(), Memory>
    requires { J.has_room journal.old }
    ensures { NotesCall came (J.entries journal.old) (J.entries journal.new) full.old full.new result }
{
    match came {
        DeskCall::At(place) => {
            journal.note(SharedEntry::Desk(place));
            Ok(())
        }
        DeskCall::Memory => Ok(()),
        DeskCall::Full => {
            *full = true;
            Err(Memory)
        }
    }
}
