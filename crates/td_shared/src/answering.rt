//! Messages for no iterator.

ghost use Rattle.std.specs.Prelude.{◌≡◌, ◌≤◌, ◌++◌, [], length, map, OnErr, OnOk};
ghost use Rattle.td_cell.specs.Passes.{Belongs, SameCell, SameNumbers, knowledge};
ghost use Rattle.td_desk.specs.Sharing.{InOrder, MayAdd};
ghost use Rattle.td_servant.specs.Linking.{peers_seen};
ghost use Rattle.td_dispatch.specs.Backends.{backend_seen};
ghost use Rattle.td_shared.specs.Serving.{IsUnkeyed, PutsKept, ServesOther, StaysWith};
ghost use Rattle.td_shared.specs.Stages.{KeepsOne, shared_in};
ghost use Rattle.td_shared.specs.declared.entry.SharedEntry.TheVariants as noted;
ghost use Rattle.td_stream.specs.Heads.{HasHead, IsMessage};

use crate::entry::SharedEntry;
use crate::journal::SharedJournal;
use crate::sharing::Sharing;
use std::alloc::Global;
use std::sync::Wait;
use td_cdr::Memory;
use td_desk::{DeskPass, SharedDesk};
use td_giop::Raw;
use td_journal::KeptJournal;
use td_out::Words;
use td_session::{Room, TraderServant};
use td_stream::{Head, SendsHeld, Servant};
use td_trader::Traders;
use td_walk::Peers;

/// Draws a number, serves a message for no iterator with it, and puts what it kept on the desk. What it noted goes
/// behind the journal, in room that was taken.
///
/// # Errors
///
/// `Memory` where there is no room to note it, and where as many numbers were drawn as may be, which is told beside.
pub(crate) fn answer_other<
    'd,
    's,
    'j,
    't,
    'r,
    'p,
    'w,
    R: Wait,
    J: SharedJournal,
    T: Traders,
    P: Peers,
    G: SendsHeld,
    W: Words,
>(
    alloc: Global,
    sharing: &mut Sharing<'d, 's, 'j, R, J>,
    other: &mut TraderServant<'t, 'r, 'p, 'w, T, KeptJournal, P, W>,
    held: &mut G,
    message: &Raw<'_>,
    head: &Head<'_>,
) -> Result<(), Memory>
    requires whole { IsMessage message.now }
    requires head { HasHead message.now head.now }
    requires unkeyed { IsUnkeyed message.now.bytes.now }
    requires nothing_noted { other.old.room.now.journal ≡ [] }
    requires room { J.has_room sharing.old.journal.now }
    ensures pass { sharing.new.pass.ghost_name ≡ sharing.old.pass.ghost_name }
    ensures journal { sharing.new.journal.ghost_name ≡ sharing.old.journal.ghost_name }
    ensures desk { sharing.new.desk ≡ sharing.old.desk }
    ensures cell { SameCell sharing.new.pass.now sharing.old.pass.now }
    ensures numbers { SameNumbers (knowledge sharing.old.pass.now)
        (knowledge sharing.new.pass.now) }
    ensures named_traders { other.new.traders.ghost_name ≡ other.old.traders.ghost_name }
    ensures named_room { other.new.room.ghost_name ≡ other.old.room.ghost_name }
    ensures named_peers { other.new.peers.ghost_name ≡ other.old.peers.ghost_name }
    ensures named_words { other.new.words.ghost_name ≡ other.old.words.ghost_name }
    ensures same { T.same other.old.traders.now other.new.traders.now }
    ensures same_peers { P.same other.old.peers.now other.new.peers.now }
    ensures held { G.reaches held.old held.new }
    ensures same_words { W.same other.old.words.now other.new.words.now }
    ensures unnoted { other.new.room.now.journal ≡ [] }
    ensures full { OnOk result (sharing.new.full ≡ sharing.old.full) }
    ensures other { OnOk result (ServesOther T.others T.later
        (shared_in (backend_seen (T.world other.old.traders.now)
        (peers_seen (P.calls other.old.peers.now) (P.faults other.old.peers.now))
        (W.word other.old.words.now)) other.old.room.now
        (knowledge sharing.old.pass.now) (J.entries sharing.old.journal.now))
        message.now.bytes.now other.new.room.now.replies
        (shared_in (backend_seen (T.world other.new.traders.now)
        (peers_seen (P.calls other.new.peers.now) (P.faults other.new.peers.now))
        (W.word other.new.words.now)) other.new.room.now
        (knowledge sharing.new.pass.now) (J.entries sharing.new.journal.now))) }
    ensures stays { OnErr result (StaysWith sharing.old.full sharing.new.full
        (shared_in (backend_seen (T.world other.old.traders.now)
        (peers_seen (P.calls other.old.peers.now) (P.faults other.old.peers.now))
        (W.word other.old.words.now)) other.old.room.now
        (knowledge sharing.old.pass.now) (J.entries sharing.old.journal.now))
        (shared_in (backend_seen (T.world other.new.traders.now)
        (peers_seen (P.calls other.new.peers.now) (P.faults other.new.peers.now))
        (W.word other.new.words.now)) other.new.room.now
        (knowledge sharing.new.pass.now) (J.entries sharing.new.journal.now))) }
{
    match sharing.desk.draw(sharing.rt, sharing.pass) {
        Err(_) => {
            sharing.full = true;
            Err(Memory)
        }
        Ok(number) => {
            other.room.restart(number);
            match other.answer(alloc, message, head, held) {
                Err(memory) => Err(memory),
                Ok(()) => {
                    put_kept(sharing.rt, sharing.desk, sharing.pass, number, other.room);
                    note_session(sharing.journal, other.room);
                    Ok(())
                }
            }
        }
    }
}

/// Puts the iterator that a message kept on the desk, which is one at most.
fn put_kept<R: Wait>(
    rt: &R,
    desk: &SharedDesk,
    pass: &mut DeskPass,
    number: u64,
    room: &mut Room<KeptJournal>,
)
    requires own { Belongs pass.old desk.now.cell }
    requires order { InOrder (knowledge pass.old) }
    requires drawn { MayAdd (knowledge pass.old) number }
    requires one { KeepsOne number room.old.desk }
    ensures own { SameCell pass.new pass.old }
    ensures numbers { SameNumbers (knowledge pass.old) (knowledge pass.new) }
    ensures order { InOrder (knowledge pass.new) }
    ensures puts { PutsKept (knowledge pass.old) room.old.desk.0 (knowledge pass.new) }
    ensures room { room.new ≡ record room.old { desk = ([], room.old.desk.1) } }
{
    match room.take_item() {
        Some(entry) => {
            let back = desk.add(rt, pass, entry);
            drop(back);
        }
        None => {}
    }
}

/// Notes what a message has noted, one entry at most, behind the journal.
fn note_session<J: SharedJournal>(journal: &mut J, room: &mut Room<KeptJournal>)
    requires one { length room.old.journal ≤ 1 }
    requires room { J.has_room journal.old }
    ensures noted { J.entries journal.new
        ≡ J.entries journal.old ++ map noted.Session room.old.journal }
    ensures room { room.new ≡ record room.old { journal = [] } }
{
    match room.take_entry() {
        Some(entry) => journal.note(SharedEntry::Session(entry)),
        None => {}
    }
}
