//! The calls of peers in memory, as clauses see them: a note takes a byte, and holds no value.

ghost use Rattle.std.specs.Prelude.{◌≡◌, ◌++◌, ◌∷◌, [], IfOk, OnOk, OnErr, option_copied, option_map};
ghost use Rattle.td_peers.specs.Noted.{exchange_by, exchange_of, exchanges};
ghost use Rattle.td_peers.specs.Scripts.{entry_at, gives, is_given};
ghost use Rattle.td_walk.specs.Noting.{call_of};

use crate::entries::entry_at;
use crate::scripted::{Scripted, is_offers, is_reference, is_value};
use std::snapshot::Snapshot;
use td_cdr::{List, Memory, Octets};
use td_walk::CallNote;

/// A call, and the entry of the script that was given.
#[derive(Drop)]
pub(crate) struct Note {
    pub(crate) call: CallNote,
    pub(crate) entry: Option<Snapshot<Scripted>>,
}

/// Whether the entry answers the call.
fn is_given(call: &CallNote, entry: Option<&Scripted>) -> bool
    ensures { result ≡ is_given (gives (call_of call.now) (option_copied entry.entry)) }
{
    match call {
        CallNote::Query { .. } => is_offers(entry),
        CallNote::Evaluation { .. } => is_value(entry),
        CallNote::Register { .. } => is_reference(entry),
        CallNote::Resolution { .. } => is_reference(entry),
    }
}

fn noted_entry(entry: Option<&Scripted>) -> Option<Snapshot<Scripted>>
    ensures { option_map (λ e. e.value) result ≡ option_copied entry.entry }
{
    match entry {
        None => None,
        Some(entry) => Some(Snapshot::of(entry)),
    }
}

fn note_of(call: CallNote, entry: Option<&Scripted>) -> Note
    ensures { exchange_of result ≡ exchange_by (call_of call) (option_copied entry.entry) }
{
    Note {
        call,
        entry: noted_entry(entry),
    }
}

/// Notes the call with the entry that stands there, and answers whether that answers it.
#[tactic(auto, using(crate::proofs::Playing::noted_next))]
pub(crate) fn note_call(
    notes: &mut List<Note>,
    script: &[(Octets, Scripted)],
    place: Option<usize>,
    call: CallNote,
) -> Result<bool, Memory>
    ensures noted { OnOk result
        (exchanges notes.new ≡ exchanges notes.old ++ exchange_by (call_of call)
        (entry_at script.now place) ∷ []) }
    ensures given { IfOk result (λ given. given
        ≡ is_given (gives (call_of call) (entry_at script.now place))) }
    ensures kept { OnErr result (notes.new ≡ notes.old) }
{
    let entry = entry_at(script, place);
    let given = is_given(&call, entry);
    notes.push(note_of(call, entry))?;
    Ok(given)
}
