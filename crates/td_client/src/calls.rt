//! The calls that a visit made, and what they gave.

ghost use Rattle.std.specs.Prelude.{◌≡◌, ◌++◌, ◌∷◌, []};
ghost use Rattle.td_client.specs.Noted.{exchange_of};
ghost use Rattle.td_walk.specs.Peering.{AdmitsExchanges, AdmitsGift};

use crate::note::Note;
use std::marker::Model;
use td_ghost_list::Past;

/// The calls that a visit made, in order, with what each gave, which can be written: clauses tell them, and the program
/// keeps none.
#[derive(Drop)]
pub(crate) struct Calls {
    notes: Past<Note>,
}

impl Model for Calls {
    ghost use Rattle.std.specs.Coded.{coded_list};
    ghost use Rattle.std.specs.Prelude.{List};
    ghost use Rattle.td_typecode.specs.contracts.code.Any as any_row;
    ghost use Rattle.td_typecode.specs.contracts.code.TypeCode as code_row;
    ghost use Rattle.td_typecode.specs.contracts.reference.Ior as ior_row;
    ghost use Rattle.td_ops.specs.contracts.call.Query as query_row;
    ghost use Rattle.td_walk.specs.contracts.answer.SubAnswer as answer_row;
    ghost use Rattle.td_walk.specs.contracts.fault.PeerFault as fault_row;
    ghost use Rattle.td_walk.specs.Peering.{AdmitsExchanges, Exchange};
    ghost use Rattle.td_walk.specs.Storing.{exchange_code};

    ghost Value = { List Exchange };

    ghost coded = { coded_list
        (exchange_code ior_row.the_row.coded query_row.the_row.coded code_row.the_row.coded
        any_row.the_row.coded answer_row.the_row.coded fault_row.the_row.coded) };

    ghost use Rattle.td_client.specs.Noted.{exchanges};

    ghost view = { λ c. exchanges c.notes };

    ghost invariant = { λ c. AdmitsExchanges (exchanges c.notes) };
}

impl Calls {
    /// No call was made.
    pub(crate) fn new() -> Calls
        ensures { result ≡ [] }
    {
        Calls { notes: Past::new() }
    }

    /// Notes a call behind the others, with what it gave. Takes no memory.
    pub(crate) fn note(&mut self, note: &Note)
        requires { AdmitsGift (exchange_of note.now).gave }
        ensures { self.new ≡ self.old ++ exchange_of note.now ∷ [] }
    {
        self.notes.note(note);
    }

    /// What the calls gave can be written. This call does nothing.
    pub(crate) fn tell_gifts(&self)
        ensures { AdmitsExchanges self.now }
    {
        let _ = &self.notes;
    }
}
