//! A cell: one book, on which passes do acts, one after the other.

ghost use Rattle.std.specs.Prelude.{◌≡◌, ℕ, ◌+◌, ◌-◌, ◌<◌, ◌≤◌, vec_len, slice_set, [], ◌∷◌, false, IfOk, IfErr, OnErr};
ghost use Rattle.std.specs.Prelude.{true};
ghost use Rattle.td_cdr.specs.Marks.{In};
ghost use Rattle.td_cell.specs.Rules.{first_view, with_turn, ActsOnce, BothBefore, opener, split_off, met_view, Learns};
ghost use Rattle.td_cell.specs.Rules.{all_met, Before};

use crate::book::Book;
use crate::pass::{Pass, View};
use crate::rule::{CountChanges, CountMarks, GiveTurn, Learn, Meeting, SplitOff, TakeTurn, Turns};
use atomic_table::{Refused, Seat, Table};
use std::alloc::Global;
use std::snapshot::Snapshot;
use std::sync::Wait;
use td_cdr::Memory;

/// A book that passes act on in turns. No call lends it, and no pass holds the turn between two calls.
#[derive(Drop)]
pub struct Cell<B: Book + Drop> {
    table: Table<B, View<B>, Snapshot<B>, Turns, Global>,
    ghost three_words: { table.shared.table_id.words ≡ 3 },
    ghost one_slot: { table.shared.table_id.slots ≡ 1 },
}

impl<B: Book + Drop> Cell<B> {
    ghost use Rattle.td_cell.specs.Passes.{opened_book, knowledge, Belongs, SameCell, IsOpening, IsSplitOff};
    ghost use Rattle.td_cell.specs.Passes.{SameNumbers};

    /// Puts a book into a cell, and gives the opening pass, which has seen the book as it is and has no acts.
    ///
    /// # Errors
    ///
    /// `Memory` only when out of memory. The book is then dropped.
    pub fn open(alloc: Global, book: B) -> Result<(Cell<B>, Pass<B>), Memory>
        ensures own { IfOk result (λ r. Belongs r.1 r.0 × IsOpening r.1) }
        ensures opened { IfOk result (λ r. opened_book r.0 ≡ book) }
        ensures seen { IfOk result (λ r. knowledge r.1
            ≡ first_view book (B.size book) (B.remembers book).count) }
    {
        let about = Snapshot::of(&book);
        let changes = book.changes();
        let marks = book.marks();
        let mut slots = Vec::with_capacity(alloc, 1)?;
        slots.push(book)?;
        match Table::new(alloc, &[0, changes, marks], slots, &about) {
            Ok((table, seat)) => {
                let pass = Pass {
                    seat,
                    changes,
                    splits: 0,
                    meetings: 0,
                };
                Ok((Cell { table }, pass))
            }
            Err(Refused { slots }) => {
                drop(slots);
                Err(Memory)
            }
        }
    }

    /// Waits for the turn, and takes the book out.
    fn take<R: Wait>(&self, rt: &R, seat: &mut Seat<B, View<B>>)
        requires own { seat.old.table_id ≡ self.now.table.shared.table_id }
        requires free { (seat.old.me.1 ≡ []) × (seat.old.me.0.spent ≡ false) }
        ensures own { (seat.new.table_id ≡ seat.old.table_id) × (seat.new.id ≡ seat.old.id) }
        ensures taken { (b : B) × BothBefore B.later seat.old.me.0 b
            × (seat.new.me ≡ (
              with_turn seat.old.me.0 b (B.size b) (B.remembers b).count,
              (0, b)
                  ∷ [],
            )) }
    {
        for _ in rt.forever() {
            if self
                .table
                .shared
                .compare_exchange::<TakeTurn>(seat, 0, 0, 1)
                == 0
            {
                return;
            }
            std::thread::yield_now();
        }
        unreachable!()
    }

    /// Does one act on the book under the turn, and tells how many changes the book has then.
    fn act<R: Wait>(&self, rt: &R, seat: &mut Seat<B, View<B>>, a: B::Act) -> (B::Reply, u64)
        requires own { seat.old.table_id ≡ self.now.table.shared.table_id }
        requires free { (seat.old.me.1 ≡ []) × (seat.old.me.0.spent ≡ false) }
        ensures own { (seat.new.table_id ≡ seat.old.table_id) × (seat.new.id ≡ seat.old.id)
            × (seat.new.me.1 ≡ []) }
        ensures turned { ActsOnce B.later B.size B.remembers B.acts seat.old.me.0 a result.0
            seat.new.me.0 }
        ensures changes { result.1 ≡ seat.new.me.0.changes }
    {
        self.take(rt, seat);
        let book = seat.slot_mut(&self.table.shared, 0);
        let reply = book.act(a);
        let changes = book.changes();
        let marks = book.marks();
        self.table.shared.store::<CountChanges>(seat, 1, changes);
        self.table.shared.store::<CountMarks>(seat, 2, marks);
        self.table.shared.store::<GiveTurn>(seat, 0, 0);
        (reply, changes)
    }

    /// Waits for the turn, does one act on the book, and gives the turn back. The book on which it was done is later
    /// than what the pass has seen, and what the act has left is what the pass has seen then. It makes one turn;
    /// `split` and `meet` make none.
    pub fn turn<R: Wait>(&self, rt: &R, pass: &mut Pass<B>, a: B::Act) -> B::Reply
        requires { Belongs pass.old self.now }
        ensures own { SameCell pass.new pass.old }
        ensures turned { ActsOnce B.later B.size B.remembers B.acts (knowledge pass.old) a result
            (knowledge pass.new) }
        ensures once { (knowledge pass.new).turns ≡ (knowledge pass.old).turns + 1 }
        ensures same { SameNumbers (knowledge pass.old) (knowledge pass.new) }
    {
        let (reply, changes) = self.act(rt, &mut pass.seat, a);
        pass.changes = changes;
        reply
    }

    /// Splits one more pass off the opening one. It has seen what the opening pass has, has no acts, and the next
    /// number. Takes no memory.
    ///
    /// # Errors
    ///
    /// `Memory` where 2^64 - 1 passes were split off before. The opening pass is then as it was.
    pub fn split(&self, pass: &mut Pass<B>) -> Result<Pass<B>, Memory>
        requires own { Belongs pass.old self.now }
        requires opening { IsOpening pass.old }
        ensures own { IfOk result (λ p. SameCell pass.new pass.old × SameCell p pass.old) }
        ensures opening { IfOk result (λ p. knowledge pass.new ≡ opener (knowledge pass.old)) }
        ensures split_off { IfOk result (λ p. knowledge p ≡ split_off (knowledge pass.old)) }
        ensures err { OnErr result (SameCell pass.new pass.old
            × (knowledge pass.new ≡ knowledge pass.old)) }
    {
        if pass.splits == u64::MAX {
            return Err(Memory);
        }
        let seat = self.table.shared.split_seat::<SplitOff>(&mut pass.seat);
        pass.splits += 1;
        Ok(Pass {
            seat,
            changes: pass.changes,
            splits: 0,
            meetings: 0,
        })
    }

    /// Takes in a pass that was split off: the opening pass has then seen the later of what both have, and has the acts
    /// of both. Takes no memory.
    pub fn meet(&self, pass: &mut Pass<B>, told: Pass<B>)
        requires own { Belongs pass.old self.now × Belongs told self.now }
        requires opening { IsOpening pass.old }
        requires split_off { IsSplitOff pass.old told }
        ensures own { SameCell pass.new pass.old }
        ensures opening { IsOpening pass.new }
        ensures met { (knowledge pass.new).met
            ≡ slice_set (knowledge pass.old).met ((knowledge told).number - 1) true }
        ensures learned { Learns B.later B.size B.remembers
            (met_view (knowledge pass.old) (knowledge told)) (knowledge pass.new) }
    {
        let Pass { seat, changes, .. } = told;
        self.table.shared.join_seat::<Meeting>(&mut pass.seat, seat);
        self.table.shared.load::<Learn>(&mut pass.seat, 1);
        pass.changes = pass.changes.max(changes);
        pass.meetings += 1;
    }

    /// Whether each pass that was split off has been met. Takes no memory.
    pub fn whole(&self, pass: &Pass<B>) -> bool
        requires own { Belongs pass.now self.now }
        requires opening { IsOpening pass.now }
        ensures { result ≡ all_met (knowledge pass.now).met }
    {
        pass.meetings == pass.splits
    }

    /// Takes the book out at the end: it is later than the one that the cell was opened with and than what the opening
    /// pass has seen, and each entry since the opening is one of that pass's own.
    ///
    /// # Errors
    ///
    /// The cell and the pass, unchanged, exactly where a pass that was split off hasn't been met.
    pub fn close(self, pass: Pass<B>) -> Result<B, (Cell<B>, Pass<B>)>
        requires own { Belongs pass self }
        requires opening { IsOpening pass }
        ensures met { IfOk result (λ b. all_met (knowledge pass).met ≡ true) }
        ensures later { IfOk result (λ b. Before B.later (knowledge pass).seen b
            × B.later (opened_book self) b) }
        ensures places { IfOk result
            (λ b. (k : ℕ) → B.size (opened_book self) ≤ k → k < B.size b
            → In k (knowledge pass).own) }
        ensures err { IfErr result (λ r. (all_met (knowledge pass).met ≡ false)
            × (r ≡ (self, pass))) }
    {
        if !self.whole(&pass) {
            return Err((self, pass));
        }
        let Cell { table } = self;
        let Pass { seat, .. } = pass;
        let mut closed = table.close_with(seat);
        let book = closed.take(0);
        closed.free();
        Ok(book)
    }
}
