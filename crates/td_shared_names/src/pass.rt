//! What one session calls shared naming contexts through.

ghost use Rattle.std.specs.Prelude.{◌≡◌, ◌+◌, IfOk, OnErr};
ghost use Rattle.td_cell.specs.Passes.{knowledge};
ghost use Rattle.td_naming.specs.Views.{NamingActs, Meanwhile, LooksAtContext};
ghost use Rattle.td_shared_names.specs.Seeing.{IsLegalPast, ActsInTurn, any_changes, past_of, seen_by, sound_prop};
ghost use Rattle.td_shared_names.specs.Sharing.{SamePass};
ghost use Rattle.td_shared_names.specs.declared.book.Act.TheVariants as asked;
ghost use Rattle.td_shared_names.specs.declared.book.Reply.TheVariants as content;

use crate::book::{Act, NameBook, Reply};
use std::alloc::Global;
use std::sync::Wait;
use td_cdr::Memory;
use td_cell::{Cell, Pass};
use td_names::{Address, NameAct, NameAnswer};
use td_naming::Names;

/// What one session calls shared naming contexts through: it keeps what the session has seen of them, and the places of
/// the changes that it made. Each `act` and each `live` waits for the contexts' turn and makes one; the other calls
/// make none.
#[derive(Drop)]
pub struct NamePass<'a, R: Wait> {
    rt: &'a R,
    home: &'a Address,
    cell: &'a Cell<NameBook>,
    pass: Pass<NameBook>,
    ghost belongs: { pass.seat.table_id ≡ cell.now.table.shared.table_id },
    ghost here: { (past_of pass).home ≡ home.now },
    ghost sound: { IsLegalPast (past_of pass) } by { sound_prop (past_of pass) },
}

impl<'a, R: Wait> NamePass<'a, R> {
    /// A pass of this cell, whose contexts are reached there.
    pub(crate) fn new(
        rt: &'a R,
        home: &'a Address,
        cell: &'a Cell<NameBook>,
        pass: Pass<NameBook>,
    ) -> NamePass<'a, R>
        requires belongs { pass.seat.table_id ≡ cell.now.table.shared.table_id }
        requires here { (past_of pass).home ≡ home.now }
        requires sound { IsLegalPast (past_of pass) }
        ensures pass { result.pass ≡ pass }
        ensures cell { result.cell.now ≡ cell.now }
    {
        NamePass {
            rt,
            home,
            cell,
            pass,
        }
    }

    /// The cell's pass alone.
    pub(crate) fn into_pass(self) -> Pass<NameBook>
        ensures { result ≡ self.entry.pass }
    {
        self.pass
    }

    /// One turn.
    fn turn(&mut self, a: Act) -> Reply
        ensures same { SamePass self.old.pass self.new.pass }
        ensures turned { ActsInTurn (knowledge self.old.pass) a result (knowledge self.new.pass) }
        ensures once { (knowledge self.new.pass).turns ≡ (knowledge self.old.pass).turns + 1 }
    {
        self.cell.turn(self.rt, &mut self.pass, a)
    }
}

impl<'a, R: Wait> Names for NamePass<'a, R> {
    ghost view = { λ p. seen_by p.pass };

    ghost others = { any_changes };

    ghost same = { λ a b. SamePass a.pass b.pass };

    /// Makes one turn, whatever comes of it. The contexts grow by their own allocator.
    fn act(&mut self, _alloc: Global, context: u32, act: NameAct) -> Result<NameAnswer, Memory>
        ensures same { SamePass self.old.pass self.new.pass }
        ensures ok { IfOk result
            (λ r. NamingActs any_changes (seen_by self.old.pass) context act r
            (seen_by self.new.pass)) }
        ensures err { OnErr result (Meanwhile any_changes (seen_by self.old.pass)
            (seen_by self.new.pass)) }
        ensures turned { ActsInTurn (knowledge self.old.pass) (asked.Call context act)
            (content.Called result) (knowledge self.new.pass) }
        ensures once { (knowledge self.new.pass).turns ≡ (knowledge self.old.pass).turns + 1 }
    {
        match self.turn(Act::Call { context, act }) {
            Reply::Called(answer) => answer,
            Reply::Live(_) => unreachable!(),
        }
    }

    /// Makes one turn. Takes no memory.
    fn live(&mut self, context: u32) -> bool
        ensures same { SamePass self.old.pass self.new.pass }
        ensures live { LooksAtContext any_changes (seen_by self.old.pass) context result
            (seen_by self.new.pass) }
        ensures turned { ActsInTurn (knowledge self.old.pass) (asked.Live context)
            (content.Live result)
            (knowledge self.new.pass) }
        ensures once { (knowledge self.new.pass).turns ≡ (knowledge self.old.pass).turns + 1 }
    {
        match self.turn(Act::Live(context)) {
            Reply::Called(_) => unreachable!(),
            Reply::Live(live) => live,
        }
    }

    fn point(&self) -> u64 {
        self.pass.changes()
    }

    fn home(&self) -> &Address {
        self.home
    }

    ghost use Rattle.std.proofs.Common.{refl, ◌∙◌};

    ghost same_itself = { λ a. (refl, refl) };

    ghost same_on = { λ a b c p q. (p.0 ∙ q.0, p.1 ∙ q.1) };
}
