//! A desk that passes share.

ghost use Rattle.std.specs.Prelude.{◌≡◌, ◌+◌, [], length, IfOk, OnErr};
ghost use Rattle.td_cell.specs.Passes.{Belongs, IsOpening, IsSplitOff, SameCell, SameNumbers, knowledge, opened_book};
ghost use Rattle.td_cell.specs.Rules.{first_view, met_view, opener, split_off, Learns};
ghost use Rattle.td_desk.specs.Acting.{ExtendsHistory, no_marks};
ghost use Rattle.td_desk.specs.Sharing.{InOrder, IsDrawable, MayAdd, MayUse, StaysInOrder, ActsInTurn};
ghost use Rattle.td_desk.specs.declared.act.Act.TheVariants as act;
ghost use Rattle.td_desk.specs.declared.act.Reply.TheVariants as reply;

use crate::act::{Act, Begun, Reply};
use crate::book::DeskBook;
use crate::fault::DeskFault;
use std::alloc::Global;
use std::sync::Wait;
use td_cdr::{Memory, Text, Writer};
use td_cell::{Cell, Pass};
use td_iter::{DeskEntry, Item};

/// What one session calls the desk through: it keeps what the session has seen of the desk and done on it.
pub type DeskPass = Pass<DeskBook>;

/// A desk of iterators that are live on every connection. Each call waits for its turn and makes one; `open`, `split`
/// and `meet` make none.
#[derive(Drop)]
pub struct SharedDesk {
    pub cell: Cell<DeskBook>,
}

impl SharedDesk {
    /// A desk without iterators, with places for 4,096, and the opening pass.
    ///
    /// # Errors
    ///
    /// `Memory` only when out of memory.
    pub fn open(alloc: Global) -> Result<(SharedDesk, DeskPass), Memory>
        ensures own { IfOk result (λ r. Belongs r.1 r.0.cell × IsOpening r.1) }
        ensures opened { IfOk result (λ r. opened_book r.0.cell ≡ []) }
        ensures seen { IfOk result (λ r. knowledge r.1 ≡ first_view [] 0 0) }
        ensures order { IfOk result (λ r. InOrder (knowledge r.1)) }
    {
        let book = DeskBook::new(alloc)?;
        let (cell, pass) = Cell::open(alloc, book)?;
        Ok((SharedDesk { cell }, pass))
    }

    /// Splits one more pass off the opening one. Takes no memory.
    ///
    /// # Errors
    ///
    /// `Memory` where 2^64 - 1 passes were split off before. The opening pass is then as it was.
    pub fn split(&self, pass: &mut DeskPass) -> Result<DeskPass, Memory>
        requires own { Belongs pass.old self.now.cell }
        requires opening { IsOpening pass.old }
        ensures own { IfOk result (λ p. SameCell pass.new pass.old × SameCell p pass.old) }
        ensures opening { IfOk result (λ p. knowledge pass.new ≡ opener (knowledge pass.old)) }
        ensures split_off { IfOk result (λ p. knowledge p ≡ split_off (knowledge pass.old)) }
        ensures order { IfOk result (λ p. InOrder (knowledge p)) }
        ensures stays { StaysInOrder (knowledge pass.old) (knowledge pass.new) }
        ensures err { OnErr result (SameCell pass.new pass.old
            × (knowledge pass.new ≡ knowledge pass.old)) }
    {
        self.cell.split(pass)
    }

    /// Takes in a pass that was split off: the opening pass has then seen the later of what both have, and has the
    /// calls of both. Takes no memory.
    pub fn meet(&self, pass: &mut DeskPass, told: DeskPass)
        requires own { Belongs pass.old self.now.cell × Belongs told self.now.cell }
        requires opening { IsOpening pass.old }
        requires split_off { IsSplitOff pass.old told }
        ensures own { SameCell pass.new pass.old }
        ensures opening { IsOpening pass.new }
        ensures learned { Learns ExtendsHistory length (λ _. no_marks)
            (met_view (knowledge pass.old) (knowledge told)) (knowledge pass.new) }
    {
        self.cell.meet(pass, told)
    }

    /// Draws the next number, from 1 on.
    ///
    /// # Errors
    ///
    /// `Full` exactly where 2^40 were drawn.
    pub fn draw<R: Wait>(&self, rt: &R, pass: &mut DeskPass) -> Result<u64, DeskFault>
        requires { Belongs pass.old self.now.cell }
        ensures own { SameCell pass.new pass.old }
        ensures turned { ActsInTurn (knowledge pass.old) act.Draw (reply.Drawn result)
            (knowledge pass.new) }
        ensures once { (knowledge pass.new).turns ≡ (knowledge pass.old).turns + 1 }
        ensures same { SameNumbers (knowledge pass.old) (knowledge pass.new) }
        ensures order { StaysInOrder (knowledge pass.old) (knowledge pass.new) }
        ensures usable { IfOk result (MayUse (knowledge pass.old) (knowledge pass.new)) }
        ensures within { IfOk result IsDrawable }
    {
        match self.cell.turn(rt, pass, Act::Draw) {
            Reply::Drawn(drawn) => drawn,
            Reply::Added(_) => unreachable!(),
            Reply::Left(_) => unreachable!(),
            Reply::Next(_, _) => unreachable!(),
            Reply::Destroyed(_) => unreachable!(),
        }
    }

    /// Puts an iterator on the desk, under a number that was drawn through this pass and not used yet. Of 4,096 the
    /// oldest comes back, and after 2^40 of them the given one: what comes back is dropped after the turn. Takes no
    /// memory.
    pub fn add<R: Wait>(
        &self,
        rt: &R,
        pass: &mut DeskPass,
        entry: DeskEntry<Item>,
    ) -> Option<DeskEntry<Item>>
        requires own { Belongs pass.old self.now.cell }
        requires drawn { MayAdd (knowledge pass.old) entry.number }
        ensures own { SameCell pass.new pass.old }
        ensures turned { ActsInTurn (knowledge pass.old) (act.Add entry) (reply.Added result)
            (knowledge pass.new) }
        ensures once { (knowledge pass.new).turns ≡ (knowledge pass.old).turns + 1 }
        ensures same { SameNumbers (knowledge pass.old) (knowledge pass.new) }
        ensures order { StaysInOrder (knowledge pass.old) (knowledge pass.new) }
    {
        match self.cell.turn(rt, pass, Act::Add(entry)) {
            Reply::Drawn(_) => unreachable!(),
            Reply::Added(back) => back,
            Reply::Left(_) => unreachable!(),
            Reply::Next(_, _) => unreachable!(),
            Reply::Destroyed(_) => unreachable!(),
        }
    }

    /// How many are left of the iterator of this trader and number, and whether they are offers.
    ///
    /// # Errors
    ///
    /// `Full` exactly where 2^40 calls of iterators were done; else `Absent` exactly where none is called so.
    pub fn max_left<R: Wait>(
        &self,
        rt: &R,
        pass: &mut DeskPass,
        trader: Text,
        number: u64,
    ) -> Result<(u32, bool), DeskFault>
        requires { Belongs pass.old self.now.cell }
        ensures own { SameCell pass.new pass.old }
        ensures turned { ActsInTurn (knowledge pass.old) (act.Left trader number)
            (reply.Left result)
            (knowledge pass.new) }
        ensures once { (knowledge pass.new).turns ≡ (knowledge pass.old).turns + 1 }
        ensures same { SameNumbers (knowledge pass.old) (knowledge pass.new) }
        ensures order { StaysInOrder (knowledge pass.old) (knowledge pass.new) }
    {
        match self.cell.turn(rt, pass, Act::Left { trader, number }) {
            Reply::Drawn(_) => unreachable!(),
            Reply::Added(_) => unreachable!(),
            Reply::Left(left) => left,
            Reply::Next(_, _) => unreachable!(),
            Reply::Destroyed(_) => unreachable!(),
        }
    }

    /// Appends the result of `next_n` to what the writer holds, which is handed back: whether something is left behind
    /// the batch for n items, and the batch. Answers whether something is left. The writer holds what stands before
    /// the body of a reply.
    ///
    /// # Errors
    ///
    /// `Full` exactly where 2^40 calls of iterators were done; else `Absent` exactly where none is called so. `Memory`
    /// only when out of memory: the iterator is then as it was. What the writer holds is as it was at each of them.
    pub fn next_n<R: Wait>(
        &self,
        rt: &R,
        pass: &mut DeskPass,
        trader: Text,
        number: u64,
        n: u32,
        begun: Begun,
    ) -> (Writer, Result<bool, DeskFault>)
        requires { Belongs pass.old self.now.cell }
        ensures own { SameCell pass.new pass.old }
        ensures turned { ActsInTurn (knowledge pass.old) (act.Next trader number n begun)
            (reply.Next result.0 result.1) (knowledge pass.new) }
        ensures once { (knowledge pass.new).turns ≡ (knowledge pass.old).turns + 1 }
        ensures same { SameNumbers (knowledge pass.old) (knowledge pass.new) }
        ensures order { StaysInOrder (knowledge pass.old) (knowledge pass.new) }
    {
        let act = Act::Next {
            trader,
            number,
            n,
            begun,
        };
        match self.cell.turn(rt, pass, act) {
            Reply::Drawn(_) => unreachable!(),
            Reply::Added(_) => unreachable!(),
            Reply::Left(_) => unreachable!(),
            Reply::Next(writer, more) => (writer, more),
            Reply::Destroyed(_) => unreachable!(),
        }
    }

    /// Takes the iterator of this trader and number off the desk; it is dropped after the turn.
    ///
    /// # Errors
    ///
    /// `Full` exactly where 2^40 calls of iterators were done; else `Absent` exactly where none is called so.
    pub fn destroy<R: Wait>(
        &self,
        rt: &R,
        pass: &mut DeskPass,
        trader: Text,
        number: u64,
    ) -> Result<DeskEntry<Item>, DeskFault>
        requires { Belongs pass.old self.now.cell }
        ensures own { SameCell pass.new pass.old }
        ensures turned { ActsInTurn (knowledge pass.old) (act.Destroy trader number)
            (reply.Destroyed result) (knowledge pass.new) }
        ensures once { (knowledge pass.new).turns ≡ (knowledge pass.old).turns + 1 }
        ensures same { SameNumbers (knowledge pass.old) (knowledge pass.new) }
        ensures order { StaysInOrder (knowledge pass.old) (knowledge pass.new) }
    {
        match self.cell.turn(rt, pass, Act::Destroy { trader, number }) {
            Reply::Drawn(_) => unreachable!(),
            Reply::Added(_) => unreachable!(),
            Reply::Left(_) => unreachable!(),
            Reply::Next(_, _) => unreachable!(),
            Reply::Destroyed(taken) => taken,
        }
    }
}
