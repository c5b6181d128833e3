//! The passes of one session, one to each trader of a group.

ghost use Rattle.std.proofs.Props.{props};
ghost use Rattle.std.specs.List.{All, IsDistinct};
ghost use Rattle.std.specs.Prelude.{◌≡◌, ◌<◌, length, map, IfOk, OnErr, OnOk};
ghost use Rattle.std.specs.Str.{bytes_eq};
ghost use Rattle.td_cdr.specs.Marks.{Later};
ghost use Rattle.td_group.specs.Soundness.{IsLegalTrader, all_sound_prop};
ghost use Rattle.td_group.specs.Grouping.{MakesOneTurn, MakesOneTurnAtMost, SamePasses};
ghost use Rattle.td_group.specs.MadeMarks.{MarksAt};
ghost use Rattle.td_group.specs.Seeing.{TurnAt, seen_by, trader_of};
ghost use Rattle.td_trader.specs.Admitted.{AdmitsChange, AreAdmitted};
ghost use Rattle.td_trader.specs.Worlds.{BeginsQuery, ChangesTrader, LooksAtTrader, Watches};

use crate::shared_trader::{Act, AdmittedChange, Reply, SharedTrader};
use std::alloc::Global;
use std::sync::Wait;
use td_cdr::{Memory, Shared, Text, Twin};
use td_cell::{Cell, Pass};
use td_ops::{Change, Look, Outcome, Query};
use td_trader::{Begin, Traders};

/// What one session acts on a group of traders through: a pass of each one's cell. Each `change`, `look` and `begin`
/// waits for the trader's turn and makes one; the other calls make none.
#[derive(Drop)]
pub struct GroupPass<'a, R: Wait> {
    rt: &'a R,
    alloc: Global,
    names: &'a Vec<Text>,
    cells: &'a Vec<Cell<SharedTrader>>,
    passes: Vec<Pass<SharedTrader>>,
    ghost belongs: { map (λ p. p.seat.table_id) passes.items
        ≡ map (λ c. c.table.shared.table_id) cells.now.items },
    ghost named: { map (λ p. (trader_of p).name) passes.items ≡ names.now.items },
    ghost distinct: { IsDistinct bytes_eq names.now.items } by { Prim.hlevel props },
    ghost sound: { All (λ p. IsLegalTrader (trader_of p)) passes.items } by { all_sound_prop trader_of passes.items },
}

impl<'a, R: Wait> GroupPass<'a, R> {
    /// The passes of these cells, whose traders have these names.
    pub(crate) fn new(
        rt: &'a R,
        alloc: Global,
        names: &'a Vec<Text>,
        cells: &'a Vec<Cell<SharedTrader>>,
        passes: Vec<Pass<SharedTrader>>,
    ) -> GroupPass<'a, R>
        requires belongs { map (λ p. p.seat.table_id) passes.items
            ≡ map (λ c. c.table.shared.table_id) cells.now.items }
        requires named { map (λ p. (trader_of p).name) passes.items ≡ names.now.items }
        requires distinct { IsDistinct bytes_eq names.now.items }
        requires sound { All (λ p. IsLegalTrader (trader_of p)) passes.items }
        ensures passes { result.passes ≡ passes }
        ensures cells { result.cells.now ≡ cells.now }
    {
        GroupPass {
            rt,
            alloc,
            names,
            cells,
            passes,
        }
    }

    /// The passes alone.
    pub(crate) fn into_passes(self) -> Vec<Pass<SharedTrader>>
        ensures { result ≡ self.entry.passes }
    {
        self.passes
    }

    /// One turn at a trader.
    fn turn(&mut self, trader: usize, a: Act) -> Reply
        requires { trader < length self.old.passes.items }
        ensures same { SamePasses self.old.passes.items self.new.passes.items }
        ensures turned { TurnAt (map seen_by self.old.passes.items) trader a result
            (map seen_by self.new.passes.items) }
        ensures once { MakesOneTurn self.old.passes.items trader self.new.passes.items }
        ensures marks { MarksAt self.old.passes.items trader self.new.passes.items }
    {
        self.cells[trader].turn(self.rt, &mut self.passes[trader], a)
    }

    /// A look, in one turn.
    fn look_at(&mut self, trader: usize, l: Look) -> Result<(Outcome, u32), Memory>
        requires { trader < length self.old.passes.items }
        ensures same { SamePasses self.old.passes.items self.new.passes.items }
        ensures ok { IfOk result
            (λ a. LooksAtTrader AreAdmitted Later (map seen_by self.old.passes.items) trader l a
            (map seen_by self.new.passes.items)) }
        ensures err { OnErr result
            (Watches AreAdmitted Later (map seen_by self.old.passes.items) trader
            (map seen_by self.new.passes.items)) }
        ensures once { MakesOneTurn self.old.passes.items trader self.new.passes.items }
    {
        match self.turn(trader, Act::Look(l)) {
            Reply::Changed(_) => unreachable!(),
            Reply::Looked(answer) => answer,
            Reply::Begun(_) => unreachable!(),
        }
    }

    /// The beginning of a query, in one turn.
    fn begin_at(&mut self, trader: usize, q: Shared<Query>) -> Result<Begin, Memory>
        requires { trader < length self.old.passes.items }
        ensures same { SamePasses self.old.passes.items self.new.passes.items }
        ensures ok { IfOk result
            (λ b. BeginsQuery AreAdmitted Later (map seen_by self.old.passes.items) trader q b
            (map seen_by self.new.passes.items)) }
        ensures err { OnErr result
            (Watches AreAdmitted Later (map seen_by self.old.passes.items) trader
            (map seen_by self.new.passes.items)) }
        ensures once { MakesOneTurn self.old.passes.items trader self.new.passes.items }
        ensures marks { MarksAt self.old.passes.items trader self.new.passes.items }
    {
        match self.turn(trader, Act::Query(q)) {
            Reply::Changed(_) => unreachable!(),
            Reply::Looked(_) => unreachable!(),
            Reply::Begun(answer) => answer,
        }
    }
}

impl<'a, R: Wait> Traders for GroupPass<'a, R> {
    ghost world = { λ s. map seen_by s.passes.items };

    ghost others = { AreAdmitted };

    ghost later = { Later };

    ghost same = { λ a b. SamePasses a.passes.items b.passes.items };

    fn count(&self) -> usize {
        self.passes.len()
    }

    fn name(&self, trader: usize) -> &Text {
        &self.names[trader]
    }

    /// Makes one turn, whatever comes of it.
    fn change(&mut self, trader: usize, c: Change) -> Result<Outcome, Memory>
        requires trader { trader < length (map seen_by self.old.passes.items) }
        requires admitted { AdmitsChange c }
        ensures same { SamePasses self.old.passes.items self.new.passes.items }
        ensures ok { IfOk result
            (λ o. ChangesTrader AreAdmitted Later (map seen_by self.old.passes.items) trader c o
            (map seen_by self.new.passes.items)) }
        ensures err { OnErr result
            (Watches AreAdmitted Later (map seen_by self.old.passes.items) trader
            (map seen_by self.new.passes.items)) }
        ensures once { MakesOneTurn self.old.passes.items trader self.new.passes.items }
    {
        match self.turn(trader, Act::Change(AdmittedChange::of(c))) {
            Reply::Changed(answer) => answer,
            Reply::Looked(_) => unreachable!(),
            Reply::Begun(_) => unreachable!(),
        }
    }

    /// Makes one turn. An act is owned, so the look is copied before: when memory runs out for that, it makes none.
    fn look(&mut self, trader: usize, l: &Look) -> Result<(Outcome, u32), Memory>
        requires { trader < length (map seen_by self.old.passes.items) }
        ensures same { SamePasses self.old.passes.items self.new.passes.items }
        ensures ok { IfOk result
            (λ a. LooksAtTrader AreAdmitted Later (map seen_by self.old.passes.items) trader l.now a
            (map seen_by self.new.passes.items)) }
        ensures err { OnErr result
            (Watches AreAdmitted Later (map seen_by self.old.passes.items) trader
            (map seen_by self.new.passes.items)) }
        ensures once { OnOk result
            (MakesOneTurn self.old.passes.items trader self.new.passes.items) }
        ensures most { OnErr result
            (MakesOneTurnAtMost self.old.passes.items trader self.new.passes.items) }
    {
        match l.copy(self.alloc) {
            Ok(copied) => self.look_at(trader, copied),
            Err(memory) => Err(memory),
        }
    }

    /// Makes one turn. An act is owned, so it takes one owner more of the query: where that is refused, it makes none.
    fn begin(&mut self, trader: usize, q: &Shared<Query>) -> Result<Begin, Memory>
        requires { trader < length (map seen_by self.old.passes.items) }
        ensures same { SamePasses self.old.passes.items self.new.passes.items }
        ensures ok { IfOk result
            (λ b. BeginsQuery AreAdmitted Later (map seen_by self.old.passes.items) trader q.now b
            (map seen_by self.new.passes.items)) }
        ensures err { OnErr result
            (Watches AreAdmitted Later (map seen_by self.old.passes.items) trader
            (map seen_by self.new.passes.items)) }
        ensures once { OnOk result
            (MakesOneTurn self.old.passes.items trader self.new.passes.items) }
        ensures marks { OnOk result (MarksAt self.old.passes.items trader self.new.passes.items) }
        ensures most { OnErr result
            (MakesOneTurnAtMost self.old.passes.items trader self.new.passes.items) }
    {
        match q.copy(self.alloc) {
            Ok(copied) => self.begin_at(trader, copied),
            Err(memory) => Err(memory),
        }
    }

    fn point(&self, trader: usize) -> u64 {
        self.passes[trader].changes()
    }

    ghost use Rattle.std.proofs.Common.{refl, ◌∙◌};

    ghost same_itself = { λ a. (refl, refl) };

    ghost same_on = { λ a b c p q. (p.0 ∙ q.0, p.1 ∙ q.1) };

    ghost others_admitted = { λ between admitted. admitted };

    ghost later_marks = { λ a b later. later };
}
