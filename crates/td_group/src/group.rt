//! A group of traders that sessions on threads share.

ghost use Rattle.std.proofs.Props.{props};
ghost use Rattle.std.specs.List.{All, AllZip, IsDistinct};
ghost use Rattle.std.specs.Prelude.{◌≡◌, ◌≤◌, map, vec_len, vec_capacity, IfOk, IfErr, OnOk, OnErr};
ghost use Rattle.std.specs.Prelude.{false};
ghost use Rattle.std.specs.Str.{bytes_eq};
ghost use Rattle.td_cell.specs.Passes.{opened_book};
ghost use Rattle.td_group.specs.Soundness.{IsLegalTrader, all_sound_prop};
ghost use Rattle.td_group.specs.Grouping.{AreOpening, IsAsBefore, IsTakenOut, IsPutIn, IsOut, IsReady, MeetsPass};
ghost use Rattle.td_group.specs.Grouping.{OpensOne};
ghost use Rattle.td_group.specs.Grouping.{OutStays, SplitsInPart, SplitsOff, are_met, opened_name};
ghost use Rattle.td_group.specs.Rows.{Beside, DropsFront, Rows};
ghost use Rattle.td_trader.specs.PlainTraders.{PlainTrader};
ghost use Rattle.td_trader.specs.Solos.{AreDistinct};

use crate::pass::GroupPass;
use crate::shared_trader::SharedTrader;
use std::alloc::Global;
use std::sync::Wait;
use td_cdr::{Memory, Text, Twin};
use td_cell::{Cell, Pass};
use td_trader::{Solo, Trader};

/// Traders that stand in cells, so that many sessions act on them, each through a `GroupPass` of its own.
#[derive(Drop)]
pub struct Group {
    names: Vec<Text>,
    cells: Vec<Cell<SharedTrader>>,
    /// The list that `open` emptied, and that `close` fills.
    kept: Vec<Trader>,
    ghost named: { map opened_name cells.items ≡ names.items },
    ghost distinct: { IsDistinct bytes_eq names.items } by { Prim.hlevel props },
    ghost sound: { All (λ c. IsLegalTrader (opened_book c)) cells.items } by { all_sound_prop opened_book cells.items },
    ghost empty: { vec_len kept ≡ 0 },
    ghost room: { vec_len cells ≤ vec_capacity kept },
}

impl Group {
    /// Puts each trader into a cell, and gives the cells' opening passes, in order.
    ///
    /// # Errors
    ///
    /// `Memory` only when out of memory. The traders are then dropped.
    pub fn open(alloc: Global, solo: Solo) -> Result<(Group, Vec<Pass<SharedTrader>>), Memory>
        ensures opened { IfOk result
            (λ r. Rows IsPutIn solo.traders.items r.0.cells.items r.1.items) }
        ensures opening { IfOk result (λ r. AreOpening r.0.cells.items r.1.items) }
    {
        let Solo { traders } = solo;
        let names = names_of(alloc, traders.as_slice())?;
        open_all(alloc, names, traders)
    }

    /// Splits a pass off each opening pass, for one more session.
    ///
    /// # Errors
    ///
    /// `Memory` only when out of memory. What was split off before is then met again by the opening pass that it was
    /// split off.
    pub fn pass<'a, R: Wait>(
        &'a self,
        rt: &'a R,
        alloc: Global,
        passes: &mut Vec<Pass<SharedTrader>>,
    ) -> Result<GroupPass<'a, R>, Memory>
        requires { AreOpening self.now.cells.items passes.old.items }
        ensures opening { AreOpening self.now.cells.items passes.new.items }
        ensures split { IfOk result
            (λ g. Rows SplitsOff passes.old.items g.passes.items passes.new.items) }
        ensures out { IfOk result (λ g. AllZip IsOut passes.new.items g.passes.items) }
        ensures stays { OutStays passes.old.items passes.new.items }
        ensures err { OnErr result (AllZip IsAsBefore passes.old.items passes.new.items) }
    {
        match self.split_all(alloc, passes) {
            Ok(out) => Ok(GroupPass::new(rt, alloc, &self.names, &self.cells, out)),
            Err(memory) => Err(memory),
        }
    }

    /// Takes the passes of a session in that has ended: each opening pass has then the acts of both. Takes no memory.
    pub fn take_in<'a, R: Wait>(
        &'a self,
        passes: &mut Vec<Pass<SharedTrader>>,
        ended: GroupPass<'a, R>,
    )
        requires opening { AreOpening self.now.cells.items passes.old.items }
        requires out { AllZip IsOut passes.old.items ended.passes.items }
        ensures opening { AreOpening self.now.cells.items passes.new.items }
        ensures met { Rows MeetsPass passes.old.items ended.entry.passes.items passes.new.items }
        ensures stays { OutStays passes.old.items passes.new.items }
    {
        self.meet_all(passes, ended.into_passes());
    }

    /// Takes the traders out at the end: each has become what it is from what its opening pass has seen, and each
    /// change since the group was opened is one of that pass's own. Takes no memory.
    ///
    /// # Errors
    ///
    /// The group and the passes, unchanged, exactly where a pass that was split off hasn't been taken in.
    pub fn close(
        self,
        passes: Vec<Pass<SharedTrader>>,
    ) -> Result<Solo, (Group, Vec<Pass<SharedTrader>>)>
        requires { AreOpening self.cells.items passes.items }
        ensures closed { IfOk result
            (λ s. Rows IsTakenOut self.cells.items passes.items s.traders.items) }
        ensures err { IfErr result (λ r. (are_met passes.items ≡ false) × (r ≡ (self, passes))) }
    {
        if !self.is_whole(&passes) {
            return Err((self, passes));
        }
        let Group { names, cells, kept } = self;
        drop(names);
        let traders = close_all(cells, passes, kept);
        let solo = Solo { traders };
        Ok(solo)
    }

    /// Splits a pass off each opening pass. When memory runs out, what was split off before is met again.
    fn split_all(
        &self,
        alloc: Global,
        passes: &mut Vec<Pass<SharedTrader>>,
    ) -> Result<Vec<Pass<SharedTrader>>, Memory>
        requires { AreOpening self.now.cells.items passes.old.items }
        ensures opening { AreOpening self.now.cells.items passes.new.items }
        ensures split { IfOk result
            (λ out. Rows SplitsOff passes.old.items out.items passes.new.items) }
        ensures err { OnErr result (AllZip IsAsBefore passes.old.items passes.new.items) }
    {
        let mut out = Vec::with_capacity(alloc, self.cells.len())?;
        match self.split_each(passes, &mut out) {
            Ok(()) => Ok(out),
            Err(memory) => {
                self.meet_all(passes, out);
                Err(memory)
            }
        }
    }

    /// Splits a pass off each opening pass, as far as there is memory.
    fn split_each(
        &self,
        passes: &mut Vec<Pass<SharedTrader>>,
        out: &mut Vec<Pass<SharedTrader>>,
    ) -> Result<(), Memory>
        requires opening { AreOpening self.now.cells.items passes.old.items }
        requires room { (vec_len out.old ≡ 0) × (vec_len self.now.cells ≤ vec_capacity out.old) }
        ensures opening { AreOpening self.now.cells.items passes.new.items }
        ensures split { OnOk result
            (Rows SplitsOff passes.old.items out.new.items passes.new.items) }
        ensures err { OnErr result (SplitsInPart passes.old.items out.new.items passes.new.items) }
    {
        for k in 0..self.cells.len() {
            let pass = self.cells[k].split(&mut passes[k])?;
            out.push_reserved(pass);
        }
        Ok(())
    }

    /// The first of the opening passes meet what was split off them.
    fn meet_all(&self, passes: &mut Vec<Pass<SharedTrader>>, mut content: Vec<Pass<SharedTrader>>)
        requires opening { AreOpening self.now.cells.items passes.old.items }
        requires out { Beside IsOut content.items passes.old.items }
        ensures opening { AreOpening self.now.cells.items passes.new.items }
        ensures met { DropsFront MeetsPass content.items passes.old.items passes.new.items }
    {
        while let Some(pass) = content.pop() {
            let k = content.len();
            self.cells[k].meet(&mut passes[k], pass);
        }
    }

    /// Whether each pass that was split off has been met.
    fn is_whole(&self, passes: &Vec<Pass<SharedTrader>>) -> bool
        requires { AreOpening self.now.cells.items passes.now.items }
        ensures { result ≡ are_met passes.now.items }
    {
        for k in 0..passes.len() {
            if !self.cells[k].whole(&passes[k]) {
                return false;
            }
        }
        true
    }
}

/// A trader's name. Its history is legal and its opening store was admitted, as `point` tells.
fn name_of(alloc: Global, trader: &Trader) -> Result<Text, Memory>
    ensures name { IfOk result (λ name. name ≡ trader.now.name) }
    ensures sound { IsLegalTrader trader.now }
{
    let _ = trader.point();
    trader.name().copy(alloc)
}

/// The names of traders.
fn names_of(alloc: Global, traders: &[Trader]) -> Result<Vec<Text>, Memory>
    ensures names { IfOk result (λ names. names.items
        ≡ map (λ (t : PlainTrader). t.name) traders.now) }
    ensures sound { OnOk result (All IsLegalTrader traders.now) }
{
    let mut names = Vec::new(alloc);
    for trader in traders {
        let name = name_of(alloc, trader)?;
        names.push(name)?;
    }
    Ok(names)
}

/// Puts each trader into a cell. The list of them is then empty.
fn open_all(
    alloc: Global,
    names: Vec<Text>,
    mut traders: Vec<Trader>,
) -> Result<(Group, Vec<Pass<SharedTrader>>), Memory>
    requires names { names.items ≡ map (λ (t : PlainTrader). t.name) traders.items }
    requires distinct { AreDistinct traders.items }
    requires sound { All IsLegalTrader traders.items }
    ensures opened { IfOk result (λ r. Rows IsPutIn traders.items r.0.cells.items r.1.items) }
    ensures opening { IfOk result (λ r. AreOpening r.0.cells.items r.1.items) }
{
    let mut cells = Vec::new(alloc);
    let mut passes = Vec::new(alloc);
    open_each(alloc, &mut traders, &mut cells, &mut passes)?;
    traders.reserve(cells.len())?;
    let group = Group {
        names,
        cells,
        kept: traders,
    };
    Ok((group, passes))
}

/// Empties a list of traders into cells.
fn open_each(
    alloc: Global,
    traders: &mut Vec<Trader>,
    cells: &mut Vec<Cell<SharedTrader>>,
    passes: &mut Vec<Pass<SharedTrader>>,
) -> Result<(), Memory>
    requires { (vec_len cells.old ≡ 0) × (vec_len passes.old ≡ 0) }
    ensures opened { OnOk result (Rows IsPutIn traders.old.items cells.new.items passes.new.items) }
    ensures empty { OnOk result (vec_len traders.new ≡ 0) }
{
    traders.reverse();
    while let Some(trader) = traders.pop() {
        open_one(alloc, trader, cells, passes)?;
    }
    Ok(())
}

/// Puts one trader into a cell.
fn open_one(
    alloc: Global,
    trader: Trader,
    cells: &mut Vec<Cell<SharedTrader>>,
    passes: &mut Vec<Pass<SharedTrader>>,
) -> Result<(), Memory>
    ensures { OnOk result
        (OpensOne trader cells.old.items cells.new.items passes.old.items passes.new.items) }
{
    let (cell, pass) = Cell::open(alloc, SharedTrader { trader })?;
    cells.push(cell)?;
    passes.push(pass)?;
    Ok(())
}

/// Takes each trader out of its cell.
fn close_all(
    mut cells: Vec<Cell<SharedTrader>>,
    mut passes: Vec<Pass<SharedTrader>>,
    mut kept: Vec<Trader>,
) -> Vec<Trader>
    requires ready { AllZip IsReady cells.items passes.items }
    requires room { (vec_len kept ≡ 0) × (vec_len cells ≤ vec_capacity kept) }
    ensures { Rows IsTakenOut cells.items passes.items result.items }
{
    while let Some(cell) = cells.pop() {
        let pass = passes.take_last();
        kept.push_reserved(close_one(cell, pass));
    }
    kept.reverse();
    kept
}

/// Takes a trader out of its cell, all of whose passes have met.
fn close_one(cell: Cell<SharedTrader>, pass: Pass<SharedTrader>) -> Trader
    requires { IsReady cell pass }
    ensures { IsTakenOut cell pass result }
{
    match cell.close(pass) {
        Ok(shared_trader) => {
            let SharedTrader { trader } = shared_trader;
            trader
        }
        Err(_) => unreachable!(),
    }
}
