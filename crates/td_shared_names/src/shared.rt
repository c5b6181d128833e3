//! Naming contexts that passes share.

ghost use Rattle.std.specs.Prelude.{◌≡◌, IfOk, IfErr, OnErr, false};
ghost use Rattle.td_cell.specs.Passes.{knowledge, opened_book};
ghost use Rattle.td_cell.specs.Rules.{all_met};
ghost use Rattle.td_shared_names.specs.Seeing.{IsLegalPast, sound_prop};
ghost use Rattle.td_shared_names.specs.Sharing.{IsTakenOut, IsPutIn, IsOpeningOf, IsOut, IsReady, IsUnchanged};
ghost use Rattle.td_shared_names.specs.Sharing.{MeetsPass};
ghost use Rattle.td_shared_names.specs.Sharing.{OutStays, SplitsOff};

use crate::book::NameBook;
use crate::pass::NamePass;
use std::alloc::Global;
use std::sync::Wait;
use td_cdr::{Memory, Twin};
use td_cell::{Cell, Pass};
use td_names::Address;
use td_naming::Naming;

/// Naming contexts that stand in a cell, so that many sessions call them, each through a `NamePass` of its own.
#[derive(Drop)]
pub struct SharedNames {
    home: Address,
    cell: Cell<NameBook>,
    ghost here: { home ≡ (opened_book cell).home },
    ghost sound: { IsLegalPast (opened_book cell) } by { sound_prop (opened_book cell) },
}

impl SharedNames {
    /// Puts naming contexts into a cell, and gives its opening pass, which has seen them and has made no change.
    ///
    /// # Errors
    ///
    /// `Memory` only when out of memory. The contexts are then dropped.
    pub fn open(alloc: Global, naming: Naming) -> Result<(SharedNames, Pass<NameBook>), Memory>
        ensures fresh { IfOk result (λ r. IsPutIn naming r.0.cell r.1) }
        ensures opening { IfOk result (λ r. IsOpeningOf r.0.cell r.1) }
    {
        let home = home_of(alloc, &naming)?;
        let (cell, pass) = Cell::open(alloc, NameBook { alloc, naming })?;
        Ok((SharedNames { home, cell }, pass))
    }

    /// Splits one more pass off the opening one, for one more session. Takes no memory.
    ///
    /// # Errors
    ///
    /// `Memory` where 2^64 - 1 passes were split off before. The opening pass is then as it was.
    pub fn pass<'a, R: Wait>(
        &'a self,
        rt: &'a R,
        pass: &mut Pass<NameBook>,
    ) -> Result<NamePass<'a, R>, Memory>
        requires { IsOpeningOf self.now.cell pass.old }
        ensures opening { IsOpeningOf self.now.cell pass.new }
        ensures split { IfOk result (λ n. SplitsOff pass.old n.pass pass.new) }
        ensures out { IfOk result (λ n. IsOut pass.new n.pass) }
        ensures stays { OutStays pass.old pass.new }
        ensures err { OnErr result (IsUnchanged pass.old pass.new) }
    {
        match self.cell.split(pass) {
            Ok(split) => Ok(NamePass::new(rt, &self.home, &self.cell, split)),
            Err(memory) => Err(memory),
        }
    }

    /// Takes the pass of a session in that has ended: the opening pass has then seen the longer of what both have, and
    /// has the changes of both. Takes no memory.
    pub fn take_in<'a, R: Wait>(&'a self, pass: &mut Pass<NameBook>, ended: NamePass<'a, R>)
        requires opening { IsOpeningOf self.now.cell pass.old }
        requires out { IsOut pass.old ended.pass }
        ensures opening { IsOpeningOf self.now.cell pass.new }
        ensures met { MeetsPass pass.old ended.entry.pass pass.new }
        ensures stays { OutStays pass.old pass.new }
    {
        self.meet(pass, ended.into_pass());
    }

    /// The same of the cell's pass.
    fn meet(&self, pass: &mut Pass<NameBook>, ended: Pass<NameBook>)
        requires opening { IsOpeningOf self.now.cell pass.old }
        requires out { IsOut pass.old ended }
        ensures opening { IsOpeningOf self.now.cell pass.new }
        ensures met { MeetsPass pass.old ended pass.new }
        ensures stays { OutStays pass.old pass.new }
    {
        self.cell.meet(pass, ended)
    }

    /// Takes the contexts out at the end: they have become what they are from what the opening pass has seen, and each
    /// change since they were put in is one of that pass's own. Takes no memory.
    ///
    /// # Errors
    ///
    /// Both, unchanged, exactly where a pass that was split off hasn't been taken in.
    pub fn close(self, pass: Pass<NameBook>) -> Result<Naming, (SharedNames, Pass<NameBook>)>
        requires { IsOpeningOf self.cell pass }
        ensures closed { IfOk result (λ n. IsTakenOut self.cell pass n) }
        ensures err { IfErr result (λ r. (all_met (knowledge pass).met ≡ false)
            × (r ≡ (self, pass))) }
    {
        if !self.cell.whole(&pass) {
            return Err((self, pass));
        }
        let SharedNames { home, cell } = self;
        drop(home);
        Ok(close_met(cell, pass))
    }
}

/// Where contexts are reached. Their history is legal, as `point` tells.
fn home_of(alloc: Global, naming: &Naming) -> Result<Address, Memory>
    ensures home { IfOk result (λ home. home ≡ naming.now.home) }
    ensures sound { IsLegalPast naming.now }
{
    let _ = naming.point();
    let home = naming.home();
    let host = home.host.copy(alloc)?;
    Ok(Address {
        host,
        port: home.port,
    })
}

/// Takes contexts out of their cell, all of whose passes were taken in.
fn close_met(cell: Cell<NameBook>, pass: Pass<NameBook>) -> Naming
    requires { IsReady cell pass }
    ensures { IsTakenOut cell pass result }
{
    match cell.close(pass) {
        Ok(book) => {
            let NameBook { naming, .. } = book;
            naming
        }
        Err(_) => unreachable!(),
    }
}
