//! The entries of a trader, done to its store.

ghost use Rattle.std.specs.Prelude.{◌≡◌, IfOk, OnOk};
ghost use Rattle.td_changes.specs.Applying.{apply};
ghost use Rattle.td_changes.specs.Histories.{is_done};
ghost use Rattle.td_file.specs.Openings.{behind, change_of, link_to, store_after};
ghost use Rattle.td_file.specs.Stages.{StoresOrRefuses};
ghost use Rattle.td_objects.specs.References.{IsAddress};
ghost use Rattle.td_trader.specs.OfferLimits.{HasLimitedOffers};

use crate::fault::FileFault;
use std::alloc::Global;
use td_cdr::{Boxed, List, Memory, Text};
use td_changes::apply;
use td_lines::{FileEntry, LineCause, Numbered};
use td_objects::lookup_and_register;
use td_ops::{Change, Outcome};
use td_store::Store;
use td_value::FollowOption;
use td_walk::Address;

/// The link to a trader of the file, with its own Register.
fn link_to(
    alloc: Global,
    home: &Address,
    name: Text,
    trader: Text,
    def_pass_on: FollowOption,
    limiting: FollowOption,
) -> Result<Change, Memory>
    requires { IsAddress home.now }
    ensures { IfOk result (λ c. c ≡ link_to home.now name trader def_pass_on limiting) }
{
    let (target, register) = lookup_and_register(alloc, home, &trader)?;
    Ok(Change::AddLink {
        name,
        target: Boxed::new(alloc, target)?,
        def_pass_on,
        limiting,
        register: Some(register),
    })
}

/// The change that an entry asks for.
fn change_of(alloc: Global, home: &Address, entry: FileEntry) -> Result<Change, Memory>
    requires { IsAddress home.now }
    ensures { IfOk result (λ c. c ≡ change_of home.now entry) }
{
    match entry {
        FileEntry::Change(change) => Ok(change),
        FileEntry::Link {
            name,
            trader,
            def_pass_on,
            limiting,
        } => link_to(alloc, home, name, trader, def_pass_on, limiting),
    }
}

/// Whether a change was done.
fn is_done(outcome: &Outcome) -> bool
    ensures { result ≡ is_done outcome.now }
{
    match outcome {
        Outcome::Done(_) => true,
        Outcome::User(_) => false,
        Outcome::System { .. } => false,
    }
}

/// Does a change, and tells whether it was done.
#[tactic(auto, using(td_trader::proofs::KeepingLimits::limited_applied, td_trader::proofs::KeepingLimits::limited_same))]
fn is_applied(alloc: Global, store: &mut Store, change: Change) -> Result<bool, Memory>
    requires { HasLimitedOffers store.old }
    ensures content { IfOk result (λ b. b ≡ is_done (apply store.old change).outcome) }
    ensures after { OnOk result (store.new ≡ (apply store.old change).store) }
    ensures limited { HasLimitedOffers store.new }
{
    let outcome = apply(alloc, store, change)?;
    let passed = is_done(&outcome);
    drop(outcome);
    Ok(passed)
}

/// Does what an entry asks for.
fn enter(alloc: Global, home: &Address, store: &mut Store, one: Numbered) -> Result<(), FileFault>
    requires home { IsAddress home.now }
    requires limited { HasLimitedOffers store.old }
    ensures enters { StoresOrRefuses (behind home.now store.old one) store.new result }
    ensures limited { HasLimitedOffers store.new }
{
    let Numbered { line, entry } = one;
    let change = change_of(alloc, home, entry)?;
    if is_applied(alloc, store, change)? {
        Ok(())
    } else {
        Err(FileFault::Line(line, LineCause::Rejected))
    }
}

/// Does what these entries ask for, in order, up to the first that is refused.
pub(crate) fn enter_all(
    alloc: Global,
    home: &Address,
    store: &mut Store,
    entries: List<Numbered>,
) -> Result<(), FileFault>
    requires home { IsAddress home.now }
    requires limited { HasLimitedOffers store.old }
    ensures enters { StoresOrRefuses (store_after home.now store.old entries) store.new result }
    ensures limited { HasLimitedOffers store.new }
{
    for one in entries.into_vec() {
        enter(alloc, home, store, one)?;
    }
    Ok(())
}
