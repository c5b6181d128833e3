//! A query reads the offers of the types that conform, and no others.

ghost use Rattle.std.specs.Prelude.{◌≡◌, ◌<◌, ◌≤◌, ◌+◌, [], ◌∷◌, filter, length, IsTrue, IfOk, OnOk};
ghost use Rattle.std.specs.List.{AllByRecursion};
ghost use Rattle.td_store.specs.Candidates.{is_among};
ghost use Rattle.td_types.specs.Conforming.{subtypes};

use crate::candidates::TYPES;
use crate::lines::{EMPTY, first_wrong};
use crate::making::{append, made_store};
use crate::policies::stated_of;
use crate::words::text;
use std::alloc::Global;
use std::marker::Brand;
use std::process::Abort;
use std::sync::ledger::{Blank, Ledger};
use std::test::Fail;
use td_cdr::{Memory, Text};
use td_policy::{Attributes, Stated};
use td_store::{Offers, Steps, Store, StoreFault};
use td_types::Types;

/// Over 1,000 offers of Device, one of Printer and two of Laser, a query for Printer finds three and
/// takes at most five steps.
#[test]
fn a_query_for_printers(rt: HostRuntime) -> Result<(), Fail> {
    let alloc = rt.alloc();
    assert!(rt; is_right(alloc)?);
    Ok(())
}

/// Whether the query finds the three among the thousand.
fn is_right(alloc: Global) -> Result<bool, Memory> {
    let mut store = made_store(alloc, &EMPTY)?;
    let added = first_wrong(alloc, &mut store, TYPES).is_empty();
    match mostly_devices(alloc) {
        Ok(offers) => Ok(added && finds_over(alloc, &store, &offers)?),
        Err(_) => Err(Memory),
    }
}

/// The query on a counter of its own.
fn finds_over(alloc: Global, store: &Store, offers: &Offers) -> Result<bool, Memory>
    requires { length (filter (is_among (2 ∷ 3 ∷ [])) offers.now) ≤ 3 }
{
    let stated = stated_of(alloc, "-")?;
    counted::<Brand>(alloc, store, offers, stated.get(), Blank::new(1))
}

fn counted<L: Ledger>(
    alloc: Global,
    store: &Store,
    offers: &Offers,
    stated: &Stated,
    blank: Blank,
) -> Result<bool, Memory>
    requires name { blank.name ≡ L.name }
    requires parts { blank.parts ≡ L.parts }
    requires one { L.parts ≡ 1 }
    requires few { length (filter (is_among (2 ∷ 3 ∷ [])) offers.now) ≤ 3 }
{
    let mut steps = Steps::<L>::new(blank);
    let printer = text(alloc, "Printer", 0)?;
    finds_three(
        alloc,
        &store.types,
        offers,
        &store.attributes,
        stated,
        &printer,
        &mut steps,
    )
}

/// Whether a query for Printer finds three offers, in at most five steps.
fn finds_three<L: Ledger>(
    alloc: Global,
    types: &Types,
    offers: &Offers,
    attributes: &Attributes,
    stated: &Stated,
    printer: &Text,
    steps: &mut Steps<L>,
) -> Result<bool, Memory>
    requires { length (filter (is_among (2 ∷ 3 ∷ [])) offers.now) ≤ 3 }
    ensures { IfOk result (λ found. IsTrue found → steps.new ≤ steps.old + 5) }
{
    if !is_above_both(types, printer)? {
        return Ok(false);
    }
    finds(alloc, types, offers, attributes, stated, printer, steps)
}

/// Whether the types of incarnations 2 and 3 conform, and no others.
fn is_above_both(types: &Types, asked: &Text) -> Result<bool, Memory>
    ensures { IfOk result (λ b. IsTrue b → subtypes types.now.types asked.now ≡ 2 ∷ 3 ∷ []) }
{
    let below = types.subtypes(asked)?;
    Ok(below.as_slice() == [2, 3].as_slice())
}

fn finds<L: Ledger>(
    alloc: Global,
    types: &Types,
    offers: &Offers,
    attributes: &Attributes,
    stated: &Stated,
    printer: &Text,
    steps: &mut Steps<L>,
) -> Result<bool, Memory>
    requires above { subtypes types.now.types printer.now ≡ 2 ∷ 3 ∷ [] }
    requires few { length (filter (is_among (2 ∷ 3 ∷ [])) offers.now) ≤ 3 }
    ensures { steps.new ≤ steps.old + 5 }
{
    let found = offers.candidates(alloc, types, attributes, stated, printer, 10, steps)?;
    Ok(found.len() == 3)
}

fn mostly_devices(alloc: Global) -> Result<Offers, StoreFault>
    ensures { IfOk result (λ offers. length (filter (is_among (2 ∷ 3 ∷ [])) offers) ≤ 3) }
{
    let mut offers = Offers::new(alloc)?;
    match add_mostly_devices(alloc, &mut offers) {
        Ok(()) => Ok(offers),
        Err(fault) => {
            drop(offers);
            Err(fault)
        }
    }
}

fn add_mostly_devices(alloc: Global, offers: &mut Offers) -> Result<(), StoreFault>
    requires { offers.old ≡ [] }
    ensures { OnOk result (length (filter (is_among (2 ∷ 3 ∷ [])) offers.new) ≤ 3) }
{
    add_devices(alloc, offers)?;
    append(alloc, offers, 1001, "Printer", 2, "-")?;
    append(alloc, offers, 1002, "Laser", 3, "-")?;
    append(alloc, offers, 1003, "Laser", 3, "-")?;
    Ok(())
}

/// Adds a thousand offers of Device.
fn add_devices(alloc: Global, offers: &mut Offers) -> Result<(), StoreFault>
    requires { offers.old ≡ [] }
    ensures below { OnOk result (AllByRecursion (λ o. o.number < 1001) offers.new) }
    ensures others { OnOk result (length (filter (is_among (2 ∷ 3 ∷ [])) offers.new) ≡ 0) }
{
    for i in 0..1000u32 {
        append(alloc, offers, i + 1, "Device", 1, "-")?;
    }
    Ok(())
}
