//! Iterators and writers for the tests. What is too long for them is answered as running out of memory, which no test
//! has.

ghost use Rattle.std.specs.Prelude.{◌≡◌, ◌<◌, IfOk, OnOk};
ghost use Rattle.td_iter.specs.Heads.{AreSmallIds};
ghost use Rattle.td_iter.specs.declared.limits.TheConstants.{REPLY_START};

use std::alloc::Global;
use td_cdr::{List, Memory, Order, Text, Writer};
use td_desk::Begun;
use td_iter::{DeskEntry, IdIter, Item, REPLY_START};

/// A writer that holds as many bytes as stand before the body of a reply.
pub fn begun(alloc: Global, order: Order) -> Result<Begun, Memory> {
    let mut writer = Writer::new(alloc, order);
    writer.append(&[0; 24])?;
    if writer.len() != REPLY_START {
        return Err(Memory);
    }
    Ok(Begun { writer })
}

/// Ids of one byte each.
pub fn ids(alloc: Global, bytes: &[u8]) -> Result<IdIter, Memory> {
    let mut left = List::new(alloc);
    for i in 0..bytes.len() {
        add_id(alloc, &mut left, &bytes[i..i + 1])?;
    }
    if left.len() > 1000 {
        return Err(Memory);
    }
    Ok(IdIter::new(left))
}

/// One id more.
#[tactic(auto, using(crate::proofs::Pushed::ids_pushed))]
fn add_id(alloc: Global, ids: &mut List<Text>, id: &[u8]) -> Result<(), Memory>
    requires { AreSmallIds ids.old }
    ensures { OnOk result (AreSmallIds ids.new) }
{
    if id.len() > 256 {
        return Err(Memory);
    }
    ids.push(Text::from_slice(alloc, id)?)?;
    Ok(())
}

/// An iterator of the trader A over these ids.
pub fn entry(alloc: Global, number: u64, bytes: &[u8]) -> Result<DeskEntry<Item>, Memory>
    ensures { IfOk result (λ e. e.number ≡ number) }
{
    let trader = Text::from_slice(alloc, b"A")?;
    let item = Item::Ids(ids(alloc, bytes)?);
    Ok(DeskEntry {
        trader,
        number,
        item,
    })
}
