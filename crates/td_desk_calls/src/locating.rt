//! LocateRequests for iterators (CORBA, chapter on General Inter-ORB Protocol, "LocateRequest Message").

ghost use Rattle.std.specs.Prelude.{◌≡◌, ◌<◌, length, IfOk, OnErr};
ghost use Rattle.std.specs.Option.{ForSome};
ghost use Rattle.td_cell.specs.Passes.{Belongs, SameCell, SameNumbers, knowledge};
ghost use Rattle.td_desk.specs.Sharing.{StaysInOrder};
ghost use Rattle.td_desk_calls.specs.Serving.{LeavesLocated, LeavesNone, LocatesIterator};
ghost use Rattle.td_dispatch.specs.ReplyBytes.{IsWritable};

use crate::desk_call::{DeskCall, IteratorCall, last_place};
use std::alloc::Global;
use std::sync::Wait;
use td_cdr::{Memory, Text};
use td_desk::{DeskFault, DeskPass, SharedDesk};
use td_dispatch::Replies;

/// Answers a LocateRequest for an iterator: OBJECT_HERE where one of that trader and number is on the desk, else
/// UNKNOWN_OBJECT. Its reply is always expected.
///
/// # Errors
///
/// `Memory` only when out of memory; the desk wasn't called then.
pub fn locate<R: Wait>(
    rt: &R,
    alloc: Global,
    desk: &SharedDesk,
    pass: &mut DeskPass,
    replies: &mut Replies,
    call: &IteratorCall<'_>,
) -> Result<DeskCall, Memory>
    requires own { Belongs pass.old desk.now.cell }
    requires version { IsWritable call.now.to }
    ensures own { SameCell pass.new pass.old }
    ensures same { SameNumbers (knowledge pass.old) (knowledge pass.new) }
    ensures order { StaysInOrder (knowledge pass.old) (knowledge pass.new) }
    ensures locates { IfOk result
        (λ c. LocatesIterator call.now.to call.now.trader.now call.now.number (knowledge pass.old)
        replies.new c (knowledge pass.new)) }
    ensures err { OnErr result (knowledge pass.new ≡ knowledge pass.old) }
{
    match Text::from_slice(alloc, call.trader) {
        Err(_) => Err(Memory),
        Ok(trader) => Ok(locate_named(rt, desk, pass, replies, call, trader)),
    }
}

/// The same, with the trader's name.
fn locate_named<R: Wait>(
    rt: &R,
    desk: &SharedDesk,
    pass: &mut DeskPass,
    replies: &mut Replies,
    call: &IteratorCall<'_>,
    trader: Text,
) -> DeskCall
    requires own { Belongs pass.old desk.now.cell }
    requires version { IsWritable call.now.to }
    requires trader { trader ≡ call.now.trader.now }
    ensures own { SameCell pass.new pass.old }
    ensures same { SameNumbers (knowledge pass.old) (knowledge pass.new) }
    ensures order { StaysInOrder (knowledge pass.old) (knowledge pass.new) }
    ensures locates { LocatesIterator call.now.to call.now.trader.now call.now.number
        (knowledge pass.old) replies.new result (knowledge pass.new) }
{
    match desk.max_left(rt, pass, trader, call.number) {
        Ok(_found) => leave_located(pass, replies, call, true),
        Err(fault) => leave_none(pass, replies, call, fault),
    }
}

/// Leaves the reply that tells whether the iterator is there.
fn leave_located(
    pass: &DeskPass,
    replies: &mut Replies,
    call: &IteratorCall<'_>,
    live: bool,
) -> DeskCall
    requires version { IsWritable call.now.to }
    requires place { ForSome (knowledge pass.now).seen (λ h. 0 < length h) }
    ensures { LeavesLocated call.now.to (knowledge pass.now) live replies.new result }
{
    replies.locate(call.to.order, call.to.minor, call.to.id, live);
    DeskCall::At(last_place(pass))
}

/// Leaves the reply where the desk did nothing for the call.
fn leave_none(
    pass: &DeskPass,
    replies: &mut Replies,
    call: &IteratorCall<'_>,
    fault: DeskFault,
) -> DeskCall
    requires version { IsWritable call.now.to }
    requires absent { (fault ≡ DeskFault.Absent)
        → ForSome (knowledge pass.now).seen (λ h. 0 < length h) }
    requires takes_no_memory { (fault ≡ DeskFault.Memory) → ⊥ }
    ensures { LeavesNone call.now.to (knowledge pass.now) fault replies.new result }
{
    match fault {
        DeskFault::Absent => leave_located(pass, replies, call, false),
        DeskFault::Full => {
            replies.clear();
            DeskCall::Full
        }
        DeskFault::Memory => unreachable!(),
    }
}
