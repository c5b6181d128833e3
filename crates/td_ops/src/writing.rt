//! Calls to bytes.

ghost use Rattle.std.specs.Prelude.{◌≡◌};
ghost use Rattle.td_cdr.specs.Format.{Appends, Puts};
ghost use Rattle.td_ops.specs.Calls.{call_piece};
ghost use Rattle.td_ops.specs.declared.call.Call.TheVariants as call;

use crate::call::{Call, Change, IterCall, Look};
use std::alloc::Global;
use td_cdr::{Memory, Spelled, Writer, put_four, put_six, put_three, put_two};

/// Appends the call's parameters, in the writer's order and with padding 0 (CORBA, chapter on General
/// Inter-ORB Protocol, "Request Body"). Nothing is appended for `Change::AddLink`, which no request
/// carries.
///
/// # Errors
///
/// `Memory` when out of memory or of room; the writer is then unchanged.
pub fn write_call(alloc: Global, w: &mut Writer, call: &Call) -> Result<(), Memory>
    ensures { Appends (call_piece call.now) w.old w.new result }
{
    let held = w.len();
    match put_call(alloc, w, call) {
        Ok(()) => Ok(()),
        Err(memory) => {
            w.cut(held);
            Err(memory)
        }
    }
}

/// The call's parameters. Where it fails, some may be written.
fn put_call(alloc: Global, w: &mut Writer, call: &Call) -> Result<(), Memory>
    ensures { Puts (call_piece call.now) w.old w.new result }
{
    match call {
        Call::Change(change) => put_change(alloc, w, change),
        Call::Look(look) => put_look(alloc, w, look),
        Call::Query(query) => query.write(alloc, w),
        Call::AddLink(link) => link.write(alloc, w),
        Call::Resolve(names) => names.write(alloc, w),
        Call::Iter(iter) => put_iterator_call(alloc, w, iter),
        Call::IsA(id) => id.write(alloc, w),
        Call::NonExistent => Ok(()),
    }
}

fn put_change(alloc: Global, w: &mut Writer, change: &Change) -> Result<(), Memory>
    ensures { Puts (call_piece (call.Change change.now)) w.old w.new result }
{
    match change {
        Change::Export {
            reference,
            service_type,
            properties,
        } => put_three(alloc, w, reference, service_type, properties),
        Change::Withdraw { id } => id.write(alloc, w),
        Change::Modify {
            id,
            deleted,
            changed,
        } => put_three(alloc, w, id, deleted, changed),
        Change::WithdrawUsingConstraint {
            service_type,
            constraint,
        } => put_two(alloc, w, service_type, constraint),
        Change::AddLink { .. } => Ok(()),
        Change::RemoveLink { name } => name.write(alloc, w),
        Change::ModifyLink {
            name,
            def_pass_on,
            limiting,
        } => put_three(alloc, w, name, def_pass_on, limiting),
        Change::ExportProxy {
            target,
            service_type,
            properties,
            if_match_all,
            recipe,
            policies,
        } => put_six(
            alloc,
            w,
            target,
            service_type,
            properties,
            if_match_all,
            recipe,
            policies,
        ),
        Change::WithdrawProxy { id } => id.write(alloc, w),
        Change::SetTruth { value, .. } => value.write(alloc, w),
        Change::SetNumber { value, .. } => value.write(alloc, w),
        Change::SetFollow { value, .. } => value.write(alloc, w),
        Change::SetRequestIdStem { value } => value.write(alloc, w),
        Change::AddType {
            name,
            if_name,
            props,
            super_types,
        } => put_four(alloc, w, name, if_name, props, super_types),
        Change::RemoveType { name } => name.write(alloc, w),
        Change::MaskType { name } => name.write(alloc, w),
        Change::UnmaskType { name } => name.write(alloc, w),
    }
}

fn put_look(alloc: Global, w: &mut Writer, look: &Look) -> Result<(), Memory>
    ensures { Puts (call_piece (call.Look look.now)) w.old w.new result }
{
    match look {
        Look::Describe { id } => id.write(alloc, w),
        Look::DescribeLink { name } => name.write(alloc, w),
        Look::ListLinks => Ok(()),
        Look::DescribeProxy { id } => id.write(alloc, w),
        Look::ListOffers { how_many } => how_many.write(alloc, w),
        Look::ListProxies { how_many } => how_many.write(alloc, w),
        Look::ListTypes { which } => which.write(alloc, w),
        Look::DescribeType { name } => name.write(alloc, w),
        Look::FullyDescribeType { name } => name.write(alloc, w),
        Look::Get(_) => Ok(()),
    }
}

fn put_iterator_call(alloc: Global, w: &mut Writer, iter: &IterCall) -> Result<(), Memory>
    ensures { Puts (call_piece (call.Iter iter.now)) w.old w.new result }
{
    match iter {
        IterCall::MaxLeft => Ok(()),
        IterCall::NextN { n } => n.write(alloc, w),
        IterCall::Destroy => Ok(()),
    }
}
