//! Replies from bytes.

ghost use Rattle.std.specs.Prelude.{◌≡◌};
ghost use Rattle.td_cdr.specs.Format.{Gives};
ghost use Rattle.td_cdr.specs.ValueFaults.{is_memory};
ghost use Rattle.td_ops.specs.Refusals.{ReadsWritable};
ghost use Rattle.td_ops.specs.Called.{operation_in};
ghost use Rattle.td_ops.specs.Answers.{answer_of, outcome_read, system_answer};
ghost use Rattle.td_ops.specs.Shapes.{results};
ghost use Rattle.td_ops.specs.declared.shape.Shape.TheVariants as shape;

use crate::call::Call;
use crate::called::operation_in;
use crate::fault::OpsFault;
use crate::operation::{Operation, result_shape};
use crate::outcome::{Answered, Reply};
use crate::shape::Shape;
use std::alloc::Global;
use td_cdr::{Boxed, List, Octets, Reader, Spelled, Text, ValueFault};
use td_value::{
    FollowOption, IncarnationNumber, Ior, LinkInfo, Offer, OfferInfo, ProxyInfo, TypeStruct,
};

/// What a reply of this status to a call tells (CORBA, chapter on General Inter-ORB Protocol, "Reply
/// Body"): by status 0 the call's result, by 1 the id of a user exception, whose members stay unread,
/// by 2 a system exception's id, minor code and completion. Ids and numbers may be any. The items of a
/// `next_n` are read as offers.
///
/// # Errors
///
/// The first fault in reading order: `NoImplement` for a TypeCode of a kind that is left out, `Marshal`
/// with its place for each other one. For a status above 2 that is `Marshal` at the body's place.
/// `Memory` when out of memory. The reader is then unchanged.
pub fn read_outcome(
    alloc: Global,
    call: &Call,
    status: u32,
    body: &mut Reader,
) -> Result<Answered, OpsFault>
    ensures { let reply = answer_of (operation_in call.now) status in
        ReadsWritable reply.format.admits (outcome_read call.now status body.old)
        body.old body.new result }
{
    let operation = operation_in(call);
    let mut next = body.copied();
    let answer = read_answer(alloc, &mut next, operation, status)?;
    *body = next;
    Ok(answer)
}

/// What a reply of this status tells. Where it is refused, the reader may have moved.
fn read_answer(
    alloc: Global,
    r: &mut Reader,
    operation: Operation,
    status: u32,
) -> Result<Answered, ValueFault>
    ensures { Gives is_memory r.new result ((answer_of operation status).format.reads r.old) }
{
    match status {
        0 => {
            let reply = read_reply(alloc, r, result_shape(operation))?;
            Ok(Answered::Done(reply))
        }
        1 => Ok(Answered::User(Text::read(alloc, r)?)),
        2 => read_system(alloc, r),
        _ => Err(ValueFault::BadValue(r.place())),
    }
}

/// A system exception. Where it is refused, the reader may have moved.
fn read_system(alloc: Global, r: &mut Reader) -> Result<Answered, ValueFault>
    ensures { Gives is_memory r.new result (system_answer.format.reads r.old) }
{
    let (id, (minor, completion)) = <(Text, (u32, u32))>::read(alloc, r)?;
    Ok(Answered::System {
        id,
        minor,
        completion,
    })
}

/// A result of a shape. Where it is refused, the reader may have moved.
fn read_reply(alloc: Global, r: &mut Reader, shape: Shape) -> Result<Reply, ValueFault>
    ensures { Gives is_memory r.new result ((results shape).format.reads r.old) }
{
    match shape {
        Shape::Nothing => Ok(Reply::Nothing),
        Shape::Id => Ok(Reply::Id(Text::read(alloc, r)?)),
        Shape::Number => Ok(Reply::Number(u32::read(alloc, r)?)),
        Shape::Truth => Ok(Reply::Truth(bool::read(alloc, r)?)),
        Shape::Reference => Ok(Reply::Reference(Ior::read(alloc, r)?)),
        Shape::Follow => Ok(Reply::Follow(FollowOption::read(alloc, r)?)),
        Shape::Stem => Ok(Reply::Stem(Octets::read(alloc, r)?)),
        Shape::Incarnation => Ok(Reply::Incarnation(IncarnationNumber::read(alloc, r)?)),
        Shape::Names => Ok(Reply::Names(List::read(alloc, r)?)),
        Shape::Offer => Ok(Reply::Offer(OfferInfo::read(alloc, r)?)),
        Shape::Link => Ok(Reply::Link(LinkInfo::read(alloc, r)?)),
        Shape::Proxy => read_described_proxy(alloc, r),
        Shape::Typed => Ok(Reply::Typed(TypeStruct::read(alloc, r)?)),
        Shape::Found => read_found(alloc, r),
        Shape::Ids => read_ids(alloc, r),
        Shape::Batch => read_batch(alloc, r),
        Shape::IdBatch => read_id_batch(alloc, r),
    }
}

/// What describes a proxy offer. Where it is refused, the reader may have moved.
fn read_described_proxy(alloc: Global, r: &mut Reader) -> Result<Reply, ValueFault>
    ensures { Gives is_memory r.new result ((results shape.Proxy).format.reads r.old) }
{
    let info = ProxyInfo::read(alloc, r)?;
    Ok(Reply::Proxy(Boxed::new(alloc, info)?))
}

/// The answer to a query. Where it is refused, the reader may have moved.
fn read_found(alloc: Global, r: &mut Reader) -> Result<Reply, ValueFault>
    ensures { Gives is_memory r.new result ((results shape.Found).format.reads r.old) }
{
    let (offers, (iterator, limits)) = <(List<Offer>, (Ior, List<Text>))>::read(alloc, r)?;
    Ok(Reply::Found {
        offers,
        iterator,
        limits,
    })
}

/// Ids and an iterator. Where they are refused, the reader may have moved.
fn read_ids(alloc: Global, r: &mut Reader) -> Result<Reply, ValueFault>
    ensures { Gives is_memory r.new result ((results shape.Ids).format.reads r.old) }
{
    let (ids, iterator) = <(List<Text>, Ior)>::read(alloc, r)?;
    Ok(Reply::Ids { ids, iterator })
}

/// Offers of an iterator. Where they are refused, the reader may have moved.
fn read_batch(alloc: Global, r: &mut Reader) -> Result<Reply, ValueFault>
    ensures { Gives is_memory r.new result ((results shape.Batch).format.reads r.old) }
{
    let (more, offers) = <(bool, List<Offer>)>::read(alloc, r)?;
    Ok(Reply::Batch { more, offers })
}

/// Ids of an iterator. Where they are refused, the reader may have moved.
fn read_id_batch(alloc: Global, r: &mut Reader) -> Result<Reply, ValueFault>
    ensures { Gives is_memory r.new result ((results shape.IdBatch).format.reads r.old) }
{
    let (more, ids) = <(bool, List<Text>)>::read(alloc, r)?;
    Ok(Reply::IdBatch { more, ids })
}
