//! How a Request is judged (CORBA, chapter on General Inter-ORB Protocol, "Request Header" and "Request Body").

ghost use Rattle.std.specs.Prelude.{◌≡◌, List, IfErr, IfOk, Result, Err};
ghost use Rattle.td_cdr.specs.Place.{At};
ghost use Rattle.td_ops.specs.Calls.{call_read};
ghost use Rattle.td_ops.specs.Operations.{operation_named};
ghost use Rattle.td_ops.specs.Refusals.{ReadsAs};
ghost use Rattle.td_ops.specs.declared.call.Call.{Call as asked};
ghost use Rattle.td_servant.specs.Classes.{IsOfClass, class_named, request_class};
ghost use Rattle.td_servant.specs.Judging.{IsServable, judge_request, judged_reading};
ghost use Rattle.td_servant.specs.Objects.{IsNamed};
ghost use Rattle.td_trader.specs.Worlds.{View};

use crate::answer::system;
use crate::class::{RequestClass, class_named};
use crate::objects::{Object, find_object};
use std::alloc::Global;
use td_cdr::Reader;
use td_iter::Desk;
use td_ops::{Call, OpsFault, Outcome, SystemKind, read_call};
use td_trader::Traders;

/// What a Request asks for.
#[derive(Drop)]
pub enum Judged {
    /// This call of an object.
    Call { object: Object, call: Call },
    /// No call: it is refused so.
    Refused(Outcome),
}

/// The call that a Request with this key, operation and body spells, or its refusal: first the key is looked at, then
/// the operation, then its parameters. The desk stays as it is.
///
/// # Errors
///
/// For running out of memory alone, to read the call: the class of the Request, by its key and its operation.
pub fn judge<T: Traders>(
    alloc: Global,
    traders: &T,
    desk: &mut Desk,
    key: &[u8],
    operation: &[u8],
    body: &Reader,
) -> Result<Judged, RequestClass>
    ensures judged { IfOk result (λ j. j
        ≡ judge_request (T.world traders.now) desk.old key.now operation.now body.now) }
    ensures servable { IfOk result (λ j. IsServable (T.world traders.now) j) }
    ensures class { IfErr result (λ c. c
        ≡ request_class (T.world traders.now) desk.old key.now operation.now) }
    ensures unread { IfErr result (λ c.
        IsOfClass c (judge_request (T.world traders.now) desk.old key.now operation.now body.now)) }
    ensures same { desk.new ≡ desk.old }
{
    match find_object(traders, desk, key) {
        Some(object) => judge_call(alloc, object, operation, body),
        None => Ok(Judged::Refused(system(SystemKind::ObjectNotExist, 0))),
    }
}

/// The call of this object, or its refusal.
fn judge_call(
    alloc: Global,
    object: Object,
    operation: &[u8],
    body: &Reader,
) -> Result<Judged, RequestClass>
    ensures judged { IfOk result (λ j. j
        ≡ judged_reading object (call_read object.kind operation.now body.now)) }
    ensures servable { (w : List View) → IsNamed w object.trader
        → IfOk result (λ j. IsServable w j) }
    ensures class { IfErr result (λ c. c
        ≡ class_named (operation_named object.kind operation.now)) }
    ensures unread { IfErr result (λ c.
        IsOfClass c (judged_reading object (call_read object.kind operation.now body.now))) }
{
    let mut reader = body.copied();
    match read_call(alloc, &object.kind, operation, &mut reader) {
        Ok(call) => Ok(Judged::Call { object, call }),
        Err(fault) => refuse(fault, class_named(&object.kind, operation)),
    }
}

/// The refusal of a Request of a class that spells no call.
///
/// # Errors
///
/// The class, when memory ran out to read it.
fn refuse(fault: OpsFault, class: RequestClass) -> Result<Judged, RequestClass>
    ensures judged { (x : Object) (reading : Result (asked × At) OpsFault) (at : At)
        → ReadsAs at (Err fault) reading → IfOk result (λ j. j ≡ judged_reading x reading) }
    ensures servable { (w : List View) → IfOk result (λ j. IsServable w j) }
    ensures class { IfErr result (λ c. c ≡ class) }
{
    match fault {
        OpsFault::BadOperation => Ok(Judged::Refused(system(SystemKind::BadOperation, 0))),
        OpsFault::Marshal(place) => Ok(Judged::Refused(system(SystemKind::Marshal, place))),
        OpsFault::NoImplement => Ok(Judged::Refused(system(SystemKind::NoImplement, 0))),
        OpsFault::Memory => Err(class),
    }
}
