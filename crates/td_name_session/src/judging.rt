//! What a Request asks: the call of a live object, or why it is refused.

ghost use Rattle.std.specs.Prelude.{◌≡◌, IfOk, OnErr};
ghost use Rattle.td_name_session.specs.Judging.{JudgesRequest, judged_body, refused_for};
ghost use Rattle.td_name_session.specs.Keys.{key_of, kind_of};
ghost use Rattle.td_name_session.specs.Scenes.{FindsObject};
ghost use Rattle.td_name_session.specs.Turns.{FindsKey, FindsLive};
ghost use Rattle.td_name_session.specs.declared.judging.Judged.{Judged as Spelled};
ghost use Rattle.td_name_session.specs.declared.judging.Judged.TheVariants.{Refused};
ghost use Rattle.td_ops.specs.declared.fault.OpsFault.TheVariants as content;

use crate::iterators::Iterators;
use crate::keys::{NameKey, read_name_key};
use std::alloc::Global;
use td_cdr::{Memory, Reader};
use td_name_ops::{NameCall, NameKind, read_name_call};
use td_naming::Names;
use td_ops::{OpsFault, SystemKind};

/// What a Request comes to before it is performed.
#[derive(Drop)]
pub enum Judged {
    /// A call of a live object.
    Call { key: NameKey, call: NameCall },
    /// A system exception. The minor code of MARSHAL is the place of the fault in the message, in bytes from 0; that of
    /// any other is 0.
    Refused { kind: SystemKind, minor: u32 },
}

/// The interface of an object.
pub(crate) fn kind_of(key: NameKey) -> NameKind
    ensures { result ≡ kind_of key }
{
    match key {
        NameKey::Context(_) => NameKind::Context,
        NameKey::Iterator(_) => NameKind::Iterator,
    }
}

/// Whether an object is live. Takes no memory.
fn is_there<N: Names>(names: &mut N, iterators: &mut Iterators, key: NameKey) -> bool
    ensures same { N.same names.old names.new }
    ensures finds { FindsObject N.others (N.view names.old) iterators.old key result
        (N.view names.new) }
    ensures iterators { iterators.new ≡ iterators.old }
{
    match key {
        NameKey::Context(number) => names.live(number),
        NameKey::Iterator(number) => iterators.is_kept(number),
    }
}

/// The live object that these octets are the key of. Takes no memory.
fn find<N: Names>(names: &mut N, iterators: &mut Iterators, key: &[u8]) -> Option<NameKey>
    ensures same { N.same names.old names.new }
    ensures finds { FindsLive N.others (N.view names.old) iterators.old (key_of key.now) result
        (N.view names.new) }
    ensures iterators { iterators.new ≡ iterators.old }
{
    let key = read_name_key(key)?;
    if is_there(names, iterators, key) {
        Some(key)
    } else {
        None
    }
}

/// Whether these octets are the key of a live object. Takes no memory.
#[tactic(auto, using(crate::proofs::Judgements::found_live, crate::proofs::Judgements::missed_live))]
pub(crate) fn is_live<N: Names>(names: &mut N, iterators: &mut Iterators, key: &[u8]) -> bool
    ensures same { N.same names.old names.new }
    ensures finds { FindsKey N.others (N.view names.old) iterators.old (key_of key.now) result
        (N.view names.new) }
    ensures iterators { iterators.new ≡ iterators.old }
{
    match find(names, iterators, key) {
        Some(_key) => true,
        None => false,
    }
}

/// The call that a Request with this key, operation and body spells, or its refusal: OBJECT_NOT_EXIST where no live
/// object has the key, then BAD_OPERATION where the object has no such operation, then NO_IMPLEMENT or MARSHAL.
///
/// # Errors
///
/// `Memory` only when out of memory, to read the call.
pub(crate) fn judge<N: Names>(
    alloc: Global,
    names: &mut N,
    iterators: &mut Iterators,
    key: &[u8],
    operation: &[u8],
    body: &Reader,
) -> Result<Judged, Memory>
    ensures same { N.same names.old names.new }
    ensures judged { IfOk result (λ j.
        JudgesRequest N.others (N.view names.old) iterators.old key.now operation.now body.now j
        (N.view names.new)) }
    ensures unread { OnErr result ((j : Spelled)
        × JudgesRequest N.others (N.view names.old) iterators.old key.now operation.now body.now j
        (N.view names.new)) }
    ensures iterators { iterators.new ≡ iterators.old }
{
    match find(names, iterators, key) {
        Some(key) => judge_body(alloc, key, operation, body),
        None => Ok(refusal_outcome(SystemKind::ObjectNotExist, 0)),
    }
}

/// The call of a live object, or its refusal.
///
/// # Errors
///
/// `Memory` only when out of memory.
fn judge_body(
    alloc: Global,
    key: NameKey,
    operation: &[u8],
    body: &Reader,
) -> Result<Judged, Memory>
    ensures { IfOk result (λ j. j ≡ judged_body key operation.now body.now) }
{
    let mut body = body.copied();
    match read_name_call(alloc, kind_of(key), operation, &mut body) {
        Ok(call) => Ok(Judged::Call { key, call }),
        Err(fault) => refusal_of(fault),
    }
}

/// The system exception for a fault of a Request.
///
/// # Errors
///
/// `Memory` when out of memory.
fn refusal_of(fault: OpsFault) -> Result<Judged, Memory>
    ensures refused { IfOk result (λ j. j ≡ refused_for fault) }
    ensures read { fault ≡ content.Memory → IfOk result (λ _. ⊥) }
{
    match fault {
        OpsFault::BadOperation => Ok(refusal_outcome(SystemKind::BadOperation, 0)),
        OpsFault::Marshal(place) => Ok(refusal_outcome(SystemKind::Marshal, place)),
        OpsFault::NoImplement => Ok(refusal_outcome(SystemKind::NoImplement, 0)),
        OpsFault::Memory => Err(Memory),
    }
}

fn refusal_outcome(kind: SystemKind, minor: u32) -> Judged
    ensures { result ≡ Refused kind minor }
{
    Judged::Refused { kind, minor }
}
