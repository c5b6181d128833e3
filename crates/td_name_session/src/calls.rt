//! A call of a live object is performed.

ghost use Rattle.std.specs.Prelude.{◌≡◌, ◌<◌, ◌^◌, ◌&&◌, length, not};
ghost use Rattle.td_iter.specs.declared.limits.TheConstants.{REPLY_START};
ghost use Rattle.td_name_session.specs.Keys.{context_in, iterator_in};
ghost use Rattle.td_name_session.specs.Invoking.{ActsTo, Invokes, TellsTruth};
ghost use Rattle.td_name_session.specs.Requests.{is_a};
ghost use Rattle.td_name_session.specs.Scenes.{scene};
ghost use Rattle.td_name_session.specs.declared.judging.Judged.TheVariants as asked;
ghost use Rattle.td_names.specs.Refusing.{is_refusal};

use crate::answer::{Answer, AnswerBody, no_memory, outcome_of, plain};
use crate::iterators::Iterators;
use crate::judging::kind_of;
use crate::keys::{NameKey, iterator_id};
use crate::listing::serve_list;
use std::alloc::Global;
use td_cdr::{Text, Writer};
use td_name_ops::{NameCall, NameKind, NameOutcome, NameResult};
use td_names::{NameAct, NameAnswer, context_id};
use td_naming::Names;

/// Performs a call. The writer holds what stands before the body of a Reply with a result.
#[tactic(auto, using(crate::proofs::Classes::invokes))]
pub(crate) fn invoke<N: Names>(
    alloc: Global,
    names: &mut N,
    iterators: &mut Iterators,
    w: &mut Writer,
    key: NameKey,
    call: NameCall,
) -> Answer
    requires start { length w.old.bytes ≡ REPLY_START }
    requires numbers { iterators.old.1 < 2 ^ 63 }
    ensures same { N.same names.old names.new }
    ensures invokes { Invokes N.others (asked.Call key call) w.old
        (scene (N.view names.old) iterators.old) result w.new
        (scene (N.view names.new) iterators.new) }
{
    match call {
        NameCall::Act(act) => serve_act(alloc, names, context_in(key), act),
        NameCall::List { how_many } => {
            serve_list(alloc, names, iterators, w, context_in(key), how_many)
        }
        NameCall::Iterator(call) => iterators.call(alloc, w, iterator_in(key), call),
        NameCall::IsA(id) => serve_is_a(kind_of(key), id),
        NameCall::NonExistent => truth(false),
    }
}

/// The number of a context.
fn context_in(key: NameKey) -> u32
    ensures { result ≡ context_in key }
{
    match key {
        NameKey::Context(number) => number,
        NameKey::Iterator(_) => 0,
    }
}

/// The number of an iterator.
fn iterator_in(key: NameKey) -> u64
    ensures { result ≡ iterator_in key }
{
    match key {
        NameKey::Context(_) => 0,
        NameKey::Iterator(number) => number,
    }
}

/// A call of a context, but for `list`.
fn serve_act<N: Names>(alloc: Global, names: &mut N, context: u32, act: NameAct) -> Answer
    ensures same { N.same names.old names.new }
    ensures acts { ActsTo N.others context act (N.view names.old) result (N.view names.new) }
{
    // So the reply of an accepted change fits: its host is short.
    let _home = names.home();
    let is_change = act.is_change();
    match names.act(alloc, context, act) {
        Ok(answer) => {
            let accepted = is_accepted(is_change, &answer);
            Answer {
                body: AnswerBody::Outcome(outcome_of(alloc, answer)),
                accepted,
            }
        }
        Err(_) => no_memory(),
    }
}

/// Whether an answer is that of an accepted change.
fn is_accepted(is_change: bool, answer: &NameAnswer) -> bool
    ensures { result ≡ (is_change && not (is_refusal answer.now)) }
{
    if is_change { is_done(answer) } else { false }
}

/// Whether a call was done.
fn is_done(answer: &NameAnswer) -> bool
    ensures { result ≡ not (is_refusal answer.now) }
{
    match answer {
        NameAnswer::Done(_) => true,
        NameAnswer::User(_) => false,
        NameAnswer::System(_) => false,
    }
}

/// `_is_a`: an object has its own interface and that of every object.
fn serve_is_a(kind: NameKind, id: Text) -> Answer
    ensures { TellsTruth (is_a kind id) result }
{
    let own = match kind {
        NameKind::Context => context_id(),
        NameKind::Iterator => iterator_id(),
    };
    let is = id.as_slice() == own || id.as_slice() == b"IDL:omg.org/CORBA/Object:1.0".as_slice();
    drop(id);
    truth(is)
}

fn truth(truth: bool) -> Answer
    ensures { TellsTruth truth result }
{
    plain(NameOutcome::Done(NameResult::Truth(truth)))
}
