//! What a session acts on: traders, peers and random words, as one value.

ghost use Rattle.std.specs.Prelude.{◌≡◌, ◌≤◌, ◌<◌, ◌^◌, List, length, IfErr, IfOk, IfSome};
ghost use Rattle.td_cdr.specs.Marks.{Marks};
ghost use Rattle.td_iter.specs.declared.limits.TheConstants.{REPLY_START};
ghost use Rattle.td_lookup.specs.Answering.{no_memory_entry};
ghost use Rattle.td_objects.specs.References.{IsAddress};
ghost use Rattle.td_register.specs.declared.history.Accepted.{Accepted};
ghost use Rattle.td_servant.specs.Classes.{IsOfClass, request_class};
ghost use Rattle.td_servant.specs.Judging.{IsServable, judge_request};
ghost use Rattle.td_servant.specs.Objects.{IsNamed, object_at};
ghost use Rattle.td_servant.specs.declared.judging.Judged.TheVariants as spelled;
ghost use Rattle.td_dispatch.specs.Backends.{BackendSeen, scene_of};
ghost use Rattle.td_dispatch.specs.Serving.{Invokes};

use std::alloc::Global;
use td_cdr::{Reader, Writer};
use td_iter::Desk;
use td_ops::Call;
use td_servant::{Answer, Entry, Judged, Object, RequestClass};
use td_walk::Address;

/// What a session acts on: traders, peers and random words, as one value. A Request is judged by it, its call is
/// answered, and what is noted where an answer is taken back is told.
pub trait Backend {
    /// What is seen of the traders and of the peers, and the random words to come.
    ghost seen: { Self → BackendSeen };

    /// What changes others may make between two calls.
    ghost others: { List Accepted → Type 0 };

    /// What others may make of the marks between two calls.
    ghost later: { Marks → Marks → Type 0 };

    /// It is the same value still, of the same traders, peers and words.
    ghost same: { Self → Self → Type 0 };

    /// The live object that these octets are the key of. The desk stays as it is. Takes no memory.
    fn find_object(&self, desk: &mut Desk, key: &[u8]) -> Option<Object>
        ensures found { result ≡ object_at (seen self.now).world desk.old key.now }
        ensures named { IfSome result (λ x. IsNamed (seen self.now).world x.trader) }
        ensures desk { desk.new ≡ desk.old };

    /// The call that a Request with this key, operation and body spells, or its refusal. The desk stays as it is.
    ///
    /// # Errors
    ///
    /// For running out of memory alone, to read the call: the class of the Request, by its key and its operation.
    fn judge(
        &self,
        alloc: Global,
        desk: &mut Desk,
        key: &[u8],
        operation: &[u8],
        body: &Reader,
    ) -> Result<Judged, RequestClass>
        ensures judged { IfOk result (λ j. j
            ≡ judge_request (seen self.now).world desk.old key.now operation.now body.now) }
        ensures servable { IfOk result (λ j. IsServable (seen self.now).world j) }
        ensures class { IfErr result (λ c. c
            ≡ request_class (seen self.now).world desk.old key.now operation.now) }
        ensures unread { IfErr result (λ c.
            IsOfClass c (judge_request (seen self.now).world desk.old key.now operation.now
            body.now)) }
        ensures desk { desk.new ≡ desk.old };

    /// What a call of an object comes to, by its class. The writer holds what stands before the body of a Reply with a
    /// result; the first batch of a list is appended, and the desk keeps the others.
    fn answer_call(
        &mut self,
        alloc: Global,
        home: &Address,
        desk: &mut Desk,
        w: &mut Writer,
        object: Object,
        call: Call,
    ) -> Answer
        requires servable { IsServable (seen self.old).world (spelled.Call object call) }
        requires home { IsAddress home.now }
        requires start { length w.old.bytes ≡ REPLY_START }
        requires numbers { desk.old.1 < 2 ^ 63 }
        ensures same { same self.old self.new }
        ensures invokes { Invokes others later home.now (spelled.Call object call) object.trader
            w.old (scene_of (seen self.old) desk.old) result.body result.entry w.new
            (scene_of (seen self.new) desk.new) };

    /// What is noted in place of an entry of this trader whose answer is taken back, since memory runs out for it.
    fn entry_at_no_memory(&self, trader: usize, entry: Entry) -> Entry
        requires { trader < length (seen self.now).world }
        ensures { result ≡ no_memory_entry (seen self.now).world trader entry };

    ghost same_itself: { (a : Self) → same a a };

    ghost same_on: { (a b c : Self) → same a b → same b c → same a c };

    /// The count of the peers' faults never falls.
    ghost faults_never_fall: { (a b : Self) → same a b → (seen a).peers.faults
        ≤ (seen b).peers.faults };
}
