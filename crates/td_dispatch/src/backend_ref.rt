//! Borrowed traders, peers and random words, as one value to act on.

ghost use Rattle.std.specs.Prelude.{◌≡◌, ◌≤◌};
ghost use Rattle.td_servant.specs.Linking.{peers_seen};
ghost use Rattle.td_dispatch.specs.Backends.{backend_seen};
ghost use Rattle.td_dispatch.specs.Requests.{number_in};
ghost use Rattle.td_dispatch.specs.Serving.{OrNoMemory};

use crate::backend::Backend;
use std::alloc::Global;
use td_cdr::{Memory, Reader, Writer};
use td_iter::Desk;
use td_lookup::{LookupQuery, answer_query, answer_resolve, entry_at_no_memory};
use td_ops::Call;
use td_out::Words;
use td_servant::{
    Answer, Entry, Judged, Object, RequestClass, answer_add_link, answer_change, answer_is_a,
    answer_iterator, answer_look, answer_non_existent, find_object, judge, no_memory_answer,
};
use td_trader::Traders;
use td_value::Kind;
use td_walk::{Address, Peers};

/// Borrowed traders, peers and random words, to act on together.
#[derive(Drop)]
pub struct BackendRef<'t, 'p, 'w, T, P, W> {
    pub traders: &'t mut T,
    pub peers: &'p mut P,
    pub words: &'w mut W,
}

impl<'t, 'p, 'w, T: Traders, P: Peers, W: Words> Backend for BackendRef<'t, 'p, 'w, T, P, W> {
    ghost seen = { λ b. backend_seen (T.world b.traders.now)
        (peers_seen (P.calls b.peers.now) (P.faults b.peers.now)) (W.word b.words.now) };

    ghost others = { T.others };

    ghost later = { T.later };

    ghost same = { λ a b. (b.traders.ghost_name ≡ a.traders.ghost_name)
        × (b.peers.ghost_name ≡ a.peers.ghost_name) × (b.words.ghost_name ≡ a.words.ghost_name)
        × T.same a.traders.now b.traders.now × P.same a.peers.now b.peers.now
        × W.same a.words.now b.words.now × (P.faults a.peers.now ≤ P.faults b.peers.now) };

    fn find_object(&self, desk: &mut Desk, key: &[u8]) -> Option<Object> {
        find_object(self.traders, desk, key)
    }

    fn judge(
        &self,
        alloc: Global,
        desk: &mut Desk,
        key: &[u8],
        operation: &[u8],
        body: &Reader,
    ) -> Result<Judged, RequestClass> {
        judge(alloc, self.traders, desk, key, operation, body)
    }

    // A look and a query are dropped by a call: their drops, written out here, are dear to prove.
    fn answer_call(
        &mut self,
        alloc: Global,
        home: &Address,
        desk: &mut Desk,
        w: &mut Writer,
        object: Object,
        call: Call,
    ) -> Answer {
        let trader = object.trader;
        match call {
            Call::Change(c) => or_no_memory(answer_change(self.traders, trader, c)),
            Call::Look(look) => {
                let content = answer_look(alloc, self.traders, home, trader, &look, desk, w);
                drop(look);
                or_no_memory(content)
            }
            Call::AddLink(link) => {
                or_no_memory(answer_add_link(alloc, self.traders, home, trader, link, self.peers))
            }
            Call::Iter(iter) => {
                let name = self.traders.name(trader);
                let number = number_in(object.kind);
                or_no_memory(answer_iterator(alloc, desk, name, number, &iter, w))
            }
            Call::IsA(id) => answer_is_a(object.interface, id.as_slice()),
            Call::NonExistent => answer_non_existent(),
            Call::Query(query) => {
                let asked = LookupQuery {
                    home,
                    trader,
                    query: &query,
                };
                let content = answer_query(
                    alloc,
                    self.traders,
                    asked,
                    desk,
                    self.peers,
                    self.words,
                    w,
                );
                drop(query);
                content
            }
            Call::Resolve(names) => {
                answer_resolve(alloc, self.traders, home, trader, &names, self.peers)
            }
        }
    }

    fn entry_at_no_memory(&self, trader: usize, entry: Entry) -> Entry {
        entry_at_no_memory(self.traders, trader, entry)
    }

    ghost use Rattle.std.proofs.Common.{refl, ◌∙◌};
    ghost use Rattle.std.proofs.Math.Nat.{le_refl, le_trans};

    ghost same_itself = { λ a.
        (refl, refl, refl, T.same_itself _, P.same_self _, W.same_self _, le_refl _) };

    ghost same_on = { λ a b c p q. (
      q.0 ∙ p.0,
      q.1 ∙ p.1,
      q.2 ∙ p.2,
      T.same_on _ _ _ p.3 q.3,
      P.same_on _ _ _ p.4 q.4,
      W.same_on _ _ _ p.5 q.5,
      le_trans p.6 q.6,
    ) };

    ghost faults_never_fall = { λ a b p. p.6 };
}

/// NO_MEMORY in place of a missing answer.
fn or_no_memory(answer: Result<Answer, Memory>) -> Answer
    ensures { OrNoMemory answer result }
{
    match answer {
        Ok(answer) => answer,
        Err(_) => no_memory_answer(),
    }
}

/// The number of an iterator.
fn number_in(kind: Kind) -> u64
    ensures { result ≡ number_in kind }
{
    match kind {
        Kind::Iterator(number) => number,
        Kind::Lookup => 0,
        Kind::Register => 0,
        Kind::Link => 0,
        Kind::Proxy => 0,
        Kind::Admin => 0,
        Kind::Types => 0,
    }
}
