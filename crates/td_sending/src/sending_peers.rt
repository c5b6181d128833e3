//! Peers, with what is sent before they are called.

ghost use Rattle.std.specs.Prelude.{◌≡◌};
ghost use Rattle.std.proofs.Common.{◌∙◌, refl};

use std::alloc::Global;
use td_cdr::{Boxed, List, Text};
use td_ops::Query;
use td_stream::SendsHeld;
use td_value::{Any, Ior, TypeCode};
use td_walk::{PeerFault, Peers, SubAnswer};

/// Peers, and the replies that are held. Each call of a peer sends what is held before.
pub struct SendingPeers<'p, 'h, P, G> {
    pub peers: &'p mut P,
    pub held: &'h mut G,
}

impl<'p, 'h, P: Peers, G: SendsHeld> SendingPeers<'p, 'h, P, G> {
    ghost use Rattle.std.specs.Prelude.{◌≡◌};

    /// Sends what is held.
    fn send(&mut self)
        ensures peers { self.new.peers ≡ self.old.peers }
        ensures same_held { self.new.held.ghost_name ≡ self.old.held.ghost_name }
        ensures reaches { G.reaches self.old.held.now self.new.held.now }
        ensures sent { G.sent self.new.held.now }
    {
        self.held.send_held();
    }
}

impl<'p, 'h, P: Peers, G: SendsHeld> Peers for SendingPeers<'p, 'h, P, G> {
    ghost calls = { λ s. P.calls s.peers.now };

    ghost faults = { λ s. P.faults s.peers.now };

    ghost same = { λ a b. (a.peers.ghost_name ≡ b.peers.ghost_name)
        × (a.held.ghost_name ≡ b.held.ghost_name)
        × P.same a.peers.now b.peers.now × G.reaches a.held.now b.held.now };

    ghost same_self = { λ a. (refl, refl, P.same_self a.peers.now, G.reaches_itself a.held.now) };

    ghost same_on = { λ a b c p q. (
      p.0 ∙ q.0,
      p.1 ∙ q.1,
      P.same_on a.peers.now b.peers.now c.peers.now p.2 q.2,
      G.reaches_on a.held.now b.held.now c.held.now p.3 q.3,
    ) };

    fn query(&mut self, alloc: Global, target: &Ior, q: &Query) -> Result<SubAnswer, PeerFault> {
        self.send();
        expect_sent(self.held);
        self.peers.query(alloc, target, q)
    }

    fn eval_dp(
        &mut self,
        alloc: Global,
        evaluator: &Ior,
        name: &Text,
        returned: &TypeCode,
        extra: &Any,
    ) -> Result<Boxed<Any>, PeerFault> {
        self.send();
        expect_sent(self.held);
        self.peers.eval_dp(alloc, evaluator, name, returned, extra)
    }

    fn register_of(&mut self, alloc: Global, lookup: &Ior) -> Result<Ior, PeerFault> {
        self.send();
        expect_sent(self.held);
        self.peers.register_of(alloc, lookup)
    }

    fn resolve(
        &mut self,
        alloc: Global,
        register: &Ior,
        name: &List<Text>,
    ) -> Result<Ior, PeerFault> {
        self.send();
        expect_sent(self.held);
        self.peers.resolve(alloc, register, name)
    }

    fn tell_gifts(&self) {
        (*self.peers).tell_gifts();
    }
}

/// Does nothing: that it is called shows that nothing is held here, unless a send has failed.
fn expect_sent<G: SendsHeld>(_held: &G)
    requires { G.sent _held.now }
{}
