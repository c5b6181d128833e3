//! The peers outside.

ghost use Rattle.std.specs.Prelude.{◌≡◌, ℕ, List, IfOk};
ghost use Rattle.td_typecode.specs.References.{reference};
ghost use Rattle.td_walk.specs.Peering.{Exchange, IsNoted, HasSmallOffers, Querying, Evaluating, RegisterOf};
ghost use Rattle.td_walk.specs.Peering.{Resolving, AdmitsExchanges, Answered, Evaluated, Referred};

use crate::answer::SubAnswer;
use crate::fault::PeerFault;
use std::alloc::Global;
use td_cdr::{Boxed, List, Text};
use td_ops::Query;
use td_value::{Any, Ior, TypeCode};

/// Peers outside, which are called one at a time.
pub trait Peers {
    /// The calls that were made, with what each gave, in order; one that ran out of memory isn't among them.
    ghost calls: { Self → List Exchange };

    /// How many faults there were. The count never falls, and stands still at 2^64 - 1.
    ghost faults: { Self → ℕ };

    /// They are the same peers still: of a borrow, that no others were put in their place.
    ghost same: { Self → Self → Type 0 };

    /// What a trader answers to a query; its iterator is drained. Each offer has at most 6 MiB.
    ///
    /// # Errors
    ///
    /// `Wire`, `Grammar` and `Exception` only where the count of faults rose; `Memory` when out of memory.
    fn query(&mut self, alloc: Global, target: &Ior, q: &Query) -> Result<SubAnswer, PeerFault>
        ensures same { same self.old self.new }
        ensures noted { IsNoted (λ a. Answered a) (Querying target.now q.now) (calls self.old)
            (calls self.new) (faults self.old) (faults self.new) result }
        ensures small { IfOk result (λ a. HasSmallOffers a) };

    /// What an evaluator gives for a dynamic property.
    ///
    /// # Errors
    ///
    /// As `query`.
    fn eval_dp(
        &mut self,
        alloc: Global,
        evaluator: &Ior,
        name: &Text,
        returned: &TypeCode,
        extra: &Any,
    ) -> Result<Boxed<Any>, PeerFault>
        ensures same { same self.old self.new }
        ensures noted { IsNoted (λ v. Evaluated v)
            (Evaluating evaluator.now name.now returned.now extra.now) (calls self.old)
            (calls self.new) (faults self.old) (faults self.new) result };

    /// The register that a Lookup names: a reference that can be written.
    ///
    /// # Errors
    ///
    /// As `query`.
    fn register_of(&mut self, alloc: Global, lookup: &Ior) -> Result<Ior, PeerFault>
        ensures same { same self.old self.new }
        ensures noted { IsNoted (λ r. Referred r) (RegisterOf lookup.now) (calls self.old)
            (calls self.new) (faults self.old) (faults self.new) result }
        ensures admitted { IfOk result (λ r. reference.format.admits r) };

    /// The register that links of these names lead to, one after the other, from a register on: a reference that can
    /// be written.
    ///
    /// # Errors
    ///
    /// As `query`.
    fn resolve(
        &mut self,
        alloc: Global,
        register: &Ior,
        name: &List<Text>,
    ) -> Result<Ior, PeerFault>
        ensures same { same self.old self.new }
        ensures noted { IsNoted (λ r. Referred r) (Resolving register.now name.now) (calls self.old)
            (calls self.new) (faults self.old) (faults self.new) result }
        ensures admitted { IfOk result (λ r. reference.format.admits r) };

    /// What the calls gave can be written, each of it. This call does nothing.
    fn tell_gifts(&self)
        ensures { AdmitsExchanges (calls self.now) };

    ghost same_self: { (a : Self) → same a a };

    ghost same_on: { (a b c : Self) → same a b → same b c → same a c };
}

impl<P: Peers> Peers for &mut P {
    ghost calls = { λ p. P.calls p.now };

    ghost faults = { λ p. P.faults p.now };

    ghost same = { λ a b. a.ghost_name ≡ b.ghost_name };

    ghost use Rattle.std.proofs.Common.{◌∙◌, refl};

    ghost same_self = { λ a. refl };

    ghost same_on = { λ a b c p q. p ∙ q };

    fn query(&mut self, alloc: Global, target: &Ior, q: &Query) -> Result<SubAnswer, PeerFault> {
        (**self).query(alloc, target, q)
    }

    fn eval_dp(
        &mut self,
        alloc: Global,
        evaluator: &Ior,
        name: &Text,
        returned: &TypeCode,
        extra: &Any,
    ) -> Result<Boxed<Any>, PeerFault> {
        (**self).eval_dp(alloc, evaluator, name, returned, extra)
    }

    fn register_of(&mut self, alloc: Global, lookup: &Ior) -> Result<Ior, PeerFault> {
        (**self).register_of(alloc, lookup)
    }

    fn resolve(
        &mut self,
        alloc: Global,
        register: &Ior,
        name: &List<Text>,
    ) -> Result<Ior, PeerFault> {
        (**self).resolve(alloc, register, name)
    }

    fn tell_gifts(&self) {
        (**self).tell_gifts();
    }
}
