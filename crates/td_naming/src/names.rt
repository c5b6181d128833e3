//! A naming store, as one of those who call it sees it.

ghost use Rattle.std.specs.Prelude.{◌≡◌, List, length, IfOk, OnErr};
ghost use Rattle.td_names.specs.References.{IsAddress};
ghost use Rattle.td_naming.specs.Histories.{Legal};
ghost use Rattle.td_naming.specs.Views.{NamingActs, LooksAtContext, Meanwhile, View};
ghost use Rattle.td_naming.specs.declared.history.NameChange.{NameChange};

use std::alloc::Global;
use td_cdr::Memory;
use td_names::{Address, NameAct, NameAnswer};

/// Naming contexts. Others may call them too, between two calls of one who holds such a value; each call is answered at
/// what is seen after it, which extends what was seen before.
pub trait Names {
    /// What is seen, and what was done through this value.
    ghost view: { Self → View };

    /// What changes others may make between two calls.
    ghost others: { List NameChange → Type 0 };

    /// It is the same value still, of the same contexts.
    ghost same: { Self → Self → Type 0 };

    /// What a call of a context comes to.
    ///
    /// # Errors
    ///
    /// `Memory` only when out of memory; nothing was done then.
    fn act(&mut self, alloc: Global, context: u32, act: NameAct) -> Result<NameAnswer, Memory>
        ensures same { same self.old self.new }
        ensures ok { IfOk result (λ r. NamingActs others (view self.old) context act r
            (view self.new)) }
        ensures err { OnErr result (Meanwhile others (view self.old) (view self.new)) };

    /// Whether the context of a number is live. Takes no memory.
    fn live(&mut self, context: u32) -> bool
        ensures same { same self.old self.new }
        ensures live { LooksAtContext others (view self.old) context result (view self.new) };

    /// How many changes are seen. Takes no memory.
    fn point(&self) -> u64
        ensures point { result ≡ length (view self.now).history }
        ensures legal { Legal (view self.now).home (view self.now).history };

    /// Where the server listens, whose host and port its references have.
    fn home(&self) -> &Address
        ensures home { result.now ≡ (view self.now).home }
        ensures address { IsAddress result.now };

    ghost same_itself: { (a : Self) → same a a };

    ghost same_on: { (a b c : Self) → same a b → same b c → same a c };
}
