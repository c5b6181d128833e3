//! A group of traders, as those who call them see it.

ghost use Rattle.std.specs.Prelude.{◌≡◌, ◌<◌, List, length, map, IfOk, OnErr};
ghost use Rattle.std.specs.List.{IsDistinct};
ghost use Rattle.std.specs.Str.{bytes_eq};
ghost use Rattle.td_cdr.specs.Marks.{Later, Marks};
ghost use Rattle.td_trader.specs.Admitted.{AdmitsChange, AreAdmitted};
ghost use Rattle.td_trader.specs.Worlds.{AdmittedAt, BeginsQuery, ChangesTrader, LegalAt, LooksAtTrader, View, Watches};
ghost use Rattle.td_trader.specs.Worlds.{history_at, name_at};
ghost use Rattle.td_register.specs.declared.history.Accepted.{Accepted};

use crate::begin::Begin;
use td_cdr::{Memory, Shared, Text};
use td_ops::{Change, Look, Outcome, Query};

/// Traders by their numbers, counted from 0. Others may call them too, between two calls of one who holds
/// such a value; each call is answered at what is seen after it, which extends what was seen before.
pub trait Traders {
    /// What is seen of each trader, and what was done through this value.
    ghost world: { Self → List View };

    /// What changes others may make between two calls: such whose values can be written, as `others_admitted` says.
    ghost others: { List Accepted → Type 0 };

    /// What others may make of the marks between two calls: later marks, as `later_marks` says.
    ghost later: { Marks → Marks → Type 0 };

    /// It is the same value still, of the same traders.
    ghost same: { Self → Self → Type 0 };

    /// How many traders there are. No two have one name.
    fn count(&self) -> usize
        ensures count { result ≡ length (world self.now) }
        ensures distinct { IsDistinct bytes_eq (map (λ (v : View). v.name) (world self.now)) };

    /// A trader's name.
    fn name(&self, trader: usize) -> &Text
        requires { trader < length (world self.now) }
        ensures { result.now ≡ name_at (world self.now) trader };

    /// What a change comes to.
    ///
    /// # Errors
    ///
    /// `Memory` only when out of memory; the change isn't made then.
    fn change(&mut self, trader: usize, c: Change) -> Result<Outcome, Memory>
        requires trader { trader < length (world self.old) }
        // Its values can be written, as those of a call that was read.
        requires admitted { AdmitsChange c }
        ensures same { same self.old self.new }
        ensures ok { IfOk result
            (λ o. ChangesTrader others later (world self.old) trader c o (world self.new)) }
        ensures err { OnErr result
            (Watches others later (world self.old) trader (world self.new)) };

    /// What a look is answered with, and the trader's max_list.
    ///
    /// # Errors
    ///
    /// `Memory` only when out of memory.
    fn look(&mut self, trader: usize, l: &Look) -> Result<(Outcome, u32), Memory>
        requires { trader < length (world self.old) }
        ensures same { same self.old self.new }
        ensures ok { IfOk result
            (λ a. LooksAtTrader others later (world self.old) trader l.now a (world self.new)) }
        ensures err { OnErr result
            (Watches others later (world self.old) trader (world self.new)) };

    /// How a query begins at a trader. Where it is searched there it is marked.
    ///
    /// # Errors
    ///
    /// `Memory` only when out of memory; nothing is marked then.
    fn begin(&mut self, trader: usize, q: &Shared<Query>) -> Result<Begin, Memory>
        requires { trader < length (world self.old) }
        ensures same { same self.old self.new }
        ensures ok { IfOk result
            (λ b. BeginsQuery others later (world self.old) trader q.now b (world self.new)) }
        ensures err { OnErr result
            (Watches others later (world self.old) trader (world self.new)) };

    /// How many changes are seen. Takes no memory.
    fn point(&self, trader: usize) -> u64
        requires { trader < length (world self.now) }
        ensures point { result ≡ length (history_at (world self.now) trader) }
        ensures legal { LegalAt (world self.now) trader }
        ensures admitted { AdmittedAt (world self.now) trader };

    ghost others_admitted: { (between : List Accepted) → others between → AreAdmitted between };

    ghost same_itself: { (a : Self) → same a a };

    ghost same_on: { (a b c : Self) → same a b → same b c → same a c };

    ghost later_marks: { (a b : Marks) → later a b → Later a b };
}
