//! A group of traders that one session has alone.

ghost use Rattle.std.proofs.Props.{props};
ghost use Rattle.std.specs.Prelude.{map};
ghost use Rattle.td_trader.specs.Solos.{AreDistinct, no_changes, nothing_admitted, solo_view, same_marks};
ghost use Rattle.td_trader.specs.Solos.{unchanged_later};

use crate::begin::Begin;
use crate::trader::Trader;
use crate::traders::Traders;
use td_cdr::{Memory, Shared, Text};
use td_ops::{Change, Look, Outcome, Query};

/// Traders that no one else calls. No two have one name.
#[derive(Drop)]
pub struct Solo {
    pub traders: Vec<Trader>,
    pub ghost distinct: { AreDistinct traders.items } by { Prim.hlevel props },
}

impl Traders for Solo {
    ghost world = { λ s. map solo_view s.traders.items };

    ghost others = { no_changes };

    ghost later = { same_marks };

    ghost same = { λ a b. Unit {0} };

    fn count(&self) -> usize {
        self.traders.len()
    }

    fn name(&self, trader: usize) -> &Text {
        self.traders[trader].name()
    }

    fn change(&mut self, trader: usize, c: Change) -> Result<Outcome, Memory> {
        self.traders[trader].change(c)
    }

    fn look(&mut self, trader: usize, l: &Look) -> Result<(Outcome, u32), Memory> {
        self.traders[trader].look(l)
    }

    fn begin(&mut self, trader: usize, q: &Shared<Query>) -> Result<Begin, Memory> {
        self.traders[trader].begin(q)
    }

    fn point(&self, trader: usize) -> u64 {
        self.traders[trader].point()
    }

    ghost same_itself = { λ a. tt };

    ghost same_on = { λ a b c p q. tt };

    ghost others_admitted = { nothing_admitted };

    ghost later_marks = { unchanged_later };
}
