//! A servant whose replies tell their messages' numbers, and when the client had what was before.

ghost use Rattle.std.specs.Prelude.{};

use crate::outside::Got;
use std::alloc::Global;
use std::cell::Cell;
use td_cdr::Memory;
use td_giop::Raw;
use td_stream::{Head, SendsHeld, Servant};

/// What a servant does.
#[derive(Clone, Copy)]
pub struct Plan {
    /// How long each reply is.
    pub size: usize,
    /// How many messages it has memory for.
    pub most: u8,
    /// Whether what is held is sent before it answers, as before a call of a peer.
    pub sends: bool,
    /// How many bytes the client must have for each message that was answered.
    pub least: usize,
}

/// Answers the message k with k, again and again, or with 0 where the client lacks replies that were before.
#[derive(Drop)]
pub struct Counting<'c> {
    got: &'c Cell<Got>,
    plan: Plan,
    answered: u8,
    reply: Vec<u8>,
}

impl<'c> Counting<'c> {
    /// A servant that has answered nothing.
    pub fn new(alloc: Global, got: &'c Cell<Got>, plan: Plan) -> Counting<'c> {
        Counting {
            got,
            plan,
            answered: 0,
            reply: Vec::new(alloc),
        }
    }

    /// How many messages it has answered.
    pub fn count_answered(&self) -> u8 {
        self.answered
    }
}

impl<'c> Servant for Counting<'c> {
    ghost use Rattle.std.proofs.Common.{arith};

    ghost serves = { λ _ _ _ _. Unit {0} };

    ghost stays = { λ _ _. Unit {0} };

    ghost same = { λ _ _. Unit {0} };

    ghost content = { λ s. s.reply.items };

    ghost budget = { λ _. 0 };

    ghost spends = { λ _ _ _ _ _. Prim.search arith };

    ghost stays_itself = { λ _. tt };

    ghost same_itself = { λ _. tt };

    ghost same_on = { λ _ _ _ _ _. tt };

    fn answer<G: SendsHeld>(
        &mut self,
        _alloc: Global,
        _message: &Raw<'_>,
        _head: &Head<'_>,
        held: &mut G,
    ) -> Result<(), Memory> {
        if self.answered >= self.plan.most {
            return Err(Memory);
        }
        if self.plan.sends {
            held.send_held();
        }
        let least = self.plan.least.saturating_mul(self.answered as usize);
        self.answered = self.answered.saturating_add(1);
        let content = if self.got.get().bytes < least {
            0
        } else {
            self.answered
        };
        self.reply.clear();
        fill(&mut self.reply, content, self.plan.size)
    }

    fn reply(&self) -> &[u8] {
        &self.reply
    }
}

/// Puts an octet behind the others, so many times.
///
/// # Errors
///
/// `Memory` when out of memory.
pub fn fill(all: &mut Vec<u8>, octet: u8, size: usize) -> Result<(), Memory> {
    for _ in 0..size {
        all.push(octet)?;
    }
    Ok(())
}
