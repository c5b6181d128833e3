//! A queue of which the first element is taken away and put back.

ghost use Rattle.std.specs.Prelude.{◌≡◌, [], ◌∷◌, true, cond, reverse, OnOk, MatchOption};

use std::alloc::Global;
use std::marker::Model;
use td_cdr::{List, Memory};

/// A queue that contracts see as the list of its elements. From the first that is taken away on the last element stands
/// first, so that no other one moves when the first is taken away.
#[derive(Drop)]
pub(crate) struct Queue<T> {
    items: Vec<T>,
    /// The last element stands first.
    reversed: bool,
}

impl<T> Model for Queue<T> {
    ghost use Rattle.std.specs.Prelude.{List as Row, cond, reverse};
    ghost use Rattle.std.specs.Coded.{coded_list};

    ghost Value = { Row T };

    ghost coded = { coded_list T.code };

    ghost view = { λ q. cond q.reversed (reverse q.items.items) q.items.items };
}

/// The same elements, the last one first.
#[tactic(auto, using(crate::proofs::Reversed::twice))]
fn put_last_first<T>(items: &mut Vec<T>, reversed: &mut bool)
    ensures reversed { reversed.new ≡ true }
    ensures same { reverse items.new.items
        ≡ cond reversed.old (reverse items.old.items) items.old.items }
{
    if !*reversed {
        items.reverse();
        *reversed = true;
    }
}

impl<T> Queue<T> {
    /// The empty queue, which takes no memory.
    pub(crate) fn new(alloc: Global) -> Queue<T>
        ensures { result ≡ [] }
    {
        Queue {
            items: Vec::new(alloc),
            reversed: false,
        }
    }

    /// The elements of a list, in order. Takes no memory.
    pub(crate) fn from_list(items: List<T>) -> Queue<T>
        ensures { result ≡ items }
    {
        Queue {
            items: items.into_vec(),
            reversed: false,
        }
    }

    /// The elements, in order. Takes no memory.
    pub(crate) fn into_list(self) -> List<T>
        ensures { result ≡ self }
    {
        let Queue { items, reversed } = self;
        if !reversed {
            return List::from_vec(items);
        }
        let mut items = items;
        items.reverse();
        List::from_vec(items)
    }

    /// Takes the first element away.
    #[tactic(auto, using(crate::proofs::Reversed::last_first))]
    pub(crate) fn pop_front(&mut self) -> Option<T>
        ensures { MatchOption result ((self.old ≡ []) × (self.new ≡ []))
            (λ first. self.old ≡ first ∷ self.new) }
    {
        put_last_first(&mut self.items, &mut self.reversed);
        self.items.pop()
    }
}

impl<T: Drop> Queue<T> {
    /// Puts an element in front.
    ///
    /// # Errors
    ///
    /// `Memory` only when out of memory; the element is then dropped.
    #[tactic(auto, using(crate::proofs::Reversed::last_first))]
    pub(crate) fn push_front(&mut self, first: T) -> Result<(), Memory>
        ensures { OnOk result (self.new ≡ first ∷ self.old) }
    {
        put_last_first(&mut self.items, &mut self.reversed);
        self.items.push(first)?;
        Ok(())
    }
}
