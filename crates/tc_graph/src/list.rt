//! A vector that contracts see as the list of its elements.

ghost use Rattle.std.specs.Prelude.{◌≡◌, ◌<◌, [], ◌∷◌, ◌++◌, length, IfOk, IfErr, OnOk, OnErr, OnSome};
ghost use Rattle.std.specs.Prelude.{slice_get, option_copied};

use crate::fault::GraphFault;
use std::alloc::Global;
use std::marker::Model;

/// A list. It is made from a `Vec` and gives it back without taking memory, and contracts see it as its
/// elements alone, so that a copy is equal to its original.
#[derive(Debug)]
pub struct List<T> {
    items: Vec<T>,
}

// By hand, since a derived drop is written out at each exit, and proved again in each crate above.
impl<T: Drop> Drop for List<T> {
    fn drop(self) {
        let List { items: _items } = self;
    }
}

impl<T> Model for List<T> {
    ghost use Rattle.std.specs.Prelude.{List as Row};
    ghost use Rattle.std.specs.Coded.{coded_list};

    ghost Value = { Row T };

    ghost coded = { coded_list T.code };

    ghost view = { λ l. l.items.items };
}

impl<T> List<T> {
    /// The empty list, which takes no memory.
    pub fn new(alloc: Global) -> List<T>
        ensures { result ≡ [] }
    {
        List {
            items: Vec::new(alloc),
        }
    }

    /// The elements of a `Vec`, in order.
    pub fn from_vec(items: Vec<T>) -> List<T>
        ensures { result ≡ items.items }
    {
        List { items }
    }

    /// The `Vec` that holds the elements.
    pub fn into_vec(self) -> Vec<T>
        ensures { result.items ≡ self }
    {
        let List { items } = self;
        items
    }

    /// How many elements there are.
    pub fn len(&self) -> usize
        ensures { result ≡ length self.now }
    {
        self.items.len()
    }

    /// The elements in order.
    pub fn as_slice(&self) -> &[T]
        ensures { result.now ≡ self.now }
    {
        self.items.as_slice()
    }

    /// The element at an index, counted from 0.
    pub fn get(&self, index: usize) -> Option<&T>
        ensures value { option_copied result ≡ slice_get self.now index }
        ensures within { OnSome result (index < length self.now) }
    {
        self.items.get(index)
    }
}

impl<T: Drop> List<T> {
    /// Adds an element at the end.
    ///
    /// # Errors
    ///
    /// `Memory` only when out of memory; the list is then unchanged, and the element dropped.
    pub fn push(&mut self, item: T) -> Result<(), GraphFault>
        ensures ok { OnOk result (self.new ≡ self.old ++ item ∷ []) }
        ensures err { OnErr result (self.new ≡ self.old) }
        ensures fault { IfErr result (λ e. e ≡ GraphFault.Memory) }
    {
        self.items.push(item)?;
        Ok(())
    }
}

impl<T: Copy> List<T> {
    /// A list of the slice's elements.
    ///
    /// # Errors
    ///
    /// `Memory` only when out of memory.
    pub fn from_slice(alloc: Global, items: &[T]) -> Result<List<T>, GraphFault>
        ensures value { IfOk result (λ l. l ≡ items.now) }
        ensures err { IfErr result (λ e. e ≡ GraphFault.Memory) }
    {
        let items = Vec::from_slice(alloc, items)?;
        Ok(List { items })
    }
}
