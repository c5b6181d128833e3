//! The ring of identifiers, and the map beside it by which they are found.

ghost use Rattle.std.specs.Prelude.{◌≡◌, ◌+◌, ◌<◌, ◌≤◌, ◌^◌, [], ◌∷◌, ◌++◌, length, None, IfOk, OnOk, OnErr};
ghost use Rattle.std.specs.Map.{lookup};
ghost use Rattle.circular_buffer.specs.Buffer.{buffer, keep_last};
ghost use Rattle.td_cdr.specs.Marks.{IsMarkedFrom, remembered, add_mark};
ghost use Rattle.td_marks.specs.Keeping.{most_kept, no_marks, is_key, AddsIdentifier, Forgets, AreRingMarks};
ghost use Rattle.td_marks.specs.Making.{next_value, made_from};

use crate::made::{Made, make};
use circular_buffer::HeapCircularBuffer;
use indexmap::IndexMap;
use std::alloc::Global;
use std::marker::Model;
use td_cdr::{Memory, Octets};

/// The identifiers that a trader remembers, each with the number of its mark. Whether one is
/// remembered is found by the map, without passing over the others.
#[derive(Drop)]
pub struct Ring {
    /// How many marks were made.
    count: u64,
    /// From which value on identifiers are made.
    counter: u64,
    /// The identifiers of the last marks, the oldest first.
    last: HeapCircularBuffer<Octets>,
    /// The same identifiers, each with the number of its mark.
    numbers: IndexMap<Vec<u8>, u64>,
}

impl Model for Ring {
    ghost use Rattle.td_cdr.specs.Marks.{Marks};
    ghost use Rattle.td_marks.specs.Keeping.{marks_of, IsTied};

    ghost Value = { Marks };

    ghost view = { λ r. marks_of r.count r.counter r.last };

    ghost invariant = { λ r. IsTied r.count r.counter r.last r.numbers.entries };
}

impl Ring {
    /// A ring with room for so many identifiers, of which none was marked.
    ///
    /// # Errors
    ///
    /// `Memory` only when out of memory.
    pub fn new(alloc: Global, size: u32) -> Result<Ring, Memory>
        requires some { 0 < size }
        requires most { size ≤ most_kept }
        ensures { IfOk result (λ ring. ring ≡ no_marks size) }
    {
        Ok(Ring {
            count: 0,
            counter: 0,
            last: HeapCircularBuffer::with_capacity(alloc, size as usize)?,
            numbers: IndexMap::new(alloc),
        })
    }

    /// How many marks were made.
    pub fn count(&self) -> u64
        ensures { result ≡ self.now.count }
    {
        self.count
    }

    /// From which value on identifiers are made.
    pub fn counter(&self) -> u64
        ensures { result ≡ self.now.counter }
    {
        self.counter
    }

    /// For how many identifiers there is room.
    pub fn size(&self) -> u32
        ensures { result ≡ self.now.ring }
    {
        self.last.capacity() as u32
    }

    /// How many identifiers are remembered.
    pub fn len(&self) -> u32
        ensures { result ≡ length self.now.kept }
    {
        self.last.len() as u32
    }

    /// What holds of the marks of every ring. This call does nothing.
    pub fn keeps(&self)
        ensures { AreRingMarks self.now }
    {
        let _ = &self.count;
    }

    /// The number of the mark under which an identifier is remembered. Takes no memory.
    pub fn remembered(&self, identifier: &[u8]) -> Option<u64>
        ensures { result ≡ remembered self.now identifier.now }
    {
        self.numbers.get(identifier).copied()
    }

    /// The identifier for a query that states none: the stem, and the least value from the counter
    /// on whose identifier isn't remembered. The ring is unchanged until this identifier is marked.
    ///
    /// # Errors
    ///
    /// `Memory` only when out of memory.
    pub fn make(&self, alloc: Global, stem: &[u8]) -> Result<Made, Memory>
        requires { self.now.count ≤ 2 ^ 40 }
        ensures made { IfOk result (λ made. made
            ≡ made_from stem.now (next_value self.now stem.now)) }
        ensures fresh { IfOk result (λ made. remembered self.now made.identifier ≡ None) }
        ensures up { IfOk result (λ made. self.now.counter < made.counter) }
        ensures near { IfOk result (λ made. made.counter ≤ self.now.counter + most_kept + 1) }
    {
        self.keeps();
        let start = self.counter();
        let end = start + self.len() as u64;
        for value in start..end {
            let made = make(alloc, stem, value)?;
            if self.remembered(made.identifier.as_slice()).is_none() {
                return Ok(made);
            }
        }
        make(alloc, stem, end)
    }

    /// Marks an identifier that isn't remembered, and gives the number of its mark. Where there is
    /// no room for one more the oldest is forgotten. The counter is then the one that is handed in:
    /// that of the made identifier, or `counter()` where the query states its identifier.
    ///
    /// # Errors
    ///
    /// `Memory` only when out of memory; the ring is then unchanged.
    pub fn mark(&mut self, alloc: Global, identifier: &[u8], counter: u64) -> Result<u64, Memory>
        requires fresh { remembered self.old identifier.now ≡ None }
        requires up { self.old.counter ≤ counter }
        requires near { counter ≤ self.old.counter + most_kept + 1 }
        requires few { self.old.count < 2 ^ 40 }
        ensures number { IfOk result (λ number. number ≡ self.old.count + 1) }
        ensures marked { OnOk result (self.new ≡ add_mark self.old identifier.now counter) }
        ensures follows { OnOk result (IsMarkedFrom self.old self.new) }
        ensures unchanged { OnErr result (self.new ≡ self.old) }
    {
        let copied = Octets::from_slice(alloc, identifier)?;
        let number = self.count + 1;
        enter(alloc, &mut self.numbers, identifier, number)?;
        keep(&mut self.last, &mut self.numbers, copied);
        self.count = number;
        self.counter = counter;
        Ok(number)
    }
}

/// Enters an identifier that the map doesn't find.
///
/// # Errors
///
/// `Memory` only when out of memory; the map is then unchanged.
fn enter(
    alloc: Global,
    numbers: &mut IndexMap<Vec<u8>, u64>,
    identifier: &[u8],
    number: u64,
) -> Result<(), Memory>
    requires fresh { lookup (is_key identifier.now) numbers.old.entries ≡ None }
    ensures entered { OnOk result
        (AddsIdentifier numbers.old.entries identifier.now number numbers.new.entries) }
    ensures unchanged { OnErr result (numbers.new.entries ≡ numbers.old.entries) }
{
    let key = Vec::from_slice(alloc, identifier)?;
    let _ = numbers.insert(key, number)?;
    Ok(())
}

/// Puts an identifier behind the others. Where there is no room for it the oldest goes, and the map
/// doesn't find that one any more. Takes no memory.
fn keep(
    last: &mut HeapCircularBuffer<Octets>,
    numbers: &mut IndexMap<Vec<u8>, u64>,
    identifier: Octets,
)
    ensures kept { last.new
        ≡ buffer (keep_last last.old.capacity (last.old.items ++ identifier ∷ []))
        last.old.capacity }
    ensures forgets { Forgets (buffer (last.old.items ++ identifier ∷ []) last.old.capacity)
        numbers.old.entries numbers.new.entries }
{
    match last.push_back(identifier) {
        None => (),
        Some(oldest) => {
            let _ = numbers.swap_remove(oldest.as_slice());
        }
    }
}
