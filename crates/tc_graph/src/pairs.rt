//! A list of pairs of places in which no pair stands twice.

ghost use Rattle.std.specs.Prelude.{◌≡◌, ◌<◌, ◌≤◌, ◌*◌, [], length, IfOk, IfErr, OnOk};
ghost use Rattle.tc_graph.specs.Nodes.{most_nodes};
ghost use Rattle.tc_graph.specs.Pairs.{pair_at, Has, IsPrefix, AddsOnly};

use crate::fault::GraphFault;
use std::alloc::Global;
use std::marker::Model;

/// A place of one graph and a place of another. Two bytes hold a place, since a graph has at most 4,096.
#[derive(Clone, Copy)]
pub(crate) struct Pair {
    pub(crate) left: u16,
    pub(crate) right: u16,
}

/// Pairs of places, each once, in the order in which they came.
#[derive(Drop)]
pub(crate) struct Pairs {
    rows: usize,
    columns: usize,
    /// A row of cells for each place on the left: whether its pair with each place on the right is
    /// listed. They take a byte each.
    cells: Vec<bool>,
    pairs: Vec<Pair>,
}

impl Model for Pairs {
    ghost use Rattle.std.specs.Prelude.{◌≤◌};
    ghost use Rattle.tc_graph.specs.Nodes.{most_nodes};
    ghost use Rattle.tc_graph.specs.Pairs.{PairTable, IsMarked};

    ghost Value = { PairTable };

    ghost view = { λ t. record { rows = t.rows; columns = t.columns; pairs = t.pairs.items } };

    ghost invariant = { λ t. (t.rows ≤ most_nodes) × (t.columns ≤ most_nodes)
        × IsMarked t.rows t.columns t.cells.items t.pairs.items };
}

impl Pairs {
    /// No pairs, of so many places on the left and on the right.
    ///
    /// # Errors
    ///
    /// `Memory` only when out of memory.
    pub(crate) fn new(alloc: Global, rows: usize, columns: usize) -> Result<Pairs, GraphFault>
        requires rows { rows ≤ most_nodes }
        requires columns { columns ≤ most_nodes }
        ensures value { IfOk result (λ t. t
            ≡ record { rows = rows; columns = columns; pairs = [] }) }
        ensures err { IfErr result (λ e. e ≡ GraphFault.Memory) }
    {
        let cells = vec![in alloc; false; rows * columns]?;
        Ok(Pairs {
            rows,
            columns,
            cells,
            pairs: Vec::new(alloc),
        })
    }

    /// How many pairs there are.
    pub(crate) fn len(&self) -> usize
        ensures value { result ≡ length self.now.pairs }
        ensures most { result ≤ self.now.rows * self.now.columns }
    {
        self.pairs.len()
    }

    /// The pair at an index, counted from 0.
    pub(crate) fn get(&self, index: usize) -> Pair
        requires { index < length self.now.pairs }
        ensures value { result ≡ pair_at self.now.pairs index }
        ensures left { result.left < self.now.rows }
        ensures right { result.right < self.now.columns }
    {
        self.pairs[index]
    }

    /// Adds a pair at the end, unless it is there.
    ///
    /// # Errors
    ///
    /// `Memory` only when out of memory.
    pub(crate) fn insert(&mut self, pair: Pair) -> Result<(), GraphFault>
        requires left { pair.left < self.old.rows }
        requires right { pair.right < self.old.columns }
        ensures rows { self.new.rows ≡ self.old.rows }
        ensures columns { self.new.columns ≡ self.old.columns }
        ensures here { OnOk result (Has self.new.pairs pair.left pair.right) }
        ensures front { OnOk result (IsPrefix self.old.pairs self.new.pairs) }
        ensures only { OnOk result (AddsOnly pair self.old.pairs self.new.pairs) }
        ensures err { IfErr result (λ e. e ≡ GraphFault.Memory) }
    {
        let cell = pair.left as usize * self.columns + pair.right as usize;
        if !self.cells[cell] {
            self.pairs.push(pair)?;
            self.cells[cell] = true;
        }
        Ok(())
    }
}
