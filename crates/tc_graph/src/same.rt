//! Whether the roots of two graphs are alike at every depth.
//!
//! Pairs of places are assumed to be alike until two nodes of a pair don't match: first the roots, and of
//! each pair that matches the ends of its edges. No union of classes serves, since an empty id agrees with
//! two that differ, so that being alike isn't transitive.

ghost use Rattle.std.specs.Prelude.{ℕ, ◌≡◌, ◌<◌, ◌*◌, ◌↔◌, length, slice_index, IsTrue, IfOk, IfErr, OnOk};
ghost use Rattle.tc_graph.specs.Pairs.{ends_of, AddsEnds};
ghost use Rattle.tc_graph.specs.Sameness.{IdsAgree, Matches, Alike, Same};
ghost use Rattle.tc_graph.specs.Whole.{EdgesLeadInside};

use crate::aliases::bare_places;
use crate::fault::GraphFault;
use crate::node::Node;
use crate::pairs::{Pair, Pairs};
use std::alloc::Global;

/// Whether the ids are equal or one of them is empty.
fn ids_agree(a: &[u8], b: &[u8]) -> bool
    ensures { IsTrue result ↔ IdsAgree a.now b.now }
{
    a.is_empty() || b.is_empty() || a == b
}

fn same_numbers(a: &[i128], b: &[i128]) -> bool
    ensures { IsTrue result ↔ a.now ≡ b.now }
{
    a == b
}

/// Whether two nodes have the same kind, ids that agree, the same numbers, and as many names and edges.
fn nodes_match(p: &Node, q: &Node) -> bool
    ensures { IsTrue result ↔ Matches p.now q.now }
{
    if p.kind != q.kind {
        return false;
    }
    if !ids_agree(p.id.as_slice(), q.id.as_slice()) {
        return false;
    }
    if !same_numbers(p.numbers.as_slice(), q.numbers.as_slice()) {
        return false;
    }
    if p.names.len() != q.names.len() {
        return false;
    }
    p.edges.len() == q.edges.len()
}

/// Adds of each two edges the places without aliases to which they lead.
fn add_ends(
    pairs: &mut Pairs,
    left: &[u32],
    right: &[u32],
    lefts: &[u16],
    rights: &[u16],
) -> Result<(), GraphFault>
    requires as_many { length left.now ≡ length right.now }
    requires left_in { (k : ℕ) → k < length left.now → slice_index left.now k < length lefts.now }
    requires right_in { (k : ℕ) → k < length right.now → slice_index right.now k
        < length rights.now }
    requires lefts_in { (k : ℕ) → k < length lefts.now → slice_index lefts.now k < pairs.old.rows }
    requires rights_in { (k : ℕ) → k < length rights.now → slice_index rights.now k
        < pairs.old.columns }
    ensures rows { pairs.new.rows ≡ pairs.old.rows }
    ensures columns { pairs.new.columns ≡ pairs.old.columns }
    ensures adds { OnOk result
        (AddsEnds (ends_of left.now right.now lefts.now rights.now)
        (length left.now) pairs.old.pairs pairs.new.pairs) }
    ensures err { IfErr result (λ e. e ≡ GraphFault.Memory) }
{
    for edge in 0..left.len() {
        let pair = Pair {
            left: lefts[left[edge] as usize],
            right: rights[right[edge] as usize],
        };
        pairs.insert(pair)?;
    }
    Ok(())
}

/// Whether the first nodes of two graphs are alike at every depth.
pub(crate) fn same_nodes(alloc: Global, left: &[Node], right: &[Node]) -> Result<bool, GraphFault>
    requires left { EdgesLeadInside left.now }
    requires left_some { 0 < length left.now }
    requires right { EdgesLeadInside right.now }
    requires right_some { 0 < length right.now }
    ensures value { IfOk result (λ yes. IsTrue yes ↔ Same left.now right.now) }
    ensures depth { IfOk result
        (λ yes. IsTrue yes ↔ Alike (length left.now * length right.now) left.now 0 right.now 0) }
    ensures err { IfErr result (λ e. e ≡ GraphFault.Memory) }
{
    let lefts = bare_places(alloc, left)?;
    let rights = bare_places(alloc, right)?;
    let mut pairs = Pairs::new(alloc, left.len(), right.len())?;
    let roots = Pair {
        left: lefts[0],
        right: rights[0],
    };
    pairs.insert(roots)?;
    let mut at = 0;
    while at < pairs.len() {
        let pair = pairs.get(at);
        let p = &left[pair.left as usize];
        let q = &right[pair.right as usize];
        if !nodes_match(p, q) {
            return Ok(false);
        }
        add_ends(
            &mut pairs,
            p.edges.as_slice(),
            q.edges.as_slice(),
            lefts.as_slice(),
            rights.as_slice(),
        )?;
        at += 1;
    }
    Ok(true)
}
