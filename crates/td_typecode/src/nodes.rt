//! What counts of a node of a graph for the values under it.

ghost use Rattle.std.specs.Prelude.{◌≡◌, ◌+◌, ◌^◌, ◌<◌, length, drop, nat_lt, IfOk};
ghost use Rattle.std.specs.Prelude.{IfSome, IsTrue};
ghost use Rattle.td_cdr.specs.Format.{upwards};
ghost use Rattle.td_typecode.specs.EdgeLayers.{first_ulong, as_ulong, bound_of, is_union, has_number};
ghost use Rattle.td_typecode.specs.NodeValues.{chosen_arm};
ghost use Rattle.td_typecode.specs.Same.{label_number};
ghost use Rattle.td_typecode.specs.ValueLayers.{is_chosen_by, default_arm};

use crate::code::Value;
use crate::label::{Label, label_of};
use crate::values::is_default;
use std::alloc::Global;
use tc_edges::SpelledGraph;
use tc_graph::{Node, Whole};
use td_cdr::Memory;

/// A graph with the edges that spell its nodes, of which it takes some 24 bytes a node.
///
/// # Errors
///
/// `Memory` only when out of memory.
pub(crate) fn spelled_graph<'a>(alloc: Global, graph: &'a Whole) -> Result<SpelledGraph<'a>, Memory>
    ensures value { IfOk result (λ s. s ≡ graph.now) }
    ensures some { IfOk result (λ _. 0 < length graph.now) }
{
    Ok(SpelledGraph::new(alloc, graph)?)
}

/// The first of a node's numbers, where it is a ulong.
fn first_ulong(node: &Node) -> Option<u32>
    ensures { result ≡ first_ulong node.now.numbers }
{
    match node.numbers.as_slice() {
        [first, ..] => as_ulong(*first),
        _ => None,
    }
}

/// A number, where it is a ulong.
fn as_ulong(number: i128) -> Option<u32>
    ensures { result ≡ as_ulong number }
{
    if number < 0 {
        return None;
    }
    let number = number.cast_unsigned();
    if number > 0xffff_ffff {
        return None;
    }
    Some(number as u32)
}

/// The bound or the length of a node; 0 where it has none.
pub(crate) fn bound_of(node: &Node) -> u32
    ensures { result ≡ bound_of node.now }
{
    match first_ulong(node) {
        Some(bound) => bound,
        None => 0,
    }
}

/// How many values an enumeration's node has: their names stand behind its own.
pub(crate) fn value_count(node: &Node) -> usize
    ensures { result ≡ length (drop 1 node.now.names) }
{
    match node.names.as_slice() {
        [_own, rest @ ..] => rest.len(),
        _ => 0,
    }
}

/// Whether a node holds another.
pub(crate) fn has_item(node: &Node) -> bool
    ensures { result ≡ nat_lt 0 (length node.now.edges) }
{
    !node.edges.as_slice().is_empty()
}

/// Whether a node has a discriminator, and a label for each arm.
pub(crate) fn is_union(node: &Node) -> bool
    ensures { result ≡ is_union node.now }
{
    has_item(node) && node.numbers.len() == node.edges.len()
}

/// The number that spells a label.
pub(crate) fn label_number(label: Label) -> u64
    ensures { result ≡ label_number label }
{
    match label {
        Label::One(n) => u64::from(n),
        Label::Two(n) => u64::from(n),
        Label::Four(n) => u64::from(n),
        Label::Eight(n) => n,
    }
}

/// Whether an arm is labelled so.
fn has_number(numbers: &[i128], arm: usize, label: &Value) -> bool
    requires { arm + 1 < length numbers.now }
    ensures { result ≡ has_number numbers.now arm label.now }
{
    numbers[arm + 1] == i128::from(label_number(label_of(label)))
}

/// The index of the default arm of a union's node, where there is one.
fn default_of(node: &Node) -> Option<usize>
    ensures { result ≡ first_ulong node.now.numbers }
{
    match first_ulong(node) {
        Some(index) => Some(index as usize),
        None => None,
    }
}

/// The arm of a union's node that a label chooses: the first one but the default that has the label, or else
/// the default.
pub(crate) fn arm_of(node: &Node, label: &Value) -> Option<usize>
    requires union { IsTrue (is_union node.now) }
    ensures value { result ≡ chosen_arm node.now label.now }
    ensures within { IfSome result (λ arm. arm + 1 < length node.now.edges) }
    ensures fits { IfSome result (λ arm. arm + 1 < 2 ^ 64) }
{
    let default = default_of(node);
    let numbers = node.numbers.as_slice();
    let count = node.edges.len() - 1;
    for arm in 0..count {
        if is_chosen(numbers, arm, default, label) {
            return Some(arm);
        }
    }
    within(default, count)
}

/// Whether an arm that isn't the default has the label.
fn is_chosen(numbers: &[i128], arm: usize, default: Option<usize>, label: &Value) -> bool
    requires { arm + 1 < length numbers.now }
    ensures { result ≡ is_chosen_by (has_number numbers.now) default label.now arm arm }
{
    !is_default(default, arm) && has_number(numbers, arm, label)
}

/// An index, where it is below the count.
fn within(index: Option<usize>, count: usize) -> Option<usize>
    ensures value { result ≡ default_arm index (upwards 0 count) }
    ensures within { IfSome result (λ i. i < count) }
    ensures fits { IfSome result (λ i. i + 1 < 2 ^ 64) }
{
    match index {
        Some(i) if i < count => Some(i),
        _ => None,
    }
}
