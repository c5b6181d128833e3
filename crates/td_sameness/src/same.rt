//! Whether two TypeCodes are the same, either of which may be a graph.

ghost use Rattle.std.specs.Prelude.{◌≡◌, None, option_map, IfOk, OnErr};
ghost use Rattle.td_typecode.specs.Same.{same, graph_of, shape, alike_at};
ghost use Rattle.td_sameness.specs.Graphs.{IsGraph};

use crate::placed::same_at;
use crate::trees::same_trees;
use std::alloc::Global;
use tc_graph::Whole;
use td_cdr::Memory;
use td_typecode::TypeCode;

/// Whether the TypeCodes are the same without their aliases, names not counted, and ids only where
/// neither is empty. Graphs are compared at every depth, and it doesn't count how often they are unrolled.
/// A graph inside another TypeCode, where no bytes spell one, is the same as nothing.
///
/// # Errors
///
/// `Memory` when out of memory, and only where both are graphs.
pub fn same_type(alloc: Global, a: &TypeCode, b: &TypeCode) -> Result<bool, Memory>
    ensures value { IfOk result (λ yes. yes ≡ same a.now b.now) }
    ensures first { OnErr result (IsGraph a.now) }
    ensures second { OnErr result (IsGraph b.now) }
{
    match graph_of(b) {
        None => Ok(same_tree(a, b)),
        Some(other) => match graph_of(a) {
            None => Ok(same_as_graph(a, other)),
            Some(graph) => match graph.same(alloc, other) {
                Ok(yes) => Ok(yes),
                Err(_fault) => Err(Memory),
            },
        },
    }
}

/// The same, where the second is no graph: this takes no memory.
pub fn same_tree(a: &TypeCode, b: &TypeCode) -> bool
    requires tree { graph_of b.now ≡ None }
    ensures { result ≡ same a.now b.now }
{
    match graph_of(a) {
        None => same_trees(a, b),
        Some(graph) => same_as_graph(b, graph),
    }
}

/// The graph that a TypeCode is.
fn graph_of(code: &TypeCode) -> Option<&Whole>
    ensures { option_map (λ g. g.now) result ≡ graph_of code.now }
{
    match code {
        TypeCode::Linked(graph) => Some(graph),
        _ => None,
    }
}

/// Whether a TypeCode that is no graph is the same as a graph.
fn same_as_graph(code: &TypeCode, graph: &Whole) -> bool
    ensures { result ≡ alike_at graph.now (shape code.now) 0 }
{
    match graph.node(0) {
        Some(_root) => same_at(code, graph, 0),
        None => unreachable!(),
    }
}
