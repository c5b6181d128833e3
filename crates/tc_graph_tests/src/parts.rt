//! The parts of graphs and lists: each call with ample memory.

use crate::making::{node_of, whole_of};
use std::alloc::Global;
use tc_graph::{GraphFault, List, Node, Whole};

/// Whether the node is `15 N N,next 7,-8 1,2`.
fn is_sample(node: &Node) -> bool {
    let parts = node.kind == 15 && node.id.as_slice() == b"N".as_slice();
    let names = node.names.len() == 2
        && node
            .names
            .get(1)
            .is_some_and(|name| name.as_slice() == b"next".as_slice());
    let numbers = node.numbers.as_slice() == [7, -8].as_slice();
    parts && names && numbers && node.edges.as_slice() == [1, 2].as_slice()
}

fn is_copied(alloc: Global) -> Result<bool, GraphFault> {
    let node = node_of(alloc, "15 N N,next 7,-8 1,2")?;
    let copy = node.copy(alloc)?;
    Ok(is_sample(&node) && is_sample(&copy))
}

#[test]
fn nodes(rt: HostRuntime) {
    let alloc = rt.alloc();
    assert!(rt; is_copied(alloc) == Ok(true));
}

/// Whether the graph has the sample at place 1, behind an alias, and a long at place 2.
fn has_sample(whole: &Whole) -> bool {
    if whole.len() != 3 {
        return false;
    }
    let sample = whole.node(1).is_some_and(|node| is_sample(node));
    let end = whole.node(2).is_some_and(|node| node.kind == 3) && whole.node(3).is_none();
    sample && end && whole.bare(0) == 1 && whole.bare(1) == 1 && whole.bare(2) == 2
}

fn has_copied_sample(alloc: Global) -> Result<bool, GraphFault> {
    let whole = whole_of(alloc, "21 M M - 1;15 N N,next 7,-8 1,2;3 - - - -")?;
    let copy = whole.copy(alloc)?;
    Ok(has_sample(&whole) && has_sample(&copy))
}

#[test]
fn wholes(rt: HostRuntime) {
    let alloc = rt.alloc();
    assert!(rt; has_copied_sample(alloc) == Ok(true));
}

fn is_listed(alloc: Global) -> Result<bool, GraphFault> {
    let mut list = List::from_vec(List::from_slice(alloc, &[4u32, 5])?.into_vec());
    list.push(6)?;
    let parts = list.len() == 3 && list.as_slice() == [4, 5, 6].as_slice();
    Ok(parts && list.get(2) == Some(&6) && list.get(3).is_none())
}

#[test]
fn lists(rt: HostRuntime) {
    let alloc = rt.alloc();
    assert!(rt; is_listed(alloc) == Ok(true));
}
