//! Graphs that tests make, from lines of text.

ghost use Rattle.std.specs.Prelude.{◌≡◌, ◌<◌, true, length};
ghost use Rattle.tc_graph.specs.Nodes.{node_at, is_alias};

use std::alloc::Global;
use tc_graph::{ALIAS, Edges, Graph, GraphFault, List, Name, Names, Node, Numbers, Whole};

/// What stands before and behind the first blank.
pub fn cut(line: &str) -> (&str, &str) {
    line.split_once(' ').unwrap_or((line, ""))
}

/// The number that a word of decimal digits names.
pub fn number(word: &str) -> u32 {
    word.parse::<u32>().unwrap_or(0)
}

/// A name as its letters; `-` is the empty one.
fn name_of(alloc: Global, word: &str) -> Result<Name, GraphFault> {
    match word {
        "-" => Ok(List::new(alloc)),
        _ => List::from_slice(alloc, word.as_bytes()),
    }
}

/// Names with `,` between them; `-` is none.
fn names_of(alloc: Global, words: &str) -> Result<Names, GraphFault> {
    let mut names = List::new(alloc);
    if words == "-" {
        return Ok(names);
    }
    for word in words.split(',') {
        names.push(name_of(alloc, word)?)?;
    }
    Ok(names)
}

/// Numbers with `,` between them; `-` is none.
fn numbers_of(alloc: Global, words: &str) -> Result<Numbers, GraphFault> {
    let mut numbers = List::new(alloc);
    if words == "-" {
        return Ok(numbers);
    }
    for word in words.split(',') {
        numbers.push(i128::from(word.parse::<i64>().unwrap_or(0)))?;
    }
    Ok(numbers)
}

/// Places with `,` between them; `-` is none.
fn edges_of(alloc: Global, words: &str) -> Result<Edges, GraphFault> {
    let mut edges = List::new(alloc);
    if words == "-" {
        return Ok(edges);
    }
    for word in words.split(',') {
        edges.push(number(word))?;
    }
    Ok(edges)
}

/// A node as `KIND ID NAMES NUMBERS EDGES`.
pub fn node_of(alloc: Global, line: &str) -> Result<Node, GraphFault> {
    let (kind, rest) = cut(line);
    let (id, rest) = cut(rest);
    let (names, rest) = cut(rest);
    let (numbers, edges) = cut(rest);
    Ok(Node {
        kind: number(kind),
        id: name_of(alloc, id)?,
        names: names_of(alloc, names)?,
        numbers: numbers_of(alloc, numbers)?,
        edges: edges_of(alloc, edges)?,
    })
}

/// Whether a node may fill the place: it has the kind with which that was started, and an alias one edge.
fn may_fill(graph: &Graph, place: u32, node: &Node) -> bool
    ensures kind { result ≡ true → place < length graph.now.nodes
        → node.now.kind ≡ (node_at graph.now.nodes place).kind }
    ensures alias { result ≡ true → is_alias node.now ≡ true → length node.now.edges ≡ 1 }
{
    if node.kind == ALIAS && node.edges.len() != 1 {
        return false;
    }
    match graph.kind(place) {
        Some(kind) => kind == node.kind,
        None => true,
    }
}

/// Fills a place. A node that may not fill it is answered with Memory, which no test wants.
pub fn fill(graph: &mut Graph, place: u32, node: Node) -> Result<(), GraphFault> {
    if !may_fill(graph, place, &node) {
        return Err(GraphFault::Memory);
    }
    graph.fill(place, node)
}

/// The whole graph; or the graph as it was, and why it isn't whole. Where nothing was started the answer is Memory,
/// which no test wants.
pub fn finish(graph: Graph) -> Result<Whole, (Graph, GraphFault)> {
    match graph.kind(0) {
        Some(_) => graph.finish(),
        None => Err((graph, GraphFault::Memory)),
    }
}

/// The whole graph, or why it isn't whole.
pub fn finished(graph: Graph) -> Result<Whole, GraphFault> {
    match finish(graph) {
        Ok(whole) => Ok(whole),
        Err((_graph, fault)) => Err(fault),
    }
}

/// Starts a node of each kind.
fn start_all(graph: &mut Graph, nodes: &str) -> Result<(), GraphFault> {
    for line in nodes.split(';') {
        graph.start(number(cut(line).0))?;
    }
    Ok(())
}

/// Fills each node.
fn fill_all(alloc: Global, graph: &mut Graph, nodes: &str) -> Result<(), GraphFault> {
    let mut place = 0u32;
    for line in nodes.split(';') {
        fill(graph, place, node_of(alloc, line)?)?;
        place = place.saturating_add(1);
    }
    Ok(())
}

/// The graph of these nodes, with `;` between them.
pub fn whole_of(alloc: Global, nodes: &str) -> Result<Whole, GraphFault> {
    let mut graph = Graph::new(alloc)?;
    start_all(&mut graph, nodes)?;
    fill_all(alloc, &mut graph, nodes)?;
    finished(graph)
}
