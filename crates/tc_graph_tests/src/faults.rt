//! What graphs refuse, with the place, and that they go on as if it hadn't been asked.

use crate::making::{cut, fill, finish, node_of, number};
use std::alloc::Global;
use std::process::Abort;
use tc_graph::{Graph, GraphFault};

/// Calls with `;` between them, and behind `=>` what each answers: a place, `ok` or a fault. A node is
/// `KIND ID NAMES NUMBERS EDGES`.
const CALLS: &str = "start 3;fill 0 3 - - - -;finish => 0 ok ok
start 3;finish;fill 0 3 - - - -;finish => 0 Open:0 ok ok
start 15;start 3;start 19;fill 1 3 - - - -;finish => 0 1 2 ok Open:0
start 15;start 3;start 19;fill 0 15 - - - 1;fill 1 3 - - - -;finish => 0 1 2 ok ok Open:2
fill 0 3 - - - - => NoPlace:0
start 15;fill 1 15 - - - 2 => 0 NoPlace:1
start 15;fill 0 15 - - - 0,7,1;fill 0 15 - - - 0,0;finish => 0 NoPlace:7 ok ok
start 15;fill 0 15 - - - 1;start 3;fill 0 15 - - - 1;fill 1 3 - - - -;finish => 0 NoPlace:1 1 ok ok ok
start 3;fill 0 3 - - - -;fill 0 3 - - - -;finish => 0 ok Twice:0 ok
start 3;start 3;fill 1 3 - - - -;fill 1 3 - - - -;fill 1 3 - - - 5;finish => 0 1 ok Twice:1 NoPlace:5 Open:0
start 21;fill 0 21 - - - 0;finish => 0 ok Loop:0
start 21;start 15;fill 0 21 - - - 0;finish => 0 1 ok Open:1
start 21;start 21;fill 0 21 - - - 1;fill 1 21 - - - 0;finish => 0 1 ok ok Loop:0
start 21;start 21;start 21;fill 0 21 - - - 2;fill 1 21 - - - 1;fill 2 21 - - - 1;finish => 0 1 2 ok ok ok Loop:1
start 15;start 21;start 3;start 21;fill 0 15 - - - 1,3;fill 1 21 - - - 3;fill 2 3 - - - -;fill 3 21 - - - 1;finish \
=> 0 1 2 3 ok ok ok ok Loop:1
start 21;start 15;start 21;start 21;fill 0 21 - - - 2;fill 1 15 - - - 0;fill 2 21 - - - 3;fill 3 21 - - - 2;finish \
=> 0 1 2 3 ok ok ok ok Loop:2
start 15;start 21;start 21;start 21;start 21;start 21;fill 0 15 - - - 3;fill 1 21 - - - 4;fill 2 21 - - - 1;\
fill 3 21 - - - 5;fill 4 21 - - - 3;fill 5 21 - - - 2;finish => 0 1 2 3 4 5 ok ok ok ok ok ok Loop:1
start 21;start 21;start 15;fill 0 21 - - - 1;fill 1 21 - - - 2;fill 2 15 - - - 0;finish => 0 1 2 ok ok ok ok";

/// The fault of a word `NAME:PLACE`.
fn fault_of(word: &str) -> GraphFault {
    let (name, place) = word.split_once(':').unwrap_or((word, ""));
    let place = number(place);
    match name {
        "NoPlace" => GraphFault::NoPlace(place),
        "Twice" => GraphFault::Twice(place),
        "Open" => GraphFault::Open(place),
        "Loop" => GraphFault::Loop(place),
        _ => GraphFault::Full,
    }
}

/// Whether an answer with or without a place is as it is told.
fn is_content(answer: Result<Option<u32>, GraphFault>, word: &str) -> bool {
    match answer {
        Ok(None) => word == "ok",
        Ok(Some(place)) => word.parse::<u32>() == Ok(place),
        Err(fault) => word.contains(':') && fault_of(word) == fault,
    }
}

/// What a call of `start` or `fill` answers.
fn answer(alloc: Global, graph: &mut Graph, call: &str) -> Result<Option<u32>, GraphFault> {
    let (name, rest) = cut(call);
    if name == "start" {
        return Ok(Some(graph.start(number(rest))?));
    }
    let (place, node) = cut(rest);
    fill(graph, number(place), node_of(alloc, node)?)?;
    Ok(None)
}

/// The graph that is left once `finish` was refused, or whether it was not and `ok` is told.
fn after_finish(graph: Graph, word: &str) -> Result<Graph, bool> {
    match finish(graph) {
        Ok(_whole) => Err(word == "ok"),
        Err((graph, fault)) => {
            if is_content(Err(fault), word) {
                Ok(graph)
            } else {
                Err(false)
            }
        }
    }
}

/// Whether each call answers as it is told, up to the `finish` that gives the whole graph, or to the last one.
fn is_so(alloc: Global, line: &str) -> Result<bool, GraphFault> {
    let (calls, content) = line.split_once(" => ").unwrap_or((line, ""));
    let mut content = content.split(' ');
    let mut graph = Graph::new(alloc)?;
    for call in calls.split(';') {
        let word = content.next().unwrap_or("");
        if call == "finish" {
            graph = match after_finish(graph, word) {
                Ok(graph) => graph,
                Err(so) => return Ok(so && content.next().is_none()),
            };
        } else if !is_content(answer(alloc, &mut graph, call), word) {
            return Ok(false);
        }
    }
    Ok(content.next().is_none())
}

fn are_so(rt: &impl Abort, alloc: Global) {
    for line in CALLS.lines() {
        assert!(rt; is_so(alloc, line) == Ok(true), "{line}");
    }
}

#[test]
fn calls(rt: HostRuntime) {
    are_so(&rt, rt.alloc());
}

/// Whether 4,096 nodes are started at their places and no further one is, also where one was filled.
fn is_full(alloc: Global) -> Result<bool, GraphFault> {
    let mut graph = Graph::new(alloc)?;
    for place in 0..4096 {
        if graph.start(3) != Ok(place) {
            return Ok(false);
        }
    }
    let full = graph.start(3) == Err(GraphFault::Full);
    fill(&mut graph, 4095, node_of(alloc, "3 - - - -")?)?;
    Ok(full && graph.start(15) == Err(GraphFault::Full) && graph.kind(4096).is_none())
}

#[test]
fn full(rt: HostRuntime) {
    let alloc = rt.alloc();
    assert!(rt; is_full(alloc) == Ok(true));
}
