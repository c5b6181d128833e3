//! Which graphs are the same.

use crate::making::whole_of;
use std::alloc::Global;
use std::process::Abort;
use tc_graph::GraphFault;

/// Two graphs and whether they are the same, which goes both ways. A node is `KIND ID NAMES NUMBERS EDGES`.
const PAIRS: &str = "3 - - - -|3 - - - -|yes
3 - - - -|2 - - - -|no
15 N N,next - 1;19 - - 0 0|15 N N,next - 1;19 - - 0 0|yes
15 N N,next - 1;19 - - 0 0|15 N N,next - 1;19 - - 0 2;15 N N,next - 3;19 - - 0 0|yes
15 N N,next - 1;19 - - 0 0|15 N N,next - 1;19 - - 0 2;15 N N,next - 3;19 - - 5 0|no
15 N N,next - 1;19 - - 0 2;15 N N,next - 3;19 - - 0 0|15 N N,next - 1;19 - - 0 2;15 N N,next - 3;19 - - 0 2|yes
15 N N,next - 1;19 - - 0 0|15 N N,next - 1;20 - - 0 0|no
15 N N,next - 1;19 - - 0 0|15 N M,other - 1;19 - - 0 0|yes
15 N N,next - 1;19 - - 0 0|15 N N,next,last - 1,1;19 - - 0 0|no
15 N N,next - 1;19 - - 0 0|15 N N - 1;19 - - 0 0|no
15 A A,x - 1;3 - - - -|15 - A,x - 1;3 - - - -|yes
15 - A,x - 1;3 - - - -|15 B A,x - 1;3 - - - -|yes
15 A A,x - 1;3 - - - -|15 B A,x - 1;3 - - - -|no
15 A A,x - 1;3 - - - -|15 AB A,x - 1;3 - - - -|no
15 - S,x,y - 1,2;15 A S,x - 0;15 B S,x - 0|15 - S,x,y - 1,1;15 - S,x - 0|yes
15 - S,x,y - 1,1;15 - S,x - 0|15 - S,x,y - 1,1;15 A S,x - 0|yes
15 - S,x,y - 1,2;15 A S,x - 0;15 B S,x - 0|15 - S,x,y - 1,1;15 A S,x - 0|no
15 N N,next - 1;19 - - 0 0|21 C C - 1;15 N N,next - 2;21 D D - 3;21 E E - 4;19 - - 0 5;21 C C - 0|yes
21 C C - 1;15 N N,next - 2;19 - - 0 0|21 E F - 1;21 G H - 2;15 N N,next - 3;19 - - 0 2|yes
21 C C - 1;15 N N,next - 2;19 - - 1 0|21 E F - 1;21 G H - 2;15 N N,next - 3;19 - - 0 2|no
16 U U,a,b -1,1,2 1,2,3;3 - - - -;2 - - - -;19 - - 0 0|16 U U,c,d -1,1,2 1,2,3;3 - - - -;2 - - - -;19 - - 0 0|yes
16 U U,a,b -1,1,2 1,2,3;3 - - - -;2 - - - -;19 - - 0 0|16 U U,a,b -1,1,3 1,2,3;3 - - - -;2 - - - -;19 - - 0 0|no
16 U U,a,b -1,1,2 1,2,3;3 - - - -;2 - - - -;19 - - 0 0|16 U U,a,b 0,1,2 1,2,3;3 - - - -;2 - - - -;19 - - 0 0|no
16 U U,a,b -1,1,2 1,2,3;3 - - - -;2 - - - -;19 - - 0 0|16 U U,a,b -1,1,2 2,1,3;3 - - - -;2 - - - -;19 - - 0 0|no
16 U U,a,b -1,1,2 1,2,3;3 - - - -;2 - - - -;19 - - 0 0|16 U U,a,b -1,1,2 1,2,2;3 - - - -;2 - - - -;19 - - 0 0|no
17 E E,a,b - -|17 E E,c,d - -|yes
17 E E,a,b - -|17 E E,a - -|no
15 N N,a,b - 1,2;3 - - - -;15 N N,a,b - 1,0|15 N N,a,b - 1,0;3 - - - -|yes";

/// Whether the first graph is the same as the second.
fn same(alloc: Global, left: &str, right: &str) -> Result<bool, GraphFault> {
    let left = whole_of(alloc, left)?;
    let right = whole_of(alloc, right)?;
    left.same(alloc, &right)
}

fn is_so(alloc: Global, line: &str) -> bool {
    let (left, rest) = line.split_once('|').unwrap_or((line, ""));
    let (right, content) = rest.split_once('|').unwrap_or((rest, ""));
    let wanted = Ok(content == "yes");
    same(alloc, left, right) == wanted && same(alloc, right, left) == wanted
}

fn are_so(rt: &impl Abort, alloc: Global) {
    for line in PAIRS.lines() {
        assert!(rt; is_so(alloc, line), "{line}");
    }
}

#[test]
fn pairs(rt: HostRuntime) {
    are_so(&rt, rt.alloc());
}
