//! Walks through a group of four traders.

use crate::checking::{Case, check};
use std::process::Abort;
use std::test::Fail;

const ROW: &str = "A! B! C! A>B B>C => ABC... 3 0
A! B! C! A>B B>C;;;;hop_count=1 => AB.. 2 0
A! B! C! A>B B>C;;;;hop_count=0 => A. 1 0";

/// A has a link to B, and B one to C. Each is searched once, as far as there are hops.
#[test]
fn three_in_a_row(rt: HostRuntime) -> Result<(), Fail> {
    check(&rt, rt.alloc(), Case::Walk, ROW)
}

/// In the order of gathering, at random (the next trader asks in the order of gathering), by cost, and along a path.
const STOPPED: &str = "A! B! C! A>B B>C;;;;return_card=0 => A. 0 0
A! B! C! A>B B>C;;;;return_card=1 => A. 1 0
A! B! C! A>B B>C;;;;return_card=2 => AB.. 2 0
A! B! C! A>B B>C;;;;return_card=5 => ABC... 3 0
A! B! C! A>B B>A A>C;;;;return_card=2 => AB.. 2 0
A! B! C! A>B B>A A>C;;;;return_card=3 => ABa.C.. 3 0
A! B! C! A>B B>C;;;first;return_card=1 => A. 1 0
A! B! C! A>B B>C;;;random;return_card=1 => AB.. 1 0
A! B! C! A>B B>C;;;min Cost;return_card=1 => ABC... 1 0
A! B! C! A>B B>C;;;;starting_trader=B return_card=0 => 0B.. 0 0
A! B! C! D! A>B A>C B>C C>D;;;;hop_count=3 return_card=1 => A. 1 0
A! B! C! D! A>B A>C B>C C>D;;;min Cost;hop_count=3 return_card=1 => ABCD...c. 1 0";

/// No further trader is asked once enough offers are there, unless they get another order; a search that is repeated
/// adds nothing to them. A path is always followed.
#[test]
fn gathering_that_stops(rt: HostRuntime) -> Result<(), Fail> {
    check(&rt, rt.alloc(), Case::Walk, STOPPED)
}

const CYCLES: &str = "A! B! A>B B>A => ABa.. 2 0
A! A>A => Aa. 1 0
C! A>B A>C B>C => ABC..c. 1 0";

/// Links lead back to traders that were searched: each search is repeated, and adds nothing.
#[test]
fn a_cycle(rt: HostRuntime) -> Result<(), Fail> {
    check(&rt, rt.alloc(), Case::Walk, CYCLES)
}

const PATHS: &str = "A! B! C! A>B B>C;;;;starting_trader=B => 0BC... 2 0
A! B! C! A>B B>C;;;;starting_trader=B,C hop_count=0 => 01C... 1 0
A! B! C! A>B B>C;;;;starting_trader=B,A => 0!. 0 0";

/// A path leads over its links, and takes no hop.
#[test]
fn paths(rt: HostRuntime) -> Result<(), Fail> {
    check(&rt, rt.alloc(), Case::Walk, PATHS)
}

const RING: &str = "A! B! C! A>B B>C C>A;;;;hop_count=5 request_id=q => ABCa... 3 0,a 0 0";

/// A ring: the last link leads back to a search. The same query again finds nothing.
#[test]
fn a_ring(rt: HostRuntime) -> Result<(), Fail> {
    check(&rt, rt.alloc(), Case::Walk, RING)
}

const ORDERS: &str = "A! B! C! D! A>B A>C B>C C>D;;;;hop_count=0 => A. 1 0
A! B! C! D! A>B A>C B>C C>D;;;;hop_count=1 => AB.C.. 3 0
A! B! C! D! A>B A>C B>C C>D;;;;hop_count=2 => ABC..c. 3 0
A! B! C! D! A>B A>C B>C C>D;;;;hop_count=3 => ABCD...c. 4 0";

/// C is reached through B first. With two hops none is left there, so that D isn't asked, although A is linked to C.
#[test]
fn the_order_of_the_walk(rt: HostRuntime) -> Result<(), Fail> {
    check(&rt, rt.alloc(), Case::Walk, ORDERS)
}

const LIMITED: &str = "A! A# B! A?B;;;;link_follow_rule=always hop_count=99 => A. 1 1
A# B! A?B;;;;link_follow_rule=always hop_count=99 => AB.. 1 1";

/// A hop count above the greatest is cut, and told as a limit, whether a link is followed or not.
#[test]
fn a_hop_count_above_the_greatest(rt: HostRuntime) -> Result<(), Fail> {
    check(&rt, rt.alloc(), Case::Walk, LIMITED)
}

const UNMATCHED: &str = "A! B! A?B => A. 1 0
B! A?B => AB.. 1 0";

/// A link is followed where nothing matched here.
#[test]
fn links_where_nothing_matched(rt: HostRuntime) -> Result<(), Fail> {
    check(&rt, rt.alloc(), Case::Walk, UNMATCHED)
}

/// A recipe asks for a Floor besides, and the trader can't be reached; at last a recipe doesn't expand, so that nobody
/// is asked.
const PROXIES: &str = "C! B! A>B A*C => AC.B.. 2 0
A$ A%X;X/L:failed;Cost < 10;;;- => Af. 1 0
A! A&X => A. 1 0";

/// The trader of a proxy offer is asked before a link is followed.
#[test]
fn a_proxy_offer(rt: HostRuntime) -> Result<(), Fail> {
    check(&rt, rt.alloc(), Case::Walk, PROXIES)
}

const OUTSIDE: &str = "A! A>X;X/L:offer => Ao. 2 0
A! A>X => Af. 1 0";

/// A trader outside answers or can't be reached.
#[test]
fn a_trader_outside(rt: HostRuntime) -> Result<(), Fail> {
    check(&rt, rt.alloc(), Case::Walk, OUTSIDE)
}

const VERSIONS: &str = "A! B! A+B => AB.. 2 0
1.1 A! B! A>B => AB.. 2 0
1.1 A! B! A+B => AB.. 2 0
1.1 A! B! C! A>B B>C C>A => ABCa... 3 0";

/// A link leads to a trader of the group whatever the version of its target's profile.
#[test]
fn links_of_another_version(rt: HostRuntime) -> Result<(), Fail> {
    check(&rt, rt.alloc(), Case::Walk, VERSIONS)
}

/// At last nothing is asked of the property, and it is desired: the offer is given without it.
const EVALUATIONS: &str = "A~;E:seven;Cost == 7;;;- => Ae. 1 0
A~;E:seven;Cost == 8;;;- => Ae. 0 0
A~;;Cost == 7;;;- => Af. 0 0
A~ => Af. 1 0";

/// A dynamic property is evaluated.
#[test]
fn an_evaluation(rt: HostRuntime) -> Result<(), Fail> {
    check(&rt, rt.alloc(), Case::Walk, EVALUATIONS)
}
