//! Schedules of networks.

use crate::scripts::{check, check_schedules};
use std::process::Abort;
use std::test::Fail;

/// A ring of three. The answer of B is lost before B is asked, and still B and C are searched; the last call comes to
/// A, which was searched. Then a change between the visits, and numbers and states that don't fit.
const RING: &str =
    "A!a B!b C!c A>B B>C C>A -> aA/i71/h5 l1 d1 d2 d3 => ..... 0=a 1:w2 2:w3 3= A#1 B#1 C#1 *4
A!a B!b C!c A>B B>C C>A -> aA/i71/h5 cCx d1 d2 d3 r3 r2 r1 => ........ 0=abcx 3= C#1,1
A!a B!b C!c A>B B>C C>A -> aA/i71/h5 d0 r0 d9 r9 l9 v9 v0 l0 aX cXx => .SSCCCCSSTT 0:w1 1:s A#1 B#0 *2
A!a B!b C!c A>B B>C C>A -> aA/i71/h1 d1 r1 r1 l1 aA/i71/h5 => ...SS. 0=ab 2=
A!a -> cA => . A#0,0";

/// Calls, their answers and their marks.
#[test]
fn a_ring(rt: HostRuntime) -> Result<(), Fail> {
    check(&rt, rt.alloc(), RING)
}

/// Two Asks of one trader, with two identifiers, step by step in ten ways.
const TWO: &str =
    "A!a B!b C!c A>B B>C C>A -> aA/i71/h5 s0 s0 s0 s0 s0 s0 aA/i72/h5 s4 s4 s4 s4 s4 s4 => .............. 0=abc 4=abc
A!a B!b C!c A>B B>C C>A -> aA/i71/h5 aA/i72/h5 s0 s0 s0 s0 s0 s0 s2 s2 s2 s2 s2 s2 => .............. 0=abc 2=abc
A!a B!b C!c A>B B>C C>A -> aA/i71/h5 aA/i72/h5 s2 s2 s2 s2 s2 s2 s0 s0 s0 s0 s0 s0 => .............. 0=abc 2=abc
A!a B!b C!c A>B B>C C>A -> aA/i71/h5 aA/i72/h5 s0 s2 s0 s2 s0 s2 s0 s2 s0 s2 s0 s2 => .............. 0=abc 2=abc
A!a B!b C!c A>B B>C C>A -> aA/i71/h5 aA/i72/h5 s2 s0 s2 s0 s2 s0 s2 s0 s2 s0 s2 s0 => .............. 0=abc 2=abc
A!a B!b C!c A>B B>C C>A -> aA/i71/h5 aA/i72/h5 s0 s2 s2 s0 s0 s2 s2 s0 s0 s2 s2 s0 => .............. 0=abc 2=abc
A!a B!b C!c A>B B>C C>A -> aA/i71/h5 aA/i72/h5 s0 s0 s2 s2 s0 s0 s2 s2 s0 s0 s2 s2 => .............. 0=abc 2=abc
A!a B!b C!c A>B B>C C>A -> aA/i71/h5 aA/i72/h5 s0 s0 s0 s2 s2 s2 s0 s0 s0 s2 s2 s2 => .............. 0=abc 2=abc
A!a B!b C!c A>B B>C C>A -> aA/i71/h5 s0 s0 aA/i72/h5 s4 s4 s4 s4 s0 s0 s0 s0 s4 s4 => .............. 0=abc 4=abc
A!a B!b C!c A>B B>C C>A -> aA/i71/h5 s0 s0 s0 aA/i72/h5 s4 s0 s4 s4 s0 s4 s4 s0 s4 => .............. 0=abc 4=abc";

/// Each has the offers of all three.
#[test]
fn two_at_a_time(rt: HostRuntime) -> Result<(), Fail> {
    check(&rt, rt.alloc(), TWO)
}

/// A value comes, one fails, one is of another type; an evaluator without a profile isn't waited for, and a target
/// outside isn't either. A lost evaluation's call goes on.
const VALUES: &str = "A!a A~E -> aA/cCost==7 v0=7 => .. 0=a
A!a A~E -> aA/cCost==7 v0=8 => .. 0=
A!a A~E -> aA/cCost==7 v0 => .. 0=
A!a A~E -> aA/cCost==7 v0=x => .. 0=
A!a A~E -> aA v0=7 v0=7 => ..S 0=a
A!a An -> aA => . 0=a
A!a A>X -> aA => . 0=a *1
A!a B!b B~E A>B -> aA d1 r1 l1 r1 v1=7 => ..S.S. 0=a 1=b";

/// Visits that wait for values.
#[test]
fn values(rt: HostRuntime) -> Result<(), Fail> {
    check(&rt, rt.alloc(), VALUES)
}

/// Two Asks whose answers are ranked by random words end in the other order: the first to end draws the first words.
const RANDOM: &str = "A!a A!b A>B;1,0 -> aA/rrandom/h1 aA/rrandom/h1 l3 l1 => .... 0=ba 2=ab
A!a A!b A>B;0,1 -> aA/rrandom/h1 aA/rrandom/h1 l3 l1 => .... 0=ab 2=ba
A!a A!b A>B;1 -> aA/rrandom/h1 l1 aA/rrandom/h1 l3 => .... 0=ab 2=ba";

/// Words are drawn in the order in which Asks end.
#[test]
fn random_words(rt: HostRuntime) -> Result<(), Fail> {
    check(&rt, rt.alloc(), RANDOM)
}

/// Without an identifier one is made. A path leads over its link and marks nothing where it only passes; a path over a
/// link that isn't there is refused. A proxy offer's trader is asked. A call comes to a trader whose visit is open.
const WAYS: &str = "A!a B!b A>B B>A -> aA/h5 d1 d2 r2 r1 => ..... 0=ab 2= A#1 B#1
A!a B!b A>B -> aA/sB d1 r1 => ... 0=b A#0 B#1
A!a -> aA/sB => . 0=! A#0
B!b A*B -> aA/h2 d1 r1 => ... 0=b B#1
A!a B!b A>B B>A -> aA/i71/h5 d1 d2 => ... 0:w1 1:w2 2= A#1 B#1
A!a A>A -> aA/i71/h5 d1 r1 => ... 0=a 1= A#1";

/// How queries go.
#[test]
fn ways(rt: HostRuntime) -> Result<(), Fail> {
    check(&rt, rt.alloc(), WAYS)
}

/// A ring of two. Behind 4,096 Asks of A it has forgotten the identifier, so that it searches a second time, under a
/// mark whose number is greater by more than it remembers; B hasn't. Behind 4,095 it hasn't either.
const FORGOTTEN: &str =
    "A!a B!b A>B B>A -> aA/i71/h5 mA4096 d1 d4098 d4099 r4099 r4098 r1 => ........ 0=aba 4098=a 4099= A#4098 B#1
A!a B!b A>B B>A -> aA/i71/h5 mA4095 d1 d4097 r4097 r1 => ...... 0=ab 4097= A#4096 B#1";

/// An identifier is forgotten where there is no room for it.
#[test]
fn a_forgotten_identifier(rt: HostRuntime) -> Result<(), Fail> {
    check(&rt, rt.alloc(), FORGOTTEN)
}

/// Schedules that are accepted, and some whose first event that isn't is told.
const CHECKED: &str = "A!a B!b A>B -> aA/i71/h5 d1 r1 => .
A!a B!b A>B -> aA/i71/h5 d1 d1 r9 => S2
A!a B!b A>B -> aA/i71/h5 r9 aX => C1
A!a -> aX d0 => T0";

/// Whole schedules.
#[test]
fn whole_schedules(rt: HostRuntime) -> Result<(), Fail> {
    check_schedules(&rt, rt.alloc(), CHECKED)
}

/// A diamond: A has links to B and C, which both have one to D. Which of the two has D's offers depends on the
/// schedule, and the answer is one walk's: B's question comes to D first; B's call is lost, and C's comes first; or it
/// is lost, and B's still comes first. Then a change of D between two visits.
const WALKS: &str =
    "A!a B!b C!c D!d A>B A>C B>D C>D -> aA/i71/h5 d1 d2 r2 r1 d3 d4 r4 r3 => ......... 0=abdc 4= D#1
A!a B!b C!c D!d A>B A>C B>D C>D -> aA/i71/h5 d1 l1 d3 d4 d2 r4 r3 => ........ 0=acd 2= 4=d D#1
A!a B!b C!c D!d A>B A>C B>D C>D -> aA/i71/h5 d1 l1 d3 d2 d4 r4 r3 => ........ 0=ac 2=d 4= D#1
A!a B!b C!c D!d A>B A>C B>D C>D -> aA/i71/h5 d1 d2 r2 r1 cDy d3 d4 r4 r3 => .......... 0=abdc 4= D#1,1
A!a B!b C!c D!d A>B A>C B>D C>D -> aA/i71/h5 d1 cDy d2 r2 r1 d3 d4 r4 r3 => .......... 0=abdyc 4= D#1,1";

/// One walk.
#[test]
fn one_walk(rt: HostRuntime) -> Result<(), Fail> {
    check(&rt, rt.alloc(), WALKS)
}

/// Where D remembers the identifier as A is asked, its offers are left out: one walk would have them. So they are where
/// another Ask comes to D under the same identifier meanwhile.
const NOT_ONE: &str =
    "A!a B!b C!c D!d A>B A>C B>D C>D -> aD/i71/h5 aA/i71/h5 d2 d3 r3 r2 d4 d5 r5 r4 => .......... 0=d 1=abc D#1
A!a B!b C!c D!d A>B A>C B>D C>D -> aA/i71/h5 d1 aD/i71/h5 d2 r2 r1 d4 d5 r5 r4 => .......... 0=abc 3=d D#1";

/// What isn't one walk.
#[test]
fn not_one_walk(rt: HostRuntime) -> Result<(), Fail> {
    check(&rt, rt.alloc(), NOT_ONE)
}
