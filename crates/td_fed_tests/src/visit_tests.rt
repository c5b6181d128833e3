//! Visits: what each asks, what it is answered, and what it answers.

use crate::checking::{Case, check};
use std::process::Abort;
use std::test::Fail;

const FAILED: &str = "A! A= Aq;;exist Queue => value Queue: failed => 0 0
A! A= Aq => value Queue: failed => 1 1";

/// An evaluation that fails leaves the property absent: the offer doesn't match by it, and is given without it.
#[test]
fn failed_evaluations(rt: HostRuntime) -> Result<(), Fail> {
    check(&rt, rt.alloc(), Case::Visit, FAILED)
}

const VALUES: &str = "A! A= Aq;;Queue < 3 => value Queue: number 2 => 1 2
A! A= Aq;;Queue < 3 => value Queue: number 3 => 0 0
A! A= An;;exist Queue => value Queue: number 2 => 0 0
A! A= Aq;;exist Queue => value Queue: TRUE => 0 0";

/// A value makes the candidate match where its evaluator has a profile and the value is of the returned type.
#[test]
fn evaluated_values(rt: HostRuntime) -> Result<(), Fail> {
    check(&rt, rt.alloc(), Case::Visit, VALUES)
}

const LONG: &str = "A! A= As;;exist Queue => value Queue: text 16371 => 1 2
A! A= As;;exist Queue => value Queue: text 16372 => 0 0";

/// A text takes 13 bytes more than it has: 16,384 may stand, and no more.
#[test]
fn long_values(rt: HostRuntime) -> Result<(), Fail> {
    check(&rt, rt.alloc(), Case::Visit, LONG)
}

/// In the order of the offer, of the desired names, and of the expressions: the constraint is asked before the
/// preference, and each name once.
const ORDERS: &str = "A! Aw Aq => value Wait: failed|value Queue: failed => 1 0
A! Aw Aq;;;;;Queue,Cost,Wait => value Queue: failed|value Wait: failed => 1 0
A! Aw Aq;;not exist Queue and not exist Queue;min Wait + Queue;;- => value Queue: failed|value Wait: failed => 1 0";

#[test]
fn orders_of_evaluations(rt: HostRuntime) -> Result<(), Fail> {
    check(&rt, rt.alloc(), Case::Visit, ORDERS)
}

const LINKS: &str = "A! A= A?L;;Cost == 5;;hop_count=99 =>  => 1 1 hop_count
A! A= A?L;;Cost == 6;;hop_count=99 => to L: failed => 0 0 hop_count
A! A= A?L;;Cost == 6;;hop_count=99 => ?: limit return_card => 0 0 hop_count return_card
A! A= A?L;;Cost == 6;;hop_count=99 => ?: failed => 0 0 hop_count";

/// A link of if_no_local is asked only where no offer matched; the limits are those stated above the maximum, and those
/// that another trader names.
#[test]
fn links_and_limits(rt: HostRuntime) -> Result<(), Fail> {
    check(&rt, rt.alloc(), Case::Visit, LINKS)
}

/// The offer that matched here is given although the proxy offer's trader fails.
const PROXIES: &str = "A! A= A^P;;Cost < 10 => with Cost < 10 and Floor == 3: failed => 1 1
A! A= A^P;;Cost < 10 => ?: failed => 1 1";

#[test]
fn proxies(rt: HostRuntime) -> Result<(), Fail> {
    check(&rt, rt.alloc(), Case::Visit, PROXIES)
}

const TRADERS: &str = "A^P A^Q A^R A?L A?M A?N;;Cost < 10 \
=> to P: offer|to Q: offer|to R: offer|to L: offer|to M: offer|to N: offer => 6 6
A! A= A^P A^Q A^R A?L A?M A?N;;Cost < 10 => to P: offer|to Q: offer|to R: offer => 4 4";

/// Proxy offers' traders are asked first, and then those that the links lead to, unless an offer matched here.
#[test]
fn traders_in_order(rt: HostRuntime) -> Result<(), Fail> {
    check(&rt, rt.alloc(), Case::Visit, TRADERS)
}

const WANTED: &str = "A! A= A^P A^Q A^R A?L;;Cost < 10;;return_card=2 => to P: offer => 2 2
A! A= A^P A^Q A^R;;Cost < 10;;return_card=2 => to P: failed|to Q: offer => 2 2
A! A= A^P A^Q A^R;;Cost < 10;;return_card=3 => to P: offer|to Q: offer => 3 3
A! A= A^P;;Cost < 10;;return_card=1 =>  => 1 1
A! A= A^P A^Q;;Cost < 10;min Cost;return_card=1 => to P: offer|to Q: offer => 1 1
A! A= A>L A>M;;Cost < 10;;return_card=2 => to L: limit hop_count|to M: offer => 2 2 hop_count";

/// Traders are asked as long as offers are wanted: each answer is counted by its offers, and one that failed or has
/// none adds nothing. By cost all are asked.
#[test]
fn traders_while_offers_are_wanted(rt: HostRuntime) -> Result<(), Fail> {
    check(&rt, rt.alloc(), Case::Visit, WANTED)
}
