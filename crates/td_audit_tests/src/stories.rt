//! Queries that other traders are asked for, values of dynamic properties, and random words.

use crate::auditing::PRINTERS;
use crate::checking::check;
use std::process::Abort;
use std::test::Fail;

/// Two traders, each with an offer; the first has a link to the second.
const PAIR: &str = "address h 9
trader A
type Printer IDL:Printer:1.0
offer Printer ref:IDL:Printer:1.0,h,9,p1
link l B always always
trader B
type Printer IDL:Printer:1.0
offer Printer ref:IDL:Printer:1.0,h,9,p2
";

/// A call that is answered, lost, or answered late; a change between; the reply of a call that is no Ask's.
const CALLS: &str = "yes 4 <= ask A $query/deliver 1/answer 1/reply 0 $found
no 4 differs <= ask A $query/deliver 1/answer 1/reply 0 $found-one
yes 3 <= ask A $query/lose 1/reply 0 $found-one
no 3 differs <= ask A $query/lose 1/reply 0 $found
yes 5 <= ask A $query/lose 1/deliver 1/reply 0 $found-one/reply 0 $found-one
no 2 open <= ask A $query/reply 0 $found
no 3 open <= ask A $query/deliver 1/reply 0 $found
no 3 open <= ask A $query/deliver 1/reply 1 $found-p2
no 4 state <= ask A $query/deliver 1/answer 1/answer 1
no 4 state <= ask A $query/deliver 1/answer 1/lose 1
no 3 state <= ask A $query/lose 1/answer 1
no 2 state <= ask A $query/answer 1
no 3 state <= ask A $query/deliver 1/deliver 1
no 2 state <= ask A $query/deliver 0
no 2 call <= ask A $query/deliver 2
yes 5 <= ask A $query/change B $withdraw-b-request $nothing/deliver 1/answer 1/reply 0 $found-one
yes 5 <= ask A $query/deliver 1/change B $withdraw-b-request $nothing/answer 1/reply 0 $found
line 2 <= ask A $query/change A $withdraw-b-request $nothing
line 1 <= change B $withdraw-request $nothing
yes 6 <= ask A $query/ask B $query-of-b/deliver 1/answer 1/reply 2 $found-p2/reply 0 $found";

#[test]
fn calls(rt: HostRuntime) -> Result<(), Fail> {
    check(&rt, rt.alloc(), PAIR, CALLS)
}

/// A trader whose offer has a property that another object evaluates.
const EVALUATED: &str = "address h 9
trader A
type Printer IDL:Printer:1.0
offer Printer ref:IDL:Printer:1.0,h,9,p1
dynamic ulong Cost ref:IDL:E:1.0,h,9,E
";

/// The value decides whether the offer matches; without a value it doesn't.
const VALUES: &str = "yes 3 <= ask A $query-cost/value 0 $seven/reply 0 $found-one
yes 3 <= ask A $query-cost-all/value 0 $seven/reply 0 $found-cost
yes 3 <= ask A $query-cost/value 0 $eight/reply 0 $found-none
yes 3 <= ask A $query-cost/value 0 -/reply 0 $found-none
no 3 differs <= ask A $query-cost/value 0 -/reply 0 $found-one
no 3 differs <= ask A $query-cost/value 0 $eight/reply 0 $found-one
no 2 open <= ask A $query-cost/reply 0 $found-none
no 3 state <= ask A $query-cost/value 0 $seven/value 0 $seven
no 2 state <= ask A $query-cost/deliver 0";

#[test]
fn values(rt: HostRuntime) -> Result<(), Fail> {
    check(&rt, rt.alloc(), EVALUATED, VALUES)
}

/// Offers at random: by the words that the log tells, and by 0 where it tells none.
const RANDOM: &str = "yes 2 <= ask A $query-random/reply 0 $found-swapped
no 2 differs <= ask A $query-random/reply 0 $found
yes 3 <= words 1/ask A $query-random/reply 0 $found
no 3 differs <= words 0/ask A $query-random/reply 0 $found
yes 5 <= words 1 0/ask A $query-random/ask A $query-random/reply 0 $found/reply 1 $found-swapped
yes 5 <= words 0 1/ask A $query-random/ask A $query-random/reply 1 $found/reply 0 $found-swapped";

#[test]
fn random_words(rt: HostRuntime) -> Result<(), Fail> {
    check(&rt, rt.alloc(), PRINTERS, RANDOM)
}
