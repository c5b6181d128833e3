//! Lines of a log, one by one: what is in the table, and what fails.

use crate::checking::check;
use std::process::Abort;
use std::test::Fail;

/// A trader with two offers.
pub(crate) const PRINTERS: &str = "address h 9
trader A
type Printer IDL:Printer:1.0
offer Printer ref:IDL:Printer:1.0,h,9,p1
offer Printer ref:IDL:Printer:1.0,h,9,p2
";

/// A query and its reply, in either order and both versions; a reply with another offer, id, order or version, and one
/// with a byte behind it.
const QUERIES: &str = "yes 0 <= \n\
yes 1 <= ask A $query
yes 1 <= ask A $query/
yes 2 <= ask A $query/reply 0 $found
yes 2 <= ask A $QUERY/reply 0 $FOUND
no 2 differs <= ask A $query/reply 0 $found-p1
no 2 differs <= ask A $query/reply 0 $found-id
no 2 differs <= ask A $query/reply 0 $found-little
no 2 differs <= ask A $query/reply 0 $found-newer
no 2 differs <= ask A $query/reply 0 $found-more
yes 2 <= ask A $query-little/reply 0 $found-little
no 2 differs <= ask A $query-little/reply 0 $found
yes 2 <= ask A $query-newer/reply 0 $found-newer
no 2 differs <= ask A $query-newer/reply 0 $found
yes 2 <= ask A $query-newer-little/reply 0 $found-newer-little
yes 2 <= ask A $query-id/reply 0 $found-id
yes 2 <= ask A $query-oneway/reply 0 $found
yes 3 <= ask A $query/reply 0 $found/reply 0 $found
yes 4 <= ask A $query/ask A $query-id/reply 1 $found-id/reply 0 $found
no 3 differs <= ask A $query/ask A $query-id/reply 1 $found
yes 2 <= ask A $query-unknown/reply 0 $unknown
no 2 differs <= ask A $query-unknown/reply 0 $found
yes 3 <= words 7 0/ask A $query/reply 0 $found
yes 1 <= words 18446744073709551615";

#[test]
fn queries(rt: HostRuntime) -> Result<(), Fail> {
    check(&rt, rt.alloc(), PRINTERS, QUERIES)
}

/// What isn't in the table, wherever it stands.
const STRANGE: &str = "line 1 <= /
line 1 <= deliver
line 1 <= deliver 
line 1 <= deliver 03
line 1 <= deliver 3 4
line 1 <= deliver  3
line 1 <=  deliver 3
line 1 <= deliver 18446744073709551616
line 1 <= Deliver 3
line 1 <= give 3
line 1 <= value 0
line 1 <= value 0 0
line 1 <= value 0 -0
line 1 <= value 0 00
line 1 <= value 0 $seven-more
line 1 <= value 0 $seven-cut
line 1 <= words
line 1 <= words 
line 1 <= words 7 x
line 1 <= words 18446744073709551616
line 2 <= words 7/words 7
line 2 <= ask A $query/words 7
line 1 <= ask A 00
line 1 <= ask A
line 1 <= ask A $query 0
line 1 <= ask B $query
line 1 <= ask A $query-cut
line 1 <= ask A $query-longer
line 1 <= ask A $found
line 1 <= ask A $ids-request
line 1 <= ask A $list-request
line 1 <= ask A $query-of-b
line 1 <= ask A $query-at-register
line 1 <= ask A $query-short
line 1 <= look A $list-request
line 1 <= look A $query $found
line 1 <= look A $list-request $query
line 1 <= look A $list-request $list-cut
line 1 <= look A $set-request $set
line 1 <= change A $list-request $list
line 1 <= change A $query $found
line 1 <= change A $is-a-request $truth
line 1 <= reply 0
line 1 <= reply x $found
line 1 <= reply 0 $query
line 1 <= reply 0 $status-three
line 1 <= reply 9 $list-cut
line 2 <= ask A $query/reply 0 $found-cut
line 2 <= ask A $query//reply 0 $found
line 3 <= ask A $query/reply 0 $found//";

#[test]
fn strange_lines(rt: HostRuntime) -> Result<(), Fail> {
    check(&rt, rt.alloc(), PRINTERS, STRANGE)
}

/// What the network refuses, and what hasn't ended. The first line that fails decides.
const REFUSED: &str = "no 1 call <= deliver 0
no 1 call <= answer 0
no 1 call <= lose 0
no 1 call <= value 0 -
no 1 call <= value 18446744073709551615 $seven
no 1 open <= reply 0 $found
no 1 open <= reply 18446744073709551615 $found
no 2 state <= ask A $query/deliver 0
no 2 state <= ask A $query/answer 0/deliver 03
no 2 state <= ask A $query/lose 0
no 2 state <= ask A $query/value 0 -
no 2 state <= ask A $query/value 0 $seven
no 2 open <= ask A $query/reply 1 $found
line 1 <= ask A 00/deliver 0";

#[test]
fn refused_events(rt: HostRuntime) -> Result<(), Fail> {
    check(&rt, rt.alloc(), PRINTERS, REFUSED)
}

/// Changes that are accepted, with their replies and with others, and changes that are refused.
const CHANGES: &str = "yes 1 <= change A $set-request $set
no 1 differs <= change A $set-request $set-other
no 2 differs <= change A $set-request $set/change A $set-request $set
yes 2 <= change A $set-request $set/change A $set-request $set-again
yes 2 <= change A $withdraw-request $nothing/look A $list-request $list-p2
no 2 refused <= change A $withdraw-request $nothing/change A $withdraw-request $nothing
no 1 refused <= change A $withdraw-nine-request $nothing
no 1 refused <= change A $withdraw-nine-request $unknown-offer
no 2 differs <= change A $withdraw-request $nothing/look A $list-request $list
yes 3 <= ask A $query/change A $withdraw-request $nothing/reply 0 $found
yes 3 <= change A $withdraw-request $nothing/ask A $query/reply 0 $found-p2
no 1 differs <= change A $withdraw-request $set";

#[test]
fn changes(rt: HostRuntime) -> Result<(), Fail> {
    check(&rt, rt.alloc(), PRINTERS, CHANGES)
}

/// Links to a trader of the network, outside, and to a target without a profile.
const LINKS: &str = "yes 2 <= change A $link-request $nothing/look A $describe-request $link-inside
no 2 differs <= change A $link-request $nothing/look A $describe-request $link-outside
yes 2 <= change A $link-out-request $nothing/look A $describe-request $link-outside
no 2 differs <= change A $link-out-request $nothing/look A $describe-request $link-inside
yes 2 <= change A $link-register-request $nothing/look A $describe-request $link-register
no 1 refused <= change A $link-nil-request $nothing
no 2 refused <= change A $link-request $nothing/change A $link-request $nothing";

#[test]
fn links(rt: HostRuntime) -> Result<(), Fail> {
    check(&rt, rt.alloc(), PRINTERS, LINKS)
}
