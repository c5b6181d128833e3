//! What goes over a link, along a path and to a proxy offer's trader.

use crate::checking::{Case, check};
use std::process::Abort;
use std::test::Fail;

/// What goes over a link: one of if_no_local with always and more hops stated than there may be, others with three
/// hops, two and one; one where not all that is passed on is stated; and at last, in front of the query, how many
/// offers are still wanted.
const OVER: &str =
    "A?x;;Cost < 10;random;link_follow_rule=always hop_count=99 starting_trader=x,y request_id=q \
=> hops=9 rule=if_no_local no_start own first
A>B;;Cost < 10;random;hop_count=3 \
=> hops=2 rule=always no_start own first names=hop_count,link_follow_rule,request_id
A>B;;Cost < 10;random;hop_count=2 \
=> hops=1 rule=always no_start own first names=hop_count,link_follow_rule,request_id
A>B;;Cost < 10;random;hop_count=1 \
=> hops=0 rule=always no_start own first names=hop_count,link_follow_rule,request_id
A/x;;Cost < 10;random;request_id=p starting_trader=x match_card=3 \
=> names=request_id,match_card,hop_count,link_follow_rule first
A>B;3;Cost < 10;random;hop_count=1 \
=> hops=0 returned=3 rule=always own first names=hop_count,link_follow_rule,request_id,return_card
A>B;0;Cost < 10;random;return_card=5 hop_count=1 \
=> hops=0 returned=0 rule=always own first names=return_card,hop_count,link_follow_rule,request_id
A>B;;Cost < 10;random;return_card=5 hop_count=1 \
=> hops=0 returned=5 rule=always own first names=return_card,hop_count,link_follow_rule,request_id";

/// What isn't stated is added at the end, a start elsewhere is taken out, and nothing is drawn at random there. The
/// number of offers that are still wanted stands in the place of how many were to be returned.
#[test]
fn over_a_link(rt: HostRuntime) -> Result<(), Fail> {
    check(&rt, rt.alloc(), Case::Link, OVER)
}

const ALONG: &str = "A>b;;;;starting_trader=b,c hop_count=0 => start=1 hops=0 no_identifier
A>c;;;;starting_trader=c hop_count=0 => no_start hops=0 no_identifier
A>B;;;;hop_count=0 => no_start hops=0 no_identifier";

/// A path of two names, and then of one: each goes on with the names behind, and with the hops as they were stated.
#[test]
fn along_a_path(rt: HostRuntime) -> Result<(), Fail> {
    check(&rt, rt.alloc(), Case::Path, ALONG)
}

/// The policies of a proxy offer and of a query, and how many hops and matches are stated there.
const PASSED: &str = "A;hop_count=1 request_id=p match_card=4;Cost < 10;;hop_count=3 match_card=9 \
=> hops=1 matches=4 no_rule own recipe
A;hop_count=7;Cost < 10;;hop_count=3 match_card=9 \
=> hops=2 matches=9 no_rule own recipe
A;return_card=7/3;Cost < 10;;hop_count=3 return_card=9 \
=> hops=2 returned=3 no_rule own recipe
A;return_card=2/3;Cost < 10;;hop_count=3 return_card=9 \
=> hops=2 returned=2 no_rule own recipe
A;return_card=7;Cost < 10;;hop_count=3 return_card=9 \
=> hops=2 returned=7 no_rule own recipe";

/// A proxy offer's policies: fewer hops stand and more don't, an identifier is ignored, and any other policy replaces.
/// A rule is passed on only where one is stated. Of the offers to be returned the fewer stand, where those that are
/// still wanted are limited.
#[test]
fn to_a_proxy(rt: HostRuntime) -> Result<(), Fail> {
    check(&rt, rt.alloc(), Case::Proxy, PASSED)
}

/// The link with its rule, whether an ordinary offer matched, what is stated, and whether the link is followed.
const FOLLOWED: &str = "A?B;alone;;;hop_count=1 => followed
A?B;matched;;;hop_count=1 => not
A>B;matched;;;hop_count=1 => followed
A>B;alone;;;hop_count=0 => not
A-B;alone;;;hop_count=1 => not
A>B;alone;;;link_follow_rule=local_only => not
A>B;matched;;;link_follow_rule=if_no_local => not";

/// Links by their rules, the number of hops, and whether an ordinary offer matched.
#[test]
fn followed_links(rt: HostRuntime) -> Result<(), Fail> {
    check(&rt, rt.alloc(), Case::Follow, FOLLOWED)
}
