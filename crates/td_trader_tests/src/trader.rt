//! Traders that keep what they accept, and how queries begin at them: marked, found again, passed on or refused.

use crate::changes::KEPT;
use crate::lines::{NEW, Start, follows};
use std::test::Fail;

/// What is refused isn't kept.
const ACCEPTED: &str = "mask_type Printer => /UnknownServiceType:1.0
history =>
add_type Printer;IDL:Printer:1.0; => incarnation 1
history => Printer
list_types 0 => names Printer";

#[test]
fn accepted_changes_are_kept(rt: HostRuntime) -> Result<(), Fail> {
    follows(&rt, rt.alloc(), NEW, ACCEPTED)
}

const WITHDRAWN: &str = "add_type Printer;IDL:Printer:1.0; => incarnation 1
export IDL:Printer:1.0;Printer; => id 1
reserve => done
withdraw 1 => done
withdraw 1 => /UnknownOfferId:1.0
point => 3";

/// Room for the entry of a change is taken before it, and an offer withdrawn in that room.
#[test]
fn an_offer_is_withdrawn_in_reserved_room(rt: HostRuntime) -> Result<(), Fail> {
    follows(&rt, rt.alloc(), NEW, WITHDRAWN)
}

/// A trader that accepts one change.
const ONE: Start = Start { changes: 1, ..NEW };

const LIMITED: &str = "add_type Printer;IDL:Printer:1.0; => incarnation 1
add_type Scanner;IDL:Printer:1.0; => IMP_LIMIT
add_type Printer;IDL:Printer:1.0; => Repos/ServiceTypeRepository/ServiceTypeExists:1.0
mask_type Printer => IMP_LIMIT
mask_type Scanner => /UnknownServiceType:1.0
history => Printer";

/// What is refused for a cause of its own behind the limit says this cause.
#[test]
fn changes_above_the_limit(rt: HostRuntime) -> Result<(), Fail> {
    follows(&rt, rt.alloc(), ONE, LIMITED)
}

const BEGUN: &str = "add_type Printer;IDL:Printer:1.0; => incarnation 1
query Printer;;;request_id=q => search q 1 1 0 0 0
query Printer;;;request_id=q => repeat 1
marks => 1";

/// A query is searched at the point where it begins, and marked once.
#[test]
fn a_query_begins_at_a_trader(rt: HostRuntime) -> Result<(), Fail> {
    follows(&rt, rt.alloc(), NEW, BEGUN)
}

const REMEMBERED: &str = "query Printer;;;request_id=q1 => search q1 1 4 2 1 0
query Printer;;;request_id=q2 => search q2 2 4 2 1 0
query Printer;;;request_id=q1 => repeat 1
query Printer;;;request_id=q3 => search q3 3 4 2 1 0
query Printer;;;request_id=q1 => search q1 4 4 2 1 0
query Printer;;;request_id=q4 => search q4 5 4 2 1 0
query Printer;;;request_id=q5 => IMP_LIMIT
marks => 5";

/// An identifier that is remembered is a repeat of its mark, and one that is forgotten is searched again. The sixth
/// mark is too many.
#[test]
fn identifiers_are_remembered(rt: HostRuntime) -> Result<(), Fail> {
    follows(&rt, rt.alloc(), KEPT, REMEMBERED)
}

const SEARCHED: &str =
    "query Printer;;;starting_trader=c => /Lookup/InvalidPolicyValue:1.0 starting_trader
query Printer;;;starting_trader=b => path b -
marks => 0
query Printer;;;request_id=q => search q 1 4 2 1 0";

/// Neither a refusal nor a path marks: the query that is searched then has the first mark.
#[test]
fn only_searches_are_marked(rt: HostRuntime) -> Result<(), Fail> {
    follows(&rt, rt.alloc(), KEPT, SEARCHED)
}

const MADE: &str = "query Printer => search #0 1 4 2 1 0
query Printer => search #1 2 4 2 1 0";

/// Queries without an identifier get two that differ: the stem `A` and the values 0 and 1.
#[test]
fn identifiers_are_made(rt: HostRuntime) -> Result<(), Fail> {
    follows(&rt, rt.alloc(), KEPT, MADE)
}

/// A query with nothing at fault, as many as may begin, and then one in which all is at fault; the others have the
/// first of these faults mended, and so on.
const CAUSES: &str = "query Printer;;;starting_trader=b;Cost Colour => path b -
query Printer;;;request_id=a => search a 1 4 2 1 0
query Printer;;;request_id=b => search b 2 4 2 1 0
query Printer;;;request_id=c => search c 3 4 2 1 0
query Printer;;;request_id=d => search d 4 4 2 1 0
query Printer;;;request_id=e => search e 5 4 2 1 0
query a printer;Cost < 1.5;least Cost;2x 2x;2x Cost => /IllegalServiceType:1.0
query Scanner;Cost < 1.5;least Cost;2x 2x;2x Cost => /UnknownServiceType:1.0
query Printer;Cost < 1.5;least Cost;2x 2x;2x Cost => /IllegalConstraint:1.0
query Printer;;least Cost;2x 2x;2x Cost => /Lookup/IllegalPreference:1.0
query Printer;;;2x 2x;2x Cost => /Lookup/IllegalPolicyName:1.0
query Printer;;;hop_count=1 hop_count=1;2x Cost => /DuplicatePolicyName:1.0
query Printer;;;hop_count;2x Cost => /Lookup/PolicyTypeMismatch:1.0
query Printer;;;request_id=7*257;2x Cost => /Lookup/InvalidPolicyValue:1.0 request_id
query Printer;;;starting_trader=c;2x Cost => /IllegalPropertyName:1.0
query Printer;;;starting_trader=c;Cost Cost => /DuplicatePropertyName:1.0
query Printer;;;starting_trader=c;Cost Colour => /Lookup/InvalidPolicyValue:1.0 starting_trader
query Printer;;;starting_trader=b;Cost Colour => IMP_LIMIT";

/// An identifier that is too long is at fault before the desired names, an unknown link behind them.
#[test]
fn causes_come_in_order(rt: HostRuntime) -> Result<(), Fail> {
    follows(&rt, rt.alloc(), KEPT, CAUSES)
}

const LIMITS: &str = "query Printer;;;request_id=7*256 => search 7*256 1 4 2 1 0
query Printer;;;request_id=7*257 => /Lookup/InvalidPolicyValue:1.0 request_id
query Printer;;;starting_trader=b*64 => path b -
query Printer;;;starting_trader=b*65 => /Lookup/InvalidPolicyValue:1.0 starting_trader";

/// The longest identifier and path are taken, and one octet, one name more isn't; nor is a link
/// looked for that a path doesn't name first.
#[test]
fn policies_at_their_limits(rt: HostRuntime) -> Result<(), Fail> {
    follows(&rt, rt.alloc(), KEPT, LIMITS)
}

const CANDIDATES: &str = "query Printer;;;use_proxy_offers=TRUE => search #0 1 4 2 1 0
query Printer;;;use_proxy_offers=FALSE => search #1 2 4 1 1 0
query Printer;;;search_card=1 => search #2 3 4 1 1 0
query Printer;;;search_card=1000000 => search #3 4 4 2 1 0
query Printer;;;search_card=1000001 => search #4 5 4 2 1 1";

/// There are an ordinary offer and a proxy offer, 7 and 8. Policies leave one out, or say how many are searched; a
/// number that is stated above the maximum is named.
#[test]
fn candidates_by_policies(rt: HostRuntime) -> Result<(), Fail> {
    follows(&rt, rt.alloc(), KEPT, CANDIDATES)
}

const AGAIN: &str = "query Printer;;;request_id=q1 => search q1 1 4 2 1 0
query Printer;;;request_id=q2 => search q2 2 4 2 1 0
withdraw 7 => done
query Printer;;;request_id=q3 => search q3 3 5 1 1 0
withdraw 7 => /UnknownOfferId:1.0
query Printer;;;request_id=q4 => search q4 4 5 1 1 0
remove_link b => done
query Printer;;;request_id=q5 => search q5 5 6 1 0 0";

/// What queries were served with before serves those behind them, until a change is accepted.
#[test]
fn what_is_kept_goes_with_a_change(rt: HostRuntime) -> Result<(), Fail> {
    follows(&rt, rt.alloc(), KEPT, AGAIN)
}

const ALONE: &str = "query Printer;;;request_id=q => search q 1 4 2 1 0
begin query Printer;;;request_id=q => search q 1 4 2 1 0
search query Printer;;;request_id=q => search q 1 4 2 1 0
path query Printer;;;starting_trader=b request_id=q => path b q
marks => 1";

/// The calls that keep nothing serve a query with the same.
#[test]
fn a_query_is_served_alone(rt: HostRuntime) -> Result<(), Fail> {
    follows(&rt, rt.alloc(), KEPT, ALONE)
}

/// A query with a path has the link, no mark and no candidates.
#[test]
fn a_path_is_passed_on(rt: HostRuntime) -> Result<(), Fail> {
    follows(
        &rt,
        rt.alloc(),
        KEPT,
        "query Printer;;;starting_trader=b request_id=q => path b q",
    )
}
