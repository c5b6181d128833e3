//! Cardinalities and hop counts below, at and above their maxima.

use crate::lines::{EMPTY, follows};
use crate::policies::stated_of;
use crate::telling::{put_names, put_number};
use std::alloc::Global;
use std::test::Fail;
use td_cdr::Memory;
use td_policy::{Attributes, Effective, effective_of};

/// Of each number that is stated, below its maximum, at it and above: the hop count and the cardinalities of matching,
/// returning and searching that count, and the names of those that are above.
const STATED: &str = "set max_match_card 200 =
set max_return_card 300 =
set max_search_card 400 =
serve hop_count:number:0 = 0 200 300 400 -
serve hop_count:number:9 = 9 200 300 400 -
serve hop_count:number:10 = 10 200 300 400 -
serve hop_count:number:11 = 10 200 300 400 hop_count
serve hop_count:number:4294967295 = 10 200 300 400 hop_count
serve match_card:number:0 = 5 0 300 400 -
serve match_card:number:199 = 5 199 300 400 -
serve match_card:number:200 = 5 200 300 400 -
serve match_card:number:201 = 5 200 300 400 match_card
serve return_card:number:299 = 5 200 299 400 -
serve return_card:number:300 = 5 200 300 400 -
serve return_card:number:301 = 5 200 300 400 return_card
serve search_card:number:399 = 5 200 300 399 -
serve search_card:number:400 = 5 200 300 400 -
serve search_card:number:401 = 5 200 300 400 search_card";

#[test]
fn stated_numbers(rt: HostRuntime) -> Result<(), Fail> {
    follows(&rt, rt.alloc(), &EMPTY, STATED)
}

/// The defaults count where nothing is stated, unless they are above the maximum.
const NOTHING: &str = "serve - = 5 1000 1000 10000 -
set max_match_card 200 =
set max_return_card 300 =
set max_search_card 400 =
serve - = 5 200 300 400 -";

#[test]
fn nothing_stated(rt: HostRuntime) -> Result<(), Fail> {
    follows(&rt, rt.alloc(), &EMPTY, NOTHING)
}

/// A stated rule always, hop count 99 and cardinalities of 999, where the maxima are below.
const ABOVE: &str = "set max_match_card 200 =
set max_return_card 300 =
set max_search_card 400 =
set max_follow_policy 1 =
serve search_card:number:999 return_card:number:999 match_card:number:999 link_follow_rule:rule:2 hop_count:number:99 = 10 200 300 400 hop_count,link_follow_rule,match_card,return_card,search_card";

#[test]
fn all_above(rt: HostRuntime) -> Result<(), Fail> {
    follows(&rt, rt.alloc(), &EMPTY, ABOVE)
}

/// Tells what a query is served with where these policies are stated.
pub(crate) fn serve(
    alloc: Global,
    attributes: &Attributes,
    words: &str,
    content: &mut Vec<u8>,
) -> Result<(), Memory> {
    let stated = stated_of(alloc, words)?;
    let effective = effective_of(alloc, stated.get(), attributes)?;
    put_effective(alloc, content, &effective)
}

fn put_effective(alloc: Global, content: &mut Vec<u8>, e: &Effective) -> Result<(), Memory> {
    for number in [e.hops, e.match_card, e.return_card, e.search_card] {
        put_number(alloc, content, Some(number as u64))?;
    }
    put_names(content, e.over.as_slice())
}
