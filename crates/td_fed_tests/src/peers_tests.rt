//! What calls of peers give by a script.

use crate::checking::{Case, check};
use std::process::Abort;
use std::test::Fail;

/// Scripts, the number of the call that fails, calls; and what they give, how many fail and how many entries are left:
/// a call of each kind, an offer, the entries of one object in order and none behind them, an object without an entry
/// and one without a profile, an entry that is no answer, entries of another kind, a second call that fails and takes
/// no entry, a first one that fails, and no script.
const PLAYS: &str =
    "a:x a:seven a:nobody a:nobody;0;query:a value:a register:a resolve:a => x7rr 0 0
a:offer b:x;0;query:a => 1 0 1
a:x b:z a:y;0;query:a query:a query:b query:a => xyz. 1 0
a:x;0;query:b query: query:a => ..x 2 0
a:failed a:x;0;query:a query:a => .x 1 0
a:seven a:x a:seven a:x a:nobody a:y;0;query:a value:a register:a resolve:a query:a query:a => .....y 5 0
a:x a:y;2;query:a query:a query:a => x.y 1 0
a:seven;1;value:b value:a => .7 1 0
;0;query:a value:a register:a resolve:a => .... 4 0";

#[test]
fn peers_answer_by_their_script(rt: HostRuntime) -> Result<(), Fail> {
    check(&rt, rt.alloc(), Case::Play, PLAYS)
}

const BORROWED: &str = "a:x a:y;0;borrowed:a query:a => xy 0 0";

/// Peers that are borrowed answer as they do themselves.
#[test]
fn borrowed_peers_answer(rt: HostRuntime) -> Result<(), Fail> {
    check(&rt, rt.alloc(), Case::Play, BORROWED)
}
