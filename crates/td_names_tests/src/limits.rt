//! The limits: names at theirs by calls, the others by the functions that judge them.

use crate::lines::follows;
use std::test::Fail;
use td_names::{no_more_bindings, no_more_changes, no_more_contexts};

/// 64 components, and ids and kinds of 256 bytes, are within the limits.
const NAMES: &str = "1 bind_context s N/1@here:1 = done
1 bind s*63/x p@there:9 = done
1 resolve s*63/x = p@there:9
1 resolve s*64/x = IMP_LIMIT
1 resolve s*64 = N/1@here:1
1 bind i^256.k^256 p@there:9 = done
1 resolve s/i^256.k^256 = p@there:9
1 bind i^257 p@there:9 = IMP_LIMIT
1 bind i.k^257 p@there:9 = IMP_LIMIT
1 rebind i^257/x p@there:9 = IMP_LIMIT
1 bind_context x/i^257 p@there:9 = IMP_LIMIT
1 unbind s*65 = IMP_LIMIT
1 bind_new_context s*65 = IMP_LIMIT
changes = 3";

#[test]
fn names(rt: HostRuntime) -> Result<(), Fail> {
    follows(&rt, rt.alloc(), NAMES)
}

#[test]
fn contexts_made_bindings_and_changes(rt: HostRuntime) {
    assert!(rt; !no_more_contexts(0) && !no_more_contexts(65_535) && no_more_contexts(65_536));
    assert!(rt; !no_more_bindings(0) && !no_more_bindings(999_999) && no_more_bindings(1_000_000));
    assert!(rt; !no_more_changes(0) && !no_more_changes(999_999) && no_more_changes(1_000_000));
}
