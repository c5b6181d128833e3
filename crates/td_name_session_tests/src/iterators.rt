//! The 257th iterator drops the first, and no number is given twice.

use crate::lines::{answers, session_of};
use crate::vectors::MANY;
use std::process::Abort;
use std::test::Fail;

#[test]
fn a_new_iterator_drops_the_oldest(rt: HostRuntime) -> Result<(), Fail> {
    let alloc = rt.alloc();
    let content = session_of(alloc, MANY)?;
    assert!(rt; answers(alloc, &content, 100_000)?, "iterators");
    Ok(())
}
