//! A reply that is longer than what is held.

use crate::messages::PLAIN;
use crate::story::runs;
use std::alloc::Global;
use std::test::Fail;
use td_cdr::{List, Memory, Octets};

/// A message that begins so, with 70,000 bytes behind it.
fn long(alloc: Global, front: &[u8]) -> Result<Vec<u8>, Memory> {
    let mut all = Vec::new(alloc);
    all.extend_from_slice(front)?;
    for _ in 0..70 {
        all.extend_from_slice(&[7; 1000])?;
    }
    Ok(all)
}

/// The front of a Request with 70,000 bytes of parameters.
const LONG_REQUEST: &[u8] =
    b"GIOP\x01\x00\x00\x00\x00\x01\x11\x90\x00\x00\x00\x00\x00\x00\x00\x05\x01\x00\x00\x00\x00\x00\x00\x01k\x00\x00\x00\x00\x00\x00\x02e\x00\x00\x00\x00\x00\x00\x00";

/// The front of its echo.
const LONG_REPLY: &[u8] =
    b"GIOP\x01\x00\x00\x01\x00\x01\x11\x7c\x00\x00\x00\x00\x00\x00\x00\x05\x00\x00\x00\x00";

/// Whether a long Request is echoed.
fn long_comes(alloc: Global) -> Result<bool, Memory> {
    let sent = Octets::from_vec(long(alloc, LONG_REQUEST)?);
    let given = long(alloc, LONG_REPLY)?;
    runs(alloc, sent, List::new(alloc), &PLAIN, &given)
}

#[test]
fn a_reply_above_64_kib_is_written(rt: HostRuntime) -> Result<(), Fail> {
    assert!(rt; long_comes(rt.alloc())?, "70,000 bytes");
    Ok(())
}
