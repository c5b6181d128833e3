//! Many iterators of one connection.

use crate::connection::{Connection, replies};
use crate::opening::opened;
use std::alloc::Global;
use std::process::Abort;
use std::sync::Wait;
use std::test::Fail;
use td_cdr::Memory;
use td_desk::SharedDesk;
use td_shared::{KeptSharedJournal, SharedJournal};

/// A query for at most two offers in the reply.
pub const QUERY: &str = "\
    47494f50010000000000004800000000000000010100000000000003412f4c000000000671756572790000000000\
    0000000000025000000000000001000000000000000100000000000000000000000000000002";

/// LocateRequests for the iterators 1, 2 and 4,097.
const LOCATES: &str = "\
    47494f50010000030000000d0000000200000005412f492f3147494f50010000030000000d000000030000000541\
    2f492f3247494f5001000003000000100000000400000008412f492f34303937";

/// The first is unknown, and the others are there.
const LOCATED: &str = "\
    47494f500100000400000008000000020000000047494f500100000400000008000000030000000147494f500100\
    0004000000080000000400000001";

/// So many copies of a message.
pub fn copies(alloc: Global, digits: &str, count: usize) -> Result<Vec<u8>, Fail> {
    let message = hex::decode(alloc, digits.as_bytes())?;
    let mut all = Vec::new(alloc);
    for _ in 0..count {
        all.extend_from_slice(message.as_slice())?;
    }
    Ok(all)
}

/// What a connection to a trader with so many offers is given for these bytes, where its stream ends as closed.
pub fn given<'d, R: Wait>(
    rt: &R,
    alloc: Global,
    offers: u32,
    connection: &mut Connection<'d>,
    sent: &[u8],
) -> Result<Vec<u8>, Memory> {
    let mut server = opened(alloc, offers)?;
    replies(rt, alloc, &mut server, connection, sent)
}

/// Whether 4,097 queries leave the iterators from the second on.
fn drops_the_oldest<R: Wait>(rt: &R, alloc: Global) -> Result<bool, Fail> {
    let (desk, pass) = SharedDesk::open(alloc)?;
    let mut connection = Connection {
        desk: &desk,
        pass,
        noted: KeptSharedJournal::empty(alloc),
    };
    let mut sent = copies(alloc, QUERY, 4097)?;
    let locates = hex::decode(alloc, LOCATES.as_bytes())?;
    sent.extend_from_slice(locates.as_slice())?;
    let located = hex::decode(alloc, LOCATED.as_bytes())?;
    let written = given(rt, alloc, 3, &mut connection, sent.as_slice())?;
    Ok(written.as_slice().ends_with(located.as_slice()))
}

#[test]
fn an_iterator_more_drops_the_oldest(rt: HostRuntime) -> Result<(), Fail> {
    assert!(rt; drops_the_oldest(&rt, rt.alloc())?);
    Ok(())
}
