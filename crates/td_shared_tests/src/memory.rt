//! A query that runs out of memory keeps no iterator.

ghost use Rattle.std.specs.Prelude.{[]};

use crate::connection::{Connection, is_given, is_given_with};
use crate::opening::server_of;
use std::alloc::Global;
use std::process::Abort;
use std::sync::Wait;
use std::test::Fail;
use td_cdr::{Boxed, List, Memory, Text};
use td_desk::SharedDesk;
use td_ops::Query;
use td_shared::{KeptSharedJournal, SharedJournal};
use td_value::{Any, Ior, TypeCode};
use td_walk::{PeerFault, Peers, SubAnswer};

/// An offer whose only property is evaluated.
const FILE: &str = "\
    address h 9\n\
    trader A\n\
    type P IDL:P:1.0\n\
    prop normal ulong Q\n\
    offer P ref:IDL:P:1.0,h,9,p1\n\
    dynamic ulong Q ref:IDL:E:1.0,h,9,q\n";

/// A query for offers of which none is wanted in the reply, so that an iterator has all; the property is asked for.
const QUERY: &str = "\
    47494f50010000000000004c00000000000000010100000000000003412f4c000000000671756572790000000000\
    000000000002500000000000000751203d3d203100000000000100000000000000000000000000000000";

/// NO_MEMORY; it may be that the query was done, since it was marked.
const NO_MEMORY: &str = "\
    47494f5001000001000000380000000000000001000000020000002049444c3a6f6d672e6f72672f434f5242412f\
    4e4f5f4d454d4f52593a312e30000000000000000002";

/// A LocateRequest for the first iterator, and a query that asks for no property.
const AFTERWARDS: &str = "\
    47494f50010000030000000d0000000200000005412f492f3147494f500100000000000048000000000000000301\
    00000000000003412f4c000000000671756572790000000000000000000002500000000000000100000000000000\
    0100000000000000000000000000000000";

/// It is unknown, and the iterator of the query has the second number.
const SECOND: &str = "\
    47494f500100000400000008000000020000000047494f5001000001000000680000000000000003000000000000\
    00000000002949444c3a6f6d672e6f72672f436f7354726164696e672f4f666665724974657261746f723a312e30\
    0000000000000001000000000000001500010000000000026800000900000005412f492f3200000000000000";

/// Peers for whose answers there is no memory.
#[derive(Drop)]
struct OutOfMemory {}

impl Peers for OutOfMemory {
    ghost calls = { λ _. [] };

    ghost faults = { λ _. 0 };

    ghost same = { λ _ _. Unit {0} };

    ghost same_self = { λ _. tt };

    ghost same_on = { λ _ _ _ _ _. tt };

    fn query(&mut self, _alloc: Global, _target: &Ior, _q: &Query) -> Result<SubAnswer, PeerFault> {
        Err(PeerFault::Memory)
    }

    fn eval_dp(
        &mut self,
        _alloc: Global,
        _evaluator: &Ior,
        _name: &Text,
        _returned: &TypeCode,
        _extra: &Any,
    ) -> Result<Boxed<Any>, PeerFault> {
        Err(PeerFault::Memory)
    }

    fn register_of(&mut self, _alloc: Global, _lookup: &Ior) -> Result<Ior, PeerFault> {
        Err(PeerFault::Memory)
    }

    fn resolve(
        &mut self,
        _alloc: Global,
        _register: &Ior,
        _name: &List<Text>,
    ) -> Result<Ior, PeerFault> {
        Err(PeerFault::Memory)
    }

    fn tell_gifts(&self) {}
}

/// Whether no iterator stands on the desk behind a query that ran out of memory.
fn keeps_none<R: Wait>(rt: &R, alloc: Global) -> Result<bool, Fail> {
    let (desk, pass) = SharedDesk::open(alloc)?;
    let mut connection = Connection {
        desk: &desk,
        pass,
        noted: KeptSharedJournal::empty(alloc),
    };
    let mut server = match server_of(alloc, FILE.as_bytes()) {
        Ok(server) => server,
        Err(_) => return Ok(false),
    };
    let sent = hex::decode(alloc, QUERY.as_bytes())?;
    let given = hex::decode(alloc, NO_MEMORY.as_bytes())?;
    let wants = is_given_with(
        rt,
        alloc,
        &mut server,
        &mut connection,
        &mut OutOfMemory {},
        sent.as_slice(),
        given.as_slice(),
    )?;
    let sent = hex::decode(alloc, AFTERWARDS.as_bytes())?;
    let given = hex::decode(alloc, SECOND.as_bytes())?;
    let second = is_given(
        rt,
        alloc,
        &mut server,
        &mut connection,
        sent.as_slice(),
        given.as_slice(),
    )?;
    Ok(wants && second)
}

#[test]
fn a_query_that_runs_out_of_memory_keeps_no_iterator(rt: HostRuntime) -> Result<(), Fail> {
    assert!(rt; keeps_none(&rt, rt.alloc())?);
    Ok(())
}
