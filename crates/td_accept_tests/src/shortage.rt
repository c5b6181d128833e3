//! Connections that aren't taken at once: the network failed over them, or the system is short of something.

use crate::fake_net::{FakeNet, PLAIN, Plan};
use td_accept::{Accept, TcpAccept};

/// Whether a connection is taken.
fn takes(net: &&FakeNet) -> bool {
    let mut accept = TcpAccept::new(net, None);
    if accept.bind(b"127.0.0.1", 9).is_err() {
        return false;
    }
    match accept.next() {
        Ok(Some(visitor)) => {
            drop(visitor);
            true
        }
        _ => false,
    }
}

/// Whether a connection is taken by this plan, after so many calls of `accept`, and so many milliseconds of sleep.
fn goes(plan: Plan, taken: bool, accepts: u64, slept: u64) -> bool {
    let net = FakeNet::new(plan);
    let good = takes(&&net) == taken;
    good && net.accepts() == accepts && net.slept() == slept
}

/// EINTR, ENONET, EPROTO, ENOPROTOOPT, EOPNOTSUPP, ENETDOWN, ENETUNREACH, ECONNABORTED, EHOSTDOWN and EHOSTUNREACH are
/// errors of the new connection alone.
#[test]
fn failed_connections_are_passed_over(rt: HostRuntime) {
    let plan = Plan {
        accepts: &[4, 64, 71, 92, 95, 100, 101, 103, 112, 113],
        ..PLAIN
    };
    assert!(rt; goes(plan, true, 11, 0));
}

/// ENOMEM, ENFILE, EMFILE and ENOBUFS pass.
#[test]
fn a_short_system_is_waited_for(rt: HostRuntime) {
    let plan = Plan {
        accepts: &[12, 23, 24, 105],
        ..PLAIN
    };
    assert!(rt; goes(plan, true, 5, 400));
}

#[test]
fn it_is_waited_for_30_seconds(rt: HostRuntime) {
    let plan = Plan { last: 24, ..PLAIN };
    assert!(rt; goes(plan, false, 301, 30_000));
}

/// EBADF, EINVAL and EPERM are faults of the listener.
#[test]
fn other_errors_are_faults(rt: HostRuntime) {
    for last in [9, 22, 1] {
        assert!(rt; goes(Plan { last, ..PLAIN }, false, 1, 0));
    }
}

/// A second handle is waited for too. One that can't be had lets its connection go, and the next is taken.
#[test]
fn a_connection_without_a_second_handle_is_let_go(rt: HostRuntime) {
    let plan = Plan {
        clones_failing: 3,
        clone_error: 24,
        ..PLAIN
    };
    let mut good = goes(plan, true, 1, 300);
    good &= goes(
        Plan {
            clone_error: 9,
            ..plan
        },
        true,
        4,
        0,
    );
    let long = Plan {
        clones_failing: 303,
        ..plan
    };
    good &= goes(long, true, 4, 30_000);
    assert!(rt; good);
}

/// A client that takes nothing for 60 seconds is a fault of its sink.
#[test]
fn writes_to_clients_have_a_limit_of_time(rt: HostRuntime) {
    let net = FakeNet::new(PLAIN);
    let taken = takes(&&net);
    assert!(rt; taken && net.write_limit() == 60_000);
}
