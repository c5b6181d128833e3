//! The logs that are made of generated files.

ghost use Rattle.std.specs.Prelude.{◌≤◌};
ghost use Rattle.td_objects.specs.References.{IsAddress};

use crate::checking::{audit_file, is_content};
use std::alloc::Global;
use std::process::Abort;
use std::test::Fail;
use td_audit::{Verdict, make_log};
use td_cdr::{Memory, Octets};
use td_file::{Opened, read_file};
use td_make::make_file;

/// The log of what a file opened.
fn log_of_opened(alloc: Global, opened: Opened) -> Result<Octets, Memory>
    requires { IsAddress opened.home }
{
    let Opened { home, seed, solo } = opened;
    drop(seed);
    make_log(alloc, solo, home)
}

/// The log of the traders of a file.
fn log_of_file(alloc: Global, file: &[u8]) -> Result<Octets, Memory> {
    if file.len() > 1_000_000 {
        return Err(Memory);
    }
    match read_file(alloc, file) {
        Ok(opened) => log_of_opened(alloc, opened),
        Err(_) => Err(Memory),
    }
}

/// The verdict on the log of a ring of so many traders.
fn audit_ring(alloc: Global, count: u32) -> Result<Verdict, Memory>
    requires least { 1 ≤ count }
    requires most { count ≤ 64 }
{
    let file = make_file(alloc, count)?;
    let log = log_of_file(alloc, file.as_slice())?;
    Ok(audit_file(alloc, file.as_slice(), log.as_slice()))
}

fn is_audited(alloc: Global, count: u32, content: &str) -> bool
    requires least { 1 ≤ count }
    requires most { count ≤ 64 }
{
    match audit_ring(alloc, count) {
        Ok(verdict) => is_content(verdict, content),
        Err(_) => false,
    }
}

/// One trader asks itself twice, and finds that it was asked: six lines.
#[test]
fn one_trader(rt: HostRuntime) -> Result<(), Fail> {
    assert!(rt; is_audited(rt.alloc(), 1, "yes 6"));
    Ok(())
}

/// Two and three: each Ask has a call for each link of each trader that it searches.
#[test]
fn small_rings(rt: HostRuntime) -> Result<(), Fail> {
    assert!(rt; is_audited(rt.alloc(), 2, "yes 20"));
    assert!(rt; is_audited(rt.alloc(), 3, "yes 42"));
    Ok(())
}

/// The most traders: with five hops each Ask makes twelve calls, each of which is delivered and answered.
#[test]
fn largest_ring(rt: HostRuntime) -> Result<(), Fail> {
    assert!(rt; is_audited(rt.alloc(), 64, "yes 1664"));
    Ok(())
}
