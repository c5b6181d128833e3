//! Sessions, whole.

use crate::lines::{Reported, answers, nothing_content, put_line};
use crate::vectors::{BODIES, CYCLE, FIRST, LISTS, OBJECTS, PRINTERS};
use std::alloc::Global;
use std::process::Abort;
use std::test::Fail;
use td_cdr::Memory;

/// Whether a session answers so, whole and in pieces.
fn is_so(alloc: Global, content: &Reported) -> Result<bool, Memory> {
    Ok(answers(alloc, content, 100_000)? && answers(alloc, content, 7)?)
}

/// The first line with which a session doesn't answer as the lines up to it say.
fn first_wrong<'l>(alloc: Global, lines: &'l str) -> Result<&'l str, Fail> {
    let mut content = nothing_content(alloc);
    for line in lines.lines() {
        put_line(alloc, &mut content, line)?;
        if !is_so(alloc, &content)? {
            return Ok(line);
        }
    }
    Ok("")
}

#[test]
fn a_cycle(rt: HostRuntime) -> Result<(), Fail> {
    let wrong = first_wrong(rt.alloc(), CYCLE)?;
    assert!(rt; wrong.is_empty(), "at {wrong}");
    Ok(())
}

#[test]
fn a_name_that_is_not_bound(rt: HostRuntime) -> Result<(), Fail> {
    let wrong = first_wrong(rt.alloc(), FIRST)?;
    assert!(rt; wrong.is_empty(), "at {wrong}");
    Ok(())
}

#[test]
fn lists(rt: HostRuntime) -> Result<(), Fail> {
    let wrong = first_wrong(rt.alloc(), LISTS)?;
    assert!(rt; wrong.is_empty(), "at {wrong}");
    Ok(())
}

#[test]
fn objects(rt: HostRuntime) -> Result<(), Fail> {
    let wrong = first_wrong(rt.alloc(), OBJECTS)?;
    assert!(rt; wrong.is_empty(), "at {wrong}");
    Ok(())
}

#[test]
fn bodies_at_fault(rt: HostRuntime) -> Result<(), Fail> {
    let wrong = first_wrong(rt.alloc(), BODIES)?;
    assert!(rt; wrong.is_empty(), "at {wrong}");
    Ok(())
}

#[test]
fn printers(rt: HostRuntime) -> Result<(), Fail> {
    let wrong = first_wrong(rt.alloc(), PRINTERS)?;
    assert!(rt; wrong.is_empty(), "at {wrong}");
    Ok(())
}
