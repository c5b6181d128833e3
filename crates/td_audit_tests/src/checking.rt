//! Verdicts against the words for them.

ghost use Rattle.std.specs.Prelude.{◌≤◌, length};
ghost use Rattle.td_objects.specs.References.{IsAddress};

use crate::logs::log_of;
use std::alloc::Global;
use std::process::Abort;
use std::test::Fail;
use td_audit::{Cause, Verdict, audit};
use td_cdr::Memory;
use td_file::{Opened, read_file};
use td_net::NetFault;

/// How long a text may be.
const LONGEST: usize = 60_000_000;

fn cause_word(cause: Cause) -> &'static str {
    match cause {
        Cause::Net(NetFault::NoTrader) => "trader",
        Cause::Net(NetFault::NoCall) => "call",
        Cause::Net(NetFault::WrongState) => "state",
        Cause::Net(NetFault::Memory) => "memory",
        Cause::Refused => "refused",
        Cause::Differs => "differs",
        Cause::NotEnded => "open",
    }
}

/// Whether a verdict is told so: `yes N`, `no N CAUSE` or `line N`.
pub(crate) fn is_content(verdict: Verdict, content: &str) -> bool {
    let (word, rest) = content.split_once(' ').unwrap_or((content, ""));
    let (number, cause) = rest.split_once(' ').unwrap_or((rest, ""));
    let number = number.parse::<u32>().unwrap_or(0);
    match verdict {
        Verdict::Yes(lines) => word == "yes" && number == lines,
        Verdict::No(line, why) => word == "no" && number == line && cause == cause_word(why),
        Verdict::Line(line) => word == "line" && number == line,
        Verdict::Memory => false,
    }
}

/// The verdict on a log over what a file opened.
fn audit_opened(alloc: Global, opened: Opened, log: &[u8]) -> Verdict
    requires home { IsAddress opened.home }
    requires short { length log.now ≤ LONGEST }
{
    let Opened { home, seed, solo } = opened;
    drop(seed);
    audit(alloc, solo, home, log)
}

/// The verdict on a log over the traders of a file; `Memory` where the file is refused.
pub(crate) fn audit_file(alloc: Global, file: &[u8], log: &[u8]) -> Verdict {
    if file.len() > LONGEST || log.len() > LONGEST {
        return Verdict::Memory;
    }
    match read_file(alloc, file) {
        Ok(opened) => audit_opened(alloc, opened, log),
        Err(_) => Verdict::Memory,
    }
}

/// Whether the log of a row has its verdict: `VERDICT <= LINE/LINE`.
fn is_row(alloc: Global, file: &[u8], row: &str) -> Result<bool, Memory> {
    let (content, lines) = row.split_once(" <= ").unwrap_or((row, ""));
    let log = log_of(alloc, lines)?;
    let verdict = audit_file(alloc, file, log.as_slice());
    Ok(is_content(verdict, content))
}

/// Checks the rows of a text, a line each, over the traders of a file.
pub(crate) fn check(rt: &impl Abort, alloc: Global, file: &str, rows: &str) -> Result<(), Fail> {
    for row in rows.lines() {
        assert!(rt; is_row(alloc, file.as_bytes(), row) == Ok(true), "{row}");
    }
    Ok(())
}
