//! Commands on logs over texts and sinks in memory, with every status but the one when out of memory.

ghost use Rattle.std.specs.Prelude.{◌≤◌};

use std::alloc::Global;
use std::process::Abort;
use std::test::Fail;
use td_audit_run::run_log;
use td_cdr::{List, Memory, Octets, Text};
use td_make::make_file;
use td_out::{MemSink, MemTexts};

/// The file of the worked queries.
const PRINTERS: &str = "address h 9\ntrader A\ntype Printer IDL:Printer:1.0\n\
    offer Printer ref:IDL:Printer:1.0,h,9,p1\n\
    offer Printer ref:IDL:Printer:1.0,h,9,p2\n";

/// A file whose third line doesn't fit.
const BROKEN: &str = "address h 9\ntrader A\ntype Printer\n";

/// A query for the printers, of at most ten.
const QUERY: &str =
    "47494f50010000000000004c00000000000000010100000000000003412f4c00000000067175657279000000\
    00000000000000085072696e746572000000000100000000000000010000000000000000000000000000000a";

/// Its reply, with two offers.
const FOUND: &str =
    "47494f500100000100000090000000000000000100000000000000020000001049444c3a5072696e7465723a\
    312e300000000001000000000000001200010000000000026800000900000002703100000000000000000010\
    49444c3a5072696e7465723a312e300000000001000000000000001200010000000000026800000900000002\
    703200000000000000000001000000000000000000000000";

/// The same with p1 for p2.
const FOUND_OTHER: &str =
    "47494f500100000100000090000000000000000100000000000000020000001049444c3a5072696e7465723a\
    312e300000000001000000000000001200010000000000026800000900000002703100000000000000000010\
    49444c3a5072696e7465723a312e300000000001000000000000001200010000000000026800000900000002\
    703100000000000000000001000000000000000000000000";

/// The logs, by the names of their texts.
const LOGS: [(&str, &[&str]); 8] = [
    ("empty", &[]),
    ("right", &["ask A ", QUERY, "\nreply 0 ", FOUND, "\n"]),
    ("unended", &["ask A ", QUERY, "\nreply 0 ", FOUND]),
    (
        "differs",
        &["ask A ", QUERY, "\nreply 0 ", FOUND_OTHER, "\n"],
    ),
    (
        "early",
        &["ask A ", QUERY, "\ndeliver 0\nreply 0 ", FOUND, "\n"],
    ),
    ("unasked", &["reply 0 ", FOUND, "\n"]),
    ("strange", &["ask A 00\n"]),
    ("later", &["ask A ", QUERY, "\nreply 0 ", FOUND, "\nend\n"]),
];

/// A command: its words, and the calls of the sink that fail.
#[derive(Clone, Copy)]
struct Command<'a> {
    words: &'a [&'a str],
    failing: &'a [u64],
}

/// What it answers, writes, and leaves on the faults sink.
#[derive(Clone, Copy)]
struct Expected<'a> {
    status: u8,
    written: &'a str,
    line: &'a str,
}

const fn of<'a>(words: &'a [&'a str]) -> Command<'a> {
    Command {
        words,
        failing: &[],
    }
}

const fn ending<'a>(status: u8, written: &'a str, line: &'a str) -> Expected<'a> {
    Expected {
        status,
        written,
        line,
    }
}

/// A text of parts, with a name.
fn push_named(
    alloc: Global,
    files: &mut List<(Text, Octets)>,
    name: &str,
    parts: &[&str],
) -> Result<(), Memory> {
    let mut text = Vec::new(alloc);
    for part in parts {
        text.extend_from_slice(part.as_bytes())?;
    }
    let name = Text::from_slice(alloc, name.as_bytes())?;
    files.push((name, Octets::from_vec(text)))
}

fn texts(alloc: Global) -> Result<MemTexts, Memory> {
    let mut files = List::new(alloc);
    push_named(alloc, &mut files, "printers", &[PRINTERS])?;
    push_named(alloc, &mut files, "broken", &[BROKEN])?;
    for (name, parts) in LOGS {
        push_named(alloc, &mut files, name, parts)?;
    }
    Ok(MemTexts::new(files, List::new(alloc)))
}

fn words(alloc: Global, words: &[&str]) -> Result<Vec<String>, Memory> {
    let mut all = Vec::new(alloc);
    for word in words {
        all.push(String::from_str(alloc, word)?)?;
    }
    Ok(all)
}

/// Whether a command over these texts does as said.
fn does_with(
    alloc: Global,
    files: &mut MemTexts,
    command: &Command,
    expected: &Expected,
) -> Result<bool, Memory> {
    let args = words(alloc, command.words)?;
    let mut sink = MemSink::new(alloc, List::from_slice(alloc, command.failing)?);
    let mut faults = MemSink::new(alloc, List::new(alloc));
    let status = run_log(alloc, args.as_slice(), files, &mut sink, &mut faults);
    Ok(
        status == expected.status
            && sink.written() == expected.written.as_bytes()
            && faults.written() == expected.line.as_bytes(),
    )
}

fn try_commands(rt: &impl Abort, alloc: Global, cases: &[(Command, Expected)]) -> Result<(), Fail> {
    for (command, expected) in cases {
        let mut files = texts(alloc)?;
        assert!(rt; does_with(alloc, &mut files, command, expected)?);
    }
    Ok(())
}

#[test]
fn verdicts(rt: HostRuntime) -> Result<(), Fail> {
    let cases = [
        (
            of(&["audit", "printers", "empty"]),
            ending(0, "yes 0\n", ""),
        ),
        (
            of(&["audit", "printers", "right"]),
            ending(0, "yes 2\n", ""),
        ),
        (
            of(&["audit", "printers", "unended"]),
            ending(0, "yes 2\n", ""),
        ),
        (
            of(&["audit", "printers", "differs"]),
            ending(12, "no 2 differs\n", "status 12\n"),
        ),
        (
            of(&["audit", "printers", "early"]),
            ending(12, "no 2 network\n", "status 12\n"),
        ),
        (
            of(&["audit", "printers", "unasked"]),
            ending(12, "no 1 open\n", "status 12\n"),
        ),
        (
            of(&["audit", "printers", "strange"]),
            ending(13, "", "line 1: log\n"),
        ),
        (
            of(&["audit", "printers", "later"]),
            ending(13, "", "line 3: log\n"),
        ),
    ];
    try_commands(&rt, rt.alloc(), &cases)
}

/// The log is asked for once the file is accepted.
#[test]
fn words_and_files(rt: HostRuntime) -> Result<(), Fail> {
    let cases = [
        (of(&[]), ending(2, "", "usage\n")),
        (of(&["audit"]), ending(2, "", "usage\n")),
        (of(&["audit", "printers"]), ending(2, "", "usage\n")),
        (
            of(&["audit", "printers", "right", "x"]),
            ending(2, "", "usage\n"),
        ),
        (
            of(&["check", "printers", "right"]),
            ending(2, "", "usage\n"),
        ),
        (of(&["make", "1"]), ending(2, "", "usage\n")),
        (of(&["log"]), ending(2, "", "usage\n")),
        (of(&["log", "0"]), ending(2, "", "usage\n")),
        (of(&["log", "01"]), ending(2, "", "usage\n")),
        (of(&["log", "65"]), ending(2, "", "usage\n")),
        (
            of(&["audit", "broken", "absent"]),
            ending(3, "", "line 3: words\n"),
        ),
        (
            of(&["audit", "absent", "right"]),
            ending(10, "", "status 10\n"),
        ),
        (
            of(&["audit", "printers", "absent"]),
            ending(10, "", "status 10\n"),
        ),
    ];
    try_commands(&rt, rt.alloc(), &cases)
}

/// The same with a sink whose first call fails.
const fn failing<'a>(words: &'a [&'a str]) -> Command<'a> {
    Command {
        words,
        failing: &[1],
    }
}

/// The status is 7 whatever the verdict.
#[test]
fn failing_sinks(rt: HostRuntime) -> Result<(), Fail> {
    let seven = ending(7, "", "status 7\n");
    let cases = [
        (failing(&["audit", "printers", "right"]), seven),
        (failing(&["audit", "printers", "differs"]), seven),
        (failing(&["log", "1"]), seven),
    ];
    try_commands(&rt, rt.alloc(), &cases)
}

/// What `log N` prints.
fn made_log(alloc: Global, count: &str) -> Result<Octets, Memory> {
    let mut none = MemTexts::new(List::new(alloc), List::new(alloc));
    let mut log = MemSink::new(alloc, List::new(alloc));
    let mut faults = MemSink::new(alloc, List::new(alloc));
    let args = words(alloc, &["log", count])?;
    if run_log(alloc, args.as_slice(), &mut none, &mut log, &mut faults) != 0 {
        return Err(Memory);
    }
    Octets::from_slice(alloc, log.written())
}

/// Whether what `log N` prints has this verdict over the file that `make N` prints.
fn is_audited(alloc: Global, count: u32, word: &str, content: &str) -> Result<bool, Memory>
    requires least { 1 ≤ count }
    requires most { count ≤ 64 }
{
    let mut files = List::new(alloc);
    files.push((Text::from_slice(alloc, b"file")?, make_file(alloc, count)?))?;
    files.push((Text::from_slice(alloc, b"log")?, made_log(alloc, word)?))?;
    let mut files = MemTexts::new(files, List::new(alloc));
    does_with(
        alloc,
        &mut files,
        &of(&["audit", "file", "log"]),
        &ending(0, content, ""),
    )
}

#[test]
fn made_logs(rt: HostRuntime) -> Result<(), Fail> {
    assert!(rt; is_audited(rt.alloc(), 1, "1", "yes 6\n")?);
    assert!(rt; is_audited(rt.alloc(), 2, "2", "yes 20\n")?);
    assert!(rt; is_audited(rt.alloc(), 3, "3", "yes 42\n")?);
    Ok(())
}
