//! Commands that print: what a file opens, a generated file, and a drill of it.

use crate::commands::{Expected, does, does_with, ending, piped, words};
use std::alloc::Global;
use std::test::Fail;
use td_cdr::{List, Memory, Octets, Text};
use td_command::run;
use td_out::{MemSink, MemSource, MemTexts, MemWords};
use td_wire::MemWire;

/// The references of the objects of a trader A that is reached at h, port 9.
const REFERENCES: &[u8] =
    b"lookup IOR:000000000000002249444c3a6f6d672e6f72672f436f7354726164696e672f4c6f6f6b75703a312e30000\
    00000000001000000000000001300010000000000026800000900000003412f4c\n\
    register IOR:000000000000002449444c3a6f6d672e6f72672f436f7354726164696e672f52656769737465723a312\
    e300000000001000000000000001300010000000000026800000900000003412f52\n\
    link IOR:000000000000002049444c3a6f6d672e6f72672f436f7354726164696e672f4c696e6b3a312e30000000000\
    1000000000000001300010000000000026800000900000003412f4b\n\
    proxy IOR:000000000000002149444c3a6f6d672e6f72672f436f7354726164696e672f50726f78793a312e30000000\
    0000000001000000000000001300010000000000026800000900000003412f50\n\
    admin IOR:000000000000002149444c3a6f6d672e6f72672f436f7354726164696e672f41646d696e3a312e30000000\
    0000000001000000000000001300010000000000026800000900000003412f41\n\
    types IOR:000000000000003649444c3a6f6d672e6f72672f436f7354726164696e675265706f732f53657276696365\
    547970655265706f7369746f72793a312e30000000000000010000000000000013000100000000000268000009000000\
    03412f54\n";

/// The same by IIOP 1.1.
const NEWER: &[u8] =
    b"lookup IOR:000000000000002249444c3a6f6d672e6f72672f436f7354726164696e672f4c6f6f6b75703a312e30000\
    00000000001000000000000001800010100000000026800000900000003412f4c0000000000\n\
    register IOR:000000000000002449444c3a6f6d672e6f72672f436f7354726164696e672f52656769737465723a312\
    e300000000001000000000000001800010100000000026800000900000003412f520000000000\n\
    link IOR:000000000000002049444c3a6f6d672e6f72672f436f7354726164696e672f4c696e6b3a312e30000000000\
    1000000000000001800010100000000026800000900000003412f4b0000000000\n\
    proxy IOR:000000000000002149444c3a6f6d672e6f72672f436f7354726164696e672f50726f78793a312e30000000\
    0000000001000000000000001800010100000000026800000900000003412f500000000000\n\
    admin IOR:000000000000002149444c3a6f6d672e6f72672f436f7354726164696e672f41646d696e3a312e30000000\
    0000000001000000000000001800010100000000026800000900000003412f410000000000\n\
    types IOR:000000000000003649444c3a6f6d672e6f72672f436f7354726164696e675265706f732f53657276696365\
    547970655265706f7369746f72793a312e30000000000000010000000000000018000101000000000268000009000000\
    03412f540000000000\n";

/// The file of one trader.
const RING_OF_ONE: &[u8] = b"address 127.0.0.1 2809\n\
    trader T1\n\
    type Base -\n\
    prop mandatory ulong Cost\n\
    type Sub - Base\n\
    offer Base ref:IDL:Item:1.0,h,9,1.1\n\
    with ulong Cost 10\n\
    offer Sub ref:IDL:Item:1.0,h,9,1.2\n\
    with ulong Cost 2\n\
    offer Base ref:IDL:Item:1.0,h,9,1.3\n\
    with ulong Cost 5\n\
    offer Sub ref:IDL:Item:1.0,h,9,1.4\n\
    with ulong Cost 8\n\
    offer Base ref:IDL:Item:1.0,h,9,1.5\n\
    with ulong Cost 0\n\
    offer Sub ref:IDL:Item:1.0,h,9,1.6\n\
    with ulong Cost 3\n\
    offer Base ref:IDL:Item:1.0,h,9,1.7\n\
    with ulong Cost 6\n\
    offer Sub ref:IDL:Item:1.0,h,9,1.8\n\
    with ulong Cost 9\n\
    offer Base ref:IDL:Item:1.0,h,9,1.9\n\
    with ulong Cost 1\n\
    offer Sub ref:IDL:Item:1.0,h,9,1.10\n\
    with ulong Cost 4\n\
    link next T1 always always\n\
    link chord T1 always always\n";

/// A trader with two types, three offers, of which one is a proxy offer, and a link to itself. Proxy offers aren't
/// supported any more.
const MIXED: &[u8] = b"address h 9\ntrader A\ntype P -\ntype Q - P\n\
    offer P ref:IDL:P:1.0,h,9,p\n\
    offer Q ref:IDL:Q:1.0,h,9,q\n\
    proxy P ref:IDL:omg.org/CosTrading/Lookup:1.0,h,9,B/L all $*\n\
    link l A always always\n\
    set supports_proxy_offers FALSE\n";

/// A query to T1 for offers of the type Sub whose cost is 0, of at most a hundred.
const QUERY: &[u8] = b"GIOP\x01\0\0\0\0\0\0\x50\
    \0\0\0\0\0\0\0\x01\
    \x01\0\0\0\0\0\0\x04\
    T1/L\0\0\0\x06\
    query\0\0\0\0\0\0\0\
    \0\0\0\x04\
    Sub\0\0\0\0\x09\
    Cost < 1\0\0\0\0\
    \0\0\0\x01\0\0\0\0\
    \0\0\0\0\0\0\0\0\
    \0\0\0\x64";

/// Its reply in a ring of three: the tenth offer of T2 and the fourth of T3.
const FOUND: &[u8] = b"GIOP\x01\0\0\x01\0\0\0\x90\
    \0\0\0\0\0\0\0\x01\0\0\0\0\
    \0\0\0\x02\
    \0\0\0\x0dIDL:Item:1.0\0\0\0\0\
    \0\0\0\x01\0\0\0\0\
    \0\0\0\x14\0\x01\0\0\0\0\0\x02h\0\0\x09\0\0\0\x04\
    2.10\
    \0\0\0\0\
    \0\0\0\x0dIDL:Item:1.0\0\0\0\0\
    \0\0\0\x01\0\0\0\0\
    \0\0\0\x13\0\x01\0\0\0\0\0\x02h\0\0\x09\0\0\0\x03\
    3.4\0\
    \0\0\0\0\
    \0\0\0\x01\0\0\0\0\0\0\0\0\
    \0\0\0\0";

/// Texts of which one, called `file`, is this.
fn with_file(alloc: Global, text: Octets) -> Result<MemTexts, Memory> {
    let mut named = List::new(alloc);
    named.push((Text::from_slice(alloc, b"file")?, text))?;
    Ok(MemTexts::new(named, List::new(alloc)))
}

/// Whether it was tried and is so.
fn holds(tried: Result<bool, Memory>) -> bool {
    match tried {
        Ok(content) => content,
        Err(_) => false,
    }
}

/// Whether a command does as said over a file of this text.
fn does_over(
    alloc: Global,
    command: &[&str],
    text: &[u8],
    expected: &Expected,
) -> Result<bool, Memory> {
    let mut files = with_file(alloc, Octets::from_slice(alloc, text)?)?;
    does_with(alloc, &mut files, &piped(command, b""), expected)
}

/// Whether words are no command.
fn is_no_command(alloc: Global, command: &[&str]) -> bool {
    holds(does(alloc, &piped(command, b""), &ending(2, b"", b"usage\n")))
}

/// Whether a word is no number of traders.
fn is_no_number(alloc: Global, number: &str) -> bool {
    is_no_command(alloc, &["make", number]) && is_no_command(alloc, &["drill", number])
}

/// Words that are no number of traders.
const NO_NUMBERS: [&str; 9] = [
    "0",
    "65",
    "01",
    "-1",
    "+1",
    "1 ",
    "",
    "x",
    "99999999999999999999",
];

/// Whether none of these words is a number of traders.
fn are_no_numbers(alloc: Global, words: &[&str]) -> bool {
    for word in words {
        if !is_no_number(alloc, *word) {
            return false;
        }
    }
    true
}

#[test]
fn no_commands(rt: HostRuntime) -> Result<(), Fail> {
    let alloc = rt.alloc();
    assert!(rt; are_no_numbers(alloc, &NO_NUMBERS));
    assert!(rt; is_no_command(alloc, &["make"]));
    assert!(rt; is_no_command(alloc, &["drill", "3", "3"]));
    assert!(rt; is_no_command(alloc, &["check"]));
    assert!(rt; is_no_command(alloc, &["Check", "printers"]));
    Ok(())
}

/// Whether `check` prints this first line and the references of this minor version of IIOP.
fn checks(alloc: Global, text: &[u8], line: &[u8], minor: u8) -> bool {
    let mut expected = ending(0, line, b"");
    if minor == 0 {
        expected.then = REFERENCES;
    } else {
        expected.then = NEWER;
    }
    holds(does_over(alloc, &["check", "file"], text, &expected))
}

#[test]
fn files_are_checked(rt: HostRuntime) -> Result<(), Fail> {
    let alloc = rt.alloc();
    let bare = b"address h 9\ntrader A\n";
    let newer = b"address h 9\niiop 1\ntrader A\n";
    let first = b"trader A types 0 offers 0 links 0\n";
    assert!(rt; checks(alloc, bare, first, 0));
    assert!(rt; checks(alloc, newer, first, 1));
    assert!(rt; checks(alloc, MIXED, b"trader A types 2 offers 3 links 1\n", 0));
    Ok(())
}

/// Whether `check` of this text ends so.
fn check_ends(alloc: Global, text: &[u8], expected: &Expected) -> bool {
    holds(does_over(alloc, &["check", "file"], text, expected))
}

/// A file without traders has no lines. One that is refused, and one that can't be had, print none.
#[test]
fn files_without_lines(rt: HostRuntime) -> Result<(), Fail> {
    let alloc = rt.alloc();
    assert!(rt; check_ends(alloc, b"address h 9\n", &ending(0, b"", b"")));
    let refused = ending(3, b"", b"line 2: words\n");
    assert!(rt; check_ends(alloc, b"address h 9\ntrader\n", &refused));
    let missing = ending(10, b"", b"status 10\n");
    assert!(rt; holds(does(alloc, &piped(&["check", "absent"], b""), &missing)));
    Ok(())
}

#[test]
fn a_ring_of_one_is_made(rt: HostRuntime) -> Result<(), Fail> {
    let made = ending(0, RING_OF_ONE, b"");
    assert!(rt; holds(does(rt.alloc(), &piped(&["make", "1"], b""), &made)));
    Ok(())
}

/// Whether the drill of so many traders prints this line.
fn drills(alloc: Global, count: &str, line: &[u8]) -> bool {
    holds(does(alloc, &piped(&["drill", count], b""), &ending(0, line, b"")))
}

/// The numbers were counted outside this program: a query reaches every trader of a small ring, and nine of a large
/// one.
#[test]
fn rings_are_drilled(rt: HostRuntime) -> Result<(), Fail> {
    let alloc = rt.alloc();
    let one = b"traders 1 offers 10 queries 1 searched 1 repeats 2 returned 6\n";
    assert!(rt; drills(alloc, "1", one));
    let two = b"traders 2 offers 20 queries 2 searched 4 repeats 6 returned 22\n";
    assert!(rt; drills(alloc, "2", two));
    let three = b"traders 3 offers 30 queries 3 searched 9 repeats 12 returned 51\n";
    assert!(rt; drills(alloc, "3", three));
    Ok(())
}

/// A drill is the same each time.
#[test]
fn the_largest_ring_is_drilled_twice(rt: HostRuntime) -> Result<(), Fail> {
    let alloc = rt.alloc();
    let line = b"traders 64 offers 640 queries 64 searched 576 repeats 256 returned 3150\n";
    assert!(rt; drills(alloc, "64", line));
    assert!(rt; drills(alloc, "64", line));
    Ok(())
}

/// Whether a command ends with status 7 where the sink fails at its first write, and prints nothing.
fn fails(alloc: Global, command: &[&str]) -> bool {
    let mut broken = piped(command, b"");
    broken.writes_failing = &[1];
    holds(does(alloc, &broken, &ending(7, b"", b"status 7\n")))
}

#[test]
fn sinks_fail(rt: HostRuntime) -> Result<(), Fail> {
    let alloc = rt.alloc();
    assert!(rt; fails(alloc, &["make", "1"]));
    assert!(rt; fails(alloc, &["drill", "1"]));
    assert!(rt; fails(alloc, &["check", "printers"]));
    Ok(())
}

/// What a command prints.
fn output(alloc: Global, files: &mut MemTexts, command: &[&str]) -> Result<Octets, Memory> {
    let args = words(alloc, command)?;
    let mut source = MemSource::new(List::new(alloc), List::new(alloc), List::new(alloc));
    let mut sink = MemSink::new(alloc, List::new(alloc));
    let mut faults = MemSink::new(alloc, List::new(alloc));
    let mut wire = MemWire::new(alloc, List::new(alloc), List::new(alloc));
    let mut words = MemWords::new(List::new(alloc));
    let _status = run(
        alloc,
        args.as_slice(),
        files,
        &mut source,
        &mut sink,
        &mut faults,
        &mut wire,
        &mut words,
    );
    Octets::from_slice(alloc, sink.written())
}

/// Texts of which one, called `file`, is what `make` prints for so many traders.
fn with_ring(alloc: Global, count: &str) -> Result<MemTexts, Memory> {
    let mut none = MemTexts::new(List::new(alloc), List::new(alloc));
    let text = output(alloc, &mut none, &["make", count])?;
    with_file(alloc, text)
}

/// Whether a session over the ring that `make 3` prints answers the query.
fn is_served(alloc: Global) -> Result<bool, Memory> {
    let mut files = with_ring(alloc, "3")?;
    let command = piped(&["pipe", "file"], QUERY);
    does_with(alloc, &mut files, &command, &ending(0, FOUND, b""))
}

/// A query over the ring that `make 3` prints is passed on from trader to trader.
#[test]
fn a_made_ring_is_served(rt: HostRuntime) -> Result<(), Fail> {
    assert!(rt; holds(is_served(rt.alloc())));
    Ok(())
}

fn count_lines(text: &[u8]) -> usize {
    text.iter().filter(|byte| **byte == b'\n').count()
}

/// Whether `check` prints so many lines of a ring of so many traders.
fn has_lines(alloc: Global, count: &str, lines: usize) -> Result<bool, Memory> {
    let mut files = with_ring(alloc, count)?;
    let text = output(alloc, &mut files, &["check", "file"])?;
    Ok(count_lines(text.as_slice()) == lines)
}

/// A line for each trader, and six for its references.
#[test]
fn a_made_ring_is_checked(rt: HostRuntime) -> Result<(), Fail> {
    assert!(rt; holds(has_lines(rt.alloc(), "7", 49)));
    Ok(())
}
