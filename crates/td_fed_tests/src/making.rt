//! Files, from words and from lines with `|` for each line feed.

use crate::checking::Case;
use crate::words::two;
use std::alloc::Global;
use td_cdr::Memory;

/// Three traders with the same types, each linked to the next: an ordinary offer, one with a dynamic property, and a
/// proxy offer.
const GROUP: &str = "# three traders|address host 2809|\
seed 000102030405060708090a0b0c0d0e0f101112131415161718191a1b1c1d1e1f||trader A|stem 00ff|\
interface IDL:Device:1.0|interface IDL:Printer:1.0 IDL:Device:1.0|type Device IDL:Device:1.0|\
prop mandatory ulong Cost|prop normal short Queue|type Printer IDL:Printer:1.0 Device|\
offer Printer ref:IDL:Printer:1.0,h,9,p1|with ulong Cost 5|offer Device ref:IDL:Device:1.0,h,9,p2|\
with ulong Cost 7|dynamic short Queue ref:IDL:Eval:1.0,h,9,q|\
proxy Printer ref:IDL:omg.org/CosTrading/Lookup:1.0,h,9,x match Cost < $(Cost)|with ulong Cost 9|\
link next B if_no_local always|link out ref:IDL:L:1.0,h,9,l ref:IDL:R:1.0,h,9,r local_only if_no_local||\
trader B|interface IDL:Device:1.0|interface IDL:Printer:1.0 IDL:Device:1.0|type Device IDL:Device:1.0|\
prop mandatory ulong Cost|type Printer IDL:Printer:1.0 Device|offer Printer ref:IDL:Printer:1.0,h,9,p3|\
with ulong Cost 3|link next C always always||trader C|set max_list 7|set supports_proxy_offers FALSE|\
type Device -|link next A always always|link self C always always|";

/// The types of each city.
const TYPES: &str = "type Printer -\nprop mandatory ulong Cost\nprop normal string Room\n\
prop normal ulong Queue\ntype Laser - Printer\ntype Ink - Printer\ntype Plotter - Printer\n";

/// Four offers of the first city of one number, which stands for each `@`.
const OFFERS: &str = "offer Printer ref:IDL:P:1.0,h,9,p@|with ulong Cost @|with string Room R@|\
offer Laser ref:IDL:P:1.0,h,9,l@|with ulong Cost @|with string Room L@|\
offer Ink ref:IDL:P:1.0,h,9,i@|with ulong Cost @|with string Room I@|\
offer Plotter ref:IDL:P:1.0,h,9,o@|with ulong Cost @|with string Room O@|";

/// What stands behind them, with the types for each `@`: the last offer has a property that is evaluated, and two
/// cities more close the ring.
const CITIES: &str = "dynamic ulong Queue ref:IDL:E:1.0,h,9,q|link South South always always|\
trader South|@offer Laser ref:IDL:P:1.0,h,9,s|with ulong Cost 3|link East East always always|\
trader East|@offer Plotter ref:IDL:P:1.0,h,9,e|with ulong Cost 4|link North North always always";

/// What a word gives to the trader of its first letter, by its second one, with the rest for each `@`: `A!` an offer of
/// a Printer, `A$` one with a Cost, `A~` one with a Cost that is evaluated; `A=`, `Aq`, `As`, `An` and `Aw` a property
/// more for the offer before; `A*B`, `A^B`, `A%B` and `A&B` a proxy offer, the last one with a recipe that names a
/// sequence; `A>B`, `A?B`, `A/B` and `A-B` a link, and `A+B` one by a reference of IIOP 1.1; and `A#` its greatest hop
/// count.
const GIVEN: &str = "! offer Printer ref:IDL:P:1.0,h,9,p
$ offer Printer ref:IDL:P:1.0,h,9,p|with ulong Cost 7
~ offer Printer ref:IDL:P:1.0,h,9,p|dynamic ulong Cost ref:IDL:E:1.0,h,9,E
= with ulong Cost 5
q dynamic ulong Queue ref:IDL:E:1.0,h,9,e
s dynamic string Queue ref:IDL:E:1.0,h,9,e
n dynamic ulong Queue IOR:00000000000000010000000000000000
w dynamic ulong Wait ref:IDL:E:1.0,h,9,e
* proxy Printer ref:@,h,9,@/L all $*
^ proxy Printer ref:@,h,9,@/L all $* and Floor == $(Floor)|with ulong Floor 3
% proxy Printer ref:@,h,9,@/L match $* and Floor == $(Floor)|with ulong Cost 5|with ulong Floor 3
& proxy Printer ref:@,h,9,@/L all $(Rooms)|with seq:ulong Rooms 1,2
> link @ ref:@,h,9,@/L ref:IDL:R:1.0,h,9,@/R always always
? link @ ref:@,h,9,@/L ref:IDL:R:1.0,h,9,@/R if_no_local if_no_local
/ link @ ref:@,h,9,@/L ref:IDL:R:1.0,h,9,@/R if_no_local always
- link @ ref:@,h,9,@/L ref:IDL:R:1.0,h,9,@/R local_only local_only
+ link @ IOR:00000000000000024200000000000001000000000000001800010100000000026800000900000003422f4c0000000000 ref:IDL:R:1.0,h,9,@/R always always
# set max_hop_count 10";

/// Lines more, with these bytes for each `@`.
fn write(text: &mut Vec<u8>, lines: &str, bytes: &[u8]) -> Result<(), Memory> {
    for byte in lines.as_bytes() {
        match *byte {
            b'@' => text.extend_from_slice(bytes)?,
            b'|' => text.push(b'\n')?,
            other => text.push(other)?,
        }
    }
    Ok(())
}

fn plain(alloc: Global, lines: &str) -> Result<Vec<u8>, Memory> {
    let mut text = Vec::new(alloc);
    write(&mut text, lines, b"")?;
    Ok(text)
}

fn write_offers(alloc: Global, text: &mut Vec<u8>, number: u32) -> Result<(), Memory> {
    match format!(in alloc; "{number}") {
        Ok(digits) => write(text, OFFERS, digits.as_str().as_bytes()),
        Err(_) => Err(Memory),
    }
}

/// Three cities in a ring, the first with two hundred offers.
fn cities(alloc: Global) -> Result<Vec<u8>, Memory> {
    let mut text = Vec::new(alloc);
    write(&mut text, "address h 9|trader North|@", TYPES.as_bytes())?;
    for number in 0u32..50 {
        write_offers(alloc, &mut text, number)?;
    }
    write(&mut text, CITIES, TYPES.as_bytes())?;
    Ok(text)
}

fn lines_of(kind: u8) -> &'static str {
    for line in GIVEN.lines() {
        let (mark, lines) = line.split_once(' ').unwrap_or((line, ""));
        if mark.as_bytes().first() == Some(&kind) {
            return lines;
        }
    }
    // A line that no file may have.
    "unknown"
}

/// What a word gives to the trader of this letter.
fn write_word(text: &mut Vec<u8>, word: &[u8], letter: u8) -> Result<(), Memory> {
    match word {
        [first, kind, to @ ..] if *first == letter => {
            write(text, lines_of(*kind), to)?;
            text.push(b'\n')?;
        }
        _ => (),
    }
    Ok(())
}

/// A trader with the type Printer and what the words that begin with its letter give it.
fn write_trader(text: &mut Vec<u8>, words: &str, letter: u8) -> Result<(), Memory> {
    write(text, "trader @|type Printer -|", &[letter])?;
    for word in words.split(' ') {
        write_word(text, word.as_bytes(), letter)?;
    }
    Ok(())
}

/// The line that tells IIOP 1.1, where the first of the words does.
fn version_of(words: &str) -> &'static str {
    if words.starts_with("1.1 ") {
        "iiop 1|"
    } else {
        ""
    }
}

/// The file of the traders A to D at the host h, port 9.
fn traders(alloc: Global, words: &str) -> Result<Vec<u8>, Memory> {
    let mut text = Vec::new(alloc);
    write(&mut text, "address h 9|", b"")?;
    write(&mut text, version_of(words), b"")?;
    for letter in b"ABCD" {
        write_trader(&mut text, words, *letter)?;
    }
    Ok(text)
}

fn named(alloc: Global, lines: &str) -> Result<Vec<u8>, Memory> {
    match lines {
        "GROUP" => plain(alloc, GROUP),
        "CITIES" => cities(alloc),
        _ => plain(alloc, lines),
    }
}

/// The file that a case is about: its lines or the name of one, or else the words of the traders A to D.
pub(crate) fn file_of(alloc: Global, case: Case, asked: &str) -> Result<Vec<u8>, Memory> {
    let (file, _rest) = two(asked);
    match case {
        Case::File => named(alloc, file),
        Case::Look => named(alloc, file),
        _ => traders(alloc, file),
    }
}
