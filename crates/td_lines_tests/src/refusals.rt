//! Files that are read to their end, and files with a line that is refused, by the rules for the server's file.

use std::alloc::{AllocError, Global};
use std::test::Fail;
use td_cdr::Memory;
use td_lines::{LineCause, Refused, Script, read_script};

/// Files in the words of `file_of`; of those that are read how many traders and entries of traders they have, and of
/// the others the line at which they are refused, and why.
const FILES: &str = "address h 9 => 0
address h 9| => 0
# one||address h 9|#two|trader A|# end => 1
address h 0\r|trader A\r| => 1
address  h\t65535 |trader\tA|type B - => 2
address h 9|seed 00000000000000000000000000000000000000000000000000000000000000Ff|trader A => 1
address h 9|iiop 0 => 0
address h 9|seed 0000000000000000000000000000000000000000000000000000000000000000|iiop 1|trader A => 1
address h 9|trader A|stem 00fF|set max_list 4294967295 => 3
address h 9|trader A|set supports_proxy_offers FALSE|set def_follow_policy if_no_local => 3
address h 9|trader A|interface a|interface b a c|type B a|type C b B => 3
address h 9|trader A|type B -|prop normal short X||# between|prop mandatory seq:string Y|trader B => 3
address h 9|trader A|offer B ref:x,h,1,k|with short X -5|dynamic long Y ref:e,h,2,e|with string Z  => 2
address h 9|trader A|offer B ref:x,h,1,k|with short X -5|link l A always local_only => 3
address h 9|trader A|proxy B ref:x,h,1,k all $*|with string Z a b|proxy B ref:x,h,1,k match  => 3
address h 9|trader A|link l ref:x,h,1,k ref:x,h,1,r always if_no_local => 2
address ~ 9 => 0
address h 9|^ => 64
# only|| => 1 place
trader A| => 1 place
#|trader A => 2 place
prop normal short X => 1 place
foo => 1 words
address h => 1 words
address h 9 9 => 1 words
address h 65536 => 1 number
address h 09 => 1 number
address h -1 => 1 number
address h\0 9 => 1 name
address h\0 x => 1 name
address h 9|  => 2 words
address h 9| # => 2 words
address h 9|Trader A => 2 words
address h 9|address h 9 => 2 twice
address h 9|address h x => 2 twice
address h 9|address h => 2 words
address h 9|trader A|address h 9 => 3 twice
address h 9|seed 00 => 2 value
address h 9|seed 000000000000000000000000000000000000000000000000000000000000000g => 2 value
address h 9|seed => 2 words
address h 9|trader A|seed 00 => 3 place
address h 9|seed 0000000000000000000000000000000000000000000000000000000000000000|seed 0 => 3 twice
iiop 1 => 1 place
address h 9|iiop => 2 words
address h 9|iiop 1 1 => 2 words
address h 9|iiop 2 => 2 number
address h 9|iiop 01 => 2 number
address h 9|iiop x => 2 number
address h 9|iiop 1|iiop 0 => 3 twice
address h 9|iiop 1|iiop 2 => 3 twice
address h 9|iiop 1|address h 9 => 3 twice
address h 9|iiop 2|iiop 1 => 2 number
address h 9|iiop 1|seed 0000000000000000000000000000000000000000000000000000000000000000 => 3 place
address h 9|seed 0000000000000000000000000000000000000000000000000000000000000000|iiop 1|seed 0 => 4 place
address h 9|trader A|iiop 1 => 3 place
address h 9|trader A|iiop => 3 words
address h 9|trader A/B => 2 name
address h 9|trader A|trader A => 3 twice
address h 9|trader A B => 2 words
address h 9|stem 00 => 2 place
address h 9|trader A|stem 000 => 3 value
address h 9|trader A|stem 0g => 3 value
address h 9|set max_list 1 => 2 place
address h 9|trader A|set max_list => 3 words
address h 9|trader A|set type_repos x => 3 name
address h 9|trader A|set request_id_stem 00 => 3 name
address h 9|trader A|set max_list 4294967296 => 3 value
address h 9|trader A|set max_list TRUE => 3 value
address h 9|trader A|set supports_proxy_offers true => 3 value
address h 9|trader A|set max_follow_policy never => 3 value
address h 9|interface a => 2 place
address h 9|trader A|interface => 3 words
address h 9|trader A|type B -|interface a => 4 place
address h 9|trader A|interface a|interface a b => 4 twice
address h 9|trader A|interface a\0 => 3 name
address h 9|trader A|interface a b c\0 => 3 name
address h 9|trader A|type Printer => 3 words
address h 9|type B - => 2 place
address h 9|trader A|type B a\0 => 3 name
address h 9|trader A|type B -|prop normal short => 3 words
address h 9|trader A|type B -|prop fast short X => 3 name
address h 9|trader A|type B -|prop normal float X => 3 name
address h 9|trader A|type B -|prop normal short X|with short X 1 => 5 place
address h 9|trader A|prop normal short X => 3 place
address h 9|trader A|offer B ref:x,h,1,k|prop normal short X => 4 place
address h 9|trader A|offer B ref:x,h,1,k|stem 00|with short X 1 => 5 place
address h 9|trader A|offer B => 3 words
address h 9|offer B ref:x,h,1,k => 2 place
address h 9|trader A|offer B x => 3 reference
address h 9|trader A|offer B IOR:00 => 3 reference
address h 9|trader A|offer B ref:x,h,1,k|with short X => 3 words
address h 9|trader A|offer B ref:x,h,1,k|with short X\t1 => 3 words
address h 9|trader A|offer B ref:x,h,1,k|with real X 1 => 3 name
address h 9|trader A|offer B ref:x,h,1,k|with short X  1 => 3 value
address h 9|trader A|offer B ref:x,h,1,k|with short X -0 => 3 value
address h 9|trader A|offer B ref:x,h,1,k|dynamic short X ref:h => 3 reference
address h 9|trader A|offer B ref:x,h,1,k|dynamic real X ref:h => 3 name
address h 9|trader A|offer B ref:x,h,1,k|dynamic short X => 3 words
address h 9|trader A|proxy B ref:x,h,1,k all => 3 words
address h 9|trader A|proxy B x some r => 3 reference
address h 9|trader A|proxy B ref:x,h,1,k some r => 3 name
address h 9|trader A|proxy B ref:x,h,1,k all r\0 => 3 name
address h 9|trader A|link l A always => 3 words
address h 9|trader A|link l A always always x y => 3 words
address h 9|link l A always always => 2 place
address h 9|trader A|link l A often always => 3 name
address h 9|trader A|link l A always often => 3 name
address h 9|trader A|link l x ref:x,h,1,r often always => 3 reference
address h 9|trader A|link l ref:x,h,1,k r always always => 3 reference
address h 9|trader A|link l ref:x,h,1,k ref:x,h,1,r always often => 3 name
address h 9|trader A|type B -|trader B|interface a|prop normal short X => 6 place
 => 1 place
address h~ 9 => 1 name
address h 9|^trader A/B| => 66 place";

/// Traders of 64 names, a line each.
fn add_traders(text: &mut Vec<u8>) -> Result<(), AllocError> {
    for number in 0u8..64 {
        text.extend_from_slice(b"trader T")?;
        text.push(b'A' + number / 8)?;
        text.push(b'0' + number % 8)?;
        text.push(b'\n')?;
    }
    Ok(())
}

fn add_byte(text: &mut Vec<u8>, byte: u8) -> Result<(), AllocError> {
    match byte {
        b'|' => text.push(b'\n')?,
        b'~' => text.extend_from_slice(&[b'h'; 1000])?,
        b'^' => add_traders(text)?,
        _ => text.push(byte)?,
    }
    Ok(())
}

/// A file whose line feeds are written as `|`, a thousand `h` as `~`, and 64 traders as `^`.
pub(crate) fn file_of(alloc: Global, content: &str) -> Result<Vec<u8>, AllocError> {
    let mut text = Vec::new(alloc);
    for byte in content.as_bytes() {
        add_byte(&mut text, *byte)?;
    }
    Ok(text)
}

/// What a file of at most 100,000 bytes says; of a longer one nothing is read.
pub(crate) fn script_of(alloc: Global, text: &[u8]) -> Result<Script, Memory> {
    if text.len() > 100000 {
        return Err(Memory);
    }
    read_script(alloc, text)
}

/// How many traders and entries there are.
fn count_of(script: &Script) -> usize {
    let mut count: usize = 0;
    for trader in script.traders.as_slice() {
        count = count.saturating_add(trader.entries.len()).saturating_add(1);
    }
    count
}

fn cause_named(word: &str) -> Option<LineCause> {
    match word {
        "words" => Some(LineCause::Words),
        "name" => Some(LineCause::Name),
        "number" => Some(LineCause::Number),
        "place" => Some(LineCause::Place),
        "twice" => Some(LineCause::Twice),
        "value" => Some(LineCause::Value),
        "reference" => Some(LineCause::Reference),
        _ => None,
    }
}

/// Whether the line and the cause are these.
fn is_refused(refused: &Refused, content: &str) -> bool {
    match content.split_once(' ') {
        Some((line, cause)) => {
            line.parse::<u32>().ok() == Some(refused.line)
                && cause_named(cause) == Some(refused.cause)
        }
        None => false,
    }
}

/// Whether a file says what a row tells of it.
fn says(script: &Script, content: &str) -> bool {
    match &script.refused {
        Some(refused) => is_refused(refused, content),
        None => content.parse::<usize>().ok() == Some(count_of(script)),
    }
}

fn passes(alloc: Global, row: &str) -> Result<bool, Fail> {
    let (file, content) = row.split_once(" => ").ok_or("two parts")?;
    let text = file_of(alloc, file)?;
    let script = script_of(alloc, text.as_slice())?;
    let good = says(&script, content);
    drop(script);
    Ok(good)
}

#[test]
fn files_are_read_or_refused(rt: HostRuntime) -> Result<(), Fail> {
    let alloc = rt.alloc();
    for row in FILES.lines() {
        assert!(rt; passes(alloc, row)?, "{row}");
    }
    Ok(())
}
