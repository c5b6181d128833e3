//! Files of the traders A to D, from words.

use std::alloc::Global;
use td_cdr::Memory;

/// What a word gives to the trader of its first letter, by its second one, with the rest for each `@`: `A!p` an offer
/// of a Printer whose object has the key p, `A~E` a Cost more for it that E evaluates, `An` one whose evaluator has no
/// profile; `A*B` a proxy offer, and `A>B` a link.
const GIVEN: &str = "! offer Printer ref:IDL:P:1.0,h,9,@
~ dynamic ulong Cost ref:IDL:E:1.0,h,9,@
n dynamic ulong Cost IOR:00000000000000010000000000000000
* proxy Printer ref:@,h,9,@/L all $*
> link @ ref:@,h,9,@/L ref:IDL:R:1.0,h,9,@/R always always";

fn lines_of(kind: u8) -> &'static str {
    for line in GIVEN.lines() {
        let (mark, lines) = line.split_once(' ').unwrap_or((line, ""));
        if mark.as_bytes().first() == Some(&kind) {
            return lines;
        }
    }
    // A line that no file may have.
    "unknown"
}

/// A line, with these bytes for each `@`.
fn write(text: &mut Vec<u8>, line: &str, bytes: &[u8]) -> Result<(), Memory> {
    for byte in line.as_bytes() {
        match *byte {
            b'@' => text.extend_from_slice(bytes)?,
            other => text.push(other)?,
        }
    }
    text.push(b'\n')?;
    Ok(())
}

/// What a word gives to the trader of this letter.
fn write_word(text: &mut Vec<u8>, word: &[u8], letter: u8) -> Result<(), Memory> {
    match word {
        [first, kind, to @ ..] if *first == letter => write(text, lines_of(*kind), to),
        _ => Ok(()),
    }
}

/// A trader with the type Printer and what the words that begin with its letter give it.
fn write_trader(text: &mut Vec<u8>, words: &str, letter: u8) -> Result<(), Memory> {
    write(text, "trader @", &[letter])?;
    write(text, "type Printer -", b"")?;
    for word in words.split(' ') {
        write_word(text, word.as_bytes(), letter)?;
    }
    Ok(())
}

/// The file of the traders A to D at the host h, port 9.
pub(crate) fn file_of(alloc: Global, words: &str) -> Result<Vec<u8>, Memory> {
    let mut text = Vec::new(alloc);
    write(&mut text, "address h 9", b"")?;
    for letter in b"ABCD" {
        write_trader(&mut text, words, *letter)?;
    }
    Ok(text)
}
