//! Logs from words.

use crate::messages::MESSAGES;
use std::alloc::Global;
use td_cdr::Memory;

/// The digits of the message of a name; a word that no log may have where there is none.
fn message(name: &[u8]) -> &'static str {
    for line in MESSAGES.lines() {
        let (other, digits) = line.split_once(' ').unwrap_or((line, ""));
        if other.as_bytes() == name {
            return digits;
        }
    }
    "?"
}

/// Digits of a message; `:N:` among them stands for N octets of 1.
fn write_digits(text: &mut Vec<u8>, digits: &str) -> Result<(), Memory> {
    let mut counts = false;
    for part in digits.split(':') {
        if counts {
            for _ in 0..part.parse::<u32>().unwrap_or(0) {
                text.extend_from_slice(b"01")?;
            }
        } else {
            text.extend_from_slice(part.as_bytes())?;
        }
        counts = !counts;
    }
    Ok(())
}

/// A word of a log; `$NAME` is a message.
fn write_word(text: &mut Vec<u8>, word: &[u8]) -> Result<(), Memory> {
    match word {
        [b'$', name @ ..] => write_digits(text, message(name))?,
        _ => text.extend_from_slice(word)?,
    }
    Ok(())
}

/// A line of a log.
fn write_line(text: &mut Vec<u8>, line: &str) -> Result<(), Memory> {
    let mut front = true;
    for word in line.split(' ') {
        if !front {
            text.push(b' ')?;
        }
        write_word(text, word.as_bytes())?;
        front = false;
    }
    Ok(())
}

/// The log of these lines, between which a `/` stands. A line feed ends each, and the last one where the words end with
/// a `/`.
pub(crate) fn log_of(alloc: Global, words: &str) -> Result<Vec<u8>, Memory> {
    let mut text = Vec::new(alloc);
    let mut front = true;
    for line in words.split('/') {
        if !front {
            text.push(b'\n')?;
        }
        write_line(&mut text, line)?;
        front = false;
    }
    Ok(text)
}
