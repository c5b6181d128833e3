//! Sessions as text.

use std::alloc::Global;
use td_cdr::Memory;
use td_session::End;

/// The file of the worked queries.
pub const PRINTERS: &str = "\
    address h 9\n\
    trader A\n\
    type Printer IDL:Printer:1.0\n\
    offer Printer ref:IDL:Printer:1.0,h,9,p1\n\
    offer Printer ref:IDL:Printer:1.0,h,9,p2\n";

/// A session: the server's file, what comes and what is to be written, what is noted of its Requests, and its end.
#[derive(Clone, Copy)]
pub struct Story {
    pub file: &'static str,
    /// Bytes in hexadecimal digits: behind `>` those that come, behind `<` those that are to be written. `#` begins a
    /// comment up to the end of its line.
    pub lines: &'static str,
    /// A word for each Request: `-` where no trader was called; the point of a change, a look or a name, behind `?`
    /// where a peer was asked; for a query a letter for each item of its visits: `A` a search, `a` a repeat, `0` a step
    /// of a path, each of the first trader, `!` a refusal, `e` an evaluation, `o` an answer from outside, `f` a call
    /// that failed, `.` the end of a visit. Behind a search or a repeat may stand its mark, as one digit.
    pub journal: &'static str,
    pub end: End,
}

/// The bytes of a session.
#[derive(Drop)]
pub struct Streams {
    pub input: Vec<u8>,
    pub written: Vec<u8>,
}

impl Streams {
    fn push(&mut self, comes: bool, byte: u8) -> Result<(), Memory> {
        if comes {
            self.input.push(byte)?;
        } else {
            self.written.push(byte)?;
        }
        Ok(())
    }
}

/// Where the reading of a session's text stands.
#[derive(Clone, Copy)]
struct Place {
    in_comment: bool,
    comes: bool,
    /// The first digit of a byte.
    high: Option<u8>,
}

impl Place {
    fn take(&mut self, letter: u8, streams: &mut Streams) -> Result<(), Memory> {
        if self.in_comment {
            self.in_comment = letter != b'\n';
            return Ok(());
        }
        match letter {
            b'#' => self.in_comment = true,
            b'>' => self.comes = true,
            b'<' => self.comes = false,
            _ => return self.take_digit(letter, streams),
        }
        Ok(())
    }

    /// What is no digit is skipped.
    fn take_digit(&mut self, letter: u8, streams: &mut Streams) -> Result<(), Memory> {
        let Some(low) = digit(letter) else {
            return Ok(());
        };
        match self.high.take() {
            Some(high) => streams.push(self.comes, high.wrapping_mul(16).wrapping_add(low)),
            None => {
                self.high = Some(low);
                Ok(())
            }
        }
    }
}

/// The value of a hexadecimal digit.
fn digit(letter: u8) -> Option<u8> {
    if letter.is_ascii_digit() {
        Some(letter.wrapping_sub(b'0'))
    } else if letter.is_ascii_lowercase() {
        Some(letter.wrapping_sub(b'a').wrapping_add(10))
    } else {
        None
    }
}

/// The bytes that come and those that are to be written.
pub fn read_streams(alloc: Global, lines: &str) -> Result<Streams, Memory> {
    let mut streams = Streams {
        input: Vec::new(alloc),
        written: Vec::new(alloc),
    };
    let mut place = Place {
        in_comment: false,
        comes: true,
        high: None,
    };
    for letter in lines.as_bytes() {
        place.take(*letter, &mut streams)?;
    }
    Ok(streams)
}
