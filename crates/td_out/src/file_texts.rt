//! Texts in files.

ghost use Rattle.std.specs.Prelude.{◌≡◌, ◌≤◌, ◌<◌, ◌+◌, ◌++◌, ℕ, length, Option, None, Err, OnOk, IfOk, IfSome};
ghost use Rattle.std.specs.Prelude.{IsErrOf};
ghost use Rattle.std.specs.Io.KnownBytes.{Consumes, IsAtEnd};
ghost use Rattle.td_out.specs.Texts.{longest_text};
ghost use Rattle.td_out.specs.declared.fault.TextFault.TheVariants.{TooLong as of_length, Failed as of_failure};

use crate::fault::TextFault;
use crate::std_source::read_some;
use crate::texts::{LONGEST_TEXT, Texts};
use std::alloc::Global;
use std::fs;
use std::io::Read;
use std::marker::Model;
use std::rt::Files;
use td_cdr::Octets;

/// How many bytes one read asks for at most.
const PIECE_SIZE: usize = 4096;

/// The texts of files, named by their paths. It tells nothing of their content.
#[derive(Drop)]
pub struct FileTexts<'a, R> {
    rt: &'a R,
    faults: u64,
}

impl<'a, R> Model for FileTexts<'a, R> {
    ghost use Rattle.std.specs.Prelude.{ℕ};

    // the count of faults
    ghost Value = { ℕ };

    ghost view = { λ s. s.faults };
}

impl<'a, R> FileTexts<'a, R> {
    /// The files that this runtime reaches. No fault was counted yet.
    pub fn new(rt: &'a R) -> FileTexts<'a, R>
        ensures { result ≡ 0 }
    {
        FileTexts { rt, faults: 0 }
    }
}

impl<'a, R: Files> Texts for FileTexts<'a, R> {
    ghost content = { λ _. None };

    ghost faults = { λ s. s };

    ghost same = { λ _ _. Unit {0} };

    ghost same_on = { λ _ _ _ _ _. tt };

    /// A file that can't be opened or read is a fault. At most 64 MiB and a byte are read of it.
    fn text(&mut self, alloc: Global, name: &str) -> Result<Octets, TextFault> {
        match read_file(alloc, self.rt, name) {
            Ok(text) => Ok(text),
            Err(TextFault::Failed) => {
                self.faults = self.faults.saturating_add(1);
                Err(TextFault::Failed)
            }
            Err(fault) => Err(fault),
        }
    }
}

/// The text of the file at this path.
fn read_file<R: Files>(alloc: Global, rt: &R, path: &str) -> Result<Octets, TextFault>
    ensures { IfOk result (λ text. length text ≤ longest_text) }
{
    let mut file = fs::open(rt, path).map_err(|_| TextFault::Failed)?;
    read_text(alloc, &mut file)
}

/// All that the reader has left, and `TooLong` where that is more than a text may have.
fn read_text<R: Read>(alloc: Global, reader: &mut R) -> Result<Octets, TextFault>
    ensures short { IfOk result (λ text. length text ≤ longest_text) }
    ensures whole { IfOk result
        (λ text. Consumes (R.remaining reader.old) (R.remaining reader.new) text
        × IsAtEnd (R.remaining reader.new)) }
    ensures too_long { IsErrOf result of_length
        → IfSome (R.remaining reader.old) (λ all. longest_text < length all) }
{
    let mut text = Vec::new(alloc);
    let mut piece = [0u8; PIECE_SIZE];
    loop {
        let room = (LONGEST_TEXT + 1 - text.len()).min(piece.len());
        let size = read_some(reader, &mut piece[..room])?;
        if size == 0 {
            return Ok(Octets::from_vec(text));
        }
        add_piece(&mut text, &piece[..size])?;
    }
}

/// Adds a piece to a text, where the text is then not too long.
fn add_piece(text: &mut Vec<u8>, piece: &[u8]) -> Result<(), TextFault>
    requires { length text.old.items ≤ longest_text }
    ensures added { OnOk result (text.new.items ≡ text.old.items ++ piece.now) }
    ensures short { OnOk result (length text.new.items ≤ longest_text) }
    ensures too_long { IsErrOf result of_length → longest_text < length text.old.items
        + length piece.now }
    ensures not_failed { result ≡ Err of_failure → ⊥ }
{
    if piece.len() > LONGEST_TEXT - text.len() {
        return Err(TextFault::TooLong);
    }
    match text.extend_from_slice(piece) {
        Ok(()) => Ok(()),
        Err(_) => Err(TextFault::Memory),
    }
}
