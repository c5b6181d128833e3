//! Pieces behind a text: a text, a number, and a label with its number.

ghost use Rattle.std.specs.Prelude.{◌≡◌, ◌++◌, decimal, OnOk};
ghost use Rattle.td_forms.specs.Counted.{label_number};

use itoa::Buffer;
use td_cdr::Memory;

/// Appends a piece.
///
/// # Errors
///
/// `Memory` only when out of memory.
pub fn put(text: &mut Vec<u8>, piece: &[u8]) -> Result<(), Memory>
    ensures { OnOk result (text.new.items ≡ text.old.items ++ piece.now) }
{
    text.extend_from_slice(piece)?;
    Ok(())
}

/// Appends a number in decimal.
///
/// # Errors
///
/// `Memory` only when out of memory.
pub fn put_decimal(text: &mut Vec<u8>, number: u64) -> Result<(), Memory>
    ensures { OnOk result (text.new.items ≡ text.old.items ++ decimal number) }
{
    let mut buffer = Buffer::new();
    put(text, buffer.format(number).as_bytes())
}

/// Appends a label and a number in decimal right behind it.
///
/// # Errors
///
/// `Memory` only when out of memory.
pub fn put_counted(text: &mut Vec<u8>, label: &[u8], number: u64) -> Result<(), Memory>
    ensures { OnOk result (text.new.items ≡ text.old.items ++ label_number label.now number) }
{
    put(text, label)?;
    put_decimal(text, number)
}
