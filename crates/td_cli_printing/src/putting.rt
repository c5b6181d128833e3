//! Signed numbers behind what is printed so far.

ghost use Rattle.std.specs.Prelude.{◌≡◌, ◌++◌, OnOk};
ghost use Rattle.std.specs.Fmt.{signed_decimal};

use itoa::Buffer;
use td_cdr::Memory;
use td_forms::put;

/// Puts a short in decimal behind these bytes.
pub(crate) fn put_short(out: &mut Vec<u8>, number: &i16) -> Result<(), Memory>
    ensures { OnOk result (out.new.items ≡ out.old.items ++ signed_decimal number.now) }
{
    let mut buffer = Buffer::new();
    put(out, buffer.format(*number).as_bytes())
}

/// Puts a long in decimal behind these bytes.
pub(crate) fn put_long(out: &mut Vec<u8>, number: &i32) -> Result<(), Memory>
    ensures { OnOk result (out.new.items ≡ out.old.items ++ signed_decimal number.now) }
{
    let mut buffer = Buffer::new();
    put(out, buffer.format(*number).as_bytes())
}

/// Puts a long long in decimal behind these bytes.
pub(crate) fn put_long_long(out: &mut Vec<u8>, number: &i64) -> Result<(), Memory>
    ensures { OnOk result (out.new.items ≡ out.old.items ++ signed_decimal number.now) }
{
    let mut buffer = Buffer::new();
    put(out, buffer.format(*number).as_bytes())
}
