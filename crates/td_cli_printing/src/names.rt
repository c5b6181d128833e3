//! Lines of names, of limits, of ids and of counts.

ghost use Rattle.std.specs.Prelude.{◌≡◌, ◌++◌, OnOk};
ghost use Rattle.td_cli_printing.specs.Names.{exception_line, id_line, limit_word, limit_words, limits_line, name_line};
ghost use Rattle.td_cli_printing.specs.Names.{name_lines, total_line};

use td_cdr::{Memory, Text};
use td_forms::{put, put_decimal};

/// Puts a name's line behind these bytes.
fn put_name(out: &mut Vec<u8>, name: &Text) -> Result<(), Memory>
    ensures { OnOk result (out.new.items ≡ out.old.items ++ name_line name.now) }
{
    put(out, name.as_slice())?;
    put(out, b"\n")
}

/// Puts a line for each name behind these bytes.
pub(crate) fn put_names(out: &mut Vec<u8>, names: &[Text]) -> Result<(), Memory>
    ensures { OnOk result (out.new.items ≡ out.old.items ++ name_lines names.now) }
{
    for name in names {
        put_name(out, name)?;
    }
    Ok(())
}

/// Puts a space and the name of a limit behind these bytes.
fn put_limit(out: &mut Vec<u8>, limit: &Text) -> Result<(), Memory>
    ensures { OnOk result (out.new.items ≡ out.old.items ++ limit_word limit.now) }
{
    put(out, b" ")?;
    put(out, limit.as_slice())
}

/// Puts the names of limits behind these bytes, a space before each.
fn put_limit_words(out: &mut Vec<u8>, limits: &[Text]) -> Result<(), Memory>
    ensures { OnOk result (out.new.items ≡ out.old.items ++ limit_words limits.now) }
{
    for limit in limits {
        put_limit(out, limit)?;
    }
    Ok(())
}

/// Puts the line of the limits behind these bytes.
pub(crate) fn put_limits(out: &mut Vec<u8>, limits: &[Text]) -> Result<(), Memory>
    ensures { OnOk result (out.new.items ≡ out.old.items ++ limits_line limits.now) }
{
    put(out, b"limits")?;
    put_limit_words(out, limits)?;
    put(out, b"\n")
}

/// Puts the line of a count behind these bytes.
pub(crate) fn put_total(out: &mut Vec<u8>, count: usize) -> Result<(), Memory>
    ensures { OnOk result (out.new.items ≡ out.old.items ++ total_line count) }
{
    put(out, b"total ")?;
    put_decimal(out, count as u64)?;
    put(out, b"\n")
}

/// Puts the line of an offer's id behind these bytes.
pub(crate) fn put_id(out: &mut Vec<u8>, id: &[u8]) -> Result<(), Memory>
    ensures { OnOk result (out.new.items ≡ out.old.items ++ id_line id.now) }
{
    put(out, b"id ")?;
    put(out, id)?;
    put(out, b"\n")
}

/// Puts the line of an exception behind these bytes.
pub(crate) fn put_exception(out: &mut Vec<u8>, id: &[u8]) -> Result<(), Memory>
    ensures { OnOk result (out.new.items ≡ out.old.items ++ exception_line id.now) }
{
    put(out, b"exception ")?;
    put(out, id)?;
    put(out, b"\n")
}
