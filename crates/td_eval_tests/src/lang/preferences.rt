//! Preferences as they are read and printed, and texts that are none.

use crate::lang::support::{cut, fault_of, long_text, put_tree};
use std::alloc::{AllocError, Global};
use td_cdr::{Boxed, Memory};
use td_lang::{Expr, LangFault, Preference, print_preference, read_preference};

/// A preference, how it is printed, and its tree behind its form.
const PREFERENCES: &str = r"first => first => first
 random  => random => random
max Cost => max Cost => max Cost
min(a+b)*c => min ( a + b ) * c => min (* (+ a b) c)
min -3 => min - 3 => min -3
with(a)or b => with a or b => with (or a b)
max \max => max \max => max max
with'random' => with 'random' => with 'random'";

/// A text that is no preference, and its first fault.
const FAULTS: &str = r"Cost => Syntax 0
( => Syntax 0
3 => Syntax 0
3.5 => Float 0
# => Syntax 0
maximum Cost => Syntax 0
\min a => Syntax 0
MIN a => Syntax 0
first first => Syntax 6
first ( => Syntax 6
random 1.5 => Float 7
random a => Syntax 7
first # => Syntax 6
min => Syntax 3
max   => Syntax 5
with => Syntax 4
min min a => Syntax 4
min first => Syntax 4
min a max b => Syntax 6
max (a => Syntax 6
with a == b == c => Syntax 12
max 1.5 => Float 4
max 9223372036854775808 => Syntax 4
with 'a => Syntax 5";

fn put_order(alloc: Global, out: &mut Vec<u8>, form: &str, key: &Expr) -> Result<(), AllocError> {
    out.extend_from_slice(form.as_bytes())?;
    out.push(b' ')?;
    put_tree(alloc, out, key)
}

fn put_preference(
    alloc: Global,
    out: &mut Vec<u8>,
    preference: &Preference,
) -> Result<(), AllocError> {
    match preference {
        Preference::Empty => out.extend_from_slice(b"empty".as_slice()),
        Preference::First => out.extend_from_slice(b"first".as_slice()),
        Preference::Random => out.extend_from_slice(b"random".as_slice()),
        Preference::Min(key) => put_order(alloc, out, "min", key),
        Preference::Max(key) => put_order(alloc, out, "max", key),
        Preference::With(asked) => put_order(alloc, out, "with", asked),
    }
}

/// Whether the preference is of this form and tree, and is printed so.
fn is_preference(
    alloc: Global,
    preference: &Preference,
    printed: &[u8],
    tree: &[u8],
) -> Result<bool, Memory> {
    Ok(has_form(alloc, preference, tree)? && is_printed(alloc, preference, printed)?)
}

fn has_form(alloc: Global, preference: &Preference, tree: &[u8]) -> Result<bool, AllocError> {
    let mut out = Vec::new(alloc);
    put_preference(alloc, &mut out, preference)?;
    Ok(out.as_slice() == tree)
}

fn is_printed(alloc: Global, preference: &Preference, printed: &[u8]) -> Result<bool, Memory> {
    let text = print_preference(alloc, preference)?;
    Ok(text.as_slice() == printed)
}

/// Whether the text is read as the preference.
fn is_read(alloc: Global, text: &[u8], printed: &[u8], tree: &[u8]) -> Result<bool, LangFault> {
    let found = Boxed::new(alloc, read_preference(alloc, text)?)?;
    Ok(is_preference(alloc, found.get(), printed, tree)?)
}

/// Whether the text is read and printed, and what is printed is read as the same.
fn is_line_read(alloc: Global, line: &str) -> Result<bool, LangFault> {
    let (text, rest) = cut(line);
    let (printed, tree) = cut(rest);
    let (printed, tree) = (printed.as_bytes(), tree.as_bytes());
    Ok(is_read(alloc, text.as_bytes(), printed, tree)? && is_read(alloc, printed, printed, tree)?)
}

#[test]
fn preferences(rt: HostRuntime) {
    let alloc = rt.alloc();
    let (none, empty) = (b"".as_slice(), b"empty".as_slice());
    assert!(rt; is_read(alloc, none, none, empty) == Ok(true));
    assert!(rt; is_read(alloc, b" \t".as_slice(), none, empty) == Ok(true));
    for line in PREFERENCES.lines() {
        assert!(rt; is_line_read(alloc, line) == Ok(true), "at {line}");
    }
}

fn preference_fault(alloc: Global, text: &[u8]) -> Option<LangFault> {
    read_preference(alloc, text).err()
}

/// Whether the text of a line has its fault.
fn is_refused(alloc: Global, line: &str) -> bool {
    let (text, fault) = cut(line);
    preference_fault(alloc, text.as_bytes()) == Some(fault_of(fault))
}

#[test]
fn faults(rt: HostRuntime) {
    let alloc = rt.alloc();
    for line in FAULTS.lines() {
        assert!(rt; is_refused(alloc, line), "at {line}");
    }
}

/// What stands before the pieces, the piece, how many times it stands, and the fault of the whole.
const LONG: &str = "min|(|64| => Syntax 67
min|(|65| => Depth 67
min| |4093| => Syntax 4096
min| |4094| => TooLong";

fn is_long_refused(alloc: Global, line: &str) -> Result<bool, Memory> {
    let (pieces, fault) = cut(line);
    let text = long_text(alloc, pieces)?;
    Ok(preference_fault(alloc, text.as_slice()) == Some(fault_of(fault)))
}

#[test]
fn long_preferences(rt: HostRuntime) {
    let alloc = rt.alloc();
    for line in LONG.lines() {
        assert!(rt; is_long_refused(alloc, line) == Ok(true), "at {line}");
    }
}
