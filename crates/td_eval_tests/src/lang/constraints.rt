//! Constraints and the trees that they are read as.

use crate::lang::support::{constraint_fault, constraint_of, cut, has_tree, long_text};
use std::alloc::Global;
use td_cdr::Memory;
use td_lang::LangFault;

/// A constraint of each production, from the weakest, and its tree: operators before operands in parentheses.
const PRODUCTIONS: &str = "a or b => (or a b)
a and b => (and a b)
a == b => (== a b)
a != b => (!= a b)
a < b => (< a b)
a <= b => (<= a b)
a > b => (> a b)
a >= b => (>= a b)
a in b => (in a b)
a ~ b => (~ a b)
a + b => (+ a b)
a - b => (- a b)
a * b => (* a b)
a / b => (/ a b)
not a => (not a)
(a) => a
exist a => (exist a)
a => a
7 => 7
-7 => -7
'las' => 'las'
TRUE => TRUE
FALSE => FALSE";

/// Operators of one level in a row.
const ROWS: &str = "a or b or c => (or (or a b) c)
a and b and c => (and (and a b) c)
a - b + c - d => (- (+ (- a b) c) d)
a / b * c / d => (/ (* (/ a b) c) d)
a - (b - c) => (- a (- b c))";

/// The stronger operator first.
const STRENGTHS: &str = "a or b and c => (or a (and b c))
a and b or c => (or (and a b) c)
a and b == c => (and a (== b c))
a == b and c => (and (== a b) c)
a == b in c => (== a (in b c))
a in b == c => (== (in a b) c)
a ~ b in c => (in (~ a b) c)
a + b ~ c => (~ (+ a b) c)
a ~ b + c => (~ a (+ b c))
a + b * c => (+ a (* b c))
a * b + c => (+ (* a b) c)
not a * b => (* (not a) b)
a * not b => (* a (not b))
a + not b => (+ a (not b))
not (not a) => (not (not a))
(a or b) and c => (and (or a b) c)
not exist a => (not (exist a))";

/// A sign before a number.
const SIGNS: &str = "a - 3 => (- a 3)
a - -3 => (- a -3)
2--3 => (- 2 -3)
-0 => 0
not -3 < 2 => (< (not -3) 2)";

/// Names, with and without a `\`.
const NAMES: &str = r"\and and \TRUE => (and and TRUE)
exist \not => (exist not)
a in \first => (in a first)
True or and_1 => (or True and_1)
\a => a";

/// Numbers up to the largest.
const NUMBERS: &str = "9223372036854775807 => 9223372036854775807
-9223372036854775807 => -9223372036854775807
0009223372036854775807 => 9223372036854775807";

/// Texts in quotes.
const QUOTED: &str = r"'' => ''
'it\'s a \\' => 'it's a \'
'or ( 1.5' => 'or ( 1.5'
'a'~b => (~ 'a' b)";

/// Whole constraints of importers.
const WHOLE: &str = "Cost < 10 and Floor == 3 => (and (< Cost 10) (== Floor 3))
Cost / 3 < 2 and exist Color or 'las' ~ Kind => (or (and (< (/ Cost 3) 2) (exist Color)) (~ 'las' Kind))";

/// The longest name, text, row of operators and number.
const LONG: &str = r"|n|256|
\|n|256|
| |4096|
|a+|2047|a
|0|4096|";

/// Whether a text is read as a constraint of this tree.
fn is_read(alloc: Global, text: &[u8], tree: &str) -> Result<bool, LangFault> {
    let found = constraint_of(alloc, text)?;
    Ok(has_tree(alloc, found.get(), tree)?)
}

fn is_line_read(alloc: Global, line: &str) -> Result<bool, LangFault> {
    let (text, tree) = cut(line);
    is_read(alloc, text.as_bytes(), tree)
}

#[test]
fn trees(rt: HostRuntime) {
    let alloc = rt.alloc();
    for table in [
        PRODUCTIONS,
        ROWS,
        STRENGTHS,
        SIGNS,
        NAMES,
        NUMBERS,
        QUOTED,
        WHOLE,
    ] {
        for line in table.lines() {
            assert!(rt; is_line_read(alloc, line) == Ok(true), "at {line}");
        }
    }
}

/// Blanks alone are the empty constraint; others stand anywhere between tokens.
#[test]
fn blanks(rt: HostRuntime) {
    let alloc = rt.alloc();
    assert!(rt; are_blanks_read(alloc) == Ok(true));
}

fn are_blanks_read(alloc: Global) -> Result<bool, LangFault> {
    Ok(
        is_read(alloc, b"".as_slice(), "")?
            && is_read(alloc, b" \t\r\n".as_slice(), "")?
            && is_read(alloc, b" a\t\r\n".as_slice(), "a")?
            && is_read(alloc, b"- \t5".as_slice(), "-5")?,
    )
}

fn is_long_read(alloc: Global, line: &str) -> Result<bool, Memory> {
    let text = long_text(alloc, line)?;
    Ok(constraint_fault(alloc, text.as_slice()).is_none())
}

#[test]
fn long_texts(rt: HostRuntime) {
    let alloc = rt.alloc();
    for line in LONG.lines() {
        assert!(rt; is_long_read(alloc, line) == Ok(true), "at {line}");
    }
}
