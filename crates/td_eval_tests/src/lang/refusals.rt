//! Texts that are no constraints, with their first faults.

use crate::lang::support::{constraint_fault, cut, fault_of, long_text};
use std::alloc::Global;
use td_cdr::Memory;

/// Whole constraints with one fault: where it stands.
const SPOILT: &str = "Cost < 1.5 => Float 7
Cost < 10 and Floor == 3 4 => Syntax 25";

/// A token that the grammar doesn't allow there.
const TOKENS: &str = r#"a b => Syntax 2
a == b == c => Syntax 7
a < b > c => Syntax 6
a in b in c => Syntax 7
a in b + c => Syntax 7
a in (b) => Syntax 5
a ~ b ~ c => Syntax 6
not not a => Syntax 4
a - - b => Syntax 6
-a => Syntax 1
--3 => Syntax 1
-(3) => Syntax 1
exist 3 => Syntax 6
exist (a) => Syntax 6
a or or b => Syntax 5
* a => Syntax 0
() => Syntax 1
(a)) => Syntax 3
a ) => Syntax 2
a = b => Syntax 2
a ! b => Syntax 2
a # b => Syntax 2
a == "b" => Syntax 5"#;

/// A text that ends early.
const EARLY: &str = "a +   => Syntax 5
(a => Syntax 2
not => Syntax 3
exist => Syntax 5
a in => Syntax 4
- => Syntax 1";

/// Reserved words are no names.
const RESERVED: &str = r"and => Syntax 0
a == min => Syntax 5
max => Syntax 0
first => Syntax 0
random => Syntax 0
exist with => Syntax 6
a in TRUE => Syntax 5
a or \ => Syntax 5
a or \1 => Syntax 5";

/// Numbers with a fraction or an exponent, too large, or with a letter behind.
const NUMBERS: &str = "a 1.5 => Float 2
a ) 1.5 => Syntax 2
a < .5 => Float 4
a < . => Syntax 4
12. => Float 0
12e => Float 0
1E3 => Float 0
9223372036854775808.5 => Float 0
9223372036854775808 => Syntax 0
-9223372036854775808 => Syntax 1
a < 3x => Syntax 4
a < 3_ => Syntax 4";

/// Texts in quotes.
const QUOTED: &str = r"a == 'b => Syntax 5
a == 'b\n' => Syntax 5";

/// What stands before the pieces, the piece, how many times it stands, what stands behind, and the fault
/// of the whole. The last is a name of 257 bytes behind a `\`.
const LONG: &str = r"|(|65| => Depth 64
|(|64| => Syntax 64
|(|64|a ( => Depth 66
|a or (|65| => Depth 389
|(|63|a ( => Syntax 65
|n|257| => Syntax 0
|n|257|.5 => Syntax 0
| |4097| => TooLong
|(|4097| => TooLong
|(|4096| => Depth 64
|a+|2048| => Syntax 4096
|'|4095| => Syntax 2
\|n|257| => Syntax 0";

/// Whether a line's text has its fault.
fn is_refused(alloc: Global, line: &str) -> bool {
    let (text, fault) = cut(line);
    constraint_fault(alloc, text.as_bytes()) == Some(fault_of(fault))
}

#[test]
fn faults(rt: HostRuntime) {
    let alloc = rt.alloc();
    for table in [SPOILT, TOKENS, EARLY, RESERVED, NUMBERS, QUOTED] {
        for line in table.lines() {
            assert!(rt; is_refused(alloc, line), "at {line}");
        }
    }
}

fn is_long_refused(alloc: Global, line: &str) -> Result<bool, Memory> {
    let (pieces, fault) = cut(line);
    let text = long_text(alloc, pieces)?;
    Ok(constraint_fault(alloc, text.as_slice()) == Some(fault_of(fault)))
}

#[test]
fn long_faults(rt: HostRuntime) {
    let alloc = rt.alloc();
    for line in LONG.lines() {
        assert!(rt; is_long_refused(alloc, line) == Ok(true), "at {line}");
    }
}
