//! Printed constraints, with the parentheses that they need.

use crate::lang::support::{constraint_fault, constraint_of, cut};
use std::alloc::Global;
use td_cdr::{Boxed, Memory, Text};
use td_lang::{Constraint, Expr, LangFault, print_constraint};

/// A constraint, and how its tree is printed.
const PLAIN: &str = "Cost < 10 and Floor == 3 => Cost < 10 and Floor == 3";

/// Blanks and parentheses that nothing needs.
const SPARE: &str = "((a)) => a
(exist a) => exist a
(a or b) or c => a or b or c
(a and b) or c => a and b or c
a or (b and c) => a or b and c
(a and b) and c => a and b and c
(a == b) and (c != d) => a == b and c != d
(a in b) == (c in d) => a in b == c in d
(a ~ b) in c => a ~ b in c
(a + b) ~ (c - d) => a + b ~ c - d
(a - b) + c => a - b + c
a - (b * c) => a - b * c
(a * b) / c => a * b / c
(not a) * (not b) => not a * not b
not (exist a) => not exist a
not (7) => not 7
a - (-3) => a - - 3";

/// Parentheses that are needed: the operand has a weaker operator.
const WEAKER: &str = "a and (b or c) => a and ( b or c )
(a or b) and c => ( a or b ) and c
(a or b) == c => ( a or b ) == c
a < (b and c) => a < ( b and c )
(a < b) in c => ( a < b ) in c
(a in b) ~ c => ( a in b ) ~ c
a ~ (b in c) => a ~ ( b in c )
(a ~ b) + c => ( a ~ b ) + c
a - (b ~ c) => a - ( b ~ c )
(a + b) * c => ( a + b ) * c
a / (b - c) => a / ( b - c )
not (a * b) => not ( a * b )
not (a or b) => not ( a or b )";

/// The right operand has an operator of the same level.
const SAME: &str = "a or (b or c) => a or ( b or c )
a and (b and c) => a and ( b and c )
a - (b - c) => a - ( b - c )
a + (b - c) => a + ( b - c )
a / (b / c) => a / ( b / c )
a * (b / c) => a * ( b / c )";

/// Operators of which the grammar has no row.
const NO_ROW: &str = "(a == b) == c => ( a == b ) == c
a <= (b > c) => a <= ( b > c )
(a in b) in c => ( a in b ) in c
(a ~ b) ~ c => ( a ~ b ) ~ c
a ~ (b ~ c) => a ~ ( b ~ c )
not (not a) => not ( not a )
not (not (not a)) => not ( not ( not a ) )";

/// Each sign.
const SIGNS: &str = "a==b or a!=b or a<b => a == b or a != b or a < b
a<=b or a>b or a>=b => a <= b or a > b or a >= b
a+b-c*d/e~f => a + b - c * d / e ~ f";

/// Names, with a `\` where they are reserved.
const NAMES: &str = r"\and or \a => \and or a
\TRUE == \min => \TRUE == \min
exist \exist => exist \exist
a in \in => a in \in
\or+\not+\max => \or + \not + \max
\first/\random/\with/\FALSE => \first / \random / \with / \FALSE
True or and_1 => True or and_1";

/// Numbers, texts and truth values.
const VALUES: &str = r"-5 < -0 => - 5 < 0
0012 => 12
-9223372036854775807 => - 9223372036854775807
''~'it\'s a \\' => '' ~ 'it\'s a \\'
TRUE==FALSE => TRUE == FALSE
(('las')~((Kind))) => 'las' ~ Kind";

/// Whether the text is read and printed, and what is printed is printed again.
fn is_line_printed(alloc: Global, line: &str) -> Result<bool, LangFault> {
    let (text, printed) = cut(line);
    let printed = printed.as_bytes();
    Ok(is_printed(alloc, text.as_bytes(), printed)? && is_printed(alloc, printed, printed)?)
}

fn is_printed(alloc: Global, text: &[u8], printed: &[u8]) -> Result<bool, LangFault> {
    let found = constraint_of(alloc, text)?;
    let out = print_constraint(alloc, found.get())?;
    Ok(out.as_slice() == printed)
}

#[test]
fn constraints(rt: HostRuntime) {
    let alloc = rt.alloc();
    assert!(rt; is_printed(alloc, b"".as_slice(), b"".as_slice()) == Ok(true));
    assert!(rt; is_printed(alloc, b" a\t\r\n".as_slice(), b"a".as_slice()) == Ok(true));
    for table in [PLAIN, SPARE, WEAKER, SAME, NO_ROW, SIGNS, NAMES, VALUES] {
        for line in table.lines() {
            assert!(rt; is_line_printed(alloc, line) == Ok(true), "at {line}");
        }
    }
}

fn printed_number(alloc: Global, n: i64) -> Result<Text, Memory> {
    let found = Boxed::new(alloc, Constraint::Is(Expr::Number(n)))?;
    print_constraint(alloc, found.get())
}

/// The least number has no spelling that is read, and its neighbour has.
#[test]
fn least_numbers(rt: HostRuntime) {
    let alloc = rt.alloc();
    assert!(rt; is_least_refused(alloc) == Ok(true));
    assert!(rt; is_next_read(alloc) == Ok(true));
}

fn is_least_refused(alloc: Global) -> Result<bool, Memory> {
    let least = printed_number(alloc, i64::MIN)?;
    Ok(
        least.as_slice() == b"- 9223372036854775808".as_slice()
            && constraint_fault(alloc, least.as_slice()) == Some(LangFault::Syntax(2)),
    )
}

fn is_next_read(alloc: Global) -> Result<bool, Memory> {
    let next = printed_number(alloc, i64::MIN + 1)?;
    Ok(constraint_fault(alloc, next.as_slice()).is_none())
}

/// `count` negations of a name, and one more in front.
fn denied(alloc: Global, count: usize) -> Result<Boxed<Constraint>, Memory> {
    let name = Text::from_slice(alloc, b"a")?;
    let mut found = Boxed::new(alloc, Expr::Name(name))?;
    for _ in 0..count {
        found = Boxed::new(alloc, Expr::Not(found))?;
    }
    Boxed::new(alloc, Constraint::Is(Expr::Not(found)))
}

/// Why so many negations and one more, as they are printed, are refused.
fn denied_fault(alloc: Global, count: usize) -> Result<Option<LangFault>, Memory> {
    let found = denied(alloc, count)?;
    let text = print_constraint(alloc, found.get())?;
    Ok(constraint_fault(alloc, text.as_slice()))
}

/// Of 65 negations in a row the inner 64 stand in parentheses, and of 66 too many.
#[test]
fn deep_trees(rt: HostRuntime) {
    let alloc = rt.alloc();
    assert!(rt; denied_fault(alloc, 64) == Ok(None));
    assert!(rt; denied_fault(alloc, 65) == Ok(Some(LangFault::Depth(388))));
}
