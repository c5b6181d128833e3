//! Values of expressions, and which constraints match.

use crate::lang::support::{constraint_of, cut};
use crate::making::properties;
use std::alloc::Global;
use td_cdr::{Boxed, List, Memory, Text};
use td_eval::{Simple, matches, names_asked, value_of};
use td_lang::{Constraint, Expr, LangFault, read_preference};
use td_value::Property;

/// The properties that the tables speak of.
const MAP: &str =
    "Cost long  5;Low longlong  -9223372036854775808;High ulonglong  9223372036854775808;\
Most ulonglong  9223372036854775807;Short short  -3;UShort ushort  65535;ULong ulong  4294967295;Byte octet  7;\
Letter char  x;Kind string  laser;Own boolean  TRUE;Other void  ;Named long a 6;List long s 1,2,3;None long s ;\
Words string sa ink,toner;Letters char s a,b;Flags boolean s FALSE;Wide ulonglong s 1,9223372036854775808;\
Alias string as x,y;Voids void s ;Extremes longlong s -9223372036854775807,9223372036854775807;Twice long  1;Twice long  2";

/// Whether the digits are this number.
fn is_number(digits: &str, number: i64) -> bool {
    match digits.parse::<i64>() {
        Ok(found) => found == number,
        Err(_) => false,
    }
}

/// Whether this is the fraction, its parts with a `/` between them.
fn is_fraction(wanted: &str, numerator: i64, denominator: i64) -> bool {
    match wanted.split_once('/') {
        Some((over, under)) => is_number(over, numerator) && is_number(under, denominator),
        None => false,
    }
}

/// Whether this is `text` with the text's length behind it.
fn is_text(wanted: &str, text: &Text) -> bool {
    match wanted.strip_prefix("text ") {
        Some(digits) => digits.parse::<usize>().unwrap_or(0) == text.len(),
        None => false,
    }
}

/// Whether the value is the one that is written in the tables.
fn is_value(value: &Option<Simple>, wanted: &str) -> bool {
    match value {
        None => wanted == "none",
        Some(Simple::Number(over, under)) => is_fraction(wanted, *over, *under),
        Some(Simple::Truth(true)) => wanted == "true",
        Some(Simple::Truth(false)) => wanted == "false",
        Some(Simple::Text(text)) => is_text(wanted, text),
    }
}

fn is_valued(alloc: Global, e: &Expr, map: &List<Property>, wanted: &str) -> Result<bool, Memory> {
    let value = value_of(alloc, e, map)?;
    Ok(is_value(&value, wanted))
}

/// Whether the expression of a line has the value of that line.
fn has_value(alloc: Global, line: &str) -> Result<bool, LangFault> {
    let (expression, wanted) = cut(line);
    let map = properties(alloc, MAP)?;
    let constraint = constraint_of(alloc, expression.as_bytes())?;
    match constraint.get() {
        Constraint::Empty => Ok(false),
        Constraint::Is(e) => Ok(is_valued(alloc, e, &map, wanted)?),
    }
}

/// Properties give values by their kinds. The tables have an expression and its value in a line.
const KINDS: &str = "Cost => 5/1
Low => none
High => none
Most => 9223372036854775807/1
Short => -3/1
UShort => 65535/1
ULong => 4294967295/1
Byte => 7/1
Letter => text 1
Kind => text 5
Own => true
Other => none
Named => 6/1
List => none
Absent => none
Twice => 1/1";

/// Fractions are never reduced, and stay in range.
const FRACTIONS: &str = "1 / 3 + 1 / 6 => 9/18
1 / 3 + 1 / 6 == 1 / 2 => true
1 / 2 - 3 / 4 => -2/8
2 / 4 * 2 / 3 => 4/12
1 / -2 => -1/2
-1 / -2 => 1/2
1 / 0 => none
0 / 5 => 0/5
9223372036854775807 + 1 > 0 => none
9223372036854775806 + 1 => 9223372036854775807/1
-9223372036854775807 - 1 => none
-9223372036854775806 - 1 => -9223372036854775807/1
3037000500 * 3037000500 => none
3037000499 * 3037000499 => 9223372030926249001/1
1 / 9223372036854775807 / 2 => none
1 / 9223372036854775807 => 1/9223372036854775807
Cost + Kind => none
Cost - Own => none
Kind * Cost => none
List / Cost => none";

/// Every operator keeps the bounds of 64 bits: the greatest number is 2^63 - 1, the least one its opposite, for a
/// numerator and for a denominator.
const BOUNDS: &str = "Most => 9223372036854775807/1
Most + 0 => 9223372036854775807/1
Most + 1 => none
Most - -1 => none
Most - 1 => 9223372036854775806/1
0 - Most => -9223372036854775807/1
-1 - Most => none
-2 - Most => none
Most * 1 => 9223372036854775807/1
Most * -1 => -9223372036854775807/1
Most * 2 => none
Most * Most => none
Most / 1 => 9223372036854775807/1
Most / -1 => -9223372036854775807/1
1 / Most => 1/9223372036854775807
1 / Most / 2 => none
-1 / Most => -1/9223372036854775807
1 / (1 / Most) => 9223372036854775807/1
2 / (1 / Most) => none
Most / Most => 9223372036854775807/9223372036854775807
Most / Most == 1 => true
1 / Most + 1 / Most => none
Most == Most => true
Most != Most - 1 => true
1 / Most < 1 / (Most - 1) => true
Most / 2 > (Most - 1) / 2 => true
Most <= Most / 1 => true
0 - Most >= Most => false
Most in Wide => none
Most in Extremes => true
0 - Most in Extremes => true
Most - 1 in Extremes => false";

/// Each form wants its kinds of operands: a number, a text, a truth value, a list and nothing as the left and as the
/// right side.
const OPERANDS: &str = "Cost + Cost => 10/1
Kind + Kind => none
Own + Own => none
List + List => none
Cost + Absent => none
Absent + Cost => none
Kind - Cost => none
Cost * Own => none
Cost / Kind => none
Own / Cost => none
Cost < Kind => none
Kind <= Own => none
Own > Cost => none
List >= Cost => none
Cost != List => none
Absent == Absent => none
Other == Other => none
Own >= Own => true
Kind != 'laser' => false
Letter == 'x' => true
Letter ~ 'xyz' => true
Cost ~ Kind => none
Own ~ Kind => none
Kind ~ List => none
Absent ~ Kind => none
not Kind => none
not List => none
not Absent => none
Own and Kind => none
Own and List => none
Kind or Own => none
Own in Flags => false
Kind in List => none
Cost in Words => none
List in List => none
Letter in Letters => false
Letter in Alias => true
Byte in List => false";

/// Comparisons want one kind.
const COMPARISONS: &str = "1 / 3 < 2 / 5 => true
2 / 4 <= 1 / 2 => true
2 / 4 < 1 / 2 => false
-1 / 2 > -2 / 3 => true
5 >= Cost => true
5 != Cost => false
Kind == 'laser' => true
Kind < 'las' => false
'Z' < 'a' => true
FALSE < TRUE => true
Own == TRUE => true
Own == 1 => none
Kind == 1 => none
List == List => none
'' ~ Kind => true
'ser' ~ Kind => true
'laserx' ~ Kind => false
Kind ~ 1 => none";

/// Truth values are joined left to right.
const TRUTHS: &str = "FALSE and Absent => false
TRUE and Absent => none
Absent and FALSE => none
TRUE or Absent => true
FALSE or Absent => none
Absent or TRUE => none
FALSE or FALSE => false
TRUE and TRUE => true
TRUE and 1 => none
1 and TRUE => none
not Own => false
not Cost => none
exist Other => true
exist Absent => false";

/// Lists hold items of one kind.
const LISTS: &str = "2 in List => true
4 / 2 in List => true
4 in List => false
4 in None => false
'x' in None => none
'ink' in Words => true
'in' in Words => false
'b' in Letters => true
'y' in Alias => true
FALSE in Flags => true
1 in Wide => none
1 in Voids => none
1 in Cost => none
1 in Absent => none
Absent in List => none";

#[test]
fn expressions_have_the_values_of_the_tables(rt: HostRuntime) {
    let alloc = rt.alloc();
    for table in [
        KINDS,
        FRACTIONS,
        BOUNDS,
        OPERANDS,
        COMPARISONS,
        TRUTHS,
        LISTS,
    ] {
        for line in table.lines() {
            assert!(rt; has_value(alloc, line) == Ok(true), "at {line}");
        }
    }
}

fn is_match(alloc: Global, constraint: &str, map: &str) -> Result<bool, LangFault> {
    let map = properties(alloc, map)?;
    let constraint = constraint_of(alloc, constraint.as_bytes())?;
    Ok(matches(constraint.get(), &map)?)
}

const ASKED: &str = "Cost / 3 < 2 and exist Color or 'las' ~ Kind";

/// Offers, and whether they match. A quotient of a property that isn't there has no value, and so the
/// fourth offer's left side has none, whatever its right side is.
const MATCHES: &str = "Cost long  5;Color string  red => true
Cost long  6;Color string  red;Kind string  laser => true
Cost long  5 => false
Kind string  laser => false";

fn is_matched(alloc: Global, line: &str) -> Result<bool, LangFault> {
    let (map, wanted) = cut(line);
    Ok(is_match(alloc, ASKED, map)? == (wanted == "true"))
}

#[test]
fn a_constraint_matches_where_it_is_true(rt: HostRuntime) {
    for line in MATCHES.lines() {
        assert!(rt; is_matched(rt.alloc(), line) == Ok(true), "at {line}");
    }
    assert!(rt; is_match(rt.alloc(), " ", "") == Ok(true));
}

/// Whether these are the names, one behind the other.
fn are_names(alloc: Global, names: &List<Text>, wanted: &[u8]) -> Result<bool, Memory> {
    let mut joined = Vec::new(alloc);
    for name in names.as_slice() {
        joined.extend_from_slice(name.as_slice())?;
    }
    Ok(joined.as_slice() == wanted)
}

fn asks_in_order(alloc: Global) -> Result<bool, LangFault> {
    let constraint = constraint_of(alloc, b"B > 1 and exist A or C in D and B < 'E'")?;
    let preference = Boxed::new(alloc, read_preference(alloc, b"max A + F")?)?;
    let names = names_asked(alloc, constraint.get(), preference.get())?;
    Ok(are_names(alloc, &names, b"BACDF")?)
}

#[test]
fn names_are_asked_once_in_the_order_of_mention(rt: HostRuntime) {
    assert!(rt; asks_in_order(rt.alloc()) == Ok(true));
}
