//! Names of links in a group of four traders.

use crate::checking::{Case, check};
use std::process::Abort;
use std::test::Fail;

const INSIDE: &str = "A>B B>C;B; => none IDL:R:1.0 h 9 B/R
A>B B>C;B,C; => none IDL:R:1.0 h 9 C/R";

/// One name gives the register of its link, and two that of the link at the trader behind the first.
#[test]
fn names_in_the_group(rt: HostRuntime) -> Result<(), Fail> {
    check(&rt, rt.alloc(), Case::Name, INSIDE)
}

const UNKNOWN: &str = "A>B B>C;C; => none unknown
A>B B>C;B,A; => none unknown
A>B B>C;B,C,A; => none unknown";

/// A name that no link has is unknown, wherever it stands.
#[test]
fn unknown_names(rt: HostRuntime) -> Result<(), Fail> {
    check(&rt, rt.alloc(), Case::Name, UNKNOWN)
}

const ILLEGAL: &str = "A>B;; => none illegal
A>B;B,; => none illegal";

/// A part that is no word is illegal, and nothing is looked up.
#[test]
fn illegal_names(rt: HostRuntime) -> Result<(), Fail> {
    check(&rt, rt.alloc(), Case::Name, ILLEGAL)
}

/// The register that was given has no key.
const OUTSIDE: &str = "A>X;X; => none IDL:R:1.0 h 9 X/R
A>X;X,C;X/R:nobody => given
A>X;X,C;X/R:failed => failed unknown";

/// A register outside is asked for the names that are left; for its own it isn't.
#[test]
fn a_register_outside(rt: HostRuntime) -> Result<(), Fail> {
    check(&rt, rt.alloc(), Case::Name, OUTSIDE)
}
