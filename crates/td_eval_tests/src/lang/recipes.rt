//! Recipes and their parts, and texts that are none.

use crate::lang::support::{cut, fault_of, long_text, put};
use std::alloc::{AllocError, Global};
use td_cdr::Memory;
use td_lang::{LangFault, Part, Recipe, read_recipe};

/// A recipe, and its parts: `<*>` for the importer's constraint, and `<name>` for a property.
const RECIPES: &str = r"$* and Floor == $(Floor) => <*> and Floor == <Floor>
$* => <*>
$*$* => <*><*>
$(a) => <a>
$(a)$(b_1) => <a><b_1>
$(and) => <and>
$(a)) => <a>)
\$* => $*
\$(a) => $(a)
\\ => \
\\$* => \<*>
a\b => ab
*(a) => *(a)
'it\\\'s' => 'it\'s'";

/// A text that is no recipe, and its first fault.
const FAULTS: &str = r"$ => Syntax 0
a $ => Syntax 2
$$* => Syntax 0
$a => Syntax 0
$ * => Syntax 0
$() => Syntax 0
$(a => Syntax 0
$( a) => Syntax 0
$(a ) => Syntax 0
$(1a) => Syntax 0
$(_a) => Syntax 0
$(a-b) => Syntax 0
$(\a) => Syntax 0
$(*) => Syntax 0
$*$( => Syntax 2
$(a)$(b => Syntax 4
\$$ => Syntax 2
\ => Syntax 0
$*\ => Syntax 2
\\\ => Syntax 2";

fn put_part(out: &mut Vec<u8>, part: &Part) -> Result<(), AllocError> {
    match part {
        Part::Byte(byte) => out.extend_from_slice(&[*byte]),
        Part::Constraint => out.extend_from_slice(b"<*>".as_slice()),
        Part::Property(name) => put(out, b"<".as_slice(), name.as_slice(), b">".as_slice()),
    }
}

/// Whether the recipe has these parts.
fn has_parts(alloc: Global, recipe: &Recipe, parts: &[u8]) -> Result<bool, Memory> {
    let mut out = Vec::new(alloc);
    for part in recipe.parts.as_slice() {
        put_part(&mut out, part)?;
    }
    Ok(out.as_slice() == parts)
}

/// Whether the text is read as a recipe of these parts.
fn is_read(alloc: Global, text: &[u8], parts: &[u8]) -> Result<bool, LangFault> {
    let found = read_recipe(alloc, text)?;
    Ok(has_parts(alloc, &found, parts)?)
}

fn is_line_read(alloc: Global, line: &str) -> Result<bool, LangFault> {
    let (text, parts) = cut(line);
    is_read(alloc, text.as_bytes(), parts.as_bytes())
}

#[test]
fn recipes(rt: HostRuntime) {
    let alloc = rt.alloc();
    assert!(rt; is_read(alloc, b"".as_slice(), b"".as_slice()) == Ok(true));
    assert!(rt; is_read(alloc, b" \0\xff'".as_slice(), b" \0\xff'".as_slice()) == Ok(true));
    for line in RECIPES.lines() {
        assert!(rt; is_line_read(alloc, line) == Ok(true), "at {line}");
    }
}

fn recipe_fault(alloc: Global, text: &[u8]) -> Option<LangFault> {
    read_recipe(alloc, text).err()
}

/// Whether the text of a line has its fault.
fn is_refused(alloc: Global, line: &str) -> bool {
    let (text, fault) = cut(line);
    recipe_fault(alloc, text.as_bytes()) == Some(fault_of(fault))
}

#[test]
fn faults(rt: HostRuntime) {
    let alloc = rt.alloc();
    for line in FAULTS.lines() {
        assert!(rt; is_refused(alloc, line), "at {line}");
    }
}

/// The longest recipe and the longest name: what stands before the pieces, the piece, how many times it
/// stands, and what stands behind.
const LONGEST: &str = r"|\|4096|
$(|a|256|)";

/// Longer ones, with their faults.
const TOO_LONG: &str = "$|a|4096| => TooLong
$(|a|257|) => Syntax 0";

fn is_longest_read(alloc: Global, line: &str) -> Result<bool, Memory> {
    let text = long_text(alloc, line)?;
    Ok(recipe_fault(alloc, text.as_slice()).is_none())
}

fn is_long_refused(alloc: Global, line: &str) -> Result<bool, Memory> {
    let (pieces, fault) = cut(line);
    let text = long_text(alloc, pieces)?;
    Ok(recipe_fault(alloc, text.as_slice()) == Some(fault_of(fault)))
}

#[test]
fn long_recipes(rt: HostRuntime) {
    let alloc = rt.alloc();
    for line in LONGEST.lines() {
        assert!(rt; is_longest_read(alloc, line) == Ok(true), "at {line}");
    }
    for line in TOO_LONG.lines() {
        assert!(rt; is_long_refused(alloc, line) == Ok(true), "at {line}");
    }
}
