//! What recipes make.

use crate::lang::support::cut;
use crate::making::{properties, text};
use std::alloc::Global;
use td_cdr::{List, Memory, Text};
use td_eval::expand_recipe;
use td_lang::{LangFault, Part, Recipe, read_recipe};

const MAP: &str =
    "Cost long  -5;Letter char  ';Path string  a\\'b;Own boolean  TRUE;Low longlong  -9223372036854775808;\
List long s 1;Other void  ;Big ulonglong  9223372036854775807;Empty string  ;Nul string  a\0b";

fn expanded(alloc: Global, recipe: &str, constraint: &str) -> Result<Option<Text>, LangFault> {
    let recipe = read_recipe(alloc, recipe.as_bytes())?;
    let map = properties(alloc, MAP)?;
    Ok(expand_recipe(alloc, &recipe, &text(alloc, constraint)?, &map)?)
}

/// A recipe, the importer's constraint, and what the recipe makes of it.
const EXPANDED: &str = r"$* and x => a == 1 => a == 1 and x
$* =>  => TRUE
x \$\\ =>  => x $\
$(Cost)<$(Big) =>  => -5<9223372036854775807
$(Letter) $(Path) =>  => '\'' 'a\\\'b'
$(Own)$(Empty) =>  => TRUE''";

/// Recipes that make nothing of the empty constraint.
const REFUSED: &str = "$(Absent)
$(Low)
$(List)
a$(Other)
$(Nul)";

fn is_text(found: &Option<Text>, wanted: &str) -> bool {
    match found {
        None => false,
        Some(text) => text.as_slice() == wanted.as_bytes(),
    }
}

/// Whether the recipe of a line makes what the line says.
fn is_expanded(alloc: Global, line: &str) -> Result<bool, LangFault> {
    let (recipe, rest) = cut(line);
    let (constraint, wanted) = cut(rest);
    let found = expanded(alloc, recipe, constraint)?;
    Ok(is_text(&found, wanted))
}

fn is_refused(alloc: Global, recipe: &str) -> Result<bool, LangFault> {
    let found = expanded(alloc, recipe, "")?;
    Ok(found.is_none())
}

#[test]
fn recipes_are_expanded(rt: HostRuntime) {
    for line in EXPANDED.lines() {
        assert!(rt; is_expanded(rt.alloc(), line) == Ok(true), "at {line}");
    }
    for recipe in REFUSED.lines() {
        assert!(rt; is_refused(rt.alloc(), recipe) == Ok(true), "of {recipe}");
    }
}

/// How long the expansion of `$*` is for a constraint of so many bytes.
fn length_of(alloc: Global, size: usize) -> Result<Option<usize>, Memory> {
    let mut parts = List::new(alloc);
    parts.push(Part::Constraint)?;
    let constraint = Text::from_vec(vec![in alloc; b'x'; size]?);
    let map = List::new(alloc);
    match expand_recipe(alloc, &Recipe { parts }, &constraint, &map)? {
        None => Ok(None),
        Some(text) => Ok(Some(text.len())),
    }
}

#[test]
fn an_expansion_has_at_most_65536_bytes(rt: HostRuntime) {
    let alloc = rt.alloc();
    assert!(rt; length_of(alloc, 65_536) == Ok(Some(65_536)));
    assert!(rt; length_of(alloc, 65_537) == Ok(None));
}
