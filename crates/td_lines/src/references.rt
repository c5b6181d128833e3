//! References in a line.

ghost use Rattle.std.specs.Prelude.{◌≡◌, [], is_some};
ghost use Rattle.td_lines.specs.Causes.{ParsesLine};
ghost use Rattle.td_lines.specs.References.{parse_reference, parse_register};

use crate::cause::{LineCause, Misfit};
use std::alloc::Global;
use td_ior::{IorFault, is_nil, read_text};
use td_value::Ior;

/// The reference that a word spells.
pub(crate) fn parse_reference(alloc: Global, word: &[u8]) -> Result<Ior, Misfit>
    ensures { ParsesLine (parse_reference word.now) result }
{
    match read_text(alloc, word) {
        Ok(reference) => Ok(reference),
        Err(IorFault::Memory) => Err(Misfit::Memory),
        Err(_) => Err(Misfit::Is(LineCause::Reference)),
    }
}

/// The register that a word spells; a nil reference is none.
pub(crate) fn parse_register(alloc: Global, word: &[u8]) -> Result<Option<Ior>, Misfit>
    ensures { ParsesLine (parse_register word.now) result }
{
    let reference = parse_reference(alloc, word)?;
    if is_nil(&reference) {
        drop(reference);
        Ok(None)
    } else {
        Ok(Some(reference))
    }
}
