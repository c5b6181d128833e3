//! References among the words.

ghost use Rattle.std.specs.Prelude.{◌≡◌, is_some, IfOk};
ghost use Rattle.td_ior.specs.Profiles.{iiop_of};
ghost use Rattle.td_ior.specs.Texts.{reference_in};
ghost use Rattle.td_cli_request.specs.Forms.{ParsesTo, target_in};

use crate::fault::AskFault;
use std::alloc::Global;
use td_cdr::Memory;
use td_ior::{IorFault, iiop_of, read_text};
use td_value::Ior;

/// The reference that a word spells.
pub(crate) fn parse_reference(alloc: Global, word: &str) -> Result<Ior, AskFault>
    ensures { ParsesTo (reference_in word.now) result }
{
    match read_text(alloc, word.as_bytes()) {
        Ok(reference) => Ok(reference),
        Err(IorFault::Memory) => Err(AskFault::Memory),
        Err(_) => Err(AskFault::Form),
    }
}

/// Whether a reference says where its object is reached.
fn has_profile(alloc: Global, reference: &Ior) -> Result<bool, Memory>
    ensures { IfOk result (λ found. found ≡ is_some (iiop_of reference.now)) }
{
    match iiop_of(alloc, reference) {
        Ok(profile) => {
            drop(profile);
            Ok(true)
        }
        Err(IorFault::NoIiop) => Ok(false),
        Err(_) => Err(Memory),
    }
}

/// The reference that a word spells, where it says where its object is reached.
pub(crate) fn parse_target(alloc: Global, word: &str) -> Result<Ior, AskFault>
    ensures { ParsesTo (target_in word.now) result }
{
    let reference = parse_reference(alloc, word)?;
    if has_profile(alloc, &reference)? {
        Ok(reference)
    } else {
        drop(reference);
        Err(AskFault::Form)
    }
}
