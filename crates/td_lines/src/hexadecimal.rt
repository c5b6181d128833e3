//! Octets in hexadecimal digits.

ghost use Rattle.std.specs.Prelude.{◌≡◌};
ghost use Rattle.td_lines.specs.Causes.{ParsesLine};
ghost use Rattle.td_lines.specs.Octets.{parse_octets, parse_seed};

use crate::cause::{LineCause, Misfit};
use hex::FromHexError;
use std::alloc::Global;
use td_cdr::Octets;

/// The octets that hexadecimal digits spell.
pub(crate) fn parse_octets(alloc: Global, digits: &[u8]) -> Result<Octets, Misfit>
    ensures { ParsesLine (parse_octets digits.now) result }
{
    match hex::decode(alloc, digits) {
        Ok(octets) => Ok(Octets::from_vec(octets)),
        Err(FromHexError::OutOfMemory) => Err(Misfit::Memory),
        Err(_) => Err(Misfit::Is(LineCause::Value)),
    }
}

/// The 32 octets that 64 hexadecimal digits spell.
pub(crate) fn parse_seed(alloc: Global, digits: &[u8]) -> Result<Octets, Misfit>
    ensures { ParsesLine (parse_seed digits.now) result }
{
    if digits.len() != 64 {
        return Err(Misfit::Is(LineCause::Value));
    }
    parse_octets(alloc, digits)
}
