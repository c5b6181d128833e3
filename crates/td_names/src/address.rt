//! The references of the contexts of a server, and which context a reference leads to.

ghost use Rattle.std.specs.Prelude.{◌≡◌, IfOk};
ghost use Rattle.td_cdr.specs.Text.{HasNoNul};
ghost use Rattle.td_names.specs.References.{context_id, context_key, context_number, context_of_reference, number_at};
ghost use Rattle.td_names.specs.References.{reference_of};

use std::alloc::Global;
use td_cdr::{Memory, Octets, Text};
use td_ior::{Iiop, IorFault, iiop_of, make_ior, number_up_to};
use td_typecode::Ior;

/// Where a server listens, as its references tell it.
pub struct Address {
    pub host: Text,
    pub port: u16,
}

// By hand, since a derived drop is written out at each exit, and proved again in each crate above.
impl Drop for Address {
    fn drop(self) {
        let Address {
            host: _host,
            port: _port,
        } = self;
    }
}

/// The repository id of a naming context.
pub fn context_id() -> &'static [u8]
    ensures { result.now ≡ context_id }
{
    b"IDL:omg.org/CosNaming/NamingContext:1.0"
}

/// The number of the context whose key these octets are: `N/n`, with n from 1 in decimal without leading zeros.
/// Takes no memory.
pub fn context_number(key: &[u8]) -> Option<u32>
    ensures { result ≡ context_number key.now }
{
    let word = key.strip_prefix(b"N/".as_slice())?;
    let number = number_up_to(word, u32::MAX as u64)?;
    if number == 0 {
        None
    } else {
        Some(number as u32)
    }
}

/// The number of the context of this server that a reference leads to: its first IIOP profile has the server's host and
/// port, and the key of a context. The reference's id doesn't matter.
///
/// # Errors
///
/// `Memory` only when out of memory.
pub fn led_to(alloc: Global, home: &Address, reference: &Ior) -> Result<Option<u32>, Memory>
    ensures { IfOk result (λ number. number ≡ context_of_reference home.now reference.now) }
{
    match iiop_of(alloc, reference) {
        Ok(profile) => Ok(number_at(home, &profile)),
        Err(IorFault::NoIiop) => Ok(None),
        Err(_) => Err(Memory),
    }
}

fn number_at(home: &Address, profile: &Iiop) -> Option<u32>
    ensures { result ≡ number_at home.now profile.now }
{
    if profile.host.as_slice() != home.host.as_slice() || profile.port != home.port {
        return None;
    }
    context_number(profile.key.as_slice())
}

/// The minor version of IIOP of the contexts' references.
const IIOP_MINOR: u8 = 0;

/// The reference of the context of a number, from 1.
///
/// # Errors
///
/// `Memory` when out of memory, or where its profile would come to 2^32 octets.
pub fn context_reference(alloc: Global, home: &Address, number: u32) -> Result<Ior, Memory>
    requires { HasNoNul home.now.host }
    ensures { IfOk result (λ reference. reference ≡ reference_of home.now number) }
{
    let key = context_key(alloc, number)?;
    make_ior(
        alloc,
        context_id(),
        home.host.as_slice(),
        home.port,
        key.as_slice(),
        IIOP_MINOR,
    )
}

fn context_key(alloc: Global, number: u32) -> Result<Octets, Memory>
    ensures { IfOk result (λ key. key ≡ context_key number) }
{
    let digits = number.to_string(alloc)?;
    let mut key = Vec::from_slice(alloc, b"N/")?;
    key.extend_from_slice(digits.as_bytes())?;
    Ok(Octets::from_vec(key))
}
