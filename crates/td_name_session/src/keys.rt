//! The keys of a naming server's objects, and the references of its iterators.

ghost use Rattle.std.specs.Prelude.{◌≡◌, ◌<◌, ◌^◌, IfOk, Some, option_map};
ghost use Rattle.td_iter.specs.Heads.{IsSmallReference};
ghost use Rattle.td_name_session.specs.Keys.{iterator_id, iterator_key, iterator_number, iterator_reference, key_of};
ghost use Rattle.td_name_session.specs.declared.keys.NameKey.TheVariants.{Iterator};
ghost use Rattle.td_names.specs.References.{IsAddress};

use std::alloc::Global;
use td_cdr::{Memory, Octets};
use td_ior::{make_ior, number_of};
use td_names::{Address, context_number};
use td_typecode::Ior;

/// An object of a naming server, by its key.
#[derive(Clone, Copy, Debug, PartialEq, Eq)]
pub enum NameKey {
    /// The context of a number, from 1: `N/n`.
    Context(u32),
    /// The connection's iterator of a number, from 1: `N/I/n`.
    Iterator(u64),
}

/// The object whose key these octets are: `N/n` or `N/I/n`, with n from 1 in decimal without leading zeros. Takes no
/// memory.
pub fn read_name_key(key: &[u8]) -> Option<NameKey>
    ensures { result ≡ key_of key.now }
{
    match context_number(key) {
        Some(number) => Some(NameKey::Context(number)),
        None => match iterator_number(key) {
            Some(number) => Some(NameKey::Iterator(number)),
            None => None,
        },
    }
}

fn iterator_number(key: &[u8]) -> Option<u64>
    ensures { result ≡ iterator_number key.now }
{
    let word = key.strip_prefix(b"N/I/".as_slice())?;
    let number = number_of(word)?;
    if number == 0 { None } else { Some(number) }
}

/// The repository id of a binding iterator.
pub(crate) fn iterator_id() -> &'static [u8]
    ensures { result.now ≡ iterator_id }
{
    b"IDL:omg.org/CosNaming/BindingIterator:1.0"
}

/// The minor version of IIOP of the iterators' references.
const IIOP_MINOR: u8 = 0;

/// The reference of the iterator of a number, from 1.
///
/// # Errors
///
/// `Memory` only when out of memory.
pub fn iterator_reference(alloc: Global, home: &Address, number: u64) -> Result<Ior, Memory>
    requires { IsAddress home.now }
    ensures made { IfOk result (λ reference. reference ≡ iterator_reference home.now number) }
    ensures small { IfOk result IsSmallReference }
{
    let key = iterator_key(alloc, number)?;
    make_ior(
        alloc,
        iterator_id(),
        home.host.as_slice(),
        home.port,
        key.as_slice(),
        IIOP_MINOR,
    )
}

fn iterator_key(alloc: Global, number: u64) -> Result<Octets, Memory>
    ensures { IfOk result (λ key. key ≡ iterator_key number) }
{
    let digits = number.to_string(alloc)?;
    let mut key = Vec::from_slice(alloc, b"N/I/")?;
    key.extend_from_slice(digits.as_bytes())?;
    Ok(Octets::from_vec(key))
}
