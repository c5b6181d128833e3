//! The entries of a script.

ghost use Rattle.std.specs.Prelude.{◌≡◌, ◌<◌, length, IfOk, IfSome, option_copied};
ghost use Rattle.std.specs.List.{position};
ghost use Rattle.td_peers.specs.Scripts.{entry_at, fails, is_for, place_among, rest_of};

use crate::scripted::Scripted;
use std::alloc::Global;
use td_cdr::{Memory, Octets};
use td_ior::{IorFault, iiop_of};
use td_value::Ior;

/// Whether the call that comes after so many is one that fails.
pub(crate) fn fails(failing: &[u64], made: u64) -> bool
    ensures { result ≡ fails failing.now made }
{
    failing.contains(&made.saturating_add(1))
}

/// Where an object's first entry stands.
fn place_of(script: &[(Octets, Scripted)], key: &[u8]) -> Option<usize>
    ensures place { result ≡ position (is_for key.now) script.now }
    ensures within { IfSome result (λ i. i < length script.now) }
{
    script.iter().position(|entry| entry.0.as_slice() == key)
}

/// Where the first entry of the object stands that the target names.
pub(crate) fn place_among(
    alloc: Global,
    script: &[(Octets, Scripted)],
    target: &Ior,
) -> Result<Option<usize>, Memory>
    ensures place { IfOk result (λ place. place ≡ place_among script.now target.now) }
    ensures within { IfOk result (λ place. IfSome place (λ i. i < length script.now)) }
{
    match iiop_of(alloc, target) {
        Ok(profile) => Ok(place_of(script, profile.key.as_slice())),
        Err(IorFault::NoIiop) => Ok(None),
        Err(_) => Err(Memory),
    }
}

/// The entry that stands there.
pub(crate) fn entry_at(script: &[(Octets, Scripted)], place: Option<usize>) -> Option<&Scripted>
    ensures { option_copied result ≡ entry_at script.now place }
{
    let entry = script.get(place?)?;
    Some(&entry.1)
}

/// Takes out the entry that stands there.
#[tactic(auto, using(crate::proofs::Smallness::taken))]
pub(crate) fn take_entry(
    script: &mut Vec<(Octets, Scripted)>,
    place: Option<usize>,
) -> Option<Scripted>
    requires { IfSome place (λ i. i < length script.old.items) }
    ensures entry { result ≡ entry_at script.old.items place }
    ensures rest { script.new.items ≡ rest_of script.old.items place }
{
    let (key, entry) = script.remove(place?);
    drop(key);
    Some(entry)
}
