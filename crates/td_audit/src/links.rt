//! Links that a log adds.

ghost use Rattle.std.specs.Prelude.{◌≡◌, is_some, IfOk};
ghost use Rattle.td_audit.specs.Links.{register_keyed, register_named, register_of, register_of_object};
ghost use Rattle.td_ior.specs.Profiles.{iiop_of};
ghost use Rattle.td_log.specs.Lines.{trader_named};
ghost use Rattle.td_objects.specs.References.{IsAddress};
ghost use Rattle.td_servant.specs.Linking.{link_change};

use crate::group::Group;
use std::alloc::Global;
use td_cdr::{Memory, Text};
use td_ior::{Kind, ObjectKey, has_iiop, nil};
use td_objects::{Interface, own_reference};
use td_ops::{AddLink, Change};
use td_targets::home_key;
use td_value::Ior;

/// The register of a link to this target: the target's own where it is the Lookup of a trader of one of these names,
/// and else nil; none where the target has no IIOP profile.
///
/// # Errors
///
/// `Memory` only when out of memory.
pub(crate) fn register_of(alloc: Global, group: &Group, target: &Ior) -> Result<Option<Ior>, Memory>
    requires { IsAddress group.now.home }
    ensures { IfOk result (λ r. r ≡ register_of group.now.home group.now.names target.now) }
{
    if !has_iiop(target) {
        return Ok(None);
    }
    let key = home_key(alloc, &group.home, target)?;
    let register = register_keyed(alloc, group, key)?;
    Ok(Some(register))
}

/// The register of the object of this key.
fn register_keyed(alloc: Global, group: &Group, key: Option<ObjectKey>) -> Result<Ior, Memory>
    requires { IsAddress group.now.home }
    ensures { IfOk result (λ r. r ≡ register_keyed group.now.home group.now.names key) }
{
    match key {
        Some(key) => match key.kind {
            Kind::Lookup => register_named(alloc, group, &key.trader),
            Kind::Register => Ok(nil(alloc)),
            Kind::Link => Ok(nil(alloc)),
            Kind::Proxy => Ok(nil(alloc)),
            Kind::Admin => Ok(nil(alloc)),
            Kind::Types => Ok(nil(alloc)),
            Kind::Iterator(_) => Ok(nil(alloc)),
        },
        None => Ok(nil(alloc)),
    }
}

/// The register of the trader of this name, if it is one of these.
fn register_named(alloc: Global, group: &Group, name: &Text) -> Result<Ior, Memory>
    requires { IsAddress group.now.home }
    ensures { IfOk result (λ r. r ≡ register_named group.now.home group.now.names name.now) }
{
    if is_named(group.names.as_slice(), name.as_slice()) {
        own_reference(
            alloc,
            &group.home,
            Interface::Register,
            name,
            Kind::Register,
        )
    } else {
        Ok(nil(alloc))
    }
}

fn is_named(names: &[Text], name: &[u8]) -> bool
    ensures { result ≡ is_some (trader_named names.now name.now) }
{
    number_of(names, name).is_some()
}

/// The number of the trader of this name.
fn number_of(names: &[Text], name: &[u8]) -> Option<usize>
    ensures { result ≡ trader_named names.now name.now }
{
    names.iter().position(|other| other.as_slice() == name)
}

/// The change that adds a link with this register.
pub(crate) fn link_change(link: AddLink, register: Option<Ior>) -> Change
    ensures { result ≡ link_change link register }
{
    Change::AddLink {
        name: link.name,
        target: link.target,
        def_pass_on: link.def_pass_on,
        limiting: link.limiting,
        register,
    }
}
