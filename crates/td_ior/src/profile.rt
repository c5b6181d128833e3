//! The IIOP profiles of a reference.

ghost use Rattle.std.specs.Prelude.{◌≡◌, ◌≤◌, ◌<◌, ◌^◌, [], length, Some, IfOk};
ghost use Rattle.std.specs.Option.{is_some, option_map};
ghost use Rattle.td_cdr.specs.Text.{HasNoNul};
ghost use Rattle.td_cdr.specs.Writing.{Adds};
ghost use Rattle.td_ior.specs.Profiles.{components_at, front, iiop_of_body, iiop_in, first_iiop, iiop_of, lent};
ghost use Rattle.td_ior.specs.Profiles.{ReadsIiop};
ghost use Rattle.td_ior.specs.Profiles.{made_octets, made_reference, no_components};

use crate::enclosed::start_of;
use crate::fault::IorFault;
use std::alloc::Global;
use td_cdr::{List, Memory, Octets, Order, Reader, Spelled, Text, Writer};
use td_value::{Ior, Profile, ValueFault};

/// The tag of an IIOP profile.
const TAG_INTERNET_IOP: u32 = 0;

/// The major version of an IIOP profile.
const IIOP_MAJOR: u8 = 1;

/// What an IIOP profile says: where an object's server listens, and the object's key there.
pub struct Iiop {
    pub host: Text,
    pub port: u16,
    pub key: Octets,
    /// The minor version, which is that of GIOP too.
    pub minor: u8,
    /// The components: each a tag and octets. A profile of version 1.0 has none, nor has one in which nothing of
    /// their form follows the key.
    pub components: List<Profile>,
}

// By hand, since a derived drop is written out at each exit, and proved again in each crate above.
impl Drop for Iiop {
    fn drop(self) {
        let Iiop {
            host: _host,
            port: _port,
            key: _key,
            minor: _minor,
            components: _components,
        } = self;
    }
}

/// The same, of borrowed octets.
#[derive(Drop)]
struct Body<'a> {
    minor: u8,
    host: &'a [u8],
    port: u16,
    key: &'a [u8],
    /// At the components.
    components: Reader<'a>,
}

/// The first IIOP profile of a reference: it has tag 0, and its octets hold a version whose major part
/// is 1, a host, a port and a key, in either order. Where the minor version isn't 0, its components are those
/// that follow the key, if any; what else follows is ignored.
///
/// # Errors
///
/// `NoIiop` exactly where no profile is of IIOP; `Memory` when out of memory.
pub fn iiop_of(alloc: Global, reference: &Ior) -> Result<Iiop, IorFault>
    ensures { ReadsIiop (iiop_of reference.now) result }
{
    let Some(body) = first_iiop(reference.profiles.as_slice()) else {
        return Err(IorFault::NoIiop);
    };
    Ok(copied(alloc, body)?)
}

/// A copy of what a profile says.
fn copied(alloc: Global, body: Body<'_>) -> Result<Iiop, Memory>
    ensures { IfOk result (λ v. v ≡ lent body.entry) }
{
    let Body {
        minor,
        host,
        port,
        key,
        components,
    } = body;
    let components = components_at(alloc, minor, components)?;
    let host = Text::from_slice(alloc, host)?;
    let key = Octets::from_slice(alloc, key)?;
    Ok(Iiop {
        host,
        port,
        key,
        minor,
        components,
    })
}

/// The components of a profile of this minor version, where they may stand.
fn components_at(alloc: Global, minor: u8, mut r: Reader<'_>) -> Result<List<Profile>, Memory>
    ensures { IfOk result (λ components. components ≡ components_at minor r.entry) }
{
    if minor == 0 {
        return Ok(List::new(alloc));
    }
    match List::<Profile>::read(alloc, &mut r) {
        Ok(components) => Ok(components),
        Err(ValueFault::Memory) => Err(Memory),
        Err(_) => Ok(List::new(alloc)),
    }
}

fn first_iiop(profiles: &[Profile]) -> Option<Body<'_>>
    ensures { option_map lent result ≡ first_iiop profiles.now }
{
    for profile in profiles {
        let found = iiop_in(profile);
        if found.is_some() {
            return found;
        }
    }
    None
}

fn iiop_in(profile: &Profile) -> Option<Body<'_>>
    ensures { option_map lent result ≡ iiop_in profile.now }
{
    if profile.tag != TAG_INTERNET_IOP {
        return None;
    }
    body_of(start_of(profile.octets.as_slice())?)
}

/// The body of a profile, behind the octet that tells its order.
fn body_of(mut r: Reader<'_>) -> Option<Body<'_>>
    ensures { option_map lent result ≡ iiop_of_body (front.format.reads r.entry) }
{
    if r.octet().ok()? != IIOP_MAJOR {
        return None;
    }
    let minor = r.octet().ok()?;
    let host = r.string().ok()?;
    let port = r.u16().ok()?;
    let key = r.octets().ok()?;
    Some(Body {
        minor,
        host,
        port,
        key,
        components: r,
    })
}

/// Whether a reference has an IIOP profile. It takes no memory.
pub fn has_iiop(reference: &Ior) -> bool
    ensures { result ≡ is_some (iiop_of reference.now) }
{
    first_iiop(reference.profiles.as_slice()).is_some()
}

/// A reference with one profile: IIOP 1.`minor`, in big order, without components. The host has no NUL, and `minor` is
/// 0 or 1.
///
/// # Errors
///
/// `Memory` when out of memory, or where the profile would come to 2^32 octets.
pub fn make_ior(
    alloc: Global,
    id: &[u8],
    host: &[u8],
    port: u16,
    key: &[u8],
    minor: u8,
) -> Result<Ior, Memory>
    requires host { HasNoNul host.now }
    requires minor { minor ≤ 1 }
    ensures made { IfOk result (λ i. i ≡ made_reference id.now host.now port key.now minor) }
    ensures back { IfOk result (λ i. iiop_of i ≡ Some (record {
      host = host.now;
      port = port;
      key = key.now;
      minor = minor;
      components = [];
    })) }
{
    let id = Text::from_slice(alloc, id)?;
    let octets = profile_octets(alloc, host, port, key, minor)?;
    let mut profiles = List::new(alloc);
    profiles.push(Profile {
        tag: TAG_INTERNET_IOP,
        octets,
    })?;
    Ok(Ior { id, profiles })
}

fn profile_octets(
    alloc: Global,
    host: &[u8],
    port: u16,
    key: &[u8],
    minor: u8,
) -> Result<Octets, Memory>
    ensures made { IfOk result (λ o. o ≡ made_octets host.now port key.now minor) }
    ensures short { IfOk result (λ o. length o < 2 ^ 32) }
{
    let mut w = Writer::inside(alloc, Order::Big)?;
    w.octet(IIOP_MAJOR)?;
    w.octet(minor)?;
    w.string(host)?;
    w.u16(port)?;
    w.octets(key)?;
    put_no_components(&mut w, minor)?;
    Octets::from_slice(alloc, w.bytes())
}

/// No components, for which a profile of version 1.0 has no place.
#[tactic(auto, using(crate::proofs::Made::none_put, crate::proofs::Made::zero_put))]
fn put_no_components(w: &mut Writer, minor: u8) -> Result<(), Memory>
    ensures { Adds (no_components minor w.old.order (length w.old.bytes)) w.old w.new result }
{
    if minor == 0 {
        return Ok(());
    }
    w.u32(0)
}
