//! Object references (CORBA's chapter on interoperability, "Interoperable Object References").

ghost use Rattle.std.specs.Prelude.{◌≡◌};
ghost use Rattle.td_cdr.specs.Format.{Reads, Appends};
ghost use Rattle.td_cdr.specs.ValueFaults.{is_memory};
ghost use Rattle.td_typecode.specs.References.{profile, reference};

use std::alloc::Global;
use td_cdr::{
    List, Memory, Octets, Reader, Spelled, Text, Twin, ValueFault, Writer, copy_two, put_two,
    read_whole, write_whole,
};

/// How an object may be reached by one protocol. The octets are kept as they came.
pub struct Profile {
    /// Which protocol: 0 is IIOP.
    pub tag: u32,
    pub octets: Octets,
}

/// An interoperable object reference. The nil reference has an empty id and no profiles.
pub struct Ior {
    /// The repository id of the object's interface.
    pub id: Text,
    pub profiles: List<Profile>,
}

// By hand, since a derived drop is written out at each exit, and proved again in each crate above.
impl Drop for Profile {
    fn drop(self) {
        let Profile {
            tag: _tag,
            octets: _octets,
        } = self;
    }
}

impl Drop for Ior {
    fn drop(self) {
        let Ior {
            id: _id,
            profiles: _profiles,
        } = self;
    }
}

impl Twin for Profile {
    fn copy(&self, alloc: Global) -> Result<Profile, Memory> {
        Ok(Profile {
            tag: self.tag,
            octets: self.octets.copy(alloc)?,
        })
    }
}

impl Twin for Ior {
    fn copy(&self, alloc: Global) -> Result<Ior, Memory> {
        let (id, profiles) = copy_two(alloc, &self.id, &self.profiles)?;
        Ok(Ior { id, profiles })
    }
}

impl Spelled for Profile {
    ghost format = { profile.format };

    ghost faults = { profile.faults };

    fn read(alloc: Global, r: &mut Reader) -> Result<Profile, ValueFault> {
        let (tag, octets) = <(u32, Octets)>::read(alloc, r)?;
        Ok(Profile { tag, octets })
    }

    fn write(&self, alloc: Global, w: &mut Writer) -> Result<(), Memory> {
        put_two(alloc, w, &self.tag, &self.octets)
    }

    ghost lawful = { profile.lawful };

    ghost refuses = { profile.refuses };
}

impl Spelled for Ior {
    ghost format = { reference.format };

    ghost faults = { reference.faults };

    fn read(alloc: Global, r: &mut Reader) -> Result<Ior, ValueFault> {
        let (id, profiles) = <(Text, List<Profile>)>::read(alloc, r)?;
        Ok(Ior { id, profiles })
    }

    fn write(&self, alloc: Global, w: &mut Writer) -> Result<(), Memory> {
        put_two(alloc, w, &self.id, &self.profiles)
    }

    ghost lawful = { reference.lawful };

    ghost refuses = { reference.refuses };
}

/// The next object reference.
///
/// # Errors
///
/// The first fault in reading order; the reader is then unchanged.
pub fn read_ior(alloc: Global, r: &mut Reader) -> Result<Ior, ValueFault>
    ensures { Reads is_memory reference.format r.old r.new result }
{
    read_whole::<Ior>(alloc, r)
}

/// Appends the reference.
///
/// # Errors
///
/// `Memory` when out of memory or of room; the writer is then unchanged.
pub fn write_ior(alloc: Global, w: &mut Writer, ior: &Ior) -> Result<(), Memory>
    ensures { Appends (reference.format.writes ior.now) w.old w.new result }
{
    write_whole(alloc, w, ior)
}
