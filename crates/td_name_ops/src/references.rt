//! References to bytes.

ghost use Rattle.std.specs.Prelude.{◌≡◌, ◌≤◌, IsTrue};
ghost use Rattle.td_cdr.specs.Format.{Puts};
ghost use Rattle.td_typecode.specs.References.{reference};
ghost use Rattle.td_name_ops.specs.Outcomes.{has_one_profile, one_profile_piece, only_profile_piece, profile_piece};
ghost use Rattle.td_ops.specs.Outcomes.{FitsRoom};

use std::alloc::Global;
use td_cdr::{Memory, Spelled, Text, Writer};
use td_typecode::{Ior, Profile};

/// Writes a reference. Where it fails, some of it may be written; one of one profile, as each of a context here is, is
/// refused only for want of the writer's room.
pub(crate) fn put_reference(alloc: Global, w: &mut Writer, object: &Ior) -> Result<(), Memory>
    ensures puts { Puts (reference.format.writes object.now) w.old w.new result }
    ensures fits { IsTrue (has_one_profile object.now)
        → FitsRoom (reference.format.writes object.now) w.old result }
    ensures room { IsTrue (has_one_profile object.now) → w.old.room ≤ w.new.room }
{
    match object.profiles.as_slice() {
        [profile] => put_with_profile(w, &object.id, profile),
        _ => object.write(alloc, w),
    }
}

/// A reference of this id and profile. It fails only for want of room.
fn put_with_profile(w: &mut Writer, id: &Text, profile: &Profile) -> Result<(), Memory>
    ensures puts { Puts (one_profile_piece id.now profile.now) w.old w.new result }
    ensures fits { FitsRoom (one_profile_piece id.now profile.now) w.old result }
    ensures room { w.old.room ≤ w.new.room }
{
    w.string(id.as_slice())?;
    put_only(w, profile)
}

/// A sequence of one profile. It fails only for want of room.
fn put_only(w: &mut Writer, profile: &Profile) -> Result<(), Memory>
    ensures puts { Puts (only_profile_piece profile.now) w.old w.new result }
    ensures fits { FitsRoom (only_profile_piece profile.now) w.old result }
    ensures room { w.old.room ≤ w.new.room }
{
    w.u32(1)?;
    put_profile(w, profile)
}

/// A profile. It fails only for want of room.
fn put_profile(w: &mut Writer, profile: &Profile) -> Result<(), Memory>
    ensures puts { Puts (profile_piece profile.now) w.old w.new result }
    ensures fits { FitsRoom (profile_piece profile.now) w.old result }
    ensures room { w.old.room ≤ w.new.room }
{
    w.u32(profile.tag)?;
    w.octets(profile.octets.as_slice())
}
