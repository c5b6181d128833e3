//! What a new type has by its supertypes.

ghost use Rattle.std.specs.Prelude.{◌≡◌, ◌<◌, ◌≤◌, ℕ, List as Row, [], ◌∷◌, ◌++◌, length, map, flat_map, IfOk, OnOk};
ghost use Rattle.std.specs.Prelude.{MatchResult};
ghost use Rattle.td_types.specs.Adding.{most_properties};
ghost use Rattle.td_types.specs.Conforming.{once, add_once};
ghost use Rattle.td_types.specs.Inheriting.{with_further, IsMore, IsMoreBy};
ghost use Rattle.td_types.specs.Judged.{inherited_properties, names_above};
ghost use Rattle.td_types.specs.Modes.{join};
ghost use Rattle.td_types.specs.Properties.{has_property, joined_mode, with_inherited, with_stronger_mode};
ghost use Rattle.td_cdr.specs.Seen.{HaveSeen};
ghost use Rattle.td_value.specs.declared.structures.PropStruct.{PropStruct as a_property};

use crate::entry::TypeEntry;
use crate::fault::TypesFault;
use crate::limits::MOST_PROPERTIES;
use crate::modes::join;
use std::alloc::Global;
use td_cdr::{List, Memory, Seen, Text, Twin, nothing_seen, see};
use td_value::{PropStruct, PropertyMode};

/// The full properties: its own in order, then its supertypes'.
///
/// # Errors
///
/// `Full` where there are more than a type has at most, or `Memory` when out of memory.
pub(crate) fn with_inherited(
    alloc: Global,
    props: &List<PropStruct>,
    bases: &[&TypeEntry],
) -> Result<List<PropStruct>, TypesFault>
    ensures { IsMore (with_inherited props.now (inherited_properties (map (λ b. b.now) bases.now)))
        result }
{
    if props.len() > MOST_PROPERTIES {
        return Err(TypesFault::Full);
    }
    let mut full = props.copy(alloc)?;
    for base in bases {
        extend(alloc, &mut full, bases, base)?;
    }
    Ok(full)
}

/// Adds those full properties of a supertype whose names aren't there yet.
fn extend(
    alloc: Global,
    full: &mut List<PropStruct>,
    bases: &[&TypeEntry],
    base: &TypeEntry,
) -> Result<(), TypesFault>
    requires { length full.old ≤ most_properties }
    ensures { (later : Row a_property) → IsMoreBy (inherited_properties (map
        (λ b. b.now) bases.now)) full.old full.new (base.now.full ++ later) later result }
{
    for property in base.full.as_slice() {
        extend_by_one(alloc, full, bases, property)?;
    }
    Ok(())
}

/// Adds a property of a supertype if its name isn't there yet.
fn extend_by_one(
    alloc: Global,
    full: &mut List<PropStruct>,
    bases: &[&TypeEntry],
    property: &PropStruct,
) -> Result<(), TypesFault>
    requires { length full.old ≤ most_properties }
    ensures { (later : Row a_property) → IsMoreBy (inherited_properties (map
        (λ b. b.now) bases.now)) full.old full.new (property.now ∷ later) later result }
{
    if has_property(full.as_slice(), property.name.as_slice()) {
        return Ok(());
    }
    if full.len() >= MOST_PROPERTIES {
        return Err(TypesFault::Full);
    }
    full.push(with_stronger_mode(alloc, bases, property)?)?;
    Ok(())
}

/// The property with the mode that all supertypes together demand.
fn with_stronger_mode(
    alloc: Global,
    bases: &[&TypeEntry],
    property: &PropStruct,
) -> Result<PropStruct, Memory>
    ensures { IfOk result (λ p. p
        ≡ with_stronger_mode (inherited_properties (map (λ b. b.now) bases.now)) property.now) }
{
    Ok(PropStruct {
        name: property.name.copy(alloc)?,
        value_type: property.value_type.copy(alloc)?,
        mode: joined_mode(bases, property.name.as_slice()),
    })
}

/// A property of that name is among these.
fn has_property(props: &[PropStruct], name: &[u8]) -> bool
    ensures { result ≡ has_property props.now name.now }
{
    for property in props {
        if property.name.as_slice() == name {
            return true;
        }
    }
    false
}

/// The join of the modes that the supertypes give a name.
fn joined_mode(bases: &[&TypeEntry], name: &[u8]) -> PropertyMode
    ensures { result ≡ joined_mode (inherited_properties (map (λ b. b.now) bases.now)) name.now }
{
    let mut mode = PropertyMode::Normal;
    for base in bases {
        mode = join(mode, mode_in(base.full.as_slice(), name));
    }
    mode
}

/// The join of the modes that these give a name.
fn mode_in(props: &[PropStruct], name: &[u8]) -> PropertyMode
    ensures { result ≡ joined_mode props.now name.now }
{
    let mut mode = PropertyMode::Normal;
    for property in props {
        if property.name.as_slice() == name {
            mode = join(mode, property.mode);
        }
    }
    mode
}

/// All supertypes, declared ones and theirs, each once.
///
/// # Errors
///
/// `Memory` only when out of memory.
pub(crate) fn ancestors(alloc: Global, bases: &[&TypeEntry]) -> Result<List<Text>, Memory>
    ensures { IfOk result (λ names. names ≡ once [] (names_above (map (λ b. b.now) bases.now))) }
{
    let mut met = List::new(alloc);
    let mut seen = nothing_seen(alloc);
    for base in bases {
        meet(alloc, &mut met, &mut seen, &base.service_type.name)?;
        meet_all(alloc, &mut met, &mut seen, base.ancestors.as_slice())?;
    }
    Ok(met)
}

fn meet_all<'a>(
    alloc: Global,
    met: &mut List<Text>,
    seen: &mut Seen<'a>,
    names: &'a [Text],
) -> Result<(), Memory>
    ensures { HaveSeen seen.old met.old → OnOk result ((met.new ≡ once met.old names.now)
        × HaveSeen seen.new met.new) }
{
    for name in names {
        meet(alloc, met, seen, name)?;
    }
    Ok(())
}

/// Adds a name if it isn't there yet.
fn meet<'a>(
    alloc: Global,
    met: &mut List<Text>,
    seen: &mut Seen<'a>,
    name: &'a Text,
) -> Result<(), Memory>
    ensures { HaveSeen seen.old met.old → OnOk result ((met.new ≡ add_once met.old name.now)
        × HaveSeen seen.new met.new) }
{
    if see(seen, name.as_slice())? {
        met.push(name.copy(alloc)?)?;
    }
    Ok(())
}
