//! Properties that are defined again.

ghost use Rattle.std.specs.Prelude.{◌≡◌, ◌&&◌, ◌||◌, not, ℕ, List, [], ◌∷◌, ◌++◌, true, false, Some, None, map, cond};
ghost use Rattle.std.specs.Prelude.{IfOk, OnOk};
ghost use Rattle.std.specs.Option.{option_map, option_or};
ghost use Rattle.std.specs.Str.{bytes_eq};
ghost use Rattle.td_types.specs.Adding.{Definition, definitions, conflict, earlier_of, redefinition, agree};
ghost use Rattle.td_types.specs.Firsts.{definition_of, first_at, AreFirsts};
ghost use Rattle.td_types.specs.Judged.{IsFirstFault, inherited_from};
ghost use Rattle.td_types.specs.Modes.{is_at_least};
ghost use Rattle.td_types.specs.declared.fault.RepoFault.TheVariants as fault;

use crate::entry::TypeEntry;
use crate::fault::{RepoFault, TypesFault};
use crate::modes::is_at_least;
use std::alloc::Global;
use std::collections::BTreeMap;
use td_cdr::{Boxed, Memory, Text, copy_two};
use td_sameness::same_type;
use td_value::PropStruct;

/// A property's definition, the type that gives it, and whether that is the new type.
#[derive(Clone, Copy)]
pub(crate) struct Given<'a> {
    type_name: &'a Text,
    property: &'a PropStruct,
    own: bool,
}

/// The first of the new type's and its supertypes' definitions, in order, that conflicts with the
/// first of its name is refused.
pub(crate) fn check_redefinitions(
    alloc: Global,
    name: &Text,
    props: &[PropStruct],
    bases: &[&TypeEntry],
) -> Result<(), TypesFault>
    ensures { IsFirstFault (redefinition (definitions name.now true props.now) (inherited_from (map
        (λ b. b.now) bases.now))) (λ _. Unit {0}) result }
{
    let mut firsts = own_definitions(alloc, name, props)?;
    for base in bases {
        check_base(alloc, &mut firsts, base)?;
    }
    Ok(())
}

/// The new type's own definitions.
fn own_definitions<'a>(
    alloc: Global,
    name: &'a Text,
    props: &'a [PropStruct],
) -> Result<BTreeMap<&'a [u8], Given<'a>>, Memory>
    ensures { IfOk result (λ firsts. AreFirsts firsts (definitions name.now true props.now)) }
{
    let mut firsts = BTreeMap::new(alloc);
    for property in props {
        let given = Given {
            type_name: name,
            property,
            own: true,
        };
        let _earlier = first(&mut firsts, given)?;
    }
    Ok(firsts)
}

/// A supertype's definitions, after earlier ones.
fn check_base<'a>(
    alloc: Global,
    firsts: &mut BTreeMap<&'a [u8], Given<'a>>,
    base: &'a TypeEntry,
) -> Result<(), TypesFault>
    ensures { (earlier : List Definition) → AreFirsts firsts.old earlier →
        IsFirstFault
        (redefinition earlier (definitions base.now.service_type.name false base.now.full))
        (λ _. AreFirsts firsts.new
        (earlier ++ definitions base.now.service_type.name false base.now.full)) result }
{
    for property in base.full.as_slice() {
        let given = Given {
            type_name: &base.service_type.name,
            property,
            own: false,
        };
        check_definition(alloc, firsts, given)?;
    }
    Ok(())
}

/// One definition, after earlier ones.
fn check_definition<'a>(
    alloc: Global,
    firsts: &mut BTreeMap<&'a [u8], Given<'a>>,
    given: Given<'a>,
) -> Result<(), TypesFault>
    ensures { (earlier : List Definition) → AreFirsts firsts.old earlier →
        IsFirstFault (conflict (earlier_of earlier given.entry.property.now.name)
        (definition_of given.entry))
        (λ _. AreFirsts firsts.new (earlier ++ definition_of given.entry ∷ [])) result }
{
    match first(firsts, given)? {
        None => Ok(()),
        Some(earlier) => check_agreement(alloc, earlier, given),
    }
}

/// Copies of two definitions, each in a block of its own.
fn boxed_copies(
    alloc: Global,
    first: &PropStruct,
    second: &PropStruct,
) -> Result<(Boxed<PropStruct>, Boxed<PropStruct>), Memory>
    ensures { IfOk result (λ copies. copies ≡ (first.now, second.now)) }
{
    let first = Boxed::copy_of(alloc, first)?;
    let second = Boxed::copy_of(alloc, second)?;
    Ok((first, second))
}

/// Refuses a definition that doesn't agree with the first of its name.
fn check_agreement(alloc: Global, earlier: Given<'_>, given: Given<'_>) -> Result<(), TypesFault>
    ensures { IsFirstFault (conflict (Some (definition_of earlier.entry))
        (definition_of given.entry))
        (λ _. Unit {0}) result }
{
    if agree(alloc, earlier, given.property)? {
        return Ok(());
    }
    let (type_1, type_2) = copy_two(alloc, earlier.type_name, given.type_name)?;
    let (definition_1, definition_2) = boxed_copies(alloc, earlier.property, given.property)?;
    Err(TypesFault::User(RepoFault::ValueTypeRedefinition {
        type_1,
        definition_1,
        type_2,
        definition_2,
    }))
}

/// Whether a property agrees with the first definition of its name.
///
/// # Errors
///
/// `Memory` only when out of memory.
fn agree(alloc: Global, earlier: Given<'_>, property: &PropStruct) -> Result<bool, Memory>
    ensures { IfOk result (λ yes. yes ≡ agree (definition_of earlier.entry) property.now) }
{
    let same = same_type(alloc, &earlier.property.value_type, &property.value_type)?;
    Ok(same && (!earlier.own || is_at_least(earlier.property.mode, property.mode)))
}

/// The first definition of the name, if there is one; otherwise this becomes the first.
///
/// # Errors
///
/// `Memory` only when out of memory.
fn first<'a>(
    firsts: &mut BTreeMap<&'a [u8], Given<'a>>,
    given: Given<'a>,
) -> Result<Option<Given<'a>>, Memory>
    ensures earlier { IfOk result (λ e. option_map definition_of e
        ≡ first_at firsts.old given.entry.property.now.name) }
    ensures kept { OnOk result ((name : List ℕ) → first_at firsts.new name
        ≡ option_or (first_at firsts.old name) (cond (bytes_eq given.entry.property.now.name name)
        (Some (definition_of given.entry)) None)) }
{
    let name = given.property.name.as_slice();
    match firsts.get(name) {
        Some(earlier) => Ok(Some(*earlier)),
        None => {
            firsts.insert(name, given)?;
            Ok(None)
        }
    }
}
