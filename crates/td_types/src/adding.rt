//! Adding a type.

ghost use Rattle.std.specs.Prelude.{◌≡◌, ℕ, map, MatchResult};
ghost use Rattle.td_types.specs.Added.{IsPrepared, IsMeasured};
ghost use Rattle.td_types.specs.Calls.{AnswersRepositoryCall, add_type, add_fault};
ghost use Rattle.td_types.specs.Judged.{IsFirstFault, AreKept, AreBases};
ghost use Rattle.td_types.specs.Judgements.{Foretells};
ghost use Rattle.td_types.specs.Kept.{repository, AreEntries};
ghost use Rattle.td_types.specs.Repository.{IsRepository};

use crate::bases::bases_of;
use crate::described::halves;
use crate::entries::Entries;
use crate::entry::{ServiceType, TypeEntry};
use crate::fault::TypesFault;
use crate::inheriting::{ancestors, with_inherited};
use crate::interfaces::Interfaces;
use crate::limits::MOST_BYTES;
use crate::naming::{check_name, check_properties};
use crate::redefining::check_redefinitions;
use crate::reply::TypesReply;
use crate::types::Types;
use std::alloc::Global;
use td_cdr::{List, Text, copy_four};
use td_value::{PropStruct, TypeStruct, type_struct_size};

/// How many types there are at most.
const MOST_TYPES: usize = 4096;

/// The last incarnation that is given.
const LAST_INCARNATION: u64 = 1099511627776;

impl Types {
    /// Adds a type, with its interface, its properties and the supertypes that it lists (add_type).
    ///
    /// # Errors
    ///
    /// In this order: `IllegalServiceType`, `ServiceTypeExists`; by property `IllegalPropertyName`,
    /// `DuplicatePropertyName`; by supertype `IllegalServiceType`, `UnknownServiceType`,
    /// `DuplicateServiceTypeName`, `InterfaceTypeMismatch`; `ValueTypeRedefinition`; then `Full` where
    /// a limit would be passed. `Memory` when out of memory. The repository is then unchanged.
    pub fn add(
        &mut self,
        name: Text,
        if_name: Text,
        props: List<PropStruct>,
        supers: List<Text>,
    ) -> Result<TypesReply, TypesFault>
        ensures answer { AnswersRepositoryCall (add_type self.old name if_name props supers)
            self.old self.new result }
        ensures valid { IsRepository self.new }
    {
        let entry = prepared(
            self.alloc,
            &self.interfaces,
            &self.entries,
            self.last,
            name,
            if_name,
            props,
            supers,
        )?;
        let incarnation = entry.service_type.incarnation;
        self.entries.add(self.alloc, entry)?;
        self.last = incarnation;
        Ok(TypesReply::Added(incarnation))
    }

    /// Whether `add` is accepted. Nothing is added.
    ///
    /// # Errors
    ///
    /// As `add`.
    pub fn judge_add(
        &self,
        alloc: Global,
        name: &Text,
        if_name: &Text,
        props: &List<PropStruct>,
        supers: &List<Text>,
    ) -> Result<(), TypesFault>
        ensures { Foretells (add_type self.now name.now if_name.now props.now supers.now) result }
    {
        let (name, (if_name, (props, supers))) = copy_four(alloc, name, if_name, props, supers)?;
        let entry = prepared(
            alloc,
            &self.interfaces,
            &self.entries,
            self.last,
            name,
            if_name,
            props,
            supers,
        )?;
        drop(entry);
        Ok(())
    }
}

/// The entry of a new type, or why it isn't added.
fn prepared(
    alloc: Global,
    interfaces: &Interfaces,
    entries: &Entries,
    last: u64,
    name: Text,
    if_name: Text,
    props: List<PropStruct>,
    supers: List<Text>,
) -> Result<TypeEntry, TypesFault>
    requires { AreEntries entries.now interfaces.now last }
    ensures { IsPrepared entries.now interfaces.now last name if_name props supers result }
{
    let bases = judged(
        alloc,
        interfaces,
        entries,
        &name,
        &if_name,
        props.as_slice(),
        supers.as_slice(),
    )?;
    if entries.len() >= MOST_TYPES {
        return Err(TypesFault::Full);
    }
    if last >= LAST_INCARNATION {
        return Err(TypesFault::Full);
    }
    let full = with_inherited(alloc, &props, bases.as_slice())?;
    let above = ancestors(alloc, bases.as_slice())?;
    measured(alloc, last + 1, name, if_name, props, supers, full, above)
}

/// The entries of the supertypes of a type that can be added.
fn judged<'a>(
    alloc: Global,
    interfaces: &Interfaces,
    entries: &'a Entries,
    name: &Text,
    if_name: &Text,
    props: &[PropStruct],
    supers: &[Text],
) -> Result<List<&'a TypeEntry>, TypesFault>
    requires { AreKept entries.now }
    ensures { IsFirstFault (add_fault (repository entries.now interfaces.now 0)
        name.now if_name.now props.now supers.now)
        (λ bases. AreBases entries.now supers.now (map (λ b. b.now) bases)) result }
{
    check_name(alloc, entries, name)?;
    check_properties(alloc, props)?;
    let bases = bases_of(alloc, interfaces, entries, name, if_name, supers)?;
    check_redefinitions(alloc, name, props, bases.as_slice())?;
    Ok(bases)
}

/// The entry of these parts, unless its full description is too long.
fn measured(
    alloc: Global,
    incarnation: u64,
    name: Text,
    if_name: Text,
    props: List<PropStruct>,
    supers: List<Text>,
    full: List<PropStruct>,
    above: List<Text>,
) -> Result<TypeEntry, TypesFault>
    ensures { IsMeasured incarnation name if_name props supers full above result }
{
    let described = TypeStruct {
        if_name,
        props: full,
        super_types: above,
        masked: false,
        incarnation: halves(incarnation),
    };
    if type_struct_size(alloc, &described)? > MOST_BYTES {
        return Err(TypesFault::Full);
    }
    let TypeStruct {
        if_name,
        props: full,
        super_types: ancestors,
        ..
    } = described;
    Ok(TypeEntry {
        service_type: ServiceType {
            name,
            if_name,
            props,
            supers,
            masked: false,
            incarnation,
        },
        ancestors,
        full,
    })
}
