//! Whether a call on one type is accepted, without memory.

ghost use Rattle.std.specs.Prelude.{◌≡◌, ℕ, IsOk, IfOk, MatchResult};
ghost use Rattle.td_types.specs.Calls.{RepositoryResult, mask_type, unmask_type, remove_type};
ghost use Rattle.td_types.specs.Judgements.{IsJudged, IsRefusal};
ghost use Rattle.td_types.specs.declared.fault.RepoFault.TheVariants as fault;

use crate::fault::{RepoFault, TypesFault};
use crate::removing::sub_entry;
use crate::types::Types;
use std::alloc::Global;
use td_cdr::{Memory, Text, Twin, copy_two, is_word_name};

/// Whether a call on the type of a name is accepted, or else the exception that it raises.
#[derive(Clone, Copy)]
pub enum Judgement<'a> {
    Accepted,
    IllegalServiceType,
    UnknownServiceType,
    /// The oldest of the other types that conform to it.
    HasSubTypes(&'a Text),
    AlreadyMasked,
    NotMasked,
}

impl Types {
    /// Whether `remove` is accepted. Takes no memory; where it is, `remove` takes none either.
    pub fn judge_remove(&self, name: &Text) -> Judgement<'_>
        ensures { IsJudged (remove_type self.now name.now) name.now result }
    {
        if !is_word_name(name.as_slice()) {
            return Judgement::IllegalServiceType;
        }
        if self.entries.get(name.as_slice()).is_none() {
            return Judgement::UnknownServiceType;
        }
        match sub_entry(self.entries.as_slice(), name.as_slice()) {
            None => Judgement::Accepted,
            Some(sub) => Judgement::HasSubTypes(&sub.service_type.name),
        }
    }

    /// Whether `mask` is accepted. Takes no memory; where it is, `mask` takes none either.
    pub fn judge_mask(&self, name: &Text) -> Judgement<'_>
        ensures { IsJudged (mask_type self.now name.now) name.now result }
    {
        if !is_word_name(name.as_slice()) {
            return Judgement::IllegalServiceType;
        }
        match self.is_masked(name.as_slice()) {
            None => Judgement::UnknownServiceType,
            Some(true) => Judgement::AlreadyMasked,
            Some(false) => Judgement::Accepted,
        }
    }

    /// Whether `unmask` is accepted. Takes no memory; where it is, `unmask` takes none either.
    pub fn judge_unmask(&self, name: &Text) -> Judgement<'_>
        ensures { IsJudged (unmask_type self.now name.now) name.now result }
    {
        if !is_word_name(name.as_slice()) {
            return Judgement::IllegalServiceType;
        }
        match self.is_masked(name.as_slice()) {
            None => Judgement::UnknownServiceType,
            Some(true) => Judgement::Accepted,
            Some(false) => Judgement::NotMasked,
        }
    }
}

/// Raises the exception of a call that isn't accepted.
///
/// # Errors
///
/// The exception, or `Memory` in its place.
pub(crate) fn accepted(
    alloc: Global,
    judgement: Judgement<'_>,
    name: &Text,
) -> Result<(), TypesFault>
    ensures { (comes : RepositoryResult) → IsJudged comes name.now judgement.entry
        → MatchResult result
        (λ _. IsOk comes) (IsRefusal comes) }
{
    let fault = match judgement {
        Judgement::Accepted => return Ok(()),
        Judgement::IllegalServiceType => RepoFault::IllegalServiceType(name.copy(alloc)?),
        Judgement::UnknownServiceType => RepoFault::UnknownServiceType(name.copy(alloc)?),
        Judgement::HasSubTypes(sub) => has_sub_types(alloc, name, sub)?,
        Judgement::AlreadyMasked => RepoFault::AlreadyMasked(name.copy(alloc)?),
        Judgement::NotMasked => RepoFault::NotMasked(name.copy(alloc)?),
    };
    Err(TypesFault::User(fault))
}

fn has_sub_types(alloc: Global, the_type: &Text, sub_type: &Text) -> Result<RepoFault, Memory>
    ensures { IfOk result (λ f. f ≡ fault.HasSubTypes the_type.now sub_type.now) }
{
    let (the_type, sub_type) = copy_two(alloc, the_type, sub_type)?;
    Ok(RepoFault::HasSubTypes { the_type, sub_type })
}
