//! Removing and masking types.

ghost use Rattle.std.specs.Prelude.{◌≡◌, option_copied};
ghost use Rattle.td_types.specs.Calls.{AnswersFreely, remove_type, mask_type, unmask_type};
ghost use Rattle.td_types.specs.Removing.{sub_entry};
ghost use Rattle.td_types.specs.Repository.{IsRepository};

use crate::entry::TypeEntry;
use crate::fault::TypesFault;
use crate::judgement::accepted;
use crate::places::is_among;
use crate::reply::TypesReply;
use crate::types::Types;
use td_cdr::Text;

impl Types {
    /// Removes the type of this name (remove_type). Takes no memory unless it refuses.
    ///
    /// # Errors
    ///
    /// `IllegalServiceType`, `UnknownServiceType`; `HasSubTypes`, where another type conforms to it, with
    /// the oldest of these; `Memory` in place of a refusal.
    pub fn remove(&mut self, name: &Text) -> Result<TypesReply, TypesFault>
        ensures answer { AnswersFreely (remove_type self.old name.now) self.old self.new result }
        ensures valid { IsRepository self.new }
    {
        accepted(self.alloc, self.judge_remove(name), name)?;
        self.entries.remove(name.as_slice());
        Ok(TypesReply::Removed)
    }

    /// Masks the type of this name (mask_type). Takes no memory unless it refuses.
    ///
    /// # Errors
    ///
    /// `IllegalServiceType`, `UnknownServiceType`, `AlreadyMasked`; `Memory` in place of a refusal.
    pub fn mask(&mut self, name: &Text) -> Result<TypesReply, TypesFault>
        ensures answer { AnswersFreely (mask_type self.old name.now) self.old self.new result }
        ensures valid { IsRepository self.new }
    {
        accepted(self.alloc, self.judge_mask(name), name)?;
        self.entries.set_mask(name.as_slice(), true);
        Ok(TypesReply::Masked)
    }

    /// Takes the mask from the type of this name (unmask_type). Takes no memory unless it refuses.
    ///
    /// # Errors
    ///
    /// `IllegalServiceType`, `UnknownServiceType`, `NotMasked`; `Memory` in place of a refusal.
    pub fn unmask(&mut self, name: &Text) -> Result<TypesReply, TypesFault>
        ensures answer { AnswersFreely (unmask_type self.old name.now) self.old self.new result }
        ensures valid { IsRepository self.new }
    {
        accepted(self.alloc, self.judge_unmask(name), name)?;
        self.entries.set_mask(name.as_slice(), false);
        Ok(TypesReply::Unmasked)
    }
}

/// The first other entry that has this name among its ancestors.
pub(crate) fn sub_entry<'a>(entries: &'a [TypeEntry], name: &[u8]) -> Option<&'a TypeEntry>
    ensures { option_copied result ≡ sub_entry entries.now name.now }
{
    for entry in entries {
        if entry.service_type.name.as_slice() != name
            && is_among(name, entry.ancestors.as_slice())
        {
            return Some(entry);
        }
    }
    None
}
