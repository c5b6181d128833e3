//! Describing a type.

ghost use Rattle.std.specs.Prelude.{◌≡◌};
ghost use Rattle.td_types.specs.Calls.{AnswersRepositoryCall, describe_type, fully_describe_type};
ghost use Rattle.td_types.specs.Repository.{IsRepository};

use crate::described::{description, kept_description};
use crate::fault::TypesFault;
use crate::reply::TypesReply;
use crate::sought::find_entry;
use crate::types::Types;
use td_cdr::Text;

impl Types {
    /// The type with its own properties and the supertypes that it lists (describe_type).
    ///
    /// # Errors
    ///
    /// `IllegalServiceType`, `UnknownServiceType`, or `Memory` when out of memory.
    pub fn describe(&self, name: &Text) -> Result<TypesReply, TypesFault>
        ensures answer { AnswersRepositoryCall (describe_type self.now name.now) self.now self.now
            result }
    {
        let entry = find_entry(self.alloc, &self.entries, name)?;
        Ok(TypesReply::Described(description(self.alloc, entry)?))
    }

    /// The type with all its properties and all its supertypes (fully_describe_type).
    ///
    /// # Errors
    ///
    /// As `describe`.
    pub fn fully_describe(&self, name: &Text) -> Result<TypesReply, TypesFault>
        ensures answer { AnswersRepositoryCall (fully_describe_type self.now name.now) self.now
            self.now result }
    {
        let entry = find_entry(self.alloc, &self.entries, name)?;
        Ok(TypesReply::Described(kept_description(self.alloc, entry)?))
    }
}
