//! What a type of a given name is.

ghost use Rattle.std.specs.Prelude.{◌≡◌, MatchOption, None, Some, option_copied};
ghost use Rattle.td_types.specs.Properties.{full_properties, property_named};
ghost use Rattle.td_types.specs.Repository.{ServiceType, type_named, incarnation_of, mask_of};

use crate::types::Types;
use td_cdr::Text;
use td_value::PropStruct;

impl Types {
    /// The incarnation of the type of a name. Takes no memory.
    pub fn incarnation_of(&self, name: &[u8]) -> Option<u64>
        ensures { result ≡ incarnation_of self.now.types name.now }
    {
        let entry = self.entries.get(name)?;
        Some(entry.service_type.incarnation)
    }

    /// The repository id of the interface of the type of a name. Takes no memory.
    pub fn interface_of(&self, name: &[u8]) -> Option<&Text>
        ensures { MatchOption result (type_named self.now.types name.now ≡ None)
            (λ i. (t : ServiceType) × (type_named self.now.types name.now ≡ Some t)
            × (t.if_name ≡ i.now)) }
    {
        let entry = self.entries.get(name)?;
        Some(&entry.service_type.if_name)
    }

    /// Whether the type of a name is masked. Takes no memory.
    pub fn is_masked(&self, name: &[u8]) -> Option<bool>
        ensures { result ≡ mask_of self.now.types name.now }
    {
        let entry = self.entries.get(name)?;
        Some(entry.service_type.masked)
    }

    /// All properties of the type of a name, its own and its supertypes', with their modes; none where
    /// no type has the name. Takes no memory.
    pub fn full_properties(&self, name: &[u8]) -> &[PropStruct]
        ensures { result.now ≡ full_properties self.now.types name.now }
    {
        match self.entries.get(name) {
            None => &[],
            Some(entry) => entry.full.as_slice(),
        }
    }

    /// The property of a name among all properties of a type, with its value type and its mode. Takes
    /// no memory.
    pub fn full_property(&self, type_name: &[u8], name: &[u8]) -> Option<&PropStruct>
        ensures { option_copied result
            ≡ property_named (full_properties self.now.types type_name.now) name.now }
    {
        property_named(self.full_properties(type_name), name)
    }
}

/// The first of these properties that has the name.
pub fn property_named<'a>(props: &'a [PropStruct], name: &[u8]) -> Option<&'a PropStruct>
    ensures { option_copied result ≡ property_named props.now name.now }
{
    for property in props {
        if property.name.as_slice() == name {
            return Some(property);
        }
    }
    None
}
