//! What is kept of one type.

use td_cdr::{List, Text};
use td_value::PropStruct;

/// A type as it was added, masked or not, with the incarnation that it got then.
pub struct ServiceType {
    pub name: Text,
    pub if_name: Text,
    pub props: List<PropStruct>,
    pub supers: List<Text>,
    pub masked: bool,
    pub incarnation: u64,
}

// By hand, since a derived drop is written out at each exit, and proved again in each crate above.
impl Drop for ServiceType {
    fn drop(self) {
        let ServiceType {
            name: _name,
            if_name: _if_name,
            props: _props,
            supers: _supers,
            masked: _masked,
            incarnation: _incarnation,
        } = self;
    }
}

/// A type with what follows from its supertypes.
#[derive(Drop)]
pub(crate) struct TypeEntry {
    pub(crate) service_type: ServiceType,
    /// All its supertypes, in the order in which a depth-first walk meets them.
    pub(crate) ancestors: List<Text>,
    /// All its properties, its own and its supertypes'.
    pub(crate) full: List<PropStruct>,
}
