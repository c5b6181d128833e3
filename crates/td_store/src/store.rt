//! What a trader keeps.

use crate::links::Links;
use crate::offers::Offers;
use td_policy::Attributes;
use td_types::Types;

/// What a trader keeps: its types, its offers by rising number, its links in the order of adding, and
/// its attributes (OMG's Trading Object Service).
pub struct Store {
    /// The service types, with the declared interfaces.
    pub types: Types,
    pub offers: Offers,
    pub links: Links,
    pub attributes: Attributes,
    /// The last offer number given, 0 before the first.
    pub last_offer: u32,
}

// By hand, since a derived drop is written out at each exit, and proved again in each crate above.
impl Drop for Store {
    fn drop(self) {
        let Store {
            types: _types,
            offers: _offers,
            links: _links,
            attributes: _attributes,
            last_offer: _last_offer,
        } = self;
    }
}
