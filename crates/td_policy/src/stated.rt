//! The policies that an importer stated.

use std::alloc::Global;
use td_cdr::{List, Memory, Octets, Text, Twin};
use td_value::FollowOption;

/// The values of an importer's policies, each absent where it isn't stated.
pub struct Stated {
    /// Whether subtypes are left out (exact_type_match).
    pub exact: Option<bool>,
    /// Over how many links a query goes at most (hop_count).
    pub hops: Option<u32>,
    /// How far links are followed (link_follow_rule).
    pub follow: Option<FollowOption>,
    /// How many offers are matched at most (match_card).
    pub match_card: Option<u32>,
    /// How many offers are returned at most (return_card).
    pub return_card: Option<u32>,
    /// How many offers are searched at most (search_card).
    pub search_card: Option<u32>,
    /// The names of the links that lead to the trader where the query starts (starting_trader).
    pub start: Option<List<Text>>,
    /// Whether offers with dynamic properties are considered (use_dynamic_properties).
    pub use_dynamic: Option<bool>,
    /// Whether offers with modifiable properties are considered (use_modifiable_properties).
    pub use_modifiable: Option<bool>,
    /// Whether proxy offers are considered (use_proxy_offers).
    pub use_proxy: Option<bool>,
    /// The identifier of the query (request_id).
    pub request_id: Option<Octets>,
}

// By hand, since a derived drop is written out at each exit, and proved again in each crate above.
impl Drop for Stated {
    fn drop(self) {
        let Stated {
            exact: _exact,
            hops: _hops,
            follow: _follow,
            match_card: _match_card,
            return_card: _return_card,
            search_card: _search_card,
            start: _start,
            use_dynamic: _use_dynamic,
            use_modifiable: _use_modifiable,
            use_proxy: _use_proxy,
            request_id: _request_id,
        } = self;
    }
}
