//! What a query is searched with at one trader.

use crate::record::{LinkRecord, OfferRecord};
use td_cdr::{List, Octets, Shared};
use td_lang::{Constraint, Preference};
use td_ops::Query;
use td_policy::{Attributes, Effective, Stated};

/// What a query is searched with at one trader, all of it as it stood at one point of the trader's
/// history (interface CosTrading::Lookup, query). With a path the mark is 0, and there are no
/// candidates and no links. What queries at one point have in common stands in blocks that they share.
pub struct Local {
    /// How many changes the trader had accepted.
    pub point: u64,
    /// The number of the query's mark, from 1.
    pub mark: u64,
    /// The link that the first name of starting_trader leads over, where the policy is stated and names one.
    pub path: Option<LinkRecord>,
    pub query: Shared<Query>,
    /// The identifier of the query (request_id), its own or one that the trader made.
    pub identifier: Option<Octets>,
    pub stated: Stated,
    pub effective: Effective,
    pub attributes: Shared<Attributes>,
    pub constraint: Constraint,
    pub preference: Preference,
    /// The offers that are searched, by rising number.
    pub candidates: Shared<List<OfferRecord>>,
    /// The links in the order of adding.
    pub links: Shared<List<LinkRecord>>,
}

// By hand, since a derived drop is written out at each exit, and proved again in each crate above.
impl Drop for Local {
    fn drop(self) {
        let Local {
            point: _point,
            mark: _mark,
            path: _path,
            query: _query,
            identifier: _identifier,
            stated: _stated,
            effective: _effective,
            attributes: _attributes,
            constraint: _constraint,
            preference: _preference,
            candidates: _candidates,
            links: _links,
        } = self;
    }
}
