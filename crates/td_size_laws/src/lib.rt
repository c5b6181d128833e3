//! How long the offers are that a walk through a group of traders gives, as functions that do nothing: each one's
//! contract is the law (OMG's Trading Object Service, interfaces Lookup and OfferIterator).
#![tactic(auto)]

ghost use Rattle.td_size_laws.specs.SizeLaws.{BoundedOffersAreShort, WalksGiveBoundedOffers};

use td_trader::Traders;

/// Each offer of a walk's answer has bounds: what a trader of the group exported has at most 1 MiB and 256 properties,
/// a value that was evaluated has at most 16 KiB, and an offer of a trader outside has at most 6 MiB. So it has at most
/// 12 MiB wherever it stands, and a batch has room for it.
#[tactic(auto, using(crate::proofs::Walking::walks_bounded, crate::proofs::Fitting::bounded_short))]
pub fn walks_give_short_offers<T: Traders>()
    ensures walks { WalksGiveBoundedOffers T.others T.later }
    ensures short { BoundedOffersAreShort }
{}
