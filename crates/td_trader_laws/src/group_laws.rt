//! What holds of every trader whose values can be written, as functions that do nothing: each one's contract is the
//! law.

ghost use Rattle.td_trader.specs.Solos.{no_changes};
ghost use Rattle.td_trader_laws.specs.WritableTraders.{TradersBeginWritably, TradersChangeWritably};
ghost use Rattle.td_trader_laws.specs.WritableTraders.{TradersLookWritably, TradersRefuseWritably};
ghost use Rattle.td_trader_laws.specs.WritableTraders.{TradersSearchWritably, TradersStoresAreWritable};
ghost use Rattle.td_trader_laws.specs.WritableWorlds.{OthersAreAdmitted, WorldsBeginWritably, WorldsChangeWritably};
ghost use Rattle.td_trader_laws.specs.WritableWorlds.{WorldsLookWritably, WorldsWatchWritably};

use td_trader::Traders;

/// A trader whose opening store can be written, and the values of its accepted changes, has a store that can be
/// written. A change whose values can be leaves such a trader, and so does the beginning of a query; what a change or a
/// look is answered with can be written.
pub fn traders_stay_writable()
    ensures stores { TradersStoresAreWritable }
    ensures changes { TradersChangeWritably }
    ensures looks { TradersLookWritably }
    ensures begins { TradersBeginWritably }
{}

/// A query that is refused is told an exception whose members can be written, where the query can be. What a search has
/// at a trader that can be written can be, too: its offers, links and attributes.
pub fn queries_begin_writably()
    ensures refused { TradersRefuseWritably }
    ensures searches { TradersSearchWritably }
{}

/// A group of traders that can be written stays one through each call of it, whatever others do meanwhile, and what the
/// call answers can be written, where its parameters can.
pub fn groups_stay_writable<T: Traders>()
    ensures change { WorldsChangeWritably T.others T.later }
    ensures look { WorldsLookWritably T.others T.later }
    ensures begin { WorldsBeginWritably T.others T.later }
    ensures no_memory_outcome { WorldsWatchWritably T.others T.later }
{}

/// Of a group that one session has alone others make no change.
pub fn none_is_admitted()
    ensures { OthersAreAdmitted no_changes }
{}
