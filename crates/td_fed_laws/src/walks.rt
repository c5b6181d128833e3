//! Walks through a group, and through one on which no others act.

ghost use Rattle.td_fed_laws.specs.WalkLaws.{FreshWalks, NamesSearches, RepeatsExactly, SearchesOnce};
ghost use Rattle.td_fed_laws.specs.WalkLaws.{UnmarkedGroupsAreFresh, VisitsEnd, WalksAreDetermined};
ghost use Rattle.td_fed_laws.specs.WalkLaws.{WalksSearchFarApart, WalksStayWithinStatedHops};
ghost use Rattle.td_fed_laws.specs.WalkLaws.{WalksStayWithinTheirHops};

use td_query_walk::answers_are_one;
use td_trader::Traders;

/// Each trader is searched at most once, where no trader of the group remembers the identifier before. No ring is
/// asked for: each trader makes at most one mark, and only a later mark is one by which it forgets.
pub fn traders_are_searched_once()
    ensures { FreshWalks SearchesOnce }
{}

/// A repeat names the mark of an earlier search of its trader. A visit that has neither a refusal nor a path is a
/// repeat exactly where its trader was searched before.
pub fn repeats_name_an_earlier_search()
    ensures named { FreshWalks NamesSearches }
    ensures exactly { FreshWalks RepeatsExactly }
{}

/// In a group of traders that remember no identifier, as they are when they are opened, each one is fresh.
pub fn unmarked_groups_are_fresh()
    ensures { UnmarkedGroupsAreFresh }
{}

/// Each visit of a walk that asks others ends in it, and before those that it came from.
pub fn every_visit_ends<T: Traders>()
    ensures { VisitsEnd T.others T.later }
{}

/// Whatever others do to a group meanwhile, a search lies at most as many hops below the first as this one may go, at
/// its trader's attributes then. A step along a path isn't a hop.
pub fn searches_stay_within_their_hops<T: Traders>()
    ensures { WalksStayWithinTheirHops T.others T.later }
{}

/// Whatever others do to a group meanwhile, and whether the query states its identifier or the first trader makes it:
/// the marks of two searches of one trader in a walk have numbers that differ by more than the trader remembers.
pub fn searches_of_a_trader_are_far<T: Traders>()
    ensures { WalksSearchFarApart T.others T.later }
{}

/// Whatever others do to a group meanwhile, a search lies at most as many hops below the first as the query states.
pub fn searches_stay_within_stated_hops<T: Traders>()
    ensures { WalksStayWithinStatedHops T.others T.later }
{}

/// A walk has one answer: the group, the random words to come, the query and what its trace shows of others determine
/// it, and what the walk leaves.
pub fn walks_are_determined()
    ensures { WalksAreDetermined }
{
    answers_are_one();
}
