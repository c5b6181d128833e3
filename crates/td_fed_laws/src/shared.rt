//! Walks through a group that others use too.

ghost use Rattle.td_fed_laws.specs.SharedLaws.{FreshWalksNameSearches, FreshWalksRepeatExactly};
ghost use Rattle.td_fed_laws.specs.SharedLaws.{RememberedWalksSearchOnce, WalksAloneAreRemembered};
ghost use Rattle.td_fed_laws.specs.SharedLaws.{WalksAreNamed, WalksAreUnderOne};

use td_trader::Traders;

/// Whatever others do to a group meanwhile: a walk visits its traders under one identifier, the one that its query
/// states, or else the one that the first trader makes that is searched.
pub fn walks_have_one_identifier<T: Traders>()
    ensures stated { WalksAreNamed T.others T.later }
    ensures one { WalksAreUnderOne T.others T.later }
{}

/// Whatever others do to a group meanwhile: no trader is searched twice, where each remembers the mark of its search
/// until it is last visited. Queries may have gone outside, and come back to the group.
pub fn remembered_walks_search_once<T: Traders>()
    ensures { RememberedWalksSearchOnce T.others T.later }
{}

/// Where only the walk's own queries carry its identifier, and none goes outside, a repeat names the mark of an earlier
/// search of its trader. Where the traders remember their searches too, a visit that has neither a refusal nor a path
/// is a repeat exactly where its trader was searched before.
pub fn fresh_walks_repeat_their_searches<T: Traders>()
    ensures named { FreshWalksNameSearches T.others T.later }
    ensures exactly { FreshWalksRepeatExactly T.others T.later }
{}

/// In a group on which no others act each walk is remembered, where each trader remembers one mark at least.
pub fn walks_alone_are_remembered()
    ensures { WalksAloneAreRemembered }
{}
