//! The laws of runs, over any traders: `T::others` and `T::later` are what others may do to them between two calls.

ghost use Rattle.td_session_runs.specs.Laws.{AcceptedStand, AloneGrowsByOwn, NoneIsInvented, OwnMarksAreSearches};
ghost use Rattle.td_session_runs.specs.Laws.{OwnPlacesAreAccepted};
ghost use Rattle.td_session_runs.specs.Laws.{PointsRise, QueriesAreWalks, QueriesBeginWalks, RefusedChangeNothing};
ghost use Rattle.td_session_runs.specs.Laws.{RequestsShowPeers, SeenStaysLegal, NoMemoryChangesNothing, WordsAreDrawn};

use td_trader::Traders;

/// The points of one trader at which Requests are served never fall, of a query those of its trace in order, whatever
/// it was answered with. None is below how much of its history was seen before, and none above how much is seen at the
/// end.
pub fn points_rise<T: Traders>()
    ensures { PointsRise T.others T.later }
{}

/// The places of a session's own changes are, in order, those of its accepted changes. Each stands in its trader's
/// history at its point, and later points of that trader are above it.
pub fn own_changes_are_accepted<T: Traders>()
    ensures places { OwnPlacesAreAccepted T.others T.later }
    ensures stand { AcceptedStand T.others T.later }
{}

/// A session's own marks are, in order, those of the searches in its journal's traces.
pub fn own_marks_are_searches<T: Traders>()
    ensures { OwnMarksAreSearches T.others T.later }
{}

/// Each trader keeps its name, its opening store and its bounds; its history is followed by legal changes, and is legal
/// where it was; and there are as many traders.
pub fn what_is_seen_is_legal<T: Traders>()
    ensures { SeenStaysLegal T.others T.later }
{}

/// No answer of a peer is invented: what the journal shows of peers is, in order, what the calls gave that were made of
/// them; and each that is shown as failed is a fault of a peer, at which the count rose. So it is of each Request.
pub fn no_answer_is_invented<T: Traders>()
    ensures run { NoneIsInvented T.others T.later }
    ensures request { RequestsShowPeers T.others T.later }
{}

/// A Request that is refused with another exception than NO_MEMORY changes no store, makes no mark and leaves the kept
/// iterators as they were.
pub fn refusals_change_nothing<T: Traders>()
    ensures { RefusedChangeNothing T.others T.later }
{}

/// A Request that is answered with NO_MEMORY changes no store and leaves the kept iterators as they were. The marks
/// that a query has made are those that its trace shows.
pub fn no_memory_changes_nothing<T: Traders>()
    ensures { NoMemoryChangesNothing T.others T.later }
{}

/// What a run draws of the random words is a front of those to come.
pub fn words_are_drawn_in_order<T: Traders>()
    ensures { WordsAreDrawn T.others T.later }
{}

/// A query that is answered otherwise than with NO_MEMORY is answered with what a walk from its trader on comes to,
/// and this walk is noted. So what holds of every walk holds of it: which traders it searches, and within which hops.
pub fn queries_are_walks<T: Traders>()
    ensures { QueriesAreWalks T.others T.later }
{}

/// A query is noted with the beginning of a walk from its trader on, whatever it is answered with: with a whole walk
/// where it is answered otherwise than with NO_MEMORY, and with a walk so far when memory ran out.
pub fn queries_begin_walks<T: Traders>()
    ensures { QueriesBeginWalks T.others T.later }
{}

/// Over traders that one session has alone, what comes to a trader's history are the session's accepted changes, each
/// at its point, and nothing else.
pub fn alone_histories_grow_by_own_changes()
    ensures { AloneGrowsByOwn }
{}
