//! What holds of every trader as it is reached from its opening on, as functions that do nothing: each one's contract
//! is the law.

ghost use Rattle.std.specs.Prelude.{◌<◌, ◌^◌};
ghost use Rattle.td_cdr.specs.Marks.{Marks};
ghost use Rattle.td_marks.specs.Keeping.{AreRingMarks as AreMarks};
ghost use Rattle.td_trader.specs.BeginLaws.{AreKept};
ghost use Rattle.td_trader_laws.specs.Reaching.{ReachedMarksGrowLater, ReachedTradersAreInOrder, ReachedTradersBegin};
ghost use Rattle.td_trader_laws.specs.Reaching.{ReachedTradersSearch, SearchesAreMadeApart};
ghost use Rattle.td_trader_laws.specs.Reaching.{SearchesOfOneIdentifierAreFar};

/// As long as fewer than 2^40 marks were made, there are values left of which a trader can make identifiers.
pub fn values_are_left()
    ensures { (m : Marks) → AreMarks m → m.count < 2 ^ 40 → AreKept m }
{}

/// The bounds, the marks and the history of a trader are such as the other laws ask for.
pub fn reached_traders_are_in_order()
    ensures { ReachedTradersAreInOrder }
{}

/// At a trader each query is refused for its first cause, or passed on, or a repeat, or searched. It is searched under
/// an identifier that wasn't remembered and is from then on, with the candidates and the links that the store has at
/// that point; and marks become later ones.
pub fn reached_traders_begin()
    ensures begin { ReachedTradersBegin }
    ensures search { ReachedTradersSearch }
    ensures later { ReachedMarksGrowLater }
{}

/// The marks of two searches of one trader under one identifier have numbers that differ by more than it remembers. Two
/// identifiers that it makes are never the same. Of the trader nothing is asked but its bounds and what holds of the
/// marks of every ring, so that this is said of searches of several sessions too.
pub fn searches_are_apart()
    ensures stated { SearchesOfOneIdentifierAreFar }
    ensures made { SearchesAreMadeApart }
{}
