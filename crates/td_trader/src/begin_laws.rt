//! What holds of the beginning of every query, as functions that do nothing: each one's contract is the law.

ghost use Rattle.td_trader.specs.BeginLaws.{MarksGrowLater, OnlySearchesMark, PathsAreServed, QueriesBegin};
ghost use Rattle.td_trader.specs.BeginLaws.{RememberedIsNotMarked, SearchesAreServed, SearchesMarkOnce};

/// Each query is refused for its first cause, or passed on over the link that its path names first, or a
/// repeat of an identifier that is remembered, or searched under one that isn't.
pub fn queries_begin()
    ensures { QueriesBegin }
{}

/// Only a search marks, and it marks once: its own identifier, with the number that it tells. An identifier
/// that is remembered isn't marked, and marks only become later ones.
pub fn only_searches_mark()
    ensures others { OnlySearchesMark }
    ensures once { SearchesMarkOnce }
    ensures remembered { RememberedIsNotMarked }
    ensures later { MarksGrowLater }
{}

/// What a query is served with is all of one store, at one point: a search with the candidates and the
/// links of that store, and a query that is passed on with its link alone.
pub fn queries_are_served()
    ensures searches { SearchesAreServed }
    ensures paths { PathsAreServed }
{}
