//! How a visit of a trader begins.

ghost use Rattle.std.specs.Prelude.{◌≡◌, ◌<◌, [], ◌∷◌, ◌++◌, length, vec_len, vec_capacity, IfOk, OnErr};
ghost use Rattle.td_fed.specs.Entering.{IsEntered, IsEnteredSoFar, begin_item, entry_of};
ghost use Rattle.td_fed.specs.Trails.{Goes, IsShown};
ghost use Rattle.td_fed.specs.Visiting.{BeginsVisit};
ghost use Rattle.td_query_walk.specs.Walks.{no_offers};
ghost use Rattle.td_walk.specs.declared.trace.TraceItem.TheVariants as item;
ghost use Rattle.td_fed.specs.declared.entering.VisitStart.TheVariants as entry;
ghost use Rattle.td_fed.specs.Entering.{new_frame};
ghost use Rattle.td_trader.specs.Worlds.{Watches};

use std::alloc::Global;
use td_cdr::{Boxed, List, Memory, Shared};
use td_ops::Query;
use td_store::Local;
use td_trader::{Begin, Traders};
use td_visit::Frame;
use td_walk::{SubAnswer, TraceItem, Visit};

/// A visit that began.
#[derive(Drop)]
pub(crate) enum VisitStart {
    /// It asks nothing, and comes to this.
    Ended(Visit),
    /// It asks its questions.
    Open(Frame),
}

/// No offers and no limits.
pub(crate) fn no_offers(alloc: Global) -> SubAnswer
    ensures { result ≡ no_offers }
{
    SubAnswer {
        offers: List::new(alloc),
        limits: List::new(alloc),
    }
}

/// Begins a visit of a trader with a query, and notes how it began. Room for the note is taken first, so that a
/// mark that was made is noted.
///
/// # Errors
///
/// `Memory` only when out of memory.
pub(crate) fn enter<T: Traders>(
    alloc: Global,
    traders: &mut T,
    trader: usize,
    q: &Shared<Query>,
    notes: &mut Vec<TraceItem>,
) -> Result<VisitStart, Memory>
    requires { trader < length (T.world traders.old) }
    ensures same { T.same traders.old traders.new }
    ensures entered { IfOk result (λ e. IsEntered (BeginsVisit T.others T.later)
        (T.world traders.old) trader q.now e notes.old.items notes.new.items
        (T.world traders.new)) }
    ensures so_far { OnErr result (IsEnteredSoFar (BeginsVisit T.others T.later)
        (Watches T.others T.later)
        (T.world traders.old) trader q.now notes.old.items notes.new.items (T.world traders.new)) }
    ensures shown { IsShown (T.world traders.old) [] notes.old.items notes.new.items
        (T.world traders.new) [] }
    ensures goes { Goes T.others T.later (T.world traders.old) (T.world traders.new) }
{
    notes.reserve(1)?;
    let begin = traders.begin(trader, q)?;
    let point = traders.point(trader);
    note_begin(alloc, trader, point, begin, notes)
}

/// Notes how a visit began, in the room that there is.
fn note_begin(
    alloc: Global,
    trader: usize,
    point: u64,
    begin: Begin,
    notes: &mut Vec<TraceItem>,
) -> Result<VisitStart, Memory>
    requires { vec_len notes.old < vec_capacity notes.old }
    ensures noted { notes.new.items ≡ notes.old.items ++ begin_item trader point begin ∷ [] }
    ensures entry { IfOk result (λ e. e ≡ entry_of begin) }
{
    match begin {
        Begin::Refused(outcome) => {
            notes.push_reserved(TraceItem::Refused { trader, point });
            Ok(VisitStart::Ended(Visit::Refused(outcome)))
        }
        Begin::Repeat(mark) => {
            notes.push_reserved(TraceItem::Repeat {
                trader,
                point,
                mark,
            });
            Ok(VisitStart::Ended(Visit::Answered {
                answer: no_offers(alloc),
                max_list: 0,
            }))
        }
        Begin::Search(local) => {
            notes.push_reserved(TraceItem::Search {
                trader,
                point: local.get().point,
                mark: local.get().mark,
            });
            open(alloc, local)
        }
        Begin::Path(local) => {
            notes.push_reserved(TraceItem::Path {
                trader,
                point: local.get().point,
            });
            open(alloc, local)
        }
    }
}

fn open(alloc: Global, local: Boxed<Local>) -> Result<VisitStart, Memory>
    ensures { IfOk result (λ e. e ≡ entry.Open (new_frame local)) }
{
    Ok(VisitStart::Open(Frame::new(alloc, local)?))
}
