//! What a trader serves a query with, and what that is tried for.

use crate::checking::Case;
use crate::passing::passes;
use crate::visiting::is_visited;
use std::alloc::Global;
use td_cdr::{Boxed, Memory, Shared};
use td_ops::Query;
use td_store::Local;
use td_trader::{Begin, Solo, Traders};

fn is_served(alloc: Global, case: Case, local: Boxed<Local>, tried: &str, content: &str) -> bool {
    match case {
        Case::Visit => is_visited(alloc, local, content),
        _ => {
            let passed = passes(alloc, case, local.get(), tried, content).unwrap_or(false);
            drop(local);
            passed
        }
    }
}

fn is_begun(
    alloc: Global,
    case: Case,
    begun: Result<Begin, Memory>,
    tried: &str,
    content: &str,
) -> bool {
    match begun {
        Ok(Begin::Search(local)) => is_served(alloc, case, local, tried, content),
        Ok(Begin::Path(local)) => is_served(alloc, case, local, tried, content),
        other => {
            drop(other);
            false
        }
    }
}

/// Whether what A serves the query with comes to what is told.
pub(crate) fn begins(
    alloc: Global,
    case: Case,
    group: &mut Solo,
    query: &Shared<Query>,
    tried: &str,
    content: &str,
) -> bool {
    if group.count() == 0 {
        return false;
    }
    is_begun(alloc, case, group.begin(0, query), tried, content)
}
