//! The places that are reached from others over links: a breadth-first walk.

ghost use Rattle.std.specs.Prelude.{◌≡◌, ℕ, ◌<◌, IfOk, OnOk, IsTrue, length};
ghost use Rattle.td_types.specs.Reaching.{AreWithin, IsLeast, is_in, links_at};
ghost use Rattle.td_types.specs.Marking.{Marks};

use std::alloc::Global;
use td_cdr::{List, Memory};

/// Marks the starts and all places that links lead to from there, each looked at once.
///
/// # Errors
///
/// `Memory` only when out of memory.
pub(crate) fn reach(
    alloc: Global,
    links: &Vec<List<usize>>,
    starts: &[usize],
) -> Result<List<bool>, Memory>
    requires starts { AreWithin links.now.items starts.now }
    requires links { (place : ℕ) → AreWithin links.now.items (links_at links.now.items place) }
    ensures { IfOk result (λ marks. IsLeast links.now.items starts.now marks) }
{
    let mut marks = vec![in alloc; false; links.len()]?;
    let mut queue = Vec::new(alloc);
    mark_each(&mut marks, &mut queue, starts)?;
    let mut next = 0;
    while next < queue.len() {
        let place = queue[next];
        mark_each(&mut marks, &mut queue, links[place].as_slice())?;
        next += 1;
    }
    Ok(List::from_vec(marks))
}

/// Marks those of the places that aren't marked yet, and queues them.
fn mark_each(marks: &mut Vec<bool>, queue: &mut Vec<usize>, places: &[usize]) -> Result<(), Memory>
    requires { (place : ℕ) → IsTrue (is_in place places.now) → place < length marks.old.items }
    ensures { OnOk result (Marks places.now marks.old.items queue.old.items marks.new.items
        queue.new.items) }
{
    for place in places {
        if !marks[*place] {
            queue.push(*place)?;
            marks[*place] = true;
        }
    }
    Ok(())
}
