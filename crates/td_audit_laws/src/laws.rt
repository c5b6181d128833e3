//! What holds of every audit.

ghost use Rattle.td_audit_laws.specs.Laws.{LinesAreSchedules, RepliesAreOfOneWalk, VerdictsAreOne};

use td_net_laws::{events_lead_to_one_world, every_schedule_gives_one_walk};

/// A log has one verdict for the traders of a network. So the verdict of `audit`, running out of memory aside, is that
/// one: Yes exactly where each line passes.
pub fn verdicts_are_one()
    ensures { VerdictsAreOne }
{
    events_lead_to_one_world();
}

/// Lines that pass are a schedule that the network accepts event by event, and each is counted.
pub fn accepted_lines_are_schedules()
    ensures { LinesAreSchedules }
{}

/// A reply to an Ask that passes, among lines that pass, tells what one depth-first walk finds at the points of its
/// visits: where the traders are such as calls reach, and the Ask's identifier is fresh at the Ask, no other Ask's, and
/// remembered between the visits of its calls at one trader.
pub fn audited_replies_are_of_one_walk()
    ensures { RepliesAreOfOneWalk }
{
    every_schedule_gives_one_walk();
}
