//! What the calls of an Ask give.

ghost use Rattle.td_net_laws.specs.Always.{Always};
ghost use Rattle.td_net_laws.specs.Premises.{AllAnswered, CallsGoByIdentifier, AreUnderOne, OneTree, RunsAreOne};
ghost use Rattle.td_net_laws.specs.Premises.{TreesAreOne};

use td_query_walk::answers_are_one;

/// Whatever comes before an Ask, between its calls and after them, over any number of traders: each of its calls that
/// has ended gives what one depth-first walk finds at the points of its visits, where the identifier is fresh at the
/// Ask, no other Ask's, and remembered between the visits of its calls at one trader.
pub fn every_schedule_gives_one_walk()
    ensures { OneTree }
{}

/// What an ended call gives is told by its own sub-calls: they are its questions, in order.
pub fn calls_are_answered_by_their_steps()
    ensures { Always AllAnswered }
{}

/// The calls of an Ask that visit their traders come under one identifier: the one that the Ask states, or else the one
/// that the first of them makes.
pub fn asks_have_one_identifier()
    ensures stated { Always CallsGoByIdentifier }
    ensures one { Always AreUnderOne }
{}

/// Events lead to one world.
pub fn events_lead_to_one_world()
    ensures { RunsAreOne }
{
    answers_are_one();
}

/// A call has one tree.
pub fn trees_are_one()
    ensures { TreesAreOne }
{
    answers_are_one();
}
