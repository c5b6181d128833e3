//! Replies and the outcomes that they spell.

ghost use Rattle.td_session_runs_laws.specs.Replies.{OutcomesAreWritable, RepliesSpell};

use td_trader::Traders;

/// Where a session begins at traders whose values can be written, and peers give only such values: each outcome can be
/// written as one of its Request's call, and what is left can be written again. Others make only changes whose values
/// can be, as each group of traders promises.
pub fn outcomes_are_writable<T: Traders>()
    ensures { OutcomesAreWritable T.others T.later }
{}

/// There each Request that expects a reply gets one that spells its outcome: behind the head of a Reply, under the
/// Request's id and with the status of the outcome, stands a result of the call, or the repository id of an exception
/// with what belongs to it, as the standard's grammar has them. Any other Request gets no bytes.
pub fn replies_spell_outcomes<T: Traders>()
    ensures { RepliesSpell T.others T.later }
{}
