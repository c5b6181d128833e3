//! The histories that all sessions share, and the replies of each.

ghost use Rattle.td_sessions_laws.specs.Examples.{WorkedEntries};
ghost use Rattle.td_sessions_laws.specs.OneHistory.{EntriesAreOfSessions};
ghost use Rattle.td_sessions_laws.specs.Spelling.{SessionsSpellReplies};

/// Of all sessions of a server, from the binding of its acceptor to the traders in the end: each entry of the histories
/// that are handed on, from the opening on, is an accepted change of exactly one session, and there of exactly one of
/// its Requests, at its point; and each accepted change of a session stands at its point.
pub fn each_entry_is_of_one_session<V>()
    ensures { EntriesAreOfSessions V }
{}

/// Of all sessions of a server whose traders were opened with stores that can be written: each reply spells the outcome
/// of its Request, whatever the other sessions do meanwhile.
pub fn each_reply_spells_its_outcome<V>()
    ensures { SessionsSpellReplies V }
{}

/// Worked examples: of two entries each is one session's; an entry that two sessions have noted, one that nobody has
/// made, and a change at another place are refused.
pub fn worked_entries()
    ensures { WorkedEntries }
{}
