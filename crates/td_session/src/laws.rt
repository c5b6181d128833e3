//! What holds of all sessions, as functions that do nothing: the contract of each is a law.

ghost use Rattle.std.specs.Prelude.{List};
ghost use Rattle.td_lookup.specs.Scenes.{Scene};
ghost use Rattle.td_servant.specs.declared.entry.Entry.{Entry};
ghost use Rattle.td_walk.specs.declared.trace.Address.{Address};
ghost use Rattle.td_session.specs.Completeness.{Completes};
ghost use Rattle.td_session.specs.Sessions.{Serves};
ghost use Rattle.td_stream.specs.Outside.{Outside};
ghost use Rattle.td_stream.specs.declared.end.End.{End};

use td_trader::Traders;

/// Where the source is whole messages that a server can be sent, within a session's limits, and neither it
/// nor the sink fails, the session serves all before the first that closes it, in order, and is closed, or
/// it ends when out of memory.
pub fn all_messages_are_served<T: Traders>()
    ensures { (home : Address) (s u : Scene) (journal : List Entry) (end : End)
        (before after : Outside)
        → Serves T.others T.later home s u journal end before after
        → Completes T.others T.later home s u end before after }
{}
