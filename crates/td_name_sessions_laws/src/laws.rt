//! The history that all sessions share.

ghost use Rattle.td_name_sessions_laws.specs.OneHistory.{ChangesAreOfSessions};

/// Of all sessions of a server, to the contexts in the end: each change of their history since the opening is the
/// accepted change of exactly one Request of exactly one session, at its point; and each accepted change of a session
/// stands at its point.
pub fn each_change_is_of_one_session<V>()
    ensures { ChangesAreOfSessions V }
{}
