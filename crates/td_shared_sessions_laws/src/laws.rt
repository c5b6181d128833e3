//! The desk that all sessions share.

ghost use Rattle.td_shared_sessions_laws.specs.OneDesk.{NoItemGoesToTwo, ShareOneHistory};

/// Of all sessions of a server: there is one history of the desk, and what each session has seen of it is its front. No
/// place of it is a call of two sessions.
pub fn sessions_share_one_history<V>()
    ensures { ShareOneHistory V }
{}

/// Of all sessions of a server: no item of an iterator's list is given to two of them.
pub fn no_item_goes_to_two_sessions<V>()
    ensures { NoItemGoesToTwo V }
{}
