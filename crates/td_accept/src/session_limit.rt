//! How long the session of a limited visitor lasts.

use std::rt::Clock;
use std::time::{Duration, Instant};

/// How long such a session lasts from its beginning on, in milliseconds.
const SESSION_LIMIT: u64 = 1_500;

/// When such a session is over. None where the clock told no time at its beginning: it is over at once then.
#[derive(Clone, Copy)]
pub(crate) struct SessionLimit(Option<Instant>);

impl SessionLimit {
    /// The limit of a session that begins now.
    pub(crate) fn new<C: Clock>(clock: &C) -> SessionLimit {
        match Instant::now(clock) {
            Ok(now) => SessionLimit(now.checked_add(Duration::from_millis(SESSION_LIMIT))),
            Err(_) => SessionLimit(None),
        }
    }

    /// How much of the session is left; none where it is over, or the clock tells no time.
    pub(crate) fn rest<C: Clock>(self, clock: &C) -> Option<Duration> {
        let now = Instant::now(clock).ok()?;
        let rest = self.0?.duration_since(now);
        if rest.is_zero() { None } else { Some(rest) }
    }
}
