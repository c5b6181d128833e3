//! What the answer to a call means to a visit: an exception is a fault there.

ghost use Rattle.std.specs.Prelude.{◌≡◌};
ghost use Rattle.td_client.specs.Meanings.{reference_meant, value_meant, offers_meant, with_meaning};
ghost use Rattle.td_ops.specs.declared.outcome.Answered.TheVariants.{Done};

use td_cdr::Boxed;
use td_ops::{Answered, Reply};
use td_remote_query::Gathered;
use td_value::{Any, Ior};
use td_walk::{PeerFault, SubAnswer};

/// The reference that a call was answered with.
pub(crate) fn reference_meant(answer: Result<Answered, PeerFault>) -> Result<Ior, PeerFault>
    ensures { result ≡ with_meaning reference_meant answer }
{
    match answer {
        Err(fault) => Err(fault),
        Ok(Answered::Done(reply)) => reference_in(reply),
        Ok(Answered::User(id)) => {
            drop(id);
            Err(PeerFault::Exception)
        }
        Ok(Answered::System { id, .. }) => {
            drop(id);
            Err(PeerFault::Exception)
        }
    }
}

/// The reference that a result is.
fn reference_in(reply: Reply) -> Result<Ior, PeerFault>
    ensures { result ≡ reference_meant (Done reply) }
{
    match reply {
        Reply::Reference(reference) => Ok(reference),
        other => {
            drop(other);
            Err(PeerFault::Grammar)
        }
    }
}

/// The value that an evaluator gave.
pub(crate) fn value_meant(
    answer: Result<Option<Boxed<Any>>, PeerFault>,
) -> Result<Boxed<Any>, PeerFault>
    ensures { result ≡ with_meaning value_meant answer }
{
    match answer {
        Err(fault) => Err(fault),
        Ok(Some(value)) => Ok(value),
        Ok(None) => Err(PeerFault::Exception),
    }
}

/// The offers that a query gave.
pub(crate) fn offers_meant(answer: Result<Gathered, PeerFault>) -> Result<SubAnswer, PeerFault>
    ensures { result ≡ with_meaning offers_meant answer }
{
    match answer {
        Err(fault) => Err(fault),
        Ok(Gathered::Offers(offers)) => Ok(offers),
        Ok(Gathered::Refused(exception)) => {
            drop(exception);
            Err(PeerFault::Exception)
        }
    }
}
