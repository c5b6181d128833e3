//! What Requests that leave their iterator as it is are answered with.

ghost use Rattle.std.specs.Prelude.{◌≡◌, IsTrue};
ghost use Rattle.td_desk_calls.specs.Calls.{inquiry_outcome, interface_over};
ghost use Rattle.td_ops.specs.Outcomes.{is_short};
ghost use Rattle.td_servant.specs.Iterating.{gone};

use crate::judging::Inquiry;
use td_objects::{Interface, is_a};
use td_ops::{COMPLETED_NO, Outcome, Reply, SystemKind};

/// The outcome of an inquiry about an iterator that has so many items left, which are offers or ids.
pub(crate) fn inquiry_outcome(inquiry: &Inquiry, left: u32, offers: bool) -> Outcome
    ensures outcome { result ≡ inquiry_outcome inquiry.now left offers }
    ensures short { IsTrue (is_short result) }
{
    match inquiry {
        Inquiry::MaxLeft => Outcome::Done(Reply::Number(left)),
        Inquiry::IsA(id) => Outcome::Done(Reply::Truth(is_a(
            interface_over(offers),
            id.as_slice(),
        ))),
        Inquiry::NonExistent => Outcome::Done(Reply::Truth(false)),
        Inquiry::Refused(exception, minor) => system(*exception, *minor),
    }
}

/// The interface of an iterator over offers or over ids.
fn interface_over(offers: bool) -> Interface
    ensures { result ≡ interface_over offers }
{
    if offers {
        Interface::OfferIterator
    } else {
        Interface::OfferIdIterator
    }
}

/// A system exception of a call that wasn't done.
fn system(kind: SystemKind, minor: u32) -> Outcome
    ensures { result ≡ Outcome.System kind minor 1 }
{
    Outcome::System {
        kind,
        minor,
        completion: COMPLETED_NO,
    }
}

/// What stands for the answer of an iterator that isn't there.
pub(crate) fn gone() -> Outcome
    ensures { result ≡ gone }
{
    system(SystemKind::ObjectNotExist, 0)
}
