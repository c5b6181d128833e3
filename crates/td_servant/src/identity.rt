//! The calls that every object has (CORBA, chapter "ORB Interface", is_a and non_existent).

ghost use Rattle.std.specs.Prelude.{◌≡◌, false};
ghost use Rattle.td_objects.specs.Interfaces.{is_a};
ghost use Rattle.td_ops.specs.declared.outcome.Outcome.TheVariants.{Done};
ghost use Rattle.td_ops.specs.declared.outcome.Reply.TheVariants.{Truth};
ghost use Rattle.td_servant.specs.Answers.{plain};

use crate::answer::{Answer, plain};
use td_objects::{Interface, is_a};
use td_ops::{Outcome, Reply};

/// Whether an object whose own interface this is has the one of a repository id.
pub fn answer_is_a(interface: Interface, id: &[u8]) -> Answer
    ensures { result ≡ plain (Done (Truth (is_a interface id.now))) }
{
    plain(Outcome::Done(Reply::Truth(is_a(interface, id))))
}

/// A live object isn't gone.
pub fn answer_non_existent() -> Answer
    ensures { result ≡ plain (Done (Truth false)) }
{
    plain(Outcome::Done(Reply::Truth(false)))
}
