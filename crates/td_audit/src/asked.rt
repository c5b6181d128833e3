//! The queries that a log has asked.

ghost use Rattle.std.specs.Prelude.{◌≡◌, IfOk};
ghost use Rattle.std.specs.Option.{option_copied};
ghost use Rattle.td_audit.specs.Auditing.{asked_as, asked_of};

use std::alloc::Global;
use td_cdr::{Memory, Twin};
use td_log::ReplyForm;
use td_ops::Query;
use td_value::SpecifiedProps;

/// A query that a log has asked: the call that it opened, the form of its reply, and which of its answer's offers and
/// properties the reply has. No call of this crate takes or gives one: the definition of an audit (`Audited`) has them
/// in its state.
#[derive(Drop)]
pub struct AskedQuery {
    /// The number of the call.
    pub call: usize,
    /// The order, version and id of the Request, which its Reply has too.
    pub form: ReplyForm,
    /// The properties that are desired.
    pub desired: SpecifiedProps,
    /// How many offers the reply has at most.
    pub how_many: u32,
}

/// What is kept of a query that opens this call.
///
/// # Errors
///
/// `Memory` only when out of memory.
pub(crate) fn asked_as(
    alloc: Global,
    call: usize,
    form: ReplyForm,
    query: &Query,
) -> Result<AskedQuery, Memory>
    ensures { IfOk result (λ a. a ≡ asked_as call form query.now) }
{
    let desired = query.desired.copy(alloc)?;
    Ok(AskedQuery {
        call,
        form,
        desired,
        how_many: query.how_many,
    })
}

/// The query that opened a call.
pub(crate) fn asked_of(asked: &[AskedQuery], call: usize) -> Option<&AskedQuery>
    ensures { option_copied result ≡ asked_of call asked.now }
{
    asked.iter().find(|a| a.call == call)
}
