//! What a reply answers.

use td_cdr::Order;

/// What the reply to a Request is written by, beside its outcome (CORBA, chapter on General Inter-ORB Protocol,
/// "Request Header").
#[derive(Clone, Copy, Debug, PartialEq, Eq)]
pub struct ReplyTo {
    /// The byte order of the Request, which its reply has too.
    pub order: Order,
    /// The minor version of the Request, at most `NEWEST_MINOR`, which its reply has too.
    pub minor: u8,
    /// The Request's id, which its reply repeats.
    pub id: u32,
    /// Whether a reply is expected.
    pub answered: bool,
}
