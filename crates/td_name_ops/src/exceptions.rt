//! User exceptions to bytes.

ghost use Rattle.std.specs.Prelude.{◌≡◌};
ghost use Rattle.td_cdr.specs.Format.{Puts};
ghost use Rattle.td_name_ops.specs.Exceptions.{exception_id, exception_piece, members_of};

use std::alloc::Global;
use td_cdr::{Memory, Spelled, Writer, put_two};
use td_names::NameException;

/// The repository id of an exception. Takes no memory.
fn exception_id(exception: &NameException) -> &'static [u8]
    ensures { result.now ≡ exception_id exception.now }
{
    match exception {
        NameException::NotFound { .. } => b"IDL:omg.org/CosNaming/NamingContext/NotFound:1.0",
        NameException::CannotProceed { .. } =>
            b"IDL:omg.org/CosNaming/NamingContext/CannotProceed:1.0",
        NameException::InvalidName => b"IDL:omg.org/CosNaming/NamingContext/InvalidName:1.0",
        NameException::AlreadyBound => b"IDL:omg.org/CosNaming/NamingContext/AlreadyBound:1.0",
        NameException::NotEmpty => b"IDL:omg.org/CosNaming/NamingContext/NotEmpty:1.0",
    }
}

/// Writes the repository id and the members of an exception (CORBA, chapter on General Inter-ORB Protocol, "Reply
/// Body"). Where it fails, some of it may be written.
pub(crate) fn put_exception(
    alloc: Global,
    w: &mut Writer,
    exception: &NameException,
) -> Result<(), Memory>
    ensures { Puts (exception_piece exception.now) w.old w.new result }
{
    w.string(exception_id(exception))?;
    put_members(alloc, w, exception)
}

/// The members. Where it fails, some may be written.
fn put_members(alloc: Global, w: &mut Writer, exception: &NameException) -> Result<(), Memory>
    ensures { Puts ((members_of exception.now).format.writes exception.now) w.old w.new result }
{
    match exception {
        NameException::NotFound { why, rest } => put_two(alloc, w, why, rest),
        NameException::CannotProceed { context, rest } => put_two(alloc, w, context, rest),
        NameException::InvalidName => Ok(()),
        NameException::AlreadyBound => Ok(()),
        NameException::NotEmpty => Ok(()),
    }
}
