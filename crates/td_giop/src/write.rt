//! Writing messages (chapter "General Inter-ORB Protocol", "GIOP Messages"): a start, what the caller
//! appends, and the seal that sets the size field.

ghost use Rattle.std.specs.Prelude.{◌≡◌, ◌+◌, ◌≤◌, ◌<◌, ◌^◌, [], ◌∷◌, ◌++◌, length, OnOk, OnErr};
ghost use Rattle.td_cdr.specs.Gap.{gap};
ghost use Rattle.td_cdr.specs.Writing.{Adds, written_octets};
ghost use Rattle.td_giop.specs.Written.{octets_end, request_size, header_written, request_start, reply_start};
ghost use Rattle.td_giop.specs.Heads.{reserved_field};
ghost use Rattle.td_giop.specs.declared.header.TheConstants.{NEWEST_MINOR};
ghost use Rattle.td_giop.specs.Written.{locate_written, locate_reply_written, seal_size};

use crate::header::{HEADER_SIZE, MAGIC, MAJOR, SIZE_PLACE};
use crate::message_type::{LOCATE_REPLY, LOCATE_REQUEST, REPLY, REQUEST};
use td_cdr::{Memory, Writer, flag_of};

/// How long the start of a Reply is: the header, the number of contexts, the request id and the status.
const REPLY_SIZE: usize = HEADER_SIZE + 12;

/// How long a LocateReply is: the header, the request id and the status.
const LOCATE_REPLY_SIZE: usize = HEADER_SIZE + 8;

/// How long a LocateRequest is before its key: the header, the request id and the key's length.
const LOCATE_FRONT: usize = HEADER_SIZE + 8;

/// Where the key's length stands in a Request, without padding: behind the header, the number of
/// contexts, the request id and the octet that tells whether a reply is expected.
const KEY_PLACE: usize = HEADER_SIZE + 9;

/// Starts a Request, behind which its parameters follow. The writer is empty. The request has no
/// contexts and an empty principal.
///
/// # Errors
///
/// `Memory` for want of room; the writer is then unchanged.
#[tactic(auto, using(crate::proofs::Lengths::request_lengths, crate::proofs::ByField::request_is))]
pub fn start_request(
    w: &mut Writer,
    minor: u8,
    id: u32,
    answered: bool,
    key: &[u8],
    operation: &[u8],
) -> Result<(), Memory>
    requires empty { w.old.bytes ≡ [] }
    requires minor { minor ≤ NEWEST_MINOR }
    ensures { Adds (request_start w.old.order minor id answered key.now operation.now)
        w.old w.new result }
{
    let most = u32::MAX as usize - w.len();
    if key.len() > most || operation.len() > most {
        return Err(Memory);
    }
    w.reserve(request_size(key.len(), operation.len()))?;
    put_header(w, minor, REQUEST)?;
    w.u32(0)?;
    w.u32(id)?;
    w.octet(u8::from(answered))?;
    put_reserved(w, minor)?;
    w.octets(key)?;
    w.string(operation)?;
    w.octets(&[])?;
    Ok(())
}

/// How long the start of a Request is with a key and an operation of these lengths.
fn request_size(key: usize, operation: usize) -> usize
    requires key { key < 2 ^ 32 }
    requires operation { operation < 2 ^ 32 }
    ensures { result ≡ request_size key operation }
{
    let key_end = octets_end(KEY_PLACE, key);
    let operation_end = octets_end(key_end, operation + 1);
    octets_end(operation_end, 0)
}

/// Where so many octets end whose number is the next item.
fn octets_end(place: usize, len: usize) -> usize
    requires place { place < 2 ^ 40 }
    requires len { len < 2 ^ 40 }
    ensures { result ≡ octets_end place len }
{
    place + (4 - place % 4) % 4 + 4 + len
}

/// Starts a Reply, behind which its body follows. The writer is empty.
///
/// # Errors
///
/// `Memory` for want of room; the writer is then unchanged.
#[tactic(auto, using(crate::proofs::Lengths::reply_length, crate::proofs::ByField::reply_is))]
pub fn start_reply(w: &mut Writer, minor: u8, id: u32, status: u32) -> Result<(), Memory>
    requires empty { w.old.bytes ≡ [] }
    requires minor { minor ≤ NEWEST_MINOR }
    ensures { Adds (reply_start w.old.order minor id status) w.old w.new result }
{
    w.reserve(REPLY_SIZE)?;
    put_header(w, minor, REPLY)?;
    w.u32(0)?;
    w.u32(id)?;
    w.u32(status)
}

/// Writes a LocateRequest. The writer is empty. No program of this repository sends one: it serves tests, and the law
/// that what is written is read.
///
/// # Errors
///
/// `Memory` for want of room; the writer is then unchanged.
#[tactic(auto, using(crate::proofs::Lengths::locate_length, crate::proofs::ByField::locate_is))]
pub fn write_locate(w: &mut Writer, minor: u8, id: u32, key: &[u8]) -> Result<(), Memory>
    requires empty { w.old.bytes ≡ [] }
    requires minor { minor ≤ NEWEST_MINOR }
    ensures { Adds (locate_written w.old.order minor id key.now) w.old w.new result }
{
    w.reserve(LOCATE_FRONT + key.len())?;
    put_header(w, minor, LOCATE_REQUEST)?;
    w.u32(id)?;
    w.octets(key)
}

/// Writes a LocateReply. The writer is empty.
///
/// # Errors
///
/// `Memory` for want of room; the writer is then unchanged.
#[tactic(auto, using(crate::proofs::Lengths::locate_reply_length, crate::proofs::ByField::locate_reply_is))]
pub fn write_locate_reply(w: &mut Writer, minor: u8, id: u32, status: u32) -> Result<(), Memory>
    requires empty { w.old.bytes ≡ [] }
    requires minor { minor ≤ NEWEST_MINOR }
    ensures { Adds (locate_reply_written w.old.order minor id status) w.old w.new result }
{
    w.reserve(LOCATE_REPLY_SIZE)?;
    put_header(w, minor, LOCATE_REPLY)?;
    w.u32(id)?;
    w.u32(status)
}

/// Writes a message that is a header alone: a CloseConnection or a MessageError. The writer is empty. No program of
/// this repository sends one.
///
/// # Errors
///
/// `Memory` for want of room; the writer is then unchanged.
pub fn write_plain(w: &mut Writer, kind: u8) -> Result<(), Memory>
    requires { w.old.bytes ≡ [] }
    ensures { Adds (header_written w.old.order 0 kind) w.old w.new result }
{
    put_header(w, 0, kind)
}

/// The reserved octets of a Request of this minor version.
fn put_reserved(w: &mut Writer, minor: u8) -> Result<(), Memory>
    ensures { Adds ((reserved_field minor).format.writes tt w.old.order (length w.old.bytes))
        w.old w.new result }
{
    if minor == 0 {
        return Ok(());
    }
    w.append(&[0, 0, 0])
}

/// The header of a message of this type, with 0 in the size field.
fn put_header(w: &mut Writer, minor: u8, kind: u8) -> Result<(), Memory>
    ensures { Adds (header_written w.old.order minor kind) w.old w.new result }
{
    let order = flag_of(w.order());
    let [g, i, o, p] = MAGIC;
    w.append(&[g, i, o, p, MAJOR, minor, order, kind, 0, 0, 0, 0])
}

/// Sets the size field to the number of bytes behind the header. Takes no memory.
///
/// The writer's bytes begin with what a `start_` or `write_` call wrote, so with a header.
pub fn seal(w: &mut Writer)
    requires { HEADER_SIZE ≤ length w.old.bytes }
    ensures { w.new ≡ record w.old { bytes = seal_size w.old.order w.old.bytes } }
{
    let size = (w.len() - HEADER_SIZE) as u32;
    w.set_u32(SIZE_PLACE as u32, size);
}
