//! The line that a command leaves on the faults sink.

ghost use Rattle.std.specs.Prelude.{◌≡◌};
ghost use Rattle.td_command.specs.Reports.{cause_end, line_of, status_line, with_number};
ghost use Rattle.td_out.specs.SinkTexts.{GivesText};

use crate::ended::Ended;
use itoa::Buffer;
use td_file::LineCause;
use td_out::{Failed, Sink, write_all};
use td_session::End;

/// Writes the line for a command that ended so. Where the sink fails, the rest of the line is lost.
pub fn report<E: Sink>(faults: &mut E, ended: Ended)
    ensures { GivesText (line_of ended) (E.written faults.old) (E.written faults.new)
        (E.faults faults.old) (E.faults faults.new) }
{
    let _ = match ended {
        Ended::Usage => write_all(faults, b"usage\n"),
        Ended::TooLong => write_all(faults, b"too long\n"),
        Ended::Refused(number, cause) => {
            write_numbered(faults, b"line ", number, cause_end(cause))
        }
        Ended::Printed => Ok(()),
        Ended::Served(End::Closed) => Ok(()),
        other => write_numbered(faults, b"status ", u32::from(other.status()), b"\n"),
    };
}

/// What follows the number of a refused line.
fn cause_end(cause: LineCause) -> &'static [u8]
    ensures { result.now ≡ cause_end cause }
{
    match cause {
        LineCause::Words => b": words\n",
        LineCause::Name => b": name\n",
        LineCause::Number => b": number\n",
        LineCause::Place => b": place\n",
        LineCause::Twice => b": twice\n",
        LineCause::Value => b": value\n",
        LineCause::Reference => b": reference\n",
        LineCause::Rejected => b": rejected\n",
    }
}

/// Writes a number in decimal between two texts.
///
/// # Errors
///
/// `Failed` only where the sink failed; the front of the line that it had taken is written.
pub fn write_numbered<E: Sink>(
    sink: &mut E,
    before: &[u8],
    number: u32,
    after: &[u8],
) -> Result<(), Failed>
    ensures { GivesText (with_number before.now number after.now) (E.written sink.old)
        (E.written sink.new)
        (E.faults sink.old) (E.faults sink.new) }
{
    let mut buffer = Buffer::new();
    write_all(sink, before)?;
    write_all(sink, buffer.format(number).as_bytes())?;
    write_all(sink, after)
}
