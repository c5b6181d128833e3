//! The line that a command on logs leaves on the faults sink.

ghost use Rattle.td_audit_run.specs.Reports.{line_of};
ghost use Rattle.td_command.specs.Reports.{with_number};
ghost use Rattle.td_out.specs.SinkTexts.{GivesText};

use crate::audited::Audited;
use td_command::{Ended, report as report_command, write_numbered};
use td_out::Sink;

/// Writes the line for a command that ended so. Where the sink fails, the rest of the line is lost.
pub(crate) fn report<E: Sink>(faults: &mut E, ended: Audited)
    ensures { GivesText (line_of ended) (E.written faults.old) (E.written faults.new)
        (E.faults faults.old) (E.faults faults.new) }
{
    match ended {
        Audited::Usage => report_command(faults, Ended::Usage),
        Audited::Missing => report_command(faults, Ended::Missing),
        Audited::TooLong => report_command(faults, Ended::TooLong),
        Audited::Refused(number, cause) => report_command(faults, Ended::Refused(number, cause)),
        Audited::Strange(number) => write_line(faults, b"line ", number, b": log\n"),
        Audited::Memory => report_command(faults, Ended::Memory),
        Audited::Printed => report_command(faults, Ended::Printed),
        Audited::Denied => write_line(faults, b"status ", 12, b"\n"),
        Audited::PrintFault => report_command(faults, Ended::PrintFault),
    }
}

/// A number between two texts.
fn write_line<E: Sink>(faults: &mut E, before: &[u8], number: u32, after: &[u8])
    ensures { GivesText (with_number before.now number after.now) (E.written faults.old)
        (E.written faults.new) (E.faults faults.old) (E.faults faults.new) }
{
    let _ = write_numbered(faults, before, number, after);
}
