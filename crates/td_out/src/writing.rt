//! Writing all of a text.

ghost use Rattle.std.specs.Prelude.{OnErr, OnOk};
ghost use Rattle.std.specs.Io.KnownBytes.{Appends};
ghost use Rattle.td_out.specs.Causes.{Rose};
ghost use Rattle.td_out.specs.SinkTexts.{GivesText, WritesAll};

use crate::fault::Failed;
use crate::sink::Sink;

/// Writes all of a text.
///
/// # Errors
///
/// `Failed` only where the sink failed; a front of the text that isn't all of it is then written.
pub fn write_all<E: Sink>(sink: &mut E, text: &[u8]) -> Result<(), Failed>
    ensures writes { WritesAll (E.written sink.old) (E.written sink.new) (E.faults sink.old)
        (E.faults sink.new) text.now result }
    ensures tells { GivesText text.now (E.written sink.old) (E.written sink.new) (E.faults sink.old)
        (E.faults sink.new) }
    ensures whole { OnOk result (Appends (E.written sink.old) (E.written sink.new) text.now) }
    ensures failed { OnErr result (Rose (E.faults sink.old) (E.faults sink.new)) }
{
    let mut sent = 0;
    while sent < text.len() {
        sent += sink.write(&text[sent..])?;
    }
    Ok(())
}
