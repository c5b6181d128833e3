//! Texts that a command on logs prints.

ghost use Rattle.td_command.specs.Printing.{sink_seen};
ghost use Rattle.td_audit_run.specs.Printing.{PrintsText};
ghost use Rattle.td_audit_run.specs.declared.audited.Audited.TheVariants as audited;

use crate::audited::Audited;
use td_out::{Sink, write_all};

/// Prints a text with which all is well.
pub(crate) fn print<K: Sink>(sink: &mut K, text: &[u8]) -> Audited
    ensures { PrintsText audited.Printed text.now result
        (sink_seen (K.written sink.old) (K.faults sink.old))
        (sink_seen (K.written sink.new) (K.faults sink.new)) }
{
    match write_all(sink, text) {
        Ok(()) => Audited::Printed,
        Err(_) => Audited::PrintFault,
    }
}

/// Prints a text that denies what was asked.
pub(crate) fn print_denial<K: Sink>(sink: &mut K, text: &[u8]) -> Audited
    ensures { PrintsText audited.Denied text.now result
        (sink_seen (K.written sink.old) (K.faults sink.old))
        (sink_seen (K.written sink.new) (K.faults sink.new)) }
{
    match write_all(sink, text) {
        Ok(()) => Audited::Denied,
        Err(_) => Audited::PrintFault,
    }
}
