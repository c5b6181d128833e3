//! What is done where the words ask an object for something, and where they are refused.

ghost use Rattle.td_cli_program.specs.Printing.{sunk};
ghost use Rattle.td_cli_program.specs.Runs.{SendsAndPrints, PrintsRefusal};
ghost use Rattle.td_cli_program.specs.Sending.{line};
ghost use Rattle.td_cli_args.specs.declared.parsing.Refusal.TheVariants as refusal;

use crate::outcome::fault_status;
use crate::printing::show;
use crate::sending::send;
use std::alloc::{AllocError, Global};
use td_cli_args::Refusal;
use td_cli_request::Asking;
use td_out::{Sink, write_all};
use td_wire::Wire;

/// The status where the words are refused.
const REFUSED: u8 = 2;

/// The status when out of memory.
const NO_MEMORY: u8 = 9;

/// Sends the call, and prints the lines of what it comes to.
pub(crate) fn send_and_print<L: Wire, K: Sink>(
    alloc: Global,
    asking: &Asking,
    wire: &mut L,
    sink: &mut K,
) -> u8
    ensures { SendsAndPrints asking.now (line (L.content wire.old) (L.faults wire.old))
        (line (L.content wire.new) (L.faults wire.new))
        (sunk (K.written sink.old) (K.faults sink.old))
        (sunk (K.written sink.new) (K.faults sink.new)) result }
{
    match send(alloc, asking, wire) {
        Ok(outcome) => {
            let status = show(alloc, &outcome, sink);
            drop(outcome);
            status
        }
        Err(fault) => fault_status(fault),
    }
}

/// Tells why words are refused.
pub(crate) fn refuse<E: Sink>(alloc: Global, refusal: &Refusal, faults: &mut E) -> u8
    ensures { PrintsRefusal refusal.now (sunk (E.written faults.old) (E.faults faults.old))
        (sunk (E.written faults.new) (E.faults faults.new)) result }
{
    match refusal {
        Refusal::Memory => NO_MEMORY,
        Refusal::Form => refuse_form(faults),
        Refusal::Words(error) => refuse_words(alloc, error, faults),
    }
}

/// Tells that a word isn't in its form.
fn refuse_form<E: Sink>(faults: &mut E) -> u8
    ensures { PrintsRefusal refusal.Form (sunk (E.written faults.old) (E.faults faults.old))
        (sunk (E.written faults.new) (E.faults faults.new)) result }
{
    let _ = write_all(faults, b"usage\n");
    REFUSED
}

/// Tells why clap refuses the words.
fn refuse_words<E: Sink>(alloc: Global, error: &clap::Error, faults: &mut E) -> u8
    ensures { PrintsRefusal (refusal.Words error.now)
        (sunk (E.written faults.old) (E.faults faults.old))
        (sunk (E.written faults.new) (E.faults faults.new)) result }
{
    match text_of(alloc, error) {
        Ok(text) => {
            let _ = write_all(faults, text.as_bytes());
            REFUSED
        }
        Err(_) => NO_MEMORY,
    }
}

/// The text of clap's refusal.
fn text_of(alloc: Global, error: &clap::Error) -> Result<String, AllocError> {
    error.to_string(alloc)
}
