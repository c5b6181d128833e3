//! What the program does with its words.

ghost use Rattle.std.specs.Prelude.{◌≡◌, ◌≢◌, map, string_bytes, false, Some};
ghost use Rattle.std.specs.List.{list_any};
ghost use Rattle.td_cli_request.specs.Askings.{asking_of};
ghost use Rattle.td_cli_request.specs.declared.making.Asking.{Asking};
ghost use Rattle.td_cdr.specs.Text.{has_nul};
ghost use Rattle.td_cli_program.specs.Printing.{sunk};
ghost use Rattle.td_cli_program.specs.Runs.{RunsClient};
ghost use Rattle.td_cli_program.specs.Sending.{line};
ghost use Rattle.td_cli_program.specs.Words.{asking_in};
ghost use Rattle.td_cli_args.specs.Forms.{SpellsWords};
ghost use Rattle.td_cli_args.specs.Wishes.{CommandWords};

use crate::running::{refuse, send_and_print};
use crate::words::asking_in;
use std::alloc::Global;
use td_cli_args::documented_words_are_read;
use td_out::Sink;
use td_wire::Wire;

/// Does what the words say: sends one call, drains the iterator of a query, and prints the lines of what came, once all
/// of it was read. Refused words are told on the faults sink, by clap's text, or by `usage` where a word isn't in its
/// form; nothing else is printed there.
///
/// The status is 0 where the call had a result and all of it is printed, 2 where the words are refused, 4 for a user
/// exception and 5 for a system exception, 6 where the wire failed or its bytes ended before a reply was whole, 7 where
/// the sink failed, 8 where the reply isn't in the grammar, and 9 when out of memory.
pub fn client_run<L: Wire, K: Sink, E: Sink>(
    alloc: Global,
    args: &[String],
    wire: &mut L,
    sink: &mut K,
    faults: &mut E,
) -> u8
    ensures runs { RunsClient (map string_bytes args.now)
        (line (L.content wire.old) (L.faults wire.old))
        (line (L.content wire.new) (L.faults wire.new))
        (sunk (K.written sink.old) (K.faults sink.old))
        (sunk (K.written sink.new) (K.faults sink.new))
        (sunk (E.written faults.old) (E.faults faults.old))
        (sunk (E.written faults.new) (E.faults faults.new)) result }
    ensures documented { (asked : CommandWords) → SpellsWords (map string_bytes args.now) asked
        → list_any has_nul (map string_bytes args.now) ≡ false
        → (asking_in (map string_bytes args.now) ≡ asking_of asked)
        × ((asking : Asking) → asking_of asked ≡ Some asking → result ≢ 2) }
{
    documented_words_are_read();
    obey(alloc, args, wire, sink, faults)
}

/// Does what the words say.
fn obey<L: Wire, K: Sink, E: Sink>(
    alloc: Global,
    args: &[String],
    wire: &mut L,
    sink: &mut K,
    faults: &mut E,
) -> u8
    ensures { RunsClient (map string_bytes args.now) (line (L.content wire.old) (L.faults wire.old))
        (line (L.content wire.new) (L.faults wire.new))
        (sunk (K.written sink.old) (K.faults sink.old))
        (sunk (K.written sink.new) (K.faults sink.new))
        (sunk (E.written faults.old) (E.faults faults.old))
        (sunk (E.written faults.new) (E.faults faults.new)) result }
{
    match asking_in(alloc, args) {
        Ok(asking) => {
            let status = send_and_print(alloc, &asking, wire, sink);
            drop(asking);
            status
        }
        Err(refusal) => {
            let status = refuse(alloc, &refusal, faults);
            drop(refusal);
            status
        }
    }
}
