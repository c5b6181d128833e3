//! A command of the program.

ghost use Rattle.std.specs.Prelude.{◌≡◌, false, map, string_bytes};
ghost use Rattle.std.specs.Option.{option_map};
ghost use Rattle.td_stream.specs.Outside.{outside};
ghost use Rattle.td_command.specs.Commands.{command_by, command_of, is_pipe, two_words};
ghost use Rattle.td_command.specs.Completeness.{Completes};
ghost use Rattle.td_command.specs.Runs.{Obeys, RunsServer, shelves};

use crate::checking::check_file;
use crate::drilling::drill_ring;
use crate::ended::Ended;
use crate::printing::print_file;
use crate::reporting::report;
use crate::serve::serve_file;
use crate::verb::{Verb, count_of, verb_named};
use std::alloc::Global;
use td_out::{Sink, Source, Texts, Words};
use td_wire::Wire;

/// Does what the arguments say.
///
/// - `pipe FILE` serves one session over the source and the sink with the traders that the text of that name opens.
///   Objects outside are called over the wire: traders behind links, evaluators of dynamic properties, and the
///   registers of other traders. What each of them gave is told by the session's journal, in the entry of the Request
///   for which it was asked; what is written over the wire has no clause of its own here. No other command calls over
///   the wire, nor do words that are no command.
/// - `check FILE` prints what that text opens: of each trader its name, how many types, offers and links it has, and
///   the references of its objects.
/// - `make N` prints the file of a ring of N traders, N from 1 to 64.
/// - `drill N` asks each trader of that file one query, and prints in one line what the walks come to.
///
/// The random words are those that come after a seeding with the file's seed and stream 0. The faults sink gets a line
/// where the status isn't 0: `usage`, `line N: CAUSE`, `too long` or `status N`.
///
/// The status is 0 where the session was closed or all was printed, 2 where the arguments are no command, 3 where the
/// file is refused or too long, 4 where the session broke off, 5 where its input ended inside a message, 6 where the
/// source failed, 7 where the sink failed, 8 where the session was too long, 9 when out of memory, and 10 where the
/// file can't be had. It is 0 or 9 where the file is accepted, the input is messages to a server, and nothing fails.
pub fn run<F: Texts, S: Source, K: Sink, E: Sink, L: Wire, W: Words>(
    alloc: Global,
    args: &[String],
    files: &mut F,
    source: &mut S,
    sink: &mut K,
    faults: &mut E,
    wire: &mut L,
    words: &mut W,
) -> u8
    ensures runs { RunsServer (map string_bytes args.now)
        (shelves (F.content files.old) (F.faults files.old) (F.faults files.new))
        (W.word_after words.old)
        (outside (S.left source.old) (S.faults source.old) (K.written sink.old) (K.faults sink.old))
        (outside (S.left source.new) (S.faults source.new) (K.written sink.new) (K.faults sink.new))
        (E.written faults.old) (E.written faults.new) (E.faults faults.old)
        (E.faults faults.new) result }
    ensures complete { Completes (map string_bytes args.now)
        (shelves (F.content files.old) (F.faults files.old) (F.faults files.new))
        (W.word_after words.old)
        (outside (S.left source.old) (S.faults source.old) (K.written sink.old) (K.faults sink.old))
        (outside (S.left source.new) (S.faults source.new) (K.written sink.new) (K.faults sink.new))
        result }
    ensures uncalled { is_pipe (command_of (map string_bytes args.now)) ≡ false
        → (L.content wire.new ≡ L.content wire.old) × (L.faults wire.new ≡ L.faults wire.old) }
{
    let ended = obey(alloc, args, files, source, sink, wire, words);
    report(faults, ended);
    ended.status()
}

/// Does what the arguments say, without the report.
#[tactic(auto, using(crate::proofs::Obey::by_words, crate::proofs::Obey::not_pipe))]
fn obey<F: Texts, S: Source, K: Sink, L: Wire, W: Words>(
    alloc: Global,
    args: &[String],
    files: &mut F,
    source: &mut S,
    sink: &mut K,
    wire: &mut L,
    words: &mut W,
) -> Ended
    ensures obeys { Obeys (command_of (map string_bytes args.now))
        (shelves (F.content files.old) (F.faults files.old) (F.faults files.new))
        (W.word_after words.old) result (outside (S.left source.old) (S.faults source.old)
        (K.written sink.old) (K.faults sink.old))
        (outside (S.left source.new) (S.faults source.new) (K.written sink.new)
        (K.faults sink.new)) }
    ensures uncalled { is_pipe (command_of (map string_bytes args.now)) ≡ false
        → (L.content wire.new ≡ L.content wire.old) × (L.faults wire.new ≡ L.faults wire.old) }
{
    match two_words(args) {
        Some((word, operand)) => {
            let verb = verb_named(word.as_bytes());
            obey_verb(alloc, verb, operand, files, source, sink, wire, words)
        }
        None => Ended::Usage,
    }
}

/// The words of a command, of which there are two.
fn two_words(args: &[String]) -> Option<(&str, &str)>
    ensures { option_map (λ w. (w.0.now, w.1.now)) result ≡ two_words (map string_bytes args.now) }
{
    match args {
        [word, operand] => Some((word.as_str(), operand.as_str())),
        _ => None,
    }
}

/// Does what a verb and its operand say.
#[tactic(auto, using(crate::proofs::Obey::by_make, crate::proofs::Obey::by_drill, crate::proofs::Obey::by_none))]
fn obey_verb<F: Texts, S: Source, K: Sink, L: Wire, W: Words>(
    alloc: Global,
    verb: Option<Verb>,
    operand: &str,
    files: &mut F,
    source: &mut S,
    sink: &mut K,
    wire: &mut L,
    words: &mut W,
) -> Ended
    ensures obeys { Obeys (command_by verb operand.now)
        (shelves (F.content files.old) (F.faults files.old) (F.faults files.new))
        (W.word_after words.old) result (outside (S.left source.old) (S.faults source.old)
        (K.written sink.old) (K.faults sink.old))
        (outside (S.left source.new) (S.faults source.new) (K.written sink.new)
        (K.faults sink.new)) }
    ensures uncalled { is_pipe (command_by verb operand.now) ≡ false
        → (L.content wire.new ≡ L.content wire.old) × (L.faults wire.new ≡ L.faults wire.old) }
{
    match verb {
        Some(Verb::Pipe) => serve_file(alloc, operand, files, source, sink, wire, words),
        Some(Verb::Check) => check_file(alloc, operand, files, sink),
        Some(Verb::Make) => match count_of(operand.as_bytes()) {
            Some(count) => print_file(alloc, count, sink),
            None => Ended::Usage,
        },
        Some(Verb::Drill) => match count_of(operand.as_bytes()) {
            Some(count) => drill_ring(alloc, count, sink, words),
            None => Ended::Usage,
        },
        None => Ended::Usage,
    }
}
