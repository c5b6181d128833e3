//! A drill over what a file opens, and its line.

ghost use Rattle.std.specs.Prelude.{◌≡◌, ◌++◌, length, IfOk, OnOk};
ghost use Rattle.td_drill.specs.Drills.{Drills};
ghost use Rattle.td_drill.specs.Lines.{drill_line, group_part, walks_part};

use crate::counting::count_all;
use crate::queries::ask_all;
use crate::tally::Tally;
use std::alloc::Global;
use td_cdr::{Memory, Octets};
use td_file::Opened;
use td_forms::{put, put_counted};
use td_out::Words;
use td_trader::Solo;
use td_walk::Address;

/// Appends how many traders and offers there are.
fn put_group(text: &mut Vec<u8>, traders: u64, offers: u64) -> Result<(), Memory>
    ensures { OnOk result (text.new.items ≡ text.old.items ++ group_part traders offers) }
{
    put_counted(text, b"traders ", traders)?;
    put_counted(text, b" offers ", offers)
}

/// Appends what the walks come to.
fn put_walks(text: &mut Vec<u8>, tally: Tally) -> Result<(), Memory>
    ensures { OnOk result (text.new.items ≡ text.old.items ++ walks_part tally) }
{
    put_counted(text, b" queries ", tally.queries)?;
    put_counted(text, b" searched ", tally.searched)?;
    put_counted(text, b" repeats ", tally.repeats)?;
    put_counted(text, b" returned ", tally.returned)?;
    put(text, b"\n")
}

/// The line of a drill.
fn drill_line(alloc: Global, traders: u64, offers: u64, tally: Tally) -> Result<Octets, Memory>
    ensures { IfOk result (λ t. t ≡ drill_line traders offers tally) }
{
    let mut text = Vec::new(alloc);
    put_group(&mut text, traders, offers)?;
    put_walks(&mut text, tally)?;
    Ok(Octets::from_vec(text))
}

/// The line of a drill of these traders, from the random words to come on.
fn drill_group<W: Words>(
    alloc: Global,
    solo: &mut Solo,
    home: &Address,
    words: &mut W,
) -> Result<Octets, Memory>
    ensures { IfOk result (λ line. Drills (W.word words.old) home.now solo.old.traders.items line) }
{
    let group = solo.traders.as_slice();
    let traders = group.len() as u64;
    let offers = count_all(group)?;
    let tally = ask_all(alloc, solo, home, words)?;
    drill_line(alloc, traders, offers, tally)
}

/// The line of a drill of what a file opens: each trader is asked once, in order. The random words are those that come
/// after a seeding with the file's seed and stream 0.
///
/// # Errors
///
/// `Memory` when out of memory, or where a number has no place in 64 bits.
pub fn drill<W: Words>(alloc: Global, opened: Opened, words: &mut W) -> Result<Octets, Memory>
    requires { length opened.seed ≡ 32 }
    ensures { IfOk result (λ line.
        Drills (W.word_after words.old (record { key = opened.seed; stream = 0 }))
        opened.home opened.solo.traders.items line) }
{
    let Opened {
        home,
        seed,
        mut solo,
    } = opened;
    words.seed(seed.as_slice(), 0);
    drill_group(alloc, &mut solo, &home, words)
}
