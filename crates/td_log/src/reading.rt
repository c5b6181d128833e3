//! A line of a log.

ghost use Rattle.std.specs.Prelude.{◌≡◌, ◌<◌, ◌^◌, length, IfOk};
ghost use Rattle.td_log.specs.Lines.{answer_line, change_line, deliver_line, line_by, line_of, look_line};
ghost use Rattle.td_log.specs.Lines.{lose_line, words_by, words_of};

use crate::exchange::{ask_of, change_in, exchange_of, look_in, reply_line};
use crate::keyword::{Keyword, begin_of};
use crate::line::Line;
use crate::values::value_of;
use crate::words::{numbers_of, one_number};
use std::alloc::Global;
use td_cdr::{List, Memory, Text};

/// What a line records of a network whose traders have these names; none where it isn't in the table.
///
/// | line | what it records |
/// |---|---|
/// | `change TRADER REQUEST REPLY` | a change of a trader, `add_link` among them, and its reply |
/// | `look TRADER REQUEST REPLY` | a call that reads what a trader has, and its reply |
/// | `ask TRADER REQUEST` | a query |
/// | `deliver CALL`, `answer CALL`, `lose CALL` | an event of the call of this number |
/// | `value CALL ANY`, `value CALL -` | the value that the call got: an any in big order, or none |
/// | `reply CALL REPLY` | the reply to the query that opened the call |
///
/// TRADER is the name of the trader whose object the request names. REQUEST is a whole Request, REPLY a whole Reply of
/// the operation's grammar (CORBA, chapter on General Inter-ORB Protocol, "GIOP Messages"); bytes may follow the last
/// parameter and the result. CALL is decimal, without leading zeros, below 2^64.
///
/// # Errors
///
/// `Memory` only when out of memory.
#[tactic(auto, unfolding(crate::specs::Lines::line_of))]
pub fn read_line(alloc: Global, names: &[Text], line: &[u8]) -> Result<Option<Line>, Memory>
    requires { length line.now < 2 ^ 32 }
    ensures { IfOk result (λ l. l ≡ line_of names.now line.now) }
{
    match begin_of(line) {
        Some((keyword, text)) => line_by(alloc, names, keyword, text),
        None => Ok(None),
    }
}

/// What a line records that begins so.
fn line_by(
    alloc: Global,
    names: &[Text],
    keyword: Keyword,
    text: &[u8],
) -> Result<Option<Line>, Memory>
    requires { length text.now < 2 ^ 32 }
    ensures { IfOk result (λ l. l ≡ line_by names.now keyword text.now) }
{
    match keyword {
        Keyword::Words => Ok(None),
        Keyword::Change => change_line(alloc, names, text),
        Keyword::Look => look_line(alloc, names, text),
        Keyword::Ask => ask_of(alloc, names, text),
        Keyword::Deliver => Ok(deliver_line(text)),
        Keyword::Value => value_of(alloc, text),
        Keyword::Answer => Ok(answer_line(text)),
        Keyword::Lose => Ok(lose_line(text)),
        Keyword::Reply => reply_line(alloc, text),
    }
}

fn change_line(alloc: Global, names: &[Text], text: &[u8]) -> Result<Option<Line>, Memory>
    requires { length text.now < 2 ^ 32 }
    ensures { IfOk result (λ l. l ≡ change_line names.now text.now) }
{
    match exchange_of(alloc, names, text)? {
        Some(exchange) => change_in(alloc, exchange),
        None => Ok(None),
    }
}

fn look_line(alloc: Global, names: &[Text], text: &[u8]) -> Result<Option<Line>, Memory>
    requires { length text.now < 2 ^ 32 }
    ensures { IfOk result (λ l. l ≡ look_line names.now text.now) }
{
    match exchange_of(alloc, names, text)? {
        Some(exchange) => look_in(alloc, exchange),
        None => Ok(None),
    }
}

fn deliver_line(text: &[u8]) -> Option<Line>
    ensures { result ≡ deliver_line text.now }
{
    let call = one_number(text)? as usize;
    Some(Line::Deliver { call })
}

fn answer_line(text: &[u8]) -> Option<Line>
    ensures { result ≡ answer_line text.now }
{
    let call = one_number(text)? as usize;
    Some(Line::Answer { call })
}

fn lose_line(text: &[u8]) -> Option<Line>
    ensures { result ≡ lose_line text.now }
{
    let call = one_number(text)? as usize;
    Some(Line::Lose { call })
}

/// The random words of a network, where a line tells them: `words NUMBER ..`, each number decimal, without leading
/// zeros, below 2^64. Only the first line of a log may be such.
///
/// # Errors
///
/// `Memory` only when out of memory.
#[tactic(auto, unfolding(crate::specs::Lines::words_of))]
pub fn read_words(alloc: Global, line: &[u8]) -> Result<Option<List<u64>>, Memory>
    ensures { IfOk result (λ ws. ws ≡ words_of line.now) }
{
    match begin_of(line) {
        Some((keyword, text)) => words_by(alloc, keyword, text),
        None => Ok(None),
    }
}

/// The random words of a line that begins so.
fn words_by(alloc: Global, keyword: Keyword, text: &[u8]) -> Result<Option<List<u64>>, Memory>
    ensures { IfOk result (λ ws. ws ≡ words_by keyword text.now) }
{
    match keyword {
        Keyword::Words => numbers_of(alloc, text),
        Keyword::Change => Ok(None),
        Keyword::Look => Ok(None),
        Keyword::Ask => Ok(None),
        Keyword::Deliver => Ok(None),
        Keyword::Value => Ok(None),
        Keyword::Answer => Ok(None),
        Keyword::Lose => Ok(None),
        Keyword::Reply => Ok(None),
    }
}
