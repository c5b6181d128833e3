//! Printing an expression.

ghost use Rattle.std.specs.List.{list_any};
ghost use Rattle.std.specs.Str.{bytes_eq};
ghost use Rattle.std.specs.Prelude.{◌≡◌, [], ◌++◌, ◌∷◌, ◌||◌, ◌≤◌, OnOk, IfOk, if◌then◌else◌};
ghost use Rattle.td_lang.specs.declared.token.Token.TheVariants.{Operator, Within, Not, Exist, Open, Close, Name};
ghost use Rattle.td_lang.specs.declared.token.Token.TheVariants.{Number, Quoted, Truth, Keyword as keyword};
ghost use Rattle.td_lang.specs.declared.expr.Expr.TheVariants as expr;
ghost use Rattle.td_lang.specs.Levels.{level, left, right};
ghost use Rattle.td_lang.specs.Grammar.{tokens};
ghost use Rattle.td_lang.specs.Printing.{number_phrase, put, put_all, expr_text, left_text, right_text, with_space};
ghost use Rattle.td_lang.specs.Printing.{open_if, close_if};
ghost use Rattle.td_lang.specs.Spelling.{operator_word, is_reserved, operator_words, preference_words, truth_words};
ghost use Rattle.td_lang.specs.Spelling.{needs_backslash, inside_quotes};

use crate::expr::{Expr, Op};
use crate::machine::{left, level, right};
use crate::token::Keyword;
use std::alloc::Global;
use td_cdr::Memory;

/// Puts a piece behind the text, with a space between.
fn put(out: &mut Vec<u8>, piece: &[u8]) -> Result<(), Memory>
    ensures { OnOk result (out.new.items ≡ with_space out.old.items piece.now) }
{
    if !out.is_empty() {
        out.push(b' ')?;
    }
    out.extend_from_slice(piece)?;
    Ok(())
}

fn sign(op: Op) -> &'static [u8]
    ensures { result.now ≡ operator_word op }
{
    match op {
        Op::Or => b"or".as_slice(),
        Op::And => b"and".as_slice(),
        Op::Eq => b"==".as_slice(),
        Op::Ne => b"!=".as_slice(),
        Op::Lt => b"<".as_slice(),
        Op::Le => b"<=".as_slice(),
        Op::Gt => b">".as_slice(),
        Op::Ge => b">=".as_slice(),
        Op::Twiddle => b"~".as_slice(),
        Op::Add => b"+".as_slice(),
        Op::Sub => b"-".as_slice(),
        Op::Mul => b"*".as_slice(),
        Op::Div => b"/".as_slice(),
    }
}

#[tactic(auto, unfolding(crate::specs::Printing::put))]
fn put_sign(out: &mut Vec<u8>, op: Op) -> Result<(), Memory>
    ensures { OnOk result (out.new.items ≡ put out.old.items (Operator op)) }
{
    put(out, sign(op))
}

fn is_reserved(word: &[u8]) -> bool
    ensures { result ≡ is_reserved word.now }
{
    is_operator_word(word) || is_preference_word(word) || is_truth_word(word)
}

fn is_operator_word(word: &[u8]) -> bool
    ensures { result ≡ list_any (bytes_eq word.now) operator_words }
{
    word == b"and".as_slice()
        || word == b"or".as_slice()
        || word == b"not".as_slice()
        || word == b"in".as_slice()
        || word == b"exist".as_slice()
}

fn is_preference_word(word: &[u8]) -> bool
    ensures { result ≡ list_any (bytes_eq word.now) preference_words }
{
    word == b"min".as_slice()
        || word == b"max".as_slice()
        || word == b"first".as_slice()
        || word == b"random".as_slice()
        || word == b"with".as_slice()
}

fn is_truth_word(word: &[u8]) -> bool
    ensures { result ≡ list_any (bytes_eq word.now) truth_words }
{
    word == b"TRUE".as_slice() || word == b"FALSE".as_slice()
}

#[tactic(auto, unfolding(crate::specs::Printing::put))]
fn put_name(alloc: Global, out: &mut Vec<u8>, name: &[u8]) -> Result<(), Memory>
    ensures { OnOk result (out.new.items ≡ put out.old.items (Name name.now)) }
{
    if is_reserved(name) {
        let mut word = Vec::new(alloc);
        word.push(b'\\')?;
        word.extend_from_slice(name)?;
        put(out, word.as_slice())
    } else {
        put(out, name)
    }
}

#[tactic(auto, unfolding(crate::specs::Printing::put))]
fn put_number(alloc: Global, out: &mut Vec<u8>, size: u64) -> Result<(), Memory>
    ensures { OnOk result (out.new.items ≡ put out.old.items (Number size)) }
{
    let digits = format!(in alloc; "{size}")?;
    put(out, digits.as_bytes())
}

/// Whether a byte of a quoted text has a backslash in front.
fn needs_backslash(byte: u8) -> bool
    ensures { result ≡ needs_backslash byte }
{
    byte == b'\'' || byte == b'\\'
}

/// The bytes of a quoted text, without the quotes.
fn put_inside(word: &mut Vec<u8>, text: &[u8]) -> Result<(), Memory>
    ensures { OnOk result (word.new.items ≡ word.old.items ++ inside_quotes text.now) }
{
    for byte in text {
        if needs_backslash(*byte) {
            word.push(b'\\')?;
        }
        word.push(*byte)?;
    }
    Ok(())
}

#[tactic(auto, unfolding(crate::specs::Printing::put))]
fn put_quoted(alloc: Global, out: &mut Vec<u8>, text: &[u8]) -> Result<(), Memory>
    ensures { OnOk result (out.new.items ≡ put out.old.items (Quoted text.now)) }
{
    let mut word = Vec::new(alloc);
    word.push(b'\'')?;
    put_inside(&mut word, text)?;
    word.push(b'\'')?;
    put(out, word.as_slice())
}

#[tactic(auto, unfolding(crate::specs::Printing::put))]
fn put_truth(out: &mut Vec<u8>, truth: bool) -> Result<(), Memory>
    ensures { OnOk result (out.new.items ≡ put out.old.items (Truth truth)) }
{
    if truth {
        put(out, b"TRUE".as_slice())
    } else {
        put(out, b"FALSE".as_slice())
    }
}

#[tactic(auto, unfolding(crate::specs::Printing::put))]
fn put_open(out: &mut Vec<u8>) -> Result<(), Memory>
    ensures { OnOk result (out.new.items ≡ put out.old.items Open) }
{
    put(out, b"(".as_slice())
}

#[tactic(auto, unfolding(crate::specs::Printing::put))]
fn put_close(out: &mut Vec<u8>) -> Result<(), Memory>
    ensures { OnOk result (out.new.items ≡ put out.old.items Close) }
{
    put(out, b")".as_slice())
}

#[tactic(auto, unfolding(crate::specs::Printing::put))]
fn put_not(out: &mut Vec<u8>) -> Result<(), Memory>
    ensures { OnOk result (out.new.items ≡ put out.old.items Not) }
{
    put(out, b"not".as_slice())
}

#[tactic(auto, unfolding(crate::specs::Printing::put))]
fn put_within(out: &mut Vec<u8>) -> Result<(), Memory>
    ensures { OnOk result (out.new.items ≡ put out.old.items Within) }
{
    put(out, b"in".as_slice())
}

#[tactic(auto, unfolding(crate::specs::Printing::put))]
fn put_exist(out: &mut Vec<u8>) -> Result<(), Memory>
    ensures { OnOk result (out.new.items ≡ put out.old.items Exist) }
{
    put(out, b"exist".as_slice())
}

/// Puts the word that begins a preference behind a text.
#[tactic(auto, unfolding(crate::specs::Printing::put))]
pub(crate) fn put_keyword(out: &mut Vec<u8>, word: Keyword) -> Result<(), Memory>
    ensures { OnOk result (out.new.items ≡ put out.old.items (keyword word)) }
{
    match word {
        Keyword::First => put(out, b"first".as_slice()),
        Keyword::Random => put(out, b"random".as_slice()),
        Keyword::Min => put(out, b"min".as_slice()),
        Keyword::Max => put(out, b"max".as_slice()),
        Keyword::With => put(out, b"with".as_slice()),
    }
}

fn put_signed(alloc: Global, out: &mut Vec<u8>, n: i64) -> Result<(), Memory>
    ensures { OnOk result (out.new.items ≡ put_all out.old.items (tokens (number_phrase n))) }
{
    if n < 0 {
        put_sign(out, Op::Sub)?;
    }
    put_number(alloc, out, n.unsigned_abs())
}

fn open_if(out: &mut Vec<u8>, wanted: bool) -> Result<(), Memory>
    ensures { OnOk result (out.new.items ≡ open_if wanted out.old.items) }
{
    if wanted {
        put_open(out)?;
    }
    Ok(())
}

fn close_if(out: &mut Vec<u8>, wanted: bool) -> Result<(), Memory>
    ensures { OnOk result (out.new.items ≡ close_if wanted out.old.items) }
{
    if wanted {
        put_close(out)?;
    }
    Ok(())
}

/// Prints an operand behind a text, where the grammar has something of the level `place`. It recurses as
/// deep as the tree is.
#[tactic(auto, using(crate::proofs::PrintSteps::printed))]
#[cycle(print)]
pub(crate) fn print(alloc: Global, out: &mut Vec<u8>, e: &Expr, place: u8) -> Result<(), Memory>
    ensures { OnOk result (out.new.items ≡ expr_text out.old.items e.now place) }
{
    match e {
        Expr::Binary(op, a, b) => {
            print_left(alloc, out, a.get(), *op, place)?;
            print_right(alloc, out, b.get(), *op, place)
        }
        Expr::Within(a, name) => print_within(alloc, out, a.get(), name.as_slice(), place),
        Expr::Not(a) => print_not(alloc, out, a.get(), place),
        Expr::Exist(name) => {
            put_exist(out)?;
            put_name(alloc, out, name.as_slice())
        }
        Expr::Name(name) => put_name(alloc, out, name.as_slice()),
        Expr::Number(n) => put_signed(alloc, out, *n),
        Expr::Str(text) => put_quoted(alloc, out, text.as_slice()),
        Expr::Truth(truth) => put_truth(out, *truth),
    }
}

/// The left operand and its operator, in the place of such an expression.
#[cycle(print)]
fn print_left(alloc: Global, out: &mut Vec<u8>, a: &Expr, op: Op, place: u8) -> Result<(), Memory>
    ensures { OnOk result (out.new.items ≡ left_text out.old.items a.now op place) }
{
    open_if(out, level(op) < place)?;
    print(alloc, out, a, left(op))?;
    put_sign(out, op)
}

/// The right operand, in the place of such an expression.
#[cycle(print)]
fn print_right(alloc: Global, out: &mut Vec<u8>, b: &Expr, op: Op, place: u8) -> Result<(), Memory>
    ensures { OnOk result (out.new.items ≡ right_text out.old.items b.now op place) }
{
    print(alloc, out, b, right(op))?;
    close_if(out, level(op) < place)
}

#[tactic(auto, using(crate::proofs::PrintSteps::printed_within))]
#[cycle(print)]
fn print_within(
    alloc: Global,
    out: &mut Vec<u8>,
    a: &Expr,
    name: &[u8],
    place: u8,
) -> Result<(), Memory>
    ensures { OnOk result (out.new.items
        ≡ expr_text out.old.items (expr.Within a.now name.now) place) }
{
    let wanted = 4 < place;
    open_if(out, wanted)?;
    print(alloc, out, a, 5)?;
    put_within(out)?;
    put_name(alloc, out, name)?;
    close_if(out, wanted)
}

#[tactic(auto, using(crate::proofs::PrintSteps::printed_not))]
#[cycle(print)]
fn print_not(alloc: Global, out: &mut Vec<u8>, a: &Expr, place: u8) -> Result<(), Memory>
    ensures { OnOk result (out.new.items ≡ expr_text out.old.items (expr.Not a.now) place) }
{
    let wanted = 8 < place;
    open_if(out, wanted)?;
    put_not(out)?;
    print(alloc, out, a, 9)?;
    close_if(out, wanted)
}
