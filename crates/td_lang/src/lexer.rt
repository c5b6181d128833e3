//! The token in front of a text.

ghost use Rattle.std.specs.Prelude.{◌≡◌, ◌+◌, ◌^◌, ◌<◌, ◌≤◌, [], false, take, drop, length, IfOk, IfSome, IsTrue};
ghost use Rattle.std.specs.Prelude.{option_map};
ghost use Rattle.td_cdr.specs.Names.{is_letter, is_digit, is_word};
ghost use Rattle.td_lang.specs.Lexing.{is_blank, lead, truth_word, plain_word, word_token, value_of, with_digit};
ghost use Rattle.td_lang.specs.Lexing.{byte_at, word_at, own_name_at, number_at, quoted_from, quoted_at, with_equal};
ghost use Rattle.td_lang.specs.Lexing.{comparison_at, sign_at, token_at, GivesFault};
ghost use Rattle.td_lang.specs.Machine.{IsSmall};

use crate::expr::Op;
use crate::fault::LangFault;
use crate::token::{Keyword, Token};
use std::alloc::Global;
use td_cdr::{Memory, Text, is_word};

/// Whether a byte is a blank, which parts tokens.
pub fn is_blank(byte: u8) -> bool
    ensures { result ≡ is_blank byte }
{
    byte == b' ' || byte == b'\t' || byte == b'\r' || byte == b'\n'
}

fn is_letter(byte: u8) -> bool
    ensures { result ≡ is_letter byte }
{
    byte.is_ascii_alphabetic()
}

fn is_digit(byte: u8) -> bool
    ensures { result ≡ is_digit byte }
{
    byte.is_ascii_digit()
}

/// The byte at a place, 0 past the end.
fn byte_at(text: &[u8], at: usize) -> u8
    ensures { result ≡ byte_at text.now at }
{
    match text.get(at) {
        Some(byte) => *byte,
        None => 0,
    }
}

/// How many bytes of a word stand in front.
fn word_length(text: &[u8]) -> usize
    ensures lead { result ≡ lead is_word text.now }
    ensures within { result ≤ length text.now }
{
    let mut n = 0;
    while n < text.len() && is_word(text[n]) {
        n += 1;
    }
    n
}

/// How many blanks stand in front.
pub fn blank_length(text: &[u8]) -> usize
    ensures lead { result ≡ lead is_blank text.now }
    ensures within { result ≤ length text.now }
{
    let mut n = 0;
    while n < text.len() && is_blank(text[n]) {
        n += 1;
    }
    n
}

fn digit_length(text: &[u8]) -> usize
    ensures lead { result ≡ lead is_digit text.now }
    ensures within { result ≤ length text.now }
{
    let mut n = 0;
    while n < text.len() && is_digit(text[n]) {
        n += 1;
    }
    n
}

/// A word that no expression has an operator's place for.
fn plain_word(alloc: Global, word: &[u8]) -> Result<Token, Memory>
    ensures token { IfOk result (λ t. t ≡ plain_word word.now) }
    ensures small { IfOk result IsSmall }
{
    if word == b"min".as_slice() {
        Ok(Token::Keyword(Keyword::Min))
    } else if word == b"max".as_slice() {
        Ok(Token::Keyword(Keyword::Max))
    } else if word == b"first".as_slice() {
        Ok(Token::Keyword(Keyword::First))
    } else if word == b"random".as_slice() {
        Ok(Token::Keyword(Keyword::Random))
    } else if word == b"with".as_slice() {
        Ok(Token::Keyword(Keyword::With))
    } else {
        truth_word(alloc, word)
    }
}

/// A word that begins no preference either.
fn truth_word(alloc: Global, word: &[u8]) -> Result<Token, Memory>
    ensures token { IfOk result (λ t. t ≡ truth_word word.now) }
    ensures small { IfOk result IsSmall }
{
    if word == b"TRUE".as_slice() {
        Ok(Token::Truth(true))
    } else if word == b"FALSE".as_slice() {
        Ok(Token::Truth(false))
    } else {
        Ok(Token::Name(Text::from_slice(alloc, word)?))
    }
}

fn word_token(alloc: Global, word: &[u8]) -> Result<Token, Memory>
    ensures token { IfOk result (λ t. t ≡ word_token word.now) }
    ensures small { IfOk result IsSmall }
{
    if word == b"and".as_slice() {
        Ok(Token::Operator(Op::And))
    } else if word == b"or".as_slice() {
        Ok(Token::Operator(Op::Or))
    } else if word == b"not".as_slice() {
        Ok(Token::Not)
    } else if word == b"in".as_slice() {
        Ok(Token::Within)
    } else if word == b"exist".as_slice() {
        Ok(Token::Exist)
    } else {
        plain_word(alloc, word)
    }
}

/// The word in front, and how many bytes it takes.
#[tactic(auto, unfolding(crate::specs::Lexing::word_at))]
fn word_at(alloc: Global, place: u32, text: &[u8]) -> Result<(Token, usize), LangFault>
    requires { IsTrue (is_letter (byte_at text.now 0)) }
    ensures gives { GivesFault (λ r. r) result (word_at place text.now) }
    ensures within { IfOk result (λ r. (0 < r.1) × (r.1 ≤ length text.now)) }
    ensures small { IfOk result (λ r. IsSmall r.0) }
{
    let size = word_length(text);
    if size > 256 {
        return Err(LangFault::Syntax(place));
    }
    Ok((word_token(alloc, &text[..size])?, size))
}

/// The name behind a `\` in front.
#[tactic(auto, unfolding(crate::specs::Lexing::own_name_at))]
fn own_name_at(alloc: Global, place: u32, text: &[u8]) -> Result<(Token, usize), LangFault>
    ensures gives { GivesFault (λ r. r) result (own_name_at place text.now) }
    ensures within { IfOk result (λ r. (0 < r.1) × (r.1 ≤ length text.now)) }
    ensures small { IfOk result (λ r. IsSmall r.0) }
{
    if !is_letter(byte_at(text, 1)) {
        return Err(LangFault::Syntax(place));
    }
    let name = &text[1..];
    let size = word_length(name);
    if size > 256 {
        return Err(LangFault::Syntax(place));
    }
    let name = Text::from_slice(alloc, &name[..size])?;
    Ok((Token::Name(name), size + 1))
}

/// The value of digits, where it is below 2^63.
fn value_of(digits: &[u8]) -> Option<u64>
    ensures value { result ≡ value_of 0 digits.now }
    ensures small { IfSome result (λ n. n < 2 ^ 63) }
{
    let mut value: u64 = 0;
    for b in digits {
        match with_digit(value, *b) {
            Some(more) => value = more,
            None => return None,
        }
    }
    Some(value)
}

/// A value with one digit more behind it.
fn with_digit(value: u64, digit: u8) -> Option<u64>
    ensures value { result ≡ with_digit value digit }
    ensures small { IfSome result (λ n. n < 2 ^ 63) }
{
    let next = (value as u128) * 10 + digit.saturating_sub(b'0') as u128;
    if next < 0x8000_0000_0000_0000 {
        Some(next as u64)
    } else {
        None
    }
}

/// The number in front, and how many bytes it takes.
#[tactic(auto, unfolding(crate::specs::Lexing::number_at))]
fn number_at(place: u32, text: &[u8]) -> Result<(Token, usize), LangFault>
    requires { IsTrue (is_digit (byte_at text.now 0)) }
    ensures gives { GivesFault (λ r. r) result (number_at place text.now) }
    ensures within { IfOk result (λ r. (0 < r.1) × (r.1 ≤ length text.now)) }
    ensures small { IfOk result (λ r. IsSmall r.0) }
{
    let size = digit_length(text);
    let next = byte_at(text, size);
    if next == b'.' || next == b'e' || next == b'E' {
        return Err(LangFault::Float(place));
    }
    if is_word(next) {
        return Err(LangFault::Syntax(place));
    }
    match value_of(&text[..size]) {
        Some(n) => Ok((Token::Number(n), size)),
        None => Err(LangFault::Syntax(place)),
    }
}

/// What stands up to the closing quote, and how many bytes it takes with both quotes.
fn quoted_from(alloc: Global, text: &[u8]) -> Result<Option<(Text, usize)>, Memory>
    ensures gives { IfOk result (λ r. r ≡ quoted_from false [] 1 text.now) }
    ensures within { IfOk result (λ r. IfSome r (λ q. (0 < q.1) × (q.1 ≤ length text.now + 1))) }
{
    let mut own = Vec::new(alloc);
    let mut escaped = false;
    let mut size = 0;
    while size < text.len() {
        let byte = text[size];
        size += 1;
        if escaped {
            if byte != b'\'' && byte != b'\\' {
                return Ok(None);
            }
            own.push(byte)?;
            escaped = false;
        } else if byte == b'\'' {
            return Ok(Some((Text::from_vec(own), size + 1)));
        } else if byte == b'\\' {
            escaped = true;
        } else {
            own.push(byte)?;
        }
    }
    Ok(None)
}

/// The text behind a quote in front.
#[tactic(auto, unfolding(crate::specs::Lexing::quoted_at))]
fn quoted_at(alloc: Global, place: u32, text: &[u8]) -> Result<(Token, usize), LangFault>
    requires { 0 < length text.now }
    ensures gives { GivesFault (λ r. r) result (quoted_at place text.now) }
    ensures within { IfOk result (λ r. (0 < r.1) × (r.1 ≤ length text.now)) }
    ensures small { IfOk result (λ r. IsSmall r.0) }
{
    let (_, inner) = text.split_at(1);
    match quoted_from(alloc, inner)? {
        Some((own, size)) => Ok((Token::Quoted(own), size)),
        None => Err(LangFault::Syntax(place)),
    }
}

/// A sign that is `one`, or `two` where `=` follows.
fn with_equal(next: u8, two: Op, one: Op) -> (Token, usize)
    ensures gives { Ok result ≡ with_equal next two one }
    ensures size { (0 < result.1) × (result.1 ≤ 2) × (next ≡ 0 → result.1 ≡ 1) }
    ensures small { IsSmall result.0 }
{
    if next == b'=' {
        (Token::Operator(two), 2)
    } else {
        (Token::Operator(one), 1)
    }
}

/// A sign in front that begins as a comparison.
#[tactic(auto, unfolding(crate::specs::Lexing::comparison_at))]
fn comparison_at(place: u32, text: &[u8]) -> Result<(Token, usize), LangFault>
    ensures gives { GivesFault (λ r. r) result (comparison_at place text.now) }
    ensures within { IfOk result (λ r. (0 < r.1) × (r.1 ≤ length text.now)) }
    ensures small { IfOk result (λ r. IsSmall r.0) }
{
    let next = byte_at(text, 1);
    match byte_at(text, 0) {
        b'<' => Ok(with_equal(next, Op::Le, Op::Lt)),
        b'>' => Ok(with_equal(next, Op::Ge, Op::Gt)),
        b'=' if next == b'=' => Ok((Token::Operator(Op::Eq), 2)),
        b'!' if next == b'=' => Ok((Token::Operator(Op::Ne), 2)),
        b'.' if is_digit(next) => Err(LangFault::Float(place)),
        _ => Err(LangFault::Syntax(place)),
    }
}

/// The sign in front, and how many bytes it takes.
#[tactic(auto, unfolding(crate::specs::Lexing::sign_at))]
fn sign_at(place: u32, text: &[u8]) -> Result<(Token, usize), LangFault>
    ensures gives { GivesFault (λ r. r) result (sign_at place text.now) }
    ensures within { IfOk result (λ r. (0 < r.1) × (r.1 ≤ length text.now)) }
    ensures small { IfOk result (λ r. IsSmall r.0) }
{
    match byte_at(text, 0) {
        b'(' => Ok((Token::Open, 1)),
        b')' => Ok((Token::Close, 1)),
        b'+' => Ok((Token::Operator(Op::Add), 1)),
        b'-' => Ok((Token::Operator(Op::Sub), 1)),
        b'*' => Ok((Token::Operator(Op::Mul), 1)),
        b'/' => Ok((Token::Operator(Op::Div), 1)),
        b'~' => Ok((Token::Operator(Op::Twiddle), 1)),
        _ => comparison_at(place, text),
    }
}

/// The token in front, and how many bytes it takes.
///
/// # Errors
///
/// `Float` and `Syntax` at the place, where no token of the grammar stands there; `Memory` only when
/// out of memory.
#[tactic(auto, unfolding(crate::specs::Lexing::token_at))]
pub fn token_at(alloc: Global, place: u32, text: &[u8]) -> Result<(Token, usize), LangFault>
    ensures gives { GivesFault (λ r. r) result (token_at place text.now) }
    ensures within { IfOk result (λ r. (0 < r.1) × (r.1 ≤ length text.now)) }
    ensures small { IfOk result (λ r. IsSmall r.0) }
{
    let first = byte_at(text, 0);
    if is_letter(first) {
        word_at(alloc, place, text)
    } else if is_digit(first) {
        number_at(place, text)
    } else if first == b'\\' {
        own_name_at(alloc, place, text)
    } else if first == b'\'' {
        quoted_at(alloc, place, text)
    } else {
        sign_at(place, text)
    }
}
