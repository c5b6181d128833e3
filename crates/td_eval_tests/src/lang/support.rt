//! Trees as text, faults by their names, and long texts.

use std::alloc::{AllocError, Global};
use td_cdr::{Boxed, Memory};
use td_lang::{Constraint, Expr, LangFault, Op, read_constraint};

fn sign(op: Op) -> &'static str {
    match op {
        Op::Or => "or",
        Op::And => "and",
        Op::Eq => "==",
        Op::Ne => "!=",
        Op::Lt => "<",
        Op::Le => "<=",
        Op::Gt => ">",
        Op::Ge => ">=",
        Op::Twiddle => "~",
        Op::Add => "+",
        Op::Sub => "-",
        Op::Mul => "*",
        Op::Div => "/",
    }
}

#[cycle(put)]
fn put_first(alloc: Global, out: &mut Vec<u8>, op: Op, first: &Expr) -> Result<(), AllocError> {
    put(out, b"(".as_slice(), sign(op).as_bytes(), b" ".as_slice())?;
    put_tree(alloc, out, first)
}

#[cycle(put)]
fn put_second(alloc: Global, out: &mut Vec<u8>, second: &Expr) -> Result<(), AllocError> {
    out.extend_from_slice(b" ".as_slice())?;
    put_tree(alloc, out, second)?;
    out.extend_from_slice(b")".as_slice())
}

#[cycle(put)]
fn put_within(
    alloc: Global,
    out: &mut Vec<u8>,
    item: &Expr,
    name: &[u8],
) -> Result<(), AllocError> {
    out.extend_from_slice(b"(in ".as_slice())?;
    put_tree(alloc, out, item)?;
    put(out, b" ".as_slice(), name, b")".as_slice())
}

#[cycle(put)]
fn put_not(alloc: Global, out: &mut Vec<u8>, denied: &Expr) -> Result<(), AllocError> {
    out.extend_from_slice(b"(not ".as_slice())?;
    put_tree(alloc, out, denied)?;
    out.extend_from_slice(b")".as_slice())
}

/// Puts three pieces behind a text.
pub fn put(
    out: &mut Vec<u8>,
    before: &[u8],
    piece: &[u8],
    behind: &[u8],
) -> Result<(), AllocError> {
    out.extend_from_slice(before)?;
    out.extend_from_slice(piece)?;
    out.extend_from_slice(behind)
}

fn put_number(alloc: Global, out: &mut Vec<u8>, n: i64) -> Result<(), AllocError> {
    let digits = format!(in alloc; "{n}")?;
    out.extend_from_slice(digits.as_bytes())
}

/// Puts a tree behind a text: operators before their operands, in parentheses.
#[cycle(put)]
pub fn put_tree(alloc: Global, out: &mut Vec<u8>, e: &Expr) -> Result<(), AllocError> {
    match e {
        Expr::Binary(op, first, second) => {
            put_first(alloc, out, *op, first.get())?;
            put_second(alloc, out, second.get())
        }
        Expr::Within(item, name) => put_within(alloc, out, item.get(), name.as_slice()),
        Expr::Not(denied) => put_not(alloc, out, denied.get()),
        Expr::Exist(name) => put(out, b"(exist ".as_slice(), name.as_slice(), b")".as_slice()),
        Expr::Name(name) => out.extend_from_slice(name.as_slice()),
        Expr::Number(n) => put_number(alloc, out, *n),
        Expr::Str(text) => put(out, b"'".as_slice(), text.as_slice(), b"'".as_slice()),
        Expr::Truth(true) => out.extend_from_slice(b"TRUE".as_slice()),
        Expr::Truth(false) => out.extend_from_slice(b"FALSE".as_slice()),
    }
}

/// Whether the tree is this one; the empty constraint has none.
pub fn has_tree(alloc: Global, constraint: &Constraint, tree: &str) -> Result<bool, Memory> {
    let mut out = Vec::new(alloc);
    if let Constraint::Is(e) = constraint {
        put_tree(alloc, &mut out, e)?;
    }
    Ok(out.as_slice() == tree.as_bytes())
}

pub fn constraint_of(alloc: Global, text: &[u8]) -> Result<Boxed<Constraint>, LangFault> {
    Ok(Boxed::new(alloc, read_constraint(alloc, text)?)?)
}

/// Why a text is no constraint.
pub fn constraint_fault(alloc: Global, text: &[u8]) -> Option<LangFault> {
    read_constraint(alloc, text).err()
}

/// What stands before and behind the first ` => ` of a line.
pub fn cut(line: &str) -> (&str, &str) {
    line.split_once(" => ").unwrap_or((line, ""))
}

/// The fault of a name and a place.
pub fn fault_of(content: &str) -> LangFault {
    let (name, digits) = content.split_once(' ').unwrap_or((content, ""));
    let place = digits.parse::<u32>().unwrap_or(0);
    match name {
        "Syntax" => LangFault::Syntax(place),
        "Float" => LangFault::Float(place),
        "Depth" => LangFault::Depth(place),
        _ => LangFault::TooLong,
    }
}

/// `count` times the piece between two others.
fn repeated(
    alloc: Global,
    before: &[u8],
    piece: &[u8],
    count: usize,
    behind: &[u8],
) -> Result<Vec<u8>, AllocError> {
    let mut text = Vec::from_slice(alloc, before)?;
    for _ in 0..count {
        text.extend_from_slice(piece)?;
    }
    text.extend_from_slice(behind)?;
    Ok(text)
}

/// What stands before and behind the first bar.
fn at_bar(line: &str) -> (&str, &str) {
    line.split_once('|').unwrap_or((line, ""))
}

/// The text of `BEFORE|PIECE|COUNT|BEHIND`.
pub fn long_text(alloc: Global, line: &str) -> Result<Vec<u8>, AllocError> {
    let (before, rest) = at_bar(line);
    let (piece, rest) = at_bar(rest);
    let (digits, behind) = at_bar(rest);
    let count = digits.parse::<usize>().unwrap_or(0);
    repeated(
        alloc,
        before.as_bytes(),
        piece.as_bytes(),
        count,
        behind.as_bytes(),
    )
}
