//! Reading token by token: an operator-precedence machine with a stack of its own.
//!
//! Nothing here recurses. The machine's stack has at most eight frames for each of the 64 parentheses
//! that may be open, and seven more.

ghost use Rattle.std.specs.Prelude.{◌≡◌, ◌+◌, ◌<◌, ◌≤◌, List, length, reverse, Ok, IfOk};
ghost use Rattle.td_lang.specs.declared.machine.Frame.{Frame};
ghost use Rattle.td_lang.specs.declared.machine.State.TheVariants.{AfterExist, AfterMinus, AfterIn};
ghost use Rattle.td_lang.specs.declared.token.Token.TheVariants.{Operator, Within, Not, Open, Close};
ghost use Rattle.td_lang.specs.declared.expr.Expr.TheVariants.{Binary};
ghost use Rattle.td_lang.specs.Machine.{IsSmall, reduction, waits, takes_not, step_of, stand, frames_state, operand_on};
ghost use Rattle.td_lang.specs.Machine.{end_of, AgreesUnlessNoMemory, refusal, operand, suffix, whole};
ghost use Rattle.td_lang.specs.Levels.{level, left, right};

use crate::expr::{Expr, Op};
use crate::token::Token;
use std::alloc::{AllocFailed, Global};
use td_cdr::{Boxed, Memory};

/// The most parentheses that may be open.
pub const DEPTH: u32 = 64;

/// What was begun and waits for its last operand.
#[derive(Drop)]
pub enum Frame {
    Binary(Op, Expr),
    Not,
    Open,
}

/// What may come next.
#[derive(Drop)]
pub enum State {
    Operand,
    AfterExist,
    AfterMinus,
    AfterIn(Expr),
    Done(u8, Expr),
}

/// Why a token is not taken.
#[derive(Drop)]
pub enum Stop {
    Memory,
    Refused,
    Deep,
}

impl From<Memory> for Stop {
    ghost use Rattle.std.specs.Prelude.{◌≡◌};
    ghost use Rattle.td_lang.specs.declared.machine.Stop.TheVariants.{Memory as memory};

    ghost from_gives = { λ _ e. e ≡ memory };

    fn from(_memory: Memory) -> Stop {
        Stop::Memory
    }
}

impl<T: Drop> From<AllocFailed<T>> for Stop {
    ghost use Rattle.std.specs.Prelude.{◌≡◌};
    ghost use Rattle.td_lang.specs.declared.machine.Stop.TheVariants.{Memory as memory};

    ghost from_gives = { λ _ e. e ≡ memory };

    fn from(_refused: AllocFailed<T>) -> Stop {
        Stop::Memory
    }
}

/// The level of the production that has the operator: 1 binds least.
pub fn level(op: Op) -> u8
    ensures { result ≡ level op }
{
    match op {
        Op::Or => 1,
        Op::And => 2,
        Op::Eq | Op::Ne | Op::Lt | Op::Le | Op::Gt | Op::Ge => 3,
        Op::Twiddle => 5,
        Op::Add | Op::Sub => 6,
        Op::Mul | Op::Div => 7,
    }
}

/// The level of its left operand.
pub fn left(op: Op) -> u8
    ensures { result ≡ left op }
{
    match op {
        Op::Or => 1,
        Op::And => 2,
        Op::Eq | Op::Ne | Op::Lt | Op::Le | Op::Gt | Op::Ge => 4,
        Op::Twiddle | Op::Add | Op::Sub => 6,
        Op::Mul | Op::Div => 7,
    }
}

/// The level of its right operand.
pub fn right(op: Op) -> u8
    ensures { result ≡ right op }
{
    match op {
        Op::Or => 2,
        Op::And => 3,
        Op::Eq | Op::Ne | Op::Lt | Op::Le | Op::Gt | Op::Ge => 4,
        Op::Twiddle => 6,
        Op::Add | Op::Sub => 7,
        Op::Mul | Op::Div => 8,
    }
}

/// Finishes what is finished before something of this level follows.
fn reduce(
    alloc: Global,
    stack: &mut Vec<Frame>,
    level_of: u8,
    e: Expr,
    next: u8,
) -> Result<(u8, Expr), Stop>
    ensures { AgreesUnlessNoMemory (operand_on stack.new.items) result
        (Ok (reduction next (reverse stack.old.items) level_of e)) }
{
    let mut reached = level_of;
    let mut found = e;
    'frames: while waits(stack.as_slice(), next) {
        match stack.pop() {
            Some(Frame::Binary(op, first)) => {
                found = binary(alloc, op, first, found)?;
                reached = level(op);
            }
            Some(Frame::Not) => {
                found = Expr::Not(Boxed::new(alloc, found)?);
                reached = 8;
            }
            _ => {
                drop(found);
                return Err(Stop::Refused);
            }
        }
    }
    Ok((reached, found))
}

fn binary(alloc: Global, op: Op, first: Expr, second: Expr) -> Result<Expr, Memory>
    ensures { IfOk result (λ e. e ≡ Binary op first second) }
{
    match Boxed::new(alloc, first) {
        Ok(first) => Ok(Expr::Binary(op, first, Boxed::new(alloc, second)?)),
        Err(memory) => {
            drop(second);
            Err(memory)
        }
    }
}

/// The last frame is finished before something of this level follows.
fn waits(stack: &[Frame], next: u8) -> bool
    ensures { result ≡ waits (reverse stack.now) next }
{
    match stack.last() {
        None | Some(Frame::Open) => false,
        Some(Frame::Not) => true,
        Some(Frame::Binary(op, _)) => next < right(*op),
    }
}

/// Takes a token.
///
/// # Errors
///
/// `Refused` where the token can't stand here, `Deep` where more parentheses than 64 would be open, or `Memory` when
/// out of memory.
pub fn step(
    alloc: Global,
    stack: &mut Vec<Frame>,
    depth: u32,
    state: State,
    token: Token,
) -> Result<(u32, State), Stop>
    requires depth { depth ≤ 64 }
    requires small { IsSmall token }
    ensures gives { AgreesUnlessNoMemory (frames_state stack.new.items) result
        (step_of depth (reverse stack.old.items) state token) }
    ensures depth { IfOk result (λ r. r.0 ≤ 64) }
{
    match state {
        State::Operand => operand(stack, depth, token),
        State::AfterExist => after_exist(depth, token),
        State::AfterMinus => after_minus(depth, token),
        State::AfterIn(left) => after_in(alloc, depth, left, token),
        State::Done(reached, found) => suffix(alloc, stack, depth, reached, found, token),
    }
}

fn after_exist(depth: u32, token: Token) -> Result<(u32, State), Stop>
    requires depth { depth ≤ 64 }
    ensures gives { (st : List Frame)
        → AgreesUnlessNoMemory (λ r. stand r.0 st r.1) result (step_of depth st AfterExist token) }
    ensures depth { IfOk result (λ r. r.0 ≤ 64) }
{
    match token {
        Token::Name(name) => Ok((depth, State::Done(9, Expr::Exist(name)))),
        other => Err(refusal(depth, &other)),
    }
}

fn after_minus(depth: u32, token: Token) -> Result<(u32, State), Stop>
    requires depth { depth ≤ 64 }
    requires small { IsSmall token }
    ensures gives { (st : List Frame)
        → AgreesUnlessNoMemory (λ r. stand r.0 st r.1) result (step_of depth st AfterMinus token) }
    ensures depth { IfOk result (λ r. r.0 ≤ 64) }
{
    match token {
        Token::Number(size) => Ok((depth, State::Done(9, Expr::Number(-(size as i64))))),
        other => Err(refusal(depth, &other)),
    }
}

fn after_in(alloc: Global, depth: u32, item: Expr, token: Token) -> Result<(u32, State), Stop>
    requires depth { depth ≤ 64 }
    ensures gives { (st : List Frame)
        → AgreesUnlessNoMemory (λ r. stand r.0 st r.1) result
        (step_of depth st (AfterIn item) token) }
    ensures depth { IfOk result (λ r. r.0 ≤ 64) }
{
    match token {
        Token::Name(name) => match Boxed::new(alloc, item) {
            Ok(item) => Ok((depth, State::Done(4, Expr::Within(item, name)))),
            Err(_) => Err(Stop::Memory),
        },
        other => {
            drop(item);
            Err(refusal(depth, &other))
        }
    }
}

fn refusal(depth: u32, token: &Token) -> Stop
    ensures { result ≡ refusal depth token.now }
{
    match token {
        Token::Open if depth >= DEPTH => Stop::Deep,
        _ => Stop::Refused,
    }
}

fn operand(stack: &mut Vec<Frame>, depth: u32, token: Token) -> Result<(u32, State), Stop>
    requires depth { depth ≤ 64 }
    requires small { IsSmall token }
    ensures gives { AgreesUnlessNoMemory (frames_state stack.new.items) result
        (operand depth (reverse stack.old.items) token) }
    ensures depth { IfOk result (λ r. r.0 ≤ 64) }
{
    match token {
        Token::Name(name) => Ok((depth, State::Done(9, Expr::Name(name)))),
        Token::Number(size) => Ok((depth, State::Done(9, Expr::Number(size as i64)))),
        Token::Quoted(text) => Ok((depth, State::Done(9, Expr::Str(text)))),
        Token::Truth(truth) => Ok((depth, State::Done(9, Expr::Truth(truth)))),
        Token::Operator(Op::Sub) => Ok((depth, State::AfterMinus)),
        Token::Exist => Ok((depth, State::AfterExist)),
        Token::Not => deny(stack, depth),
        Token::Open => open(stack, depth),
        _ => Err(Stop::Refused),
    }
}

/// Takes a `not` where an operand may stand.
fn deny(stack: &mut Vec<Frame>, depth: u32) -> Result<(u32, State), Stop>
    requires depth { depth ≤ 64 }
    ensures gives { AgreesUnlessNoMemory (frames_state stack.new.items) result
        (operand depth (reverse stack.old.items) Not) }
    ensures depth { IfOk result (λ r. r.0 ≤ 64) }
{
    if !takes_not(stack.as_slice()) {
        return Err(Stop::Refused);
    }
    stack.push(Frame::Not)?;
    Ok((depth, State::Operand))
}

/// Takes a `(` where an operand may stand.
fn open(stack: &mut Vec<Frame>, depth: u32) -> Result<(u32, State), Stop>
    requires depth { depth ≤ 64 }
    ensures gives { AgreesUnlessNoMemory (frames_state stack.new.items) result
        (operand depth (reverse stack.old.items) Open) }
    ensures depth { IfOk result (λ r. r.0 ≤ 64) }
{
    if depth == DEPTH {
        return Err(Stop::Deep);
    }
    stack.push(Frame::Open)?;
    Ok((depth + 1, State::Operand))
}

fn takes_not(stack: &[Frame]) -> bool
    ensures { result ≡ takes_not (reverse stack.now) }
{
    !matches!(stack.last(), Some(Frame::Not))
}

/// Takes a token behind an operand.
fn suffix(
    alloc: Global,
    stack: &mut Vec<Frame>,
    depth: u32,
    reached: u8,
    e: Expr,
    token: Token,
) -> Result<(u32, State), Stop>
    requires { depth ≤ 64 }
    ensures gives { AgreesUnlessNoMemory (frames_state stack.new.items) result
        (suffix depth (reverse stack.old.items) reached e token) }
    ensures depth { IfOk result (λ r. r.0 ≤ 64) }
{
    match token {
        Token::Operator(op) => join(alloc, stack, depth, reached, e, op),
        Token::Within => look_in(alloc, stack, depth, reached, e),
        Token::Close => close(alloc, stack, depth, reached, e),
        other => {
            drop(e);
            Err(refusal(depth, &other))
        }
    }
}

/// Takes an operator behind an operand.
fn join(
    alloc: Global,
    stack: &mut Vec<Frame>,
    depth: u32,
    reached: u8,
    e: Expr,
    op: Op,
) -> Result<(u32, State), Stop>
    requires { depth ≤ 64 }
    ensures gives { AgreesUnlessNoMemory (frames_state stack.new.items) result
        (suffix depth (reverse stack.old.items) reached e (Operator op)) }
    ensures depth { IfOk result (λ r. r.0 ≤ 64) }
{
    let (reached, found) = reduce(alloc, stack, reached, e, level(op))?;
    if reached < left(op) {
        drop(found);
        return Err(Stop::Refused);
    }
    stack.push(Frame::Binary(op, found))?;
    Ok((depth, State::Operand))
}

/// Takes the word `in` behind an operand.
fn look_in(
    alloc: Global,
    stack: &mut Vec<Frame>,
    depth: u32,
    reached: u8,
    e: Expr,
) -> Result<(u32, State), Stop>
    requires { depth ≤ 64 }
    ensures gives { AgreesUnlessNoMemory (frames_state stack.new.items) result
        (suffix depth (reverse stack.old.items) reached e Within) }
    ensures depth { IfOk result (λ r. r.0 ≤ 64) }
{
    let (reached, found) = reduce(alloc, stack, reached, e, 4)?;
    if reached < 5 {
        drop(found);
        return Err(Stop::Refused);
    }
    Ok((depth, State::AfterIn(found)))
}

/// Takes a `)` behind an operand.
fn close(
    alloc: Global,
    stack: &mut Vec<Frame>,
    depth: u32,
    reached: u8,
    e: Expr,
) -> Result<(u32, State), Stop>
    requires { depth ≤ 64 }
    ensures gives { AgreesUnlessNoMemory (frames_state stack.new.items) result
        (suffix depth (reverse stack.old.items) reached e Close) }
    ensures depth { IfOk result (λ r. r.0 ≤ 64) }
{
    let (_, found) = reduce(alloc, stack, reached, e, 0)?;
    if !matches!(stack.last(), Some(Frame::Open)) {
        drop(found);
        return Err(Stop::Refused);
    }
    stack.pop();
    Ok((depth.saturating_sub(1), State::Done(9, found)))
}

/// What was read, where the text ends.
///
/// # Errors
///
/// `Refused` where no expression ends here, or `Memory` when out of memory.
pub fn end(alloc: Global, stack: Vec<Frame>, state: State) -> Result<Expr, Stop>
    ensures { AgreesUnlessNoMemory (λ e. e) result (end_of (reverse stack.items) state) }
{
    match state {
        State::Done(reached, found) => whole(alloc, stack, reached, found),
        other => {
            drop(other);
            Err(Stop::Refused)
        }
    }
}

fn whole(alloc: Global, stack: Vec<Frame>, reached: u8, e: Expr) -> Result<Expr, Stop>
    ensures { AgreesUnlessNoMemory (λ e. e) result
        (whole (reduction 0 (reverse stack.items) reached e)) }
{
    let mut stack = stack;
    let (_, found) = reduce(alloc, &mut stack, reached, e, 0)?;
    if !stack.is_empty() {
        drop(found);
        return Err(Stop::Refused);
    }
    Ok(found)
}
