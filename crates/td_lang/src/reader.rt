//! Reading a text: token after token, from its front.

ghost use Rattle.std.specs.Prelude.{◌≡◌, [], ◌+◌, ◌<◌, ◌≤◌, take, drop, reverse, length, ℕ, Ok, Err, IfOk};
ghost use Rattle.td_lang.specs.Lexing.{GivesFault, is_blank};
ghost use Rattle.td_lang.specs.Machine.{IsSmall, frames_state, step_of, AgreesUnlessNoMemory};
ghost use Rattle.td_lang.specs.Reading.{start};
ghost use Rattle.td_lang.specs.Tape.{read_at, at_place, ParsesOn};

use crate::expr::Expr;
use crate::fault::LangFault;
use crate::lexer::{is_blank, token_at};
use crate::machine::{Frame, State, Stop, end, step};
use crate::token::Token;
use std::alloc::Global;

/// Where a refusal stands.
fn fault_at(place: u32, stop: Stop) -> LangFault
    ensures { at_place {A = ℕ} place (Err stop) ≡ Err result }
{
    match stop {
        Stop::Memory => LangFault::Memory,
        Stop::Refused => LangFault::Syntax(place),
        Stop::Deep => LangFault::Depth(place),
    }
}

/// Takes a token that stands at a place.
fn step_at(
    alloc: Global,
    stack: &mut Vec<Frame>,
    depth: u32,
    state: State,
    place: u32,
    token: Token,
) -> Result<(u32, State), LangFault>
    requires depth { depth ≤ 64 }
    requires small { IsSmall token }
    ensures gives { GivesFault (frames_state stack.new.items) result
        (at_place place (step_of depth (reverse stack.old.items) state token)) }
    ensures depth { IfOk result (λ r. r.0 ≤ 64) }
{
    match step(alloc, stack, depth, state, token) {
        Ok(next) => Ok(next),
        Err(stop) => Err(fault_at(place, stop)),
    }
}

/// One turn: the token at a place, and where the text goes on.
fn turn(
    alloc: Global,
    stack: &mut Vec<Frame>,
    depth: u32,
    state: State,
    text: &[u8],
    place: u32,
) -> Result<(u32, State, u32), LangFault>
    requires depth { depth ≤ 64 }
    requires place { place < length text.now }
    requires short { length text.now ≤ 4096 }
    ensures turns { ParsesOn (λ r. read_at text.now r.2 (frames_state stack.new.items (r.0, r.1)))
        result
        (read_at text.now place (frames_state stack.old.items (depth, state))) }
    ensures depth { IfOk result (λ r. r.0 ≤ 64) }
    ensures place { IfOk result (λ r. (place < r.2) × (r.2 ≤ length text.now)) }
{
    if is_blank(text[place as usize]) {
        return Ok((depth, state, place + 1));
    }
    let (_, rest) = text.split_at(place as usize);
    match token_at(alloc, place, rest) {
        Ok((token, size)) => match step_at(alloc, stack, depth, state, place, token) {
            Ok((depth, state)) => Ok((depth, state, place + size as u32)),
            Err(fault) => Err(fault),
        },
        Err(fault) => {
            drop(state);
            Err(fault)
        }
    }
}

/// The expression that stands in a text from a place on, up to its end.
///
/// # Errors
///
/// The fault of the first token that can't be read or can't stand where it does, with its place; or running out of
/// memory.
pub fn read_from(alloc: Global, text: &[u8], from: u32) -> Result<Expr, LangFault>
    requires short { length text.now ≤ 4096 }
    requires place { from ≤ length text.now }
    ensures { GivesFault (λ e. e) result (read_at text.now from start) }
{
    let mut stack = Vec::new(alloc);
    let mut depth = 0;
    let mut state = State::Operand;
    let mut place = from;
    'turns: while (place as usize) < text.len() {
        (depth, state, place) = turn(alloc, &mut stack, depth, state, text, place)?;
    }
    match end(alloc, stack, state) {
        Ok(found) => Ok(found),
        Err(stop) => Err(fault_at(place, stop)),
    }
}
