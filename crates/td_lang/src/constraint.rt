//! Reading constraints.

ghost use Rattle.std.specs.Prelude.{◌≡◌, ◌≤◌, length};
ghost use Rattle.td_lang.specs.Constraints.{Says, constraint_of, UnlessMemory};
ghost use Rattle.td_lang.specs.Lexing.{GivesFault, is_blank, lead};

use crate::expr::Constraint;
use crate::fault::LangFault;
use crate::lexer::blank_length;
use crate::reader::read_from;
use std::alloc::Global;

/// The most bytes of a text.
pub const LONGEST: usize = 4096;

/// The constraint of a text: `Empty` where it has nothing but blanks.
///
/// Trading Object Service, appendix "OMG Constraint Language BNF".
///
/// Reading doesn't recurse. Dropping and copying a tree go as deep as the tree is high: a text of 4,096
/// bytes has at most 2,048 operands, and so gives at most some 2,100 levels of a few hundred bytes
/// each, far less than a thread's stack.
///
/// # Errors
///
/// `TooLong` above 4,096 bytes. Otherwise the first fault in reading order: `Float` at a number with a
/// fraction or an exponent, `Depth` at the 65th open parenthesis, `Syntax` at the first token that no
/// constraint has there, or at the length where the text ends early. `Memory` only when out of memory.
#[tactic(auto, using(crate::proofs::Uniqueness::said))]
pub fn read_constraint(alloc: Global, text: &[u8]) -> Result<Constraint, LangFault>
    ensures says { UnlessMemory (Says text.now) result }
    ensures gives { GivesFault (λ c. c) result (constraint_of text.now) }
{
    find_constraint(alloc, text)
}

#[tactic(auto, using(crate::proofs::FirstToken::blank_tape, crate::proofs::FirstToken::asked_behind))]
fn find_constraint(alloc: Global, text: &[u8]) -> Result<Constraint, LangFault>
    ensures { GivesFault (λ c. c) result (constraint_of text.now) }
{
    if text.len() > LONGEST {
        return Err(LangFault::TooLong);
    }
    let from = blank_length(text);
    if from == text.len() {
        return Ok(Constraint::Empty);
    }
    Ok(Constraint::Is(read_from(alloc, text, from as u32)?))
}
