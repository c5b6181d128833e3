//! A whole file.

ghost use Rattle.std.specs.Prelude.{◌≡◌, ◌<◌, ◌^◌, length, IfOk};
ghost use Rattle.td_lines.specs.Scripts.{script_of_draft, script, script_of, seed_or_zeros};

use crate::cause::LineCause;
use crate::draft::ScriptDraft;
use crate::entry::{Refused, Script};
use crate::lines::next_line;
use crate::parts::ParseStop;
use std::alloc::Global;
use td_cdr::{Memory, Octets};

/// The seed that was told, or 32 zeros.
fn seed_or_zeros(alloc: Global, seed: Option<Octets>) -> Result<Octets, Memory>
    ensures { IfOk result (λ s. s ≡ seed_or_zeros seed) }
{
    match seed {
        Some(seed) => Ok(seed),
        None => Octets::from_slice(alloc, &[0; 32]),
    }
}

impl ScriptDraft {
    /// What the lines say, of which the first of this entry is refused.
    fn into_script(mut self, alloc: Global, refused: Option<Refused>) -> Result<Script, Memory>
        ensures { IfOk result (λ s. s ≡ script self refused) }
    {
        self.finish(alloc)?;
        let seed = seed_or_zeros(alloc, self.seed)?;
        Ok(Script {
            home: self.home,
            seed,
            traders: self.finished,
            refused,
        })
    }

    /// What all lines say. An address must be among them.
    fn end(mut self, alloc: Global) -> Result<Script, Memory>
        ensures { IfOk result (λ s. s ≡ script_of_draft self) }
    {
        self.close(alloc)?;
        if self.home.is_some() {
            self.into_script(alloc, None)
        } else {
            self.into_script(
                alloc,
                Some(Refused {
                    line: 1,
                    cause: LineCause::Place,
                }),
            )
        }
    }
}

/// What the lines of a server's file say.
///
/// # Errors
///
/// `Memory` only when out of memory.
#[tactic(auto, unfolding(crate::specs::Scripts::script_of))]
pub fn read_script(alloc: Global, text: &[u8]) -> Result<Script, Memory>
    requires { length text.now < 2 ^ 32 }
    ensures { IfOk result (λ s. s ≡ script_of text.now) }
{
    let mut draft = ScriptDraft::new(alloc);
    let mut rest = text;
    let mut number: u32 = 0;
    while !rest.is_empty() {
        let (line, after) = next_line(rest);
        number += 1;
        match draft.take(alloc, number, line) {
            Ok(()) => {}
            Err(ParseStop::At(refused)) => return draft.into_script(alloc, Some(refused)),
            Err(ParseStop::Memory) => return Err(Memory),
        }
        rest = after;
    }
    draft.end(alloc)
}
