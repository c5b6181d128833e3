//! A line, whatever it says.

ghost use Rattle.std.specs.Prelude.{◌≡◌};
ghost use Rattle.td_lines.specs.Drafts.{UpdatesDraft, line_above};
ghost use Rattle.td_lines.specs.Steps.{Steps, at, with_alone, with_begin, with_belonging, with_head, with_line};
ghost use Rattle.td_lines.specs.Steps.{with_part, with_unknown};

use crate::cause::{LineCause, Misfit};
use crate::draft::ScriptDraft;
use crate::entry::Refused;
use crate::keyword::{DetailKeyword, EntryHead, Keyword, begin_of};
use crate::lines::is_skipped;
use std::alloc::Global;
use td_cdr::Memory;

/// Why no more lines are taken.
#[derive(Clone, Copy, Debug, PartialEq, Eq)]
pub(crate) enum ParseStop {
    /// An entry is refused.
    At(Refused),
    /// Out of memory.
    Memory,
}

impl From<Memory> for ParseStop {
    ghost use Rattle.td_lines.specs.declared.parts.ParseStop.TheVariants.{Memory as MemoryFault};

    ghost from_gives = { λ _ e. e ≡ MemoryFault };

    fn from(_e: Memory) -> ParseStop {
        ParseStop::Memory
    }
}

/// What a line comes to that belongs to the entry whose first line has this number.
fn at(line: u32, content: Result<(), Misfit>) -> Result<(), ParseStop>
    ensures { result ≡ at line content }
{
    match content {
        Ok(()) => Ok(()),
        Err(Misfit::Is(cause)) => Err(ParseStop::At(Refused { line, cause })),
        Err(Misfit::Memory) => Err(ParseStop::Memory),
    }
}

impl ScriptDraft {
    /// A line that begins an entry.
    fn take_head(
        &mut self,
        alloc: Global,
        number: u32,
        head: EntryHead,
        line: &[u8],
    ) -> Result<(), Misfit>
        ensures { UpdatesDraft (with_head self.old number head line.now) self.old self.new result }
    {
        match head {
            EntryHead::Address => self.take_address(alloc, line),
            EntryHead::Seed => self.take_seed(alloc, line),
            EntryHead::Iiop => self.take_iiop(line),
            EntryHead::Trader => self.take_trader(alloc, line),
            EntryHead::Stem => self.take_stem(alloc, number, line),
            EntryHead::Set => self.take_set(number, line),
            EntryHead::Interface => self.take_interface(alloc, line),
            EntryHead::Type => self.take_type(alloc, number, line),
            EntryHead::Offer => self.take_offer(alloc, number, line),
            EntryHead::Proxy => self.take_proxy(alloc, number, line),
            EntryHead::Link => self.take_link(alloc, number, line),
        }
    }

    /// A line that belongs to the entry above.
    fn take_part(&mut self, alloc: Global, part: DetailKeyword, line: &[u8]) -> Result<(), Misfit>
        ensures { UpdatesDraft (with_part self.old part line.now) self.old self.new result }
    {
        match part {
            DetailKeyword::Prop => self.take_prop(alloc, line),
            DetailKeyword::With => self.take_value(alloc, line),
            DetailKeyword::Dynamic => self.take_dynamic(alloc, line),
        }
    }

    /// A line that begins an entry, or that stands where none belongs to one.
    fn begin_head(
        &mut self,
        alloc: Global,
        number: u32,
        head: EntryHead,
        line: &[u8],
    ) -> Result<(), ParseStop>
        ensures { Steps (with_begin self.old number head line.now) self.new result }
    {
        self.close(alloc)?;
        let content = self.take_head(alloc, number, head, line);
        at(number, content)
    }

    /// A line that belongs to the entry above, if such a one is there.
    fn take_belonging(
        &mut self,
        alloc: Global,
        number: u32,
        part: DetailKeyword,
        line: &[u8],
    ) -> Result<(), ParseStop>
        ensures { Steps (with_belonging self.old number part line.now
            (line_above self.old.above part)) self.new result }
    {
        match self.line_above(part) {
            Some(first) => {
                let content = self.take_part(alloc, part, line);
                at(first, content)
            }
            None => self.take_alone(alloc, number, part, line),
        }
    }

    /// A line that belongs to no entry.
    fn take_alone(
        &mut self,
        alloc: Global,
        number: u32,
        part: DetailKeyword,
        line: &[u8],
    ) -> Result<(), ParseStop>
        ensures { Steps (with_alone self.old number part line.now) self.new result }
    {
        self.close(alloc)?;
        let content = self.take_part(alloc, part, line);
        at(number, content)
    }

    /// A line whose first word is none of those known.
    fn take_unknown(&mut self, alloc: Global, number: u32) -> Result<(), ParseStop>
        ensures { Steps (with_unknown self.old number) self.new result }
    {
        self.close(alloc)?;
        Err(ParseStop::At(Refused {
            line: number,
            cause: LineCause::Words,
        }))
    }

    /// Adds what a line says.
    ///
    /// # Errors
    ///
    /// `At` exactly where an entry is refused, with its first line; `Memory` when out of memory.
    #[tactic(auto, unfolding(crate::specs::Steps::with_line))]
    pub(crate) fn take(&mut self, alloc: Global, number: u32, line: &[u8]) -> Result<(), ParseStop>
        ensures { Steps (with_line self.old number line.now) self.new result }
    {
        if is_skipped(line) {
            return Ok(());
        }
        match begin_of(line) {
            Some((Keyword::Begins(head), rest)) => self.begin_head(alloc, number, head, rest),
            Some((Keyword::Belongs(part), rest)) => self.take_belonging(alloc, number, part, rest),
            None => self.take_unknown(alloc, number),
        }
    }
}
