//! Lines that begin an entry of one line.

ghost use Rattle.std.specs.Prelude.{◌≡◌, OnOk};
ghost use Rattle.td_lines.specs.Drafts.{UpdatesDraft};
ghost use Rattle.td_lines.specs.Heads.{finish_trader, is_declared, opened_trader, with_address, with_interface};
ghost use Rattle.td_lines.specs.Heads.{with_declared, with_iiop, with_seed, with_set, with_stem, with_trader, with_version};

use crate::cause::{LineCause, Misfit};
use crate::draft::ScriptDraft;
use crate::entry::{FileEntry, TraderScript};
use crate::hexadecimal::{parse_octets, parse_seed};
use crate::home::{have_nul, parse_home};
use crate::setting::parse_setting;
use crate::words::{cut_word, one_word, two_words, words_of};
use std::alloc::Global;
use std::mem;
use td_cdr::{List, Memory, Text, has_nul, is_trader_name};
use td_ior::number_up_to;
use td_ops::{Change, is_among};

impl ScriptDraft {
    /// `address HOST PORT`
    #[tactic(auto, unfolding(crate::specs::Heads::with_address))]
    pub(crate) fn take_address(&mut self, alloc: Global, line: &[u8]) -> Result<(), Misfit>
        ensures { UpdatesDraft (with_address self.old line.now) self.old self.new result }
    {
        let Some((host, port)) = two_words(line) else {
            return Err(Misfit::Is(LineCause::Words));
        };
        if self.home.is_some() {
            return Err(Misfit::Is(LineCause::Twice));
        }
        let home = parse_home(alloc, host, port)?;
        self.home = Some(home);
        Ok(())
    }

    /// `seed HEX`
    #[tactic(auto, unfolding(crate::specs::Heads::with_seed))]
    pub(crate) fn take_seed(&mut self, alloc: Global, line: &[u8]) -> Result<(), Misfit>
        ensures { UpdatesDraft (with_seed self.old line.now) self.old self.new result }
    {
        let Some(digits) = one_word(line) else {
            return Err(Misfit::Is(LineCause::Words));
        };
        if self.home.is_none() || self.has_trader() || self.iiop {
            return Err(Misfit::Is(LineCause::Place));
        }
        if self.seed.is_some() {
            return Err(Misfit::Is(LineCause::Twice));
        }
        let seed = parse_seed(alloc, digits)?;
        self.seed = Some(seed);
        Ok(())
    }

    /// `iiop MINOR`
    #[tactic(auto, unfolding(crate::specs::Heads::with_iiop))]
    pub(crate) fn take_iiop(&mut self, line: &[u8]) -> Result<(), Misfit>
        ensures { UpdatesDraft (with_iiop self.old line.now) self.old self.new result }
    {
        let Some(word) = one_word(line) else {
            return Err(Misfit::Is(LineCause::Words));
        };
        if self.home.is_none() || self.has_trader() {
            return Err(Misfit::Is(LineCause::Place));
        }
        if self.iiop {
            return Err(Misfit::Is(LineCause::Twice));
        }
        let Some(minor) = number_up_to(word, 1) else {
            return Err(Misfit::Is(LineCause::Number));
        };
        self.set_version(minor as u8);
        Ok(())
    }

    /// The server's references have this minor version.
    fn set_version(&mut self, minor: u8)
        ensures { self.new ≡ with_version self.old minor }
    {
        if let Some(home) = &mut self.home {
            home.set_minor(minor);
        }
        self.iiop = true;
    }

    /// `trader NAME`
    #[tactic(auto, unfolding(crate::specs::Heads::with_trader))]
    pub(crate) fn take_trader(&mut self, alloc: Global, line: &[u8]) -> Result<(), Misfit>
        ensures { UpdatesDraft (with_trader self.old line.now) self.old self.new result }
    {
        let Some(name) = one_word(line) else {
            return Err(Misfit::Is(LineCause::Words));
        };
        if self.home.is_none() || self.names.len() >= 64 {
            return Err(Misfit::Is(LineCause::Place));
        }
        if !is_trader_name(name) {
            return Err(Misfit::Is(LineCause::Name));
        }
        if is_among(name, self.names.as_slice()) {
            return Err(Misfit::Is(LineCause::Twice));
        }
        self.finish(alloc)?;
        self.open_trader(alloc, name)?;
        Ok(())
    }

    /// Puts the last trader, if there is one, behind those that are finished.
    pub(crate) fn finish(&mut self, alloc: Global) -> Result<(), Memory>
        ensures { OnOk result (self.new ≡ finish_trader self.old) }
    {
        if !self.has_trader() {
            return Ok(());
        }
        let name = mem::replace(&mut self.name, Text::new(alloc));
        let interfaces = mem::replace(&mut self.interfaces, List::new(alloc));
        let entries = mem::replace(&mut self.entries, List::new(alloc));
        self.finished.push(TraderScript {
            name,
            interfaces,
            entries,
        })
    }

    /// Opens a trader of this name.
    fn open_trader(&mut self, alloc: Global, name: &[u8]) -> Result<(), Memory>
        ensures { OnOk result (self.new ≡ opened_trader self.old name.now) }
    {
        self.names.push(Text::from_slice(alloc, name)?)?;
        self.name = Text::from_slice(alloc, name)?;
        self.typed = false;
        Ok(())
    }

    /// `stem HEX`
    #[tactic(auto, unfolding(crate::specs::Heads::with_stem))]
    pub(crate) fn take_stem(
        &mut self,
        alloc: Global,
        number: u32,
        line: &[u8],
    ) -> Result<(), Misfit>
        ensures { UpdatesDraft (with_stem self.old number line.now) self.old self.new result }
    {
        let Some(digits) = one_word(line) else {
            return Err(Misfit::Is(LineCause::Words));
        };
        if !self.has_trader() {
            return Err(Misfit::Is(LineCause::Place));
        }
        let value = parse_octets(alloc, digits)?;
        self.put(
            number,
            FileEntry::Change(Change::SetRequestIdStem { value }),
        )?;
        Ok(())
    }

    /// `set ATTRIBUTE VALUE`
    #[tactic(auto, unfolding(crate::specs::Heads::with_set))]
    pub(crate) fn take_set(&mut self, number: u32, line: &[u8]) -> Result<(), Misfit>
        ensures { UpdatesDraft (with_set self.old number line.now) self.old self.new result }
    {
        let Some((attribute, value)) = two_words(line) else {
            return Err(Misfit::Is(LineCause::Words));
        };
        if !self.has_trader() {
            return Err(Misfit::Is(LineCause::Place));
        }
        let change = parse_setting(attribute, value)?;
        self.put(number, FileEntry::Change(change))?;
        Ok(())
    }

    /// `interface ID BASE ..`
    #[tactic(auto, unfolding(crate::specs::Heads::with_interface))]
    pub(crate) fn take_interface(&mut self, alloc: Global, line: &[u8]) -> Result<(), Misfit>
        ensures { UpdatesDraft (with_interface self.old line.now) self.old self.new result }
    {
        let Some((id, bases)) = cut_word(line) else {
            return Err(Misfit::Is(LineCause::Words));
        };
        if !self.has_trader() || self.typed {
            return Err(Misfit::Is(LineCause::Place));
        }
        if has_nul(id) {
            return Err(Misfit::Is(LineCause::Name));
        }
        if is_declared(id, self.interfaces.as_slice()) {
            return Err(Misfit::Is(LineCause::Twice));
        }
        let bases = words_of(alloc, bases)?;
        if have_nul(bases.as_slice()) {
            return Err(Misfit::Is(LineCause::Name));
        }
        self.declare(alloc, id, bases)?;
        Ok(())
    }

    /// Declares an interface with these bases.
    fn declare(&mut self, alloc: Global, id: &[u8], bases: List<Text>) -> Result<(), Memory>
        ensures { OnOk result (self.new ≡ with_declared self.old id.now bases) }
    {
        let id = Text::from_slice(alloc, id)?;
        self.interfaces.push((id, bases))
    }
}

/// Whether an interface is declared.
fn is_declared(id: &[u8], interfaces: &[(Text, List<Text>)]) -> bool
    ensures { result ≡ is_declared id.now interfaces.now }
{
    interfaces.iter().any(|one| id == one.0.as_slice())
}
