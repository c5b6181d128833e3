//! Lines of links.

ghost use Rattle.std.specs.Prelude.{◌≡◌, IfOk};
ghost use Rattle.std.specs.Option.{option_map};
ghost use Rattle.td_lines.specs.Causes.{ParsesLine};
ghost use Rattle.td_lines.specs.Drafts.{UpdatesDraft};
ghost use Rattle.td_lines.specs.Linked.{parse_ends, inside_link, outside_link, parse_rules, with_link, with_outside};

use crate::cause::{LineCause, Misfit};
use crate::draft::ScriptDraft;
use crate::entry::FileEntry;
use crate::references::{parse_reference, parse_register};
use crate::words::{five_words, four_words};
use std::alloc::Global;
use td_cdr::{Boxed, Memory, Text};
use td_forms::rule_named;
use td_ops::Change;
use td_value::{FollowOption, Ior};

/// The two rules of a link.
fn parse_rules(def_pass_on: &[u8], limiting: &[u8]) -> Result<(FollowOption, FollowOption), Misfit>
    ensures { ParsesLine (parse_rules def_pass_on.now limiting.now) result }
{
    let Some(def_pass_on) = rule_named(def_pass_on) else {
        return Err(Misfit::Is(LineCause::Name));
    };
    let Some(limiting) = rule_named(limiting) else {
        return Err(Misfit::Is(LineCause::Name));
    };
    Ok((def_pass_on, limiting))
}

/// The target of an outside link, and its Register.
fn parse_ends(
    alloc: Global,
    target: &[u8],
    register: &[u8],
) -> Result<(Boxed<Ior>, Option<Ior>), Misfit>
    ensures { ParsesLine (parse_ends target.now register.now) result }
{
    let target = Boxed::new(alloc, parse_reference(alloc, target)?)?;
    match parse_register(alloc, register) {
        Ok(register) => Ok((target, register)),
        Err(misfit) => {
            drop(target);
            Err(misfit)
        }
    }
}

/// A link to a trader of the file.
fn inside_link(
    alloc: Global,
    name: &[u8],
    trader: &[u8],
    def_pass_on: FollowOption,
    limiting: FollowOption,
) -> Result<FileEntry, Memory>
    ensures { IfOk result (λ e. e ≡ inside_link name.now trader.now def_pass_on limiting) }
{
    let name = Text::from_slice(alloc, name)?;
    let trader = Text::from_slice(alloc, trader)?;
    Ok(FileEntry::Link {
        name,
        trader,
        def_pass_on,
        limiting,
    })
}

/// A link to an outside trader.
fn outside_link(
    alloc: Global,
    name: &[u8],
    target: Boxed<Ior>,
    register: Option<Ior>,
    def_pass_on: FollowOption,
    limiting: FollowOption,
) -> Result<FileEntry, Memory>
    ensures { IfOk result (λ e. e ≡ outside_link name.now target register def_pass_on limiting) }
{
    match Text::from_slice(alloc, name) {
        Ok(name) => Ok(FileEntry::Change(Change::AddLink {
            name,
            target,
            def_pass_on,
            limiting,
            register,
        })),
        Err(memory) => {
            drop(target);
            drop(register);
            Err(memory)
        }
    }
}

impl ScriptDraft {
    /// `link NAME TRADER DEF LIMIT`, or `link NAME REF REGISTER DEF LIMIT`
    #[tactic(auto, unfolding(crate::specs::Linked::with_link))]
    pub(crate) fn take_link(
        &mut self,
        alloc: Global,
        number: u32,
        line: &[u8],
    ) -> Result<(), Misfit>
        ensures { UpdatesDraft (with_link self.old number line.now) self.old self.new result }
    {
        let Some((name, trader, def_pass_on, limiting)) = four_words(line) else {
            return self.take_outside(alloc, number, line);
        };
        if !self.has_trader() {
            return Err(Misfit::Is(LineCause::Place));
        }
        let (def_pass_on, limiting) = parse_rules(def_pass_on, limiting)?;
        let entry = inside_link(alloc, name, trader, def_pass_on, limiting)?;
        self.put(number, entry)?;
        Ok(())
    }

    /// `link NAME REF REGISTER DEF LIMIT`
    #[tactic(auto, unfolding(crate::specs::Linked::with_outside))]
    fn take_outside(&mut self, alloc: Global, number: u32, line: &[u8]) -> Result<(), Misfit>
        ensures { UpdatesDraft (with_outside self.old number line.now) self.old self.new result }
    {
        let Some((name, target, register, def_pass_on, limiting)) = five_words(line) else {
            return Err(Misfit::Is(LineCause::Words));
        };
        if !self.has_trader() {
            return Err(Misfit::Is(LineCause::Place));
        }
        let (target, register) = parse_ends(alloc, target, register)?;
        let (def_pass_on, limiting) = parse_rules(def_pass_on, limiting)?;
        let entry = outside_link(alloc, name, target, register, def_pass_on, limiting)?;
        self.put(number, entry)?;
        Ok(())
    }
}
