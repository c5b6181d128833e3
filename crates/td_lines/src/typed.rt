//! Lines of types: `type`, and the `prop` lines that belong to it.

ghost use Rattle.std.specs.Prelude.{◌≡◌, IfOk};
ghost use Rattle.td_lines.specs.Drafts.{UpdatesDraft};
ghost use Rattle.td_lines.specs.Typed.{if_name_of, new_type, with_added_prop, with_new_type, with_prop, with_type};

use crate::cause::{LineCause, Misfit};
use crate::draft::{Open, OpenType, ScriptDraft};
use crate::properties::parse_prop;
use crate::words::{cut_word, three_words, words_of};
use std::alloc::Global;
use td_cdr::{List, Memory, Text, has_nul};
use td_value::PropStruct;

/// What a word says for an interface: `-` stands for the empty text.
fn if_name_of(word: &[u8]) -> &[u8]
    ensures { result.now ≡ if_name_of word.now }
{
    if word == b"-".as_slice() { &[] } else { word }
}

/// A type without properties yet.
fn new_type(
    alloc: Global,
    number: u32,
    name: &[u8],
    if_word: &[u8],
    supers: &[u8],
) -> Result<OpenType, Memory>
    ensures { IfOk result (λ t. t ≡ new_type number name.now if_word.now supers.now) }
{
    let name = Text::from_slice(alloc, name)?;
    let if_name = Text::from_slice(alloc, if_name_of(if_word))?;
    let supers = words_of(alloc, supers)?;
    Ok(OpenType {
        line: number,
        name,
        if_name,
        supers,
        props: List::new(alloc),
    })
}

impl ScriptDraft {
    /// `type NAME IFID SUPER ..`
    #[tactic(auto, unfolding(crate::specs::Typed::with_type))]
    pub(crate) fn take_type(
        &mut self,
        alloc: Global,
        number: u32,
        line: &[u8],
    ) -> Result<(), Misfit>
        ensures { UpdatesDraft (with_type self.old number line.now) self.old self.new result }
    {
        let Some((name, rest)) = cut_word(line) else {
            return Err(Misfit::Is(LineCause::Words));
        };
        let Some((if_word, supers)) = cut_word(rest) else {
            return Err(Misfit::Is(LineCause::Words));
        };
        if !self.has_trader() {
            return Err(Misfit::Is(LineCause::Place));
        }
        if has_nul(if_word) {
            return Err(Misfit::Is(LineCause::Name));
        }
        let one = new_type(alloc, number, name, if_word, supers)?;
        self.begin_type(one);
        Ok(())
    }

    fn begin_type(&mut self, one: OpenType)
        ensures { self.new ≡ with_new_type self.old one }
    {
        self.typed = true;
        self.above = Open::Type(one);
    }

    /// `prop MODE VALUETYPE NAME`
    #[tactic(auto, unfolding(crate::specs::Typed::with_prop))]
    pub(crate) fn take_prop(&mut self, alloc: Global, line: &[u8]) -> Result<(), Misfit>
        ensures { UpdatesDraft (with_prop self.old line.now) self.old self.new result }
    {
        let Some((mode, value_type, name)) = three_words(line) else {
            return Err(Misfit::Is(LineCause::Words));
        };
        if self.type_line().is_none() {
            return Err(Misfit::Is(LineCause::Place));
        }
        let prop = parse_prop(alloc, mode, value_type, name)?;
        self.add_prop(prop)
    }

    /// Adds a property to the type above.
    fn add_prop(&mut self, prop: PropStruct) -> Result<(), Misfit>
        ensures { UpdatesDraft (with_added_prop self.old self.old.above prop) self.old self.new
            result }
    {
        match &mut self.above {
            Open::Type(one) => {
                one.props.push(prop)?;
                Ok(())
            }
            Open::Nothing => Err(Misfit::Is(LineCause::Place)),
            Open::Offer(_) => Err(Misfit::Is(LineCause::Place)),
        }
    }
}
