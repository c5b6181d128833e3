//! Lines of offers: `offer` and `proxy`, and the lines of their properties.

ghost use Rattle.std.specs.Prelude.{◌≡◌, ◌&&◌, IfOk};
ghost use Rattle.std.specs.Option.{option_map};
ghost use Rattle.td_lines.specs.Causes.{ParsesLine};
ghost use Rattle.td_lines.specs.Drafts.{UpdatesDraft};
ghost use Rattle.td_lines.specs.Offered.{how_named, new_offer, parse_proxy, with_added_property, with_dynamic};
ghost use Rattle.td_lines.specs.Offered.{with_new_offer, with_offer, with_proxy, with_value};

use crate::cause::{LineCause, Misfit};
use crate::draft::{Open, OpenOffer, ProxyWords, ScriptDraft};
use crate::dynamic::parse_dynamic;
use crate::properties::parse_property;
use crate::references::parse_reference;
use crate::words::{three_and_text, three_words, two_and_text, two_words};
use std::alloc::Global;
use td_cdr::{List, Memory, Text, has_nul};
use td_value::{Ior, Property};

/// Whether a proxy matches all, by the word for it.
fn how_named(word: &[u8]) -> Option<bool>
    ensures { result ≡ how_named word.now }
{
    if word == b"all".as_slice() {
        Some(true)
    } else if word == b"match".as_slice() {
        Some(false)
    } else {
        None
    }
}

/// What makes an offer a proxy offer.
fn parse_proxy(alloc: Global, how: &[u8], recipe: &[u8]) -> Result<ProxyWords, Misfit>
    ensures { ParsesLine (parse_proxy how.now recipe.now) result }
{
    let Some(if_match_all) = how_named(how) else {
        return Err(Misfit::Is(LineCause::Name));
    };
    if has_nul(recipe) {
        return Err(Misfit::Is(LineCause::Name));
    }
    let recipe = Text::from_slice(alloc, recipe)?;
    Ok(ProxyWords {
        if_match_all,
        recipe,
    })
}

/// An offer without properties yet.
fn new_offer(
    alloc: Global,
    number: u32,
    service_type: &[u8],
    reference: Ior,
    proxy: Option<ProxyWords>,
) -> Result<OpenOffer, Memory>
    ensures { IfOk result (λ o. o ≡ new_offer number service_type.now reference proxy) }
{
    match Text::from_slice(alloc, service_type) {
        Ok(service_type) => Ok(OpenOffer {
            line: number,
            service_type,
            reference,
            proxy,
            properties: List::new(alloc),
        }),
        Err(memory) => {
            drop(reference);
            drop(proxy);
            Err(memory)
        }
    }
}

impl ScriptDraft {
    /// `offer TYPE REF`
    #[tactic(auto, unfolding(crate::specs::Offered::with_offer))]
    pub(crate) fn take_offer(
        &mut self,
        alloc: Global,
        number: u32,
        line: &[u8],
    ) -> Result<(), Misfit>
        ensures { UpdatesDraft (with_offer self.old number line.now) self.old self.new result }
    {
        let Some((service_type, word)) = two_words(line) else {
            return Err(Misfit::Is(LineCause::Words));
        };
        if !self.has_trader() {
            return Err(Misfit::Is(LineCause::Place));
        }
        let reference = parse_reference(alloc, word)?;
        let one = new_offer(alloc, number, service_type, reference, None)?;
        self.begin_offer(one);
        Ok(())
    }

    /// `proxy TYPE REF HOW RECIPE`
    #[tactic(auto, unfolding(crate::specs::Offered::with_proxy))]
    pub(crate) fn take_proxy(
        &mut self,
        alloc: Global,
        number: u32,
        line: &[u8],
    ) -> Result<(), Misfit>
        ensures { UpdatesDraft (with_proxy self.old number line.now) self.old self.new result }
    {
        let Some((service_type, word, how, recipe)) = three_and_text(line) else {
            return Err(Misfit::Is(LineCause::Words));
        };
        if !self.has_trader() {
            return Err(Misfit::Is(LineCause::Place));
        }
        let reference = parse_reference(alloc, word)?;
        let proxy = parse_proxy(alloc, how, recipe)?;
        let one = new_offer(alloc, number, service_type, reference, Some(proxy))?;
        self.begin_offer(one);
        Ok(())
    }

    fn begin_offer(&mut self, one: OpenOffer)
        ensures { self.new ≡ with_new_offer self.old one }
    {
        self.above = Open::Offer(one);
    }

    /// `with VALUETYPE NAME VALUE`
    #[tactic(auto, unfolding(crate::specs::Offered::with_value))]
    pub(crate) fn take_value(&mut self, alloc: Global, line: &[u8]) -> Result<(), Misfit>
        ensures { UpdatesDraft (with_value self.old line.now) self.old self.new result }
    {
        let Some((value_type, name, text)) = two_and_text(line) else {
            return Err(Misfit::Is(LineCause::Words));
        };
        if self.offer_line().is_none() {
            return Err(Misfit::Is(LineCause::Place));
        }
        let property = parse_property(alloc, value_type, name, text)?;
        self.add_property(property)
    }

    /// `dynamic VALUETYPE NAME REF`
    #[tactic(auto, unfolding(crate::specs::Offered::with_dynamic))]
    pub(crate) fn take_dynamic(&mut self, alloc: Global, line: &[u8]) -> Result<(), Misfit>
        ensures { UpdatesDraft (with_dynamic self.old line.now) self.old self.new result }
    {
        let Some((value_type, name, word)) = three_words(line) else {
            return Err(Misfit::Is(LineCause::Words));
        };
        if self.offer_line().is_none() {
            return Err(Misfit::Is(LineCause::Place));
        }
        let property = parse_dynamic(alloc, value_type, name, word)?;
        self.add_property(property)
    }

    /// Adds a property to the offer above.
    fn add_property(&mut self, property: Property) -> Result<(), Misfit>
        ensures { UpdatesDraft (with_added_property self.old self.old.above property)
            self.old self.new result }
    {
        match &mut self.above {
            Open::Offer(one) => {
                one.properties.push(property)?;
                Ok(())
            }
            Open::Nothing => Err(Misfit::Is(LineCause::Place)),
            Open::Type(_) => Err(Misfit::Is(LineCause::Place)),
        }
    }
}
