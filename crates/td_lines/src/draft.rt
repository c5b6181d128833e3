//! What the lines so far say.

ghost use Rattle.std.specs.Prelude.{◌≡◌, [], IfOk, OnOk};
ghost use Rattle.td_lines.specs.Drafts.{has_trader, line_above, nothing_yet, offer_line};
ghost use Rattle.td_lines.specs.Drafts.{type_line, with_entry};

use crate::entry::{FileEntry, Home, Numbered, TraderScript};
use crate::keyword::DetailKeyword;
use std::alloc::Global;
use td_cdr::{List, Memory, Octets, Text};
use td_value::{Ior, PropStruct, Property};

/// A type whose `prop` lines may follow.
#[derive(Drop)]
pub(crate) struct OpenType {
    /// The number of its first line.
    pub(crate) line: u32,
    pub(crate) name: Text,
    pub(crate) if_name: Text,
    pub(crate) supers: List<Text>,
    pub(crate) props: List<PropStruct>,
}

/// What makes an offer a proxy offer.
#[derive(Drop)]
pub(crate) struct ProxyWords {
    pub(crate) if_match_all: bool,
    pub(crate) recipe: Text,
}

/// An offer or a proxy offer whose properties may follow.
#[derive(Drop)]
pub(crate) struct OpenOffer {
    /// The number of its first line.
    pub(crate) line: u32,
    pub(crate) service_type: Text,
    pub(crate) reference: Ior,
    pub(crate) proxy: Option<ProxyWords>,
    pub(crate) properties: List<Property>,
}

/// The entry above, where more lines may belong to it.
#[derive(Drop)]
pub(crate) enum Open {
    Nothing,
    Type(OpenType),
    Offer(OpenOffer),
}

/// What the lines so far say.
#[derive(Drop)]
pub(crate) struct ScriptDraft {
    pub(crate) home: Option<Home>,
    pub(crate) seed: Option<Octets>,
    /// A line told the version of the server's references.
    pub(crate) iiop: bool,
    /// The names of all traders.
    pub(crate) names: List<Text>,
    /// The traders but the last one.
    pub(crate) finished: List<TraderScript>,
    /// The last trader's name.
    pub(crate) name: Text,
    /// The interfaces that the last trader declared.
    pub(crate) interfaces: List<(Text, List<Text>)>,
    /// The last trader has a type.
    pub(crate) typed: bool,
    /// The last trader's entries that no more line belongs to.
    pub(crate) entries: List<Numbered>,
    pub(crate) above: Open,
}

impl ScriptDraft {
    /// What no line says.
    pub(crate) fn new(alloc: Global) -> ScriptDraft
        ensures { result ≡ nothing_yet }
    {
        ScriptDraft {
            home: None,
            seed: None,
            iiop: false,
            names: List::new(alloc),
            finished: List::new(alloc),
            name: Text::new(alloc),
            interfaces: List::new(alloc),
            typed: false,
            entries: List::new(alloc),
            above: Open::Nothing,
        }
    }

    /// Whether a trader was opened.
    pub(crate) fn has_trader(&self) -> bool
        ensures { result ≡ has_trader self.now }
    {
        self.names.len() != 0
    }

    /// Adds an entry.
    pub(crate) fn put(&mut self, line: u32, entry: FileEntry) -> Result<(), Memory>
        ensures { OnOk result (self.new ≡ with_entry self.old line entry) }
    {
        self.entries.push(Numbered { line, entry })
    }

    /// The first line of the type above, where one is open.
    pub(crate) fn type_line(&self) -> Option<u32>
        ensures { result ≡ type_line self.now.above }
    {
        match &self.above {
            Open::Type(one) => Some(one.line),
            Open::Nothing => None,
            Open::Offer(_) => None,
        }
    }

    /// The first line of the offer above, where one is open.
    pub(crate) fn offer_line(&self) -> Option<u32>
        ensures { result ≡ offer_line self.now.above }
    {
        match &self.above {
            Open::Offer(one) => Some(one.line),
            Open::Nothing => None,
            Open::Type(_) => None,
        }
    }

    /// The first line of the entry to which a line belongs.
    pub(crate) fn line_above(&self, part: DetailKeyword) -> Option<u32>
        ensures { result ≡ line_above self.now.above part }
    {
        match part {
            DetailKeyword::Prop => self.type_line(),
            DetailKeyword::With => self.offer_line(),
            DetailKeyword::Dynamic => self.offer_line(),
        }
    }
}
