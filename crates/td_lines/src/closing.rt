//! Entries to which no more line belongs.

ghost use Rattle.std.specs.Prelude.{◌≡◌, [], IfOk, OnOk};
ghost use Rattle.td_lines.specs.Drafts.{type_change, close_entry, closed_with, offer_change};

use crate::draft::{Open, OpenOffer, OpenType, ScriptDraft};
use crate::entry::FileEntry;
use std::alloc::Global;
use std::mem;
use td_cdr::{List, Memory, share_owned_three};
use td_ops::Change;

/// The change that a type asks for.
fn type_change(one: OpenType) -> Change
    ensures { result ≡ type_change one }
{
    Change::AddType {
        name: one.name,
        if_name: one.if_name,
        props: one.props,
        super_types: one.supers,
    }
}

/// The change that an offer asks for.
fn offer_change(alloc: Global, offer: OpenOffer) -> Result<Change, Memory>
    ensures { IfOk result (λ change. change ≡ offer_change offer offer.proxy) }
{
    let OpenOffer {
        line: _,
        service_type,
        reference,
        proxy,
        properties,
    } = offer;
    let (reference, (service_type, properties)) = share_owned_three(
        alloc,
        (reference, (service_type, properties)),
    )?;
    match proxy {
        None => Ok(Change::Export {
            reference,
            service_type,
            properties,
        }),
        Some(proxy) => Ok(Change::ExportProxy {
            target: reference,
            service_type,
            properties,
            if_match_all: proxy.if_match_all,
            recipe: proxy.recipe,
            policies: List::new(alloc),
        }),
    }
}

impl ScriptDraft {
    /// Adds the entry above.
    ///
    /// # Errors
    ///
    /// `Memory` only when out of memory.
    pub(crate) fn close(&mut self, alloc: Global) -> Result<(), Memory>
        ensures { OnOk result (self.new ≡ close_entry self.old) }
    {
        let above = mem::replace(&mut self.above, Open::Nothing);
        self.close_with(alloc, above)
    }

    fn close_with(&mut self, alloc: Global, above: Open) -> Result<(), Memory>
        ensures { OnOk result (self.new ≡ closed_with self.old above) }
    {
        match above {
            Open::Nothing => Ok(()),
            Open::Type(one) => self.put(one.line, FileEntry::Change(type_change(one))),
            Open::Offer(one) => {
                let line = one.line;
                let change = offer_change(alloc, one)?;
                self.put(line, FileEntry::Change(change))
            },
        }
    }
}
