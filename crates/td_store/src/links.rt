//! The links of a trader.

ghost use Rattle.std.specs.Prelude.{◌≡◌, [], ◌∷◌, ◌++◌, None, length, map, IfOk, OnOk, OnErr, option_copied};
ghost use Rattle.td_store.specs.LinkLists.{most_links, link_of, with_follow_rules, without_link};
ghost use Rattle.td_store.specs.OfferLists.{IsLimited};

use crate::fault::StoreFault;
use crate::record::LinkRecord;
use indexmap::IndexMap;
use std::alloc::Global;
use std::marker::Model;
use td_cdr::{List, Memory, Text, Twin};
use td_value::FollowOption;

/// How many links there are at most.
const MOST_LINKS: usize = 1024;

/// The links in the order of adding, each found by its name.
pub struct Links {
    named: IndexMap<Vec<u8>, LinkRecord>,
}

// By hand, since a derived drop is written out at each exit, and proved again in each crate above.
impl Drop for Links {
    fn drop(self) {
        let Links { named: _named } = self;
    }
}

impl Model for Links {
    ghost use Rattle.std.specs.Prelude.{List};
    ghost use Rattle.std.specs.Coded.{codes};
    ghost use Rattle.indexmap.specs.IndexMap.{values};
    ghost use Rattle.td_store.specs.LinkNames.{AreNamed};
    ghost use Rattle.td_store.specs.declared.record.LinkRecord.{LinkRecord as a_link};

    ghost Value = { List a_link };

    ghost coded = { Prim.hlevel codes };

    ghost view = { λ l. values l.named };

    ghost invariant = { λ l. AreNamed l.named.entries };
}

impl Links {
    /// No links. Takes no memory.
    pub fn new(alloc: Global) -> Links
        ensures { result ≡ [] }
    {
        Links {
            named: IndexMap::new(alloc),
        }
    }

    /// Adds a link of a new name.
    ///
    /// # Errors
    ///
    /// `Full` exactly where there are as many as may be; `Memory` when out of memory. The links are
    /// then as before, and this one is dropped.
    pub fn insert(&mut self, alloc: Global, link: LinkRecord) -> Result<(), StoreFault>
        requires fresh { link_of self.old link.name ≡ None }
        ensures added { OnOk result (self.new ≡ self.old ++ link ∷ []) }
        ensures unchanged { OnErr result (self.new ≡ self.old) }
        ensures full { IsLimited most_links (length self.old) result }
    {
        if self.named.len() >= MOST_LINKS {
            return Err(StoreFault::Full);
        }
        let name = link.name.get().to_vec(alloc)?;
        match self.named.insert(name, link) {
            Ok(_) => Ok(()),
            Err(_) => Err(StoreFault::Memory),
        }
    }

    /// Takes the link of a name away. The others stay in their order. Takes no memory.
    pub fn remove(&mut self, name: &Text) -> Option<LinkRecord>
        ensures value { result ≡ link_of self.old name.now }
        ensures others { self.new ≡ without_link name.now self.old }
    {
        self.named.shift_remove(name.as_slice())
    }

    /// Gives the link of a name other rules, in its place, if there is one. Takes no memory.
    pub fn set_rules(&mut self, name: &Text, def_pass_on: FollowOption, limiting: FollowOption)
        ensures { self.new ≡ map (with_follow_rules name.now def_pass_on limiting) self.old }
    {
        if let Some(link) = self.named.get_mut(name.as_slice()) {
            link.def_pass_on = def_pass_on;
            link.limiting = limiting;
        }
    }

    /// The link of a name. Takes no memory.
    pub fn get(&self, name: &Text) -> Option<&LinkRecord>
        ensures { option_copied result ≡ link_of self.now name.now }
    {
        self.named.get(name.as_slice())
    }

    /// The names of the links, in the order of adding.
    ///
    /// # Errors
    ///
    /// `Memory` only when out of memory.
    pub fn names(&self, alloc: Global) -> Result<List<Text>, Memory>
        ensures { IfOk result (λ names. names ≡ map (λ l. l.name) self.now) }
    {
        names_of(alloc, self.named.values().as_slice())
    }

    /// Copies of the links, in the order of adding.
    ///
    /// # Errors
    ///
    /// `Memory` only when out of memory.
    pub fn records(&self, alloc: Global) -> Result<List<LinkRecord>, Memory>
        ensures { IfOk result (λ links. links ≡ self.now) }
    {
        records_of(alloc, self.named.values().as_slice())
    }
}

/// The names of these links.
///
/// # Errors
///
/// `Memory` only when out of memory.
fn names_of(alloc: Global, links: &[LinkRecord]) -> Result<List<Text>, Memory>
    ensures { IfOk result (λ names. names ≡ map (λ l. l.name) links.now) }
{
    let mut names = List::new(alloc);
    for link in links {
        names.push(link.name.get().copy(alloc)?)?;
    }
    Ok(names)
}

/// Copies of these links.
///
/// # Errors
///
/// `Memory` only when out of memory.
fn records_of(alloc: Global, links: &[LinkRecord]) -> Result<List<LinkRecord>, Memory>
    ensures { IfOk result (λ records. records ≡ links.now) }
{
    let mut records = List::new(alloc);
    for link in links {
        records.push(link.copy(alloc)?)?;
    }
    Ok(records)
}
