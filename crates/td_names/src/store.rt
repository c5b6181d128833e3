//! The contexts of a server, and the calls of them.

ghost use Rattle.std.specs.Prelude.{◌≡◌, ◌≤◌, ◌+◌, length, IfOk, OnErr, option_copied};
ghost use Rattle.td_cdr.specs.Text.{HasNoNul};
ghost use Rattle.td_names.specs.Applying.{AppliesCall};
ghost use Rattle.td_names.specs.Limits.{most_contexts};
ghost use Rattle.td_names.specs.References.{IsAddress};
ghost use Rattle.td_names.specs.Stores.{bindings_full, bindings_of, bound_in, changes_full, contexts_full, is_live};
ghost use Rattle.td_names.specs.Stores.{start};

use crate::act::{NameAct, NameAnswer, NameRefusal};
use crate::address::Address;
use crate::bindings::Bindings;
use crate::component::{Bound, NameComponent};
use crate::limits::{no_more_bindings, no_more_changes, no_more_contexts};
use std::alloc::Global;
use std::marker::Model;
use td_cdr::{Memory, Text};

/// Naming contexts with their bindings. The context 1 is the root, which is there from the beginning; the others are
/// numbered from 2 in the order in which they are made, and no number is given twice.
pub struct NameStore {
    /// Where the server listens.
    pub(crate) home: Address,
    /// In the order in which they were made; none is left of one that was destroyed.
    pub(crate) contexts: Vec<Option<Bindings>>,
    /// How many bindings there are in all.
    pub(crate) bindings: u64,
    /// How many changes were accepted.
    pub(crate) changes: u64,
}

// By hand, since a derived drop is written out at each exit, and proved again in each crate above.
impl Drop for NameStore {
    fn drop(self) {
        let NameStore {
            home: _home,
            contexts: _contexts,
            bindings: _bindings,
            changes: _changes,
        } = self;
    }
}

impl Model for NameStore {
    ghost use Rattle.td_names.specs.Stores.{Store, IsValidStore};

    ghost Value = { Store };

    ghost view = { λ n. record {
      home = n.home;
      contexts = n.contexts.items;
      changes = n.changes;
    } };

    ghost invariant = { λ n. IsValidStore n.home n.contexts.items n.bindings n.changes };
}

impl NameStore {
    /// The root alone, without bindings, of a server that listens at this host and port. The host has at most 1,000
    /// bytes and no NUL.
    ///
    /// # Errors
    ///
    /// `Memory` only when out of memory.
    pub fn new(alloc: Global, host: Text, port: u16) -> Result<NameStore, Memory>
        requires plain { HasNoNul host }
        requires short { length host ≤ 1000 }
        ensures { IfOk result (λ names. names ≡ start (record { host = host; port = port })) }
    {
        let mut contexts = Vec::with_capacity(alloc, 1)?;
        contexts.push(Some(Bindings::new(alloc)))?;
        Ok(NameStore {
            home: Address { host, port },
            contexts,
            bindings: 0,
            changes: 0,
        })
    }

    /// Where the server listens.
    pub fn home(&self) -> &Address
        ensures home { result.now ≡ self.now.home }
        ensures address { IsAddress result.now }
    {
        &self.home
    }

    /// How many changes were accepted.
    pub fn changes(&self) -> u64
        ensures { result ≡ self.now.changes }
    {
        self.changes
    }

    /// How many contexts there were, with the root and with those that were destroyed: the number of the last one.
    pub fn contexts(&self) -> u32
        ensures count { result ≡ length self.now.contexts }
        ensures few { result ≤ most_contexts + 1 }
    {
        self.contexts.len() as u32
    }

    /// Whether the context of a number is live. Takes no memory.
    pub fn live(&self, context: u32) -> bool
        ensures { result ≡ is_live self.now context }
    {
        self.bindings_of(context).is_some()
    }

    /// Does one call of a context.
    ///
    /// # Errors
    ///
    /// `Memory` only when out of memory; nothing was done then.
    pub fn act(&mut self, alloc: Global, context: u32, act: NameAct) -> Result<NameAnswer, Memory>
        ensures ok { IfOk result (λ r. AppliesCall self.old context act r self.new) }
        ensures err { OnErr result (self.new ≡ self.old) }
    {
        if !self.live(context) {
            return Ok(NameAnswer::System(NameRefusal::ObjectNotExist));
        }
        match act {
            NameAct::Bind { name, object } => {
                let bound = Bound {
                    context: false,
                    object,
                };
                self.bind(alloc, context, name, bound)
            }
            NameAct::BindContext { name, object } => {
                let bound = Bound {
                    context: true,
                    object,
                };
                self.bind(alloc, context, name, bound)
            }
            NameAct::Rebind { name, object } => self.rebind(alloc, context, name, object),
            NameAct::Resolve { name } => self.resolve(alloc, context, name),
            NameAct::Unbind { name } => self.unbind(alloc, context, name),
            NameAct::NewContext => self.new_context(alloc),
            NameAct::BindNewContext { name } => self.bind_new_context(alloc, context, name),
            NameAct::Destroy => Ok(self.destroy(context)),
            NameAct::List => self.list(alloc, context),
        }
    }

    /// The bindings of the context of a number, if it is live.
    pub(crate) fn bindings_of(&self, context: u32) -> Option<&Bindings>
        ensures { option_copied result ≡ bindings_of self.now context }
    {
        let index = context.checked_sub(1)?;
        self.contexts.get(index as usize)?.as_ref()
    }

    /// What is bound in a context under a component.
    pub(crate) fn bound(&self, context: u32, component: &NameComponent) -> Option<&Bound>
        ensures { option_copied result ≡ bound_in self.now context component.now }
    {
        self.bindings_of(context)?.get(component)
    }

    /// Whether no further change is accepted.
    pub(crate) fn changes_full(&self) -> bool
        ensures { result ≡ changes_full self.now }
    {
        no_more_changes(self.changes)
    }

    /// Whether no further binding is added.
    pub(crate) fn bindings_full(&self) -> bool
        ensures { result ≡ bindings_full self.now }
    {
        no_more_bindings(self.bindings)
    }

    /// Whether no further context is made.
    pub(crate) fn contexts_full(&self) -> bool
        ensures { result ≡ contexts_full self.now }
    {
        no_more_contexts(self.contexts.len().saturating_sub(1))
    }
}
