//! Naming contexts that one alone calls.

ghost use Rattle.std.specs.Prelude.{◌≡◌, ◌≤◌, [], length, not, true, IfOk, OnErr};
ghost use Rattle.td_cdr.specs.Text.{HasNoNul};
ghost use Rattle.td_names.specs.Changing.{is_change};
ghost use Rattle.td_names.specs.References.{IsAddress};
ghost use Rattle.td_names.specs.Refusing.{is_refusal};
ghost use Rattle.td_names.specs.Stores.{is_live};
ghost use Rattle.td_naming.specs.Alone.{no_changes, solo_view};
ghost use Rattle.td_naming.specs.Histories.{Legal, Records, change_at, past, store_after};
ghost use Rattle.td_naming.specs.Views.{NamingActs};

use crate::history::NameChange;
use crate::names::Names;
use std::alloc::Global;
use std::marker::Model;
use td_cdr::{Memory, Text, Twin};
use td_names::{Address, NameAct, NameAnswer, NameStore};

/// Naming contexts that one alone calls: their store, and the changes that were accepted since it was the root alone,
/// with their replies.
pub struct Naming {
    store: NameStore,
    history: Vec<NameChange>,
}

// By hand, since a derived drop is written out at each exit, and proved again in each crate above.
impl Drop for Naming {
    fn drop(self) {
        let Naming {
            store: _store,
            history: _history,
        } = self;
    }
}

impl Model for Naming {
    ghost use Rattle.td_naming.specs.Histories.{Past, Remembers};

    ghost Value = { Past };

    ghost view = { λ n. record { home = n.store.home; history = n.history.items } };

    ghost invariant = { λ n. Remembers n.store n.history.items };
}

impl Naming {
    /// The root alone, without bindings, of a server that listens at this host and port.
    ///
    /// # Errors
    ///
    /// `Memory` only when out of memory.
    pub fn new(alloc: Global, host: Text, port: u16) -> Result<Naming, Memory>
        requires plain { HasNoNul host }
        requires short { length host ≤ 1000 }
        ensures { IfOk result (λ n. n ≡ past (record { host = host; port = port }) []) }
    {
        let store = NameStore::new(alloc, host, port)?;
        Ok(Naming {
            store,
            history: Vec::new(alloc),
        })
    }

    /// The accepted changes with their replies, in order.
    pub fn history(&self) -> &[NameChange]
        ensures { result.now ≡ self.now.history }
    {
        self.history.as_slice()
    }

    /// What a call of a context comes to. An accepted change stands at the end of the history then.
    ///
    /// # Errors
    ///
    /// `Memory` only when out of memory; nothing was done then.
    pub fn act(&mut self, alloc: Global, context: u32, act: NameAct) -> Result<NameAnswer, Memory>
        ensures ok { IfOk result
            (λ r. NamingActs no_changes (solo_view self.old) context act r (solo_view self.new)) }
        ensures err { OnErr result (self.new ≡ self.old) }
    {
        let Naming { store, history } = self;
        record(alloc, store, history, context, act)
    }

    /// Whether the context of a number is live. Takes no memory.
    pub fn live(&self, context: u32) -> bool
        ensures { result ≡ is_live (store_after self.now.home self.now.history) context }
    {
        self.store.live(context)
    }

    /// How many changes were accepted. Takes no memory.
    pub fn point(&self) -> u64
        ensures point { result ≡ length self.now.history }
        ensures legal { Legal self.now.home self.now.history }
    {
        self.history.len() as u64
    }

    /// Where the server listens.
    pub fn home(&self) -> &Address
        ensures home { result.now ≡ self.now.home }
        ensures address { IsAddress result.now }
    {
        self.store.home()
    }
}

/// Calls a context, and puts the call at the end of the history where it is an accepted change. Room for it is taken
/// first.
fn record(
    alloc: Global,
    store: &mut NameStore,
    history: &mut Vec<NameChange>,
    context: u32,
    act: NameAct,
) -> Result<NameAnswer, Memory>
    ensures ok { IfOk result
        (λ r. Records store.old history.old.items context act r store.new history.new.items) }
    ensures err { OnErr result ((store.new ≡ store.old) × (history.new.items ≡ history.old.items)) }
{
    if act.is_change() {
        record_change(alloc, store, history, context, act)
    } else {
        store.act(alloc, context, act)
    }
}

fn record_change(
    alloc: Global,
    store: &mut NameStore,
    history: &mut Vec<NameChange>,
    context: u32,
    act: NameAct,
) -> Result<NameAnswer, Memory>
    requires { is_change act ≡ true }
    ensures ok { IfOk result
        (λ r. Records store.old history.old.items context act r store.new history.new.items) }
    ensures err { OnErr result ((store.new ≡ store.old) × (history.new.items ≡ history.old.items)) }
{
    history.reserve(1)?;
    let change = change_at(alloc, store, context, &act)?;
    let answer = store.act(alloc, context, act)?;
    if is_done(&answer) {
        history.push_reserved(change);
        Ok(answer)
    } else {
        Ok(answer)
    }
}

/// A call as it is remembered where it is accepted.
///
/// # Errors
///
/// `Memory` only when out of memory.
fn change_at(
    alloc: Global,
    store: &NameStore,
    context: u32,
    act: &NameAct,
) -> Result<NameChange, Memory>
    ensures { IfOk result (λ change. change ≡ change_at store.now context act.now) }
{
    let made = if act.makes_context() {
        Some(store.contexts() + 1)
    } else {
        None
    };
    let act = act.copy(alloc)?;
    Ok(NameChange { context, act, made })
}

/// Whether a call was done.
fn is_done(answer: &NameAnswer) -> bool
    ensures { result ≡ not (is_refusal answer.now) }
{
    match answer {
        NameAnswer::Done(_) => true,
        NameAnswer::User(_) => false,
        NameAnswer::System(_) => false,
    }
}

impl Names for Naming {
    ghost view = { λ n. solo_view n };

    ghost others = { no_changes };

    ghost same = { λ _ _. Unit {0} };

    fn act(&mut self, alloc: Global, context: u32, act: NameAct) -> Result<NameAnswer, Memory> {
        Naming::act(self, alloc, context, act)
    }

    fn live(&mut self, context: u32) -> bool {
        Naming::live(self, context)
    }

    fn point(&self) -> u64 {
        Naming::point(self)
    }

    fn home(&self) -> &Address {
        Naming::home(self)
    }

    ghost same_itself = { λ _. tt };

    ghost same_on = { λ _ _ _ _ _. tt };
}
