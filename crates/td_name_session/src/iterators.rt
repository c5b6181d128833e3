//! The binding iterators of a connection.

ghost use Rattle.std.specs.Prelude.{◌≡◌, ◌<◌, ◌^◌, [], length, IfOk, OnOk, OnErr};
ghost use Rattle.td_cdr.specs.Writing.{Draft};
ghost use Rattle.td_iter.specs.Desks.{with_added};
ghost use Rattle.td_iter.specs.declared.limits.TheConstants.{REPLY_START};
ghost use Rattle.td_name_ops.specs.declared.call.IteratorCall.TheVariants as asked;
ghost use Rattle.td_name_session.specs.Keys.{desk_label};
ghost use Rattle.td_name_session.specs.Invoking.{Iterates, batch_call};
ghost use Rattle.td_name_session.specs.Scenes.{is_kept};

use crate::answer::{Answer, plain, system};
use crate::iterating::give;
use std::alloc::Global;
use std::marker::Model;
use td_cdr::{Memory, Text, Twin, Writer};
use td_iter::{Desk, Iter};
use td_name_ops::{IteratorCall, NameOutcome, NameResult};
use td_names::NameBinding;
use td_ops::SystemKind;

/// The binding iterators of a connection, each with the bindings that are left. Contracts see what the desk keeps.
#[derive(Drop)]
pub struct Iterators {
    desk: Desk<Iter<NameBinding>>,
    /// What the desk has as the name of each.
    label: Text,
}

impl Model for Iterators {
    ghost use Rattle.std.specs.Prelude.{◌≡◌};
    ghost use Rattle.std.specs.Coded.{codes};
    ghost use Rattle.td_name_session.specs.Keys.{desk_label};
    ghost use Rattle.td_name_session.specs.Scenes.{IteratorList};

    ghost Value = { IteratorList };

    ghost coded = { Prim.hlevel codes };

    ghost view = { λ i. i.desk };

    ghost invariant = { λ i. i.label ≡ desk_label };
}

impl Iterators {
    /// None are kept, and the next one's number is 1.
    ///
    /// # Errors
    ///
    /// `Memory` only when out of memory.
    pub(crate) fn new(alloc: Global) -> Result<Iterators, Memory>
        ensures { IfOk result (λ i. i ≡ ([], 1)) }
    {
        let desk = Desk::new(alloc, 1)?;
        let label = Text::from_slice(alloc, b"N")?;
        Ok(Iterators { desk, label })
    }

    /// The number that the next one gets.
    pub(crate) fn next_number(&self) -> u64
        ensures { result ≡ self.now.1 }
    {
        self.desk.next_number()
    }

    /// Whether the iterator of this number is kept. Takes no memory.
    pub(crate) fn is_kept(&mut self, number: u64) -> bool
        ensures kept { result ≡ is_kept number self.old }
        ensures same { self.new ≡ self.old }
    {
        is_at(&mut self.desk, &self.label, number)
    }

    /// Keeps these bindings in a new iterator. Of 256 the oldest is dropped.
    ///
    /// # Errors
    ///
    /// `Memory` only when out of memory; nothing was changed then.
    pub(crate) fn add(&mut self, alloc: Global, left: Iter<NameBinding>) -> Result<(), Memory>
        requires { self.old.1 < 2 ^ 63 }
        ensures ok { OnOk result (self.new ≡ with_added desk_label left self.old) }
        ensures err { OnErr result (self.new ≡ self.old) }
    {
        let label = self.label.copy(alloc)?;
        let _number = self.desk.add(label, left);
        Ok(())
    }

    /// Calls an iterator. The writer holds what stands before the body of a Reply with a result.
    pub(crate) fn call(
        &mut self,
        alloc: Global,
        w: &mut Writer,
        number: u64,
        call: IteratorCall,
    ) -> Answer
        requires start { length w.old.bytes ≡ REPLY_START }
        ensures { Iterates number call w.old self.old result w.new self.new }
    {
        match call {
            IteratorCall::NextOne => batch(alloc, &mut self.desk, &self.label, w, number, None),
            IteratorCall::NextN { how_many } => {
                batch(
                    alloc,
                    &mut self.desk,
                    &self.label,
                    w,
                    number,
                    Some(how_many),
                )
            }
            IteratorCall::Destroy => destroy(&mut self.desk, &self.label, number),
        }
    }
}

/// Whether the desk keeps the iterator of this number.
#[tactic(auto, using(crate::proofs::Keeping::item_kept, crate::proofs::Keeping::live_some, crate::proofs::Keeping::live_none))]
fn is_at(desk: &mut Desk<Iter<NameBinding>>, label: &Text, number: u64) -> bool
    requires { label.now ≡ desk_label }
    ensures kept { result ≡ is_kept number desk.old }
    ensures same { desk.new ≡ desk.old }
{
    match desk.get_mut(label, number) {
        Some(_left) => true,
        None => false,
    }
}

/// The next binding, or at most so many.
fn batch(
    alloc: Global,
    desk: &mut Desk<Iter<NameBinding>>,
    label: &Text,
    w: &mut Writer,
    number: u64,
    how_many: Option<u32>,
) -> Answer
    requires label { label.now ≡ desk_label }
    requires start { length w.old.bytes ≡ REPLY_START }
    ensures { Iterates number (batch_call how_many) w.old desk.old result w.new desk.new }
{
    match desk.get_mut(label, number) {
        Some(left) => give(alloc, left, w, how_many),
        None => plain(system(SystemKind::ObjectNotExist)),
    }
}

/// Takes an iterator away.
fn destroy(desk: &mut Desk<Iter<NameBinding>>, label: &Text, number: u64) -> Answer
    requires { label.now ≡ desk_label }
    ensures { (draft written : Draft)
        → Iterates number asked.Destroy draft desk.old result written desk.new }
{
    if is_at(desk, label, number) {
        let _found = desk.remove(label, number);
        plain(NameOutcome::Done(NameResult::Nothing))
    } else {
        plain(system(SystemKind::ObjectNotExist))
    }
}
