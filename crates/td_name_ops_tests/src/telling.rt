//! Calls as words.

use std::alloc::Global;
use td_cdr::Memory;
use td_name_ops::{IteratorCall, NameCall};
use td_names::{NameAct, NameComponent};
use td_ops::OpsFault;
use td_typecode::Ior;

/// The call, or why there is none.
pub(crate) fn put_call(
    alloc: Global,
    said: &mut Vec<u8>,
    call: &Result<NameCall, OpsFault>,
) -> Result<(), Memory> {
    match call {
        Ok(NameCall::Act(act)) => put_act(alloc, said, act),
        Ok(NameCall::List { how_many }) => put_with(alloc, said, "list ", *how_many),
        Ok(NameCall::Iterator(call)) => put_iterator_call(alloc, said, *call),
        Ok(NameCall::IsA(id)) => {
            put(said, "_is_a ")?;
            put_bytes(said, id.as_slice())
        }
        Ok(NameCall::NonExistent) => put(said, "_non_existent"),
        Err(fault) => put_fault(alloc, said, *fault),
    }
}

fn put(said: &mut Vec<u8>, word: &str) -> Result<(), Memory> {
    put_bytes(said, word.as_bytes())
}

fn put_bytes(said: &mut Vec<u8>, bytes: &[u8]) -> Result<(), Memory> {
    said.extend_from_slice(bytes)?;
    Ok(())
}

fn put_with(alloc: Global, said: &mut Vec<u8>, word: &str, number: u32) -> Result<(), Memory> {
    put(said, word)?;
    let digits = number.to_string(alloc)?;
    put(said, digits.as_str())
}

fn put_fault(alloc: Global, said: &mut Vec<u8>, fault: OpsFault) -> Result<(), Memory> {
    match fault {
        OpsFault::BadOperation => put(said, "BadOperation"),
        OpsFault::Marshal(place) => put_with(alloc, said, "Marshal ", place),
        OpsFault::NoImplement => put(said, "NoImplement"),
        OpsFault::Memory => put(said, "Memory"),
    }
}

fn put_act(alloc: Global, said: &mut Vec<u8>, act: &NameAct) -> Result<(), Memory> {
    match act {
        NameAct::Bind { name, object } => put_binding(alloc, said, "bind ", name, object),
        NameAct::BindContext { name, object } => {
            put_binding(alloc, said, "bind_context ", name, object)
        }
        NameAct::Rebind { name, object } => put_binding(alloc, said, "rebind ", name, object),
        NameAct::Resolve { name } => put_named(said, "resolve ", name),
        NameAct::Unbind { name } => put_named(said, "unbind ", name),
        NameAct::NewContext => put(said, "new_context"),
        NameAct::BindNewContext { name } => put_named(said, "bind_new_context ", name),
        NameAct::Destroy => put(said, "destroy"),
        NameAct::List => put(said, "list"),
    }
}

fn put_iterator_call(alloc: Global, said: &mut Vec<u8>, call: IteratorCall) -> Result<(), Memory> {
    match call {
        IteratorCall::NextOne => put(said, "next_one"),
        IteratorCall::NextN { how_many } => put_with(alloc, said, "next_n ", how_many),
        IteratorCall::Destroy => put(said, "destroy_iterator"),
    }
}

/// An operation, a name, and a reference: its id and how many profiles it has, or `nil`.
fn put_binding(
    alloc: Global,
    said: &mut Vec<u8>,
    word: &str,
    name: &[NameComponent],
    object: &Ior,
) -> Result<(), Memory> {
    put_named(said, word, name)?;
    if object.id.is_empty() {
        return put(said, " nil");
    }
    put(said, " ")?;
    put_bytes(said, object.id.as_slice())?;
    let count = object.profiles.len().min(9) as u32;
    put_with(alloc, said, "+", count)
}

/// An operation and a name: its components with `/` between them, each `ID` or `ID.KIND`, or `-`.
fn put_named(said: &mut Vec<u8>, word: &str, name: &[NameComponent]) -> Result<(), Memory> {
    put(said, word)?;
    if name.is_empty() {
        return put(said, "-");
    }
    let mut mark = "";
    for component in name {
        put(said, mark)?;
        put_component(said, component)?;
        mark = "/";
    }
    Ok(())
}

fn put_component(said: &mut Vec<u8>, component: &NameComponent) -> Result<(), Memory> {
    put_bytes(said, component.id.as_slice())?;
    if !component.kind.is_empty() {
        put(said, ".")?;
        put_bytes(said, component.kind.as_slice())?;
    }
    Ok(())
}
