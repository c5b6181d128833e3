//! The change that no request carries: the one that adds a link.

use crate::exceptions::lookup;
use std::alloc::Global;
use std::process::Abort;
use std::test::Fail;
use td_cdr::{Boxed, Memory, Order, Text, Writer};
use td_ops::{Call, Change, operation_of, write_call};
use td_value::{FollowOption, Ior};

/// The change that adds a link to a register, where it is known.
fn added_link(alloc: Global, known: bool) -> Result<Boxed<Call>, Memory> {
    let name = Text::from_slice(alloc, b"north")?;
    let target = Boxed::new(alloc, lookup(alloc)?)?;
    let register = if known { Some(lookup(alloc)?) } else { None };
    Boxed::new(
        alloc,
        Call::Change(Change::AddLink {
            name,
            target,
            def_pass_on: FollowOption::IfNoLocal,
            limiting: FollowOption::Always,
            register,
        }),
    )
}

/// Whether the reference is that of the Lookup.
fn is_lookup(reference: &Ior) -> bool {
    reference.id.as_slice() == b"IDL:omg.org/CosTrading/Lookup:1.0".as_slice()
        && reference.profiles.as_slice().len() == 1
}

/// Whether the call adds the link, and has a reference to a register where there is to be one.
fn is_added_link(call: &Call, known: bool) -> bool {
    match call {
        Call::Change(
            Change::AddLink {
                name,
                target,
                def_pass_on: FollowOption::IfNoLocal,
                limiting: FollowOption::Always,
                register,
            },
        ) => name.as_slice() == b"north".as_slice()
            && is_lookup(target.get())
            && register.is_some() == known
            && is_lookup(register.as_ref().unwrap_or(target.get())),
        _ => false,
    }
}

/// Whether the change adds the link, and no request carries it: nothing is written for it.
fn is_unwritten(alloc: Global, known: bool) -> Result<bool, Memory> {
    let added = added_link(alloc, known)?;
    let mut writer = Writer::new(alloc, Order::Big);
    write_call(alloc, &mut writer, added.get())?;
    Ok(
        is_added_link(added.get(), known)
            && operation_of(added.get()) == "add_link"
            && writer.bytes().is_empty(),
    )
}

#[test]
fn added_links(rt: HostRuntime) -> Result<(), Fail> {
    let alloc = rt.alloc();
    assert!(rt; is_unwritten(alloc, false)? && is_unwritten(alloc, true)?);
    Ok(())
}
