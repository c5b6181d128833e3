//! Calls from words: the name of an operation, and its parameters with `;` between them, which may be left out at the
//! end.

use crate::values::put_all;
use std::alloc::Global;
use td_cdr::{Boxed, Order, Reader, Spelled, Text, ValueFault, Writer};
use td_ops::{Call, Change, OpsFault, read_call};
use td_value::{FollowOption, Ior, Kind};

/// The operations of each object, and how their parameters are put.
const LOOKUP: &str = "query tttqdu";

const REGISTER: &str = "export rtp
withdraw t
describe t
modify tnp
withdraw_using_constraint tt";

const LINK: &str = "remove_link t
describe_link t
list_links
modify_link tff";

const PROXY: &str = "export_proxy rtpbtq
withdraw_proxy t
describe_proxy t";

const ADMIN: &str = "list_offers u
list_proxies u
set_max_list u
set_max_follow_policy f
set_max_link_follow_policy f
set_supports_modifiable_properties b
set_supports_dynamic_properties b
set_supports_proxy_offers b
set_request_id_stem o";

const TYPES: &str = "add_type ttsn
remove_type t
mask_type t
unmask_type t
list_types u
describe_type t
fully_describe_type t";

/// The call of these words.
pub fn call(alloc: Global, words: &str) -> Result<Boxed<Call>, OpsFault> {
    let (name, parts) = words.split_once(' ').unwrap_or((words, ""));
    let (kind, letters) = operation(name);
    let mut writer = Writer::new(alloc, Order::Big);
    put_all(alloc, &mut writer, letters, parts)?;
    call_in(alloc, kind, name, writer.bytes())
}

/// The object that has an operation, and how its parameters are put; any other is read from Admin, and has none.
fn operation(name: &str) -> (Kind, &'static str) {
    for (kind, rows) in [
        (Kind::Lookup, LOOKUP),
        (Kind::Register, REGISTER),
        (Kind::Link, LINK),
        (Kind::Proxy, PROXY),
        (Kind::Admin, ADMIN),
        (Kind::Types, TYPES),
    ] {
        if let Some(letters) = letters_of(rows, name) {
            return (kind, letters);
        }
    }
    (Kind::Admin, "")
}

fn letters_of(rows: &'static str, name: &str) -> Option<&'static str> {
    for row in rows.lines() {
        let (word, letters) = row.split_once(' ').unwrap_or((row, ""));
        if word == name {
            return Some(letters);
        }
    }
    None
}

fn call_in(alloc: Global, kind: Kind, name: &str, bytes: &[u8]) -> Result<Boxed<Call>, OpsFault> {
    if bytes.len() >= 100000 {
        return Err(OpsFault::Memory);
    }
    let mut reader = Reader::new(bytes, 0, Order::Big);
    let call = read_call(alloc, &kind, name.as_bytes(), &mut reader)?;
    Ok(Boxed::new(alloc, call)?)
}

/// The change of `NAME;TARGET;DEFAULT;LIMITING;REGISTER`, which no request carries; without the last the register isn't
/// known.
pub fn added_link(alloc: Global, parts: &str) -> Result<Change, ValueFault> {
    let mut writer = Writer::new(alloc, Order::Big);
    put_all(alloc, &mut writer, "trffr", parts)?;
    link_in(alloc, writer.bytes())
}

fn link_in(alloc: Global, bytes: &[u8]) -> Result<Change, ValueFault> {
    if bytes.len() >= 100000 {
        return Err(ValueFault::Memory);
    }
    let mut reader = Reader::new(bytes, 0, Order::Big);
    let (name, (target, (def_pass_on, (limiting, register)))) = <(
        Text,
        (Boxed<Ior>, (FollowOption, (FollowOption, Ior))),
    )>::read(alloc, &mut reader)?;
    Ok(Change::AddLink {
        name,
        target,
        def_pass_on,
        limiting,
        register: known(register),
    })
}

/// A reference that isn't nil.
fn known(reference: Ior) -> Option<Ior> {
    if reference.id.is_empty() {
        drop(reference);
        return None;
    }
    Some(reference)
}
