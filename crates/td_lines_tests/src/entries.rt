//! The entries of a worked file.

use crate::refusals::{file_of, script_of};
use std::alloc::Global;
use std::test::Fail;
use td_cdr::{Boxed, List, Text};
use td_lines::{FileEntry, Numbered, Script, TraderScript};
use td_ops::Change;
use td_value::{PropStruct, Property, PropertyMode, TypeCode, Value};

/// A trader with a type of two properties, an offer with two and an evaluated one, a proxy offer and two links.
const WORKED: &str = "# a file|address host 2809|iiop 1|trader A|interface i j k|type B i S T|\
prop mandatory ulong Cost|prop normal seq:string Rooms|\
offer B ref:i,h,9,p1|with ulong Cost 5|with seq:string Rooms R1,R 2|dynamic short Queue ref:e,h,9,q|\
proxy B ref:x,h,9,p2 match Cost < $(Cost)|with ulong Cost 7|link l A local_only always|\
link m ref:x,h,9,l ref:x,h,9,r if_no_local if_no_local|\
link n ref:x,h,9,l IOR:00000000000000010000000000000000 always always";

/// Whether a file is read to its end, with this home, a seed of zeros, and the worked trader alone.
fn is_worked(script: &Script) -> bool {
    let Some(home) = &script.home else {
        return false;
    };
    home.host.as_slice() == b"host".as_slice()
        && home.port == 2809
        && home.minor == 1
        && script.seed.as_slice() == [0u8; 32].as_slice()
        && script.refused == None
        && is_only_trader(script.traders.as_slice())
}

/// Whether the one trader is A, with the interface i and its two bases.
fn is_only_trader(traders: &[TraderScript]) -> bool {
    match traders {
        [trader] => {
            trader.name.as_slice() == b"A".as_slice()
                && are_interfaces(trader.interfaces.as_slice())
                && are_worked(trader.entries.as_slice())
        }
        _ => false,
    }
}

fn are_interfaces(interfaces: &[(Text, List<Text>)]) -> bool {
    match interfaces {
        [(id, bases)] => id.as_slice() == b"i".as_slice() && bases.len() == 2,
        _ => false,
    }
}

fn are_props(props: &[PropStruct]) -> bool {
    match props {
        [cost, _rooms] => {
            cost.name.as_slice() == b"Cost".as_slice()
                && cost.mode == PropertyMode::Mandatory
                && matches!(&cost.value_type, TypeCode::ULong)
        }
        _ => false,
    }
}

fn is_type(one: &Numbered) -> bool {
    match &one.entry {
        FileEntry::Change(
            Change::AddType {
                name,
                if_name,
                props,
                super_types,
            },
        ) => {
            name.as_slice() == b"B".as_slice()
                && if_name.as_slice() == b"i".as_slice()
                && super_types.len() == 2
                && are_props(props.as_slice())
        }
        _ => false,
    }
}

/// Whether the values are 5, two texts, and an evaluated one.
fn are_values(cost: &Value, rooms: &Value, queue: &Value) -> bool {
    match (cost, rooms, queue) {
        (Value::ULong(number), Value::Items(items), Value::Struct(members)) => {
            *number == 5 && items.len() == 2 && members.len() == 3
        }
        _ => false,
    }
}

fn are_properties(properties: &[Property]) -> bool {
    match properties {
        [cost, rooms, queue] => {
            are_values(&cost.value.value, &rooms.value.value, &queue.value.value)
                && td_value::is_dynamic(&queue.value.code)
        }
        _ => false,
    }
}

fn is_offer(one: &Numbered) -> bool {
    match &one.entry {
        FileEntry::Change(
            Change::Export {
                service_type,
                properties,
                ..
            },
        ) => { service_type.as_slice() == b"B".as_slice() && are_properties(properties.as_slice()) }
        _ => false,
    }
}

fn is_proxy(one: &Numbered) -> bool {
    match &one.entry {
        FileEntry::Change(
            Change::ExportProxy {
                if_match_all,
                recipe,
                policies,
                ..
            },
        ) => {
            !*if_match_all
                && recipe.as_slice() == b"Cost < $(Cost)".as_slice()
                && policies.len() == 0
        }
        _ => false,
    }
}

fn is_inside(one: &Numbered) -> bool {
    match &one.entry {
        FileEntry::Link { name, trader, .. } => {
            name.as_slice() == b"l".as_slice() && trader.as_slice() == b"A".as_slice()
        }
        _ => false,
    }
}

/// A link to an outside trader, whose register is one or nil.
fn is_outside(one: &Numbered, with_register: bool) -> bool {
    match &one.entry {
        FileEntry::Change(Change::AddLink { register, .. }) => register.is_some() == with_register,
        _ => false,
    }
}

/// Whether each entry has its first line's number, comments counted.
fn are_at(entries: &[Numbered], lines: &[u32]) -> bool {
    let mut rest = lines;
    for one in entries {
        match rest.split_first() {
            Some((line, behind)) if *line == one.line => rest = behind,
            _ => return false,
        }
    }
    rest.is_empty()
}

fn are_worked(entries: &[Numbered]) -> bool {
    match entries {
        [service_type, offer, proxy, inside, outside, nil] => {
            are_at(entries, &[6, 9, 13, 15, 16, 17])
                && is_type(service_type)
                && is_offer(offer)
                && is_proxy(proxy)
                && is_inside(inside)
                && is_outside(outside, true)
                && is_outside(nil, false)
        }
        _ => false,
    }
}

fn reads_worked(alloc: Global) -> Result<bool, Fail> {
    let text = file_of(alloc, WORKED)?;
    let script = Boxed::new(alloc, script_of(alloc, text.as_slice())?)?;
    Ok(is_worked(script.get()))
}

#[test]
fn worked_file(rt: HostRuntime) -> Result<(), Fail> {
    assert!(rt; reads_worked(rt.alloc())?);
    Ok(())
}
