//! Links by their names.

use crate::lines::{EMPTY, follows};
use crate::making::{reference, shared};
use crate::telling::{put, put_names, put_number, put_text};
use crate::words::{cut, rule_of, text};
use std::alloc::Global;
use std::test::Fail;
use td_cdr::{Memory, Twin};
use td_store::{LinkRecord, Links, StoreFault};
use td_value::FollowOption;

/// 1,024 links are added, in order, and no one more.
const LIMIT: &str = "each 0 1024 link l# = added
link l1024 = Full
how_many_links = 1024 l1023";

#[test]
fn as_many_as_may_be(rt: HostRuntime) -> Result<(), Fail> {
    follows(&rt, rt.alloc(), &EMPTY, LIMIT)
}

/// One in the middle is removed: the others stay in order, and its name may be added again, at the end.
const REMOVALS: &str = "each 0 4 link l# = added
link l1 = exists
unlink l1 = l1
unlink l1 = none
links = l0,l2,l3
link l1 = added
links = l0,l2,l3,l1";

#[test]
fn removing(rt: HostRuntime) -> Result<(), Fail> {
    follows(&rt, rt.alloc(), &EMPTY, REMOVALS)
}

/// A link's rules change in its place, and no other link's.
const RULES: &str = "each 0 2 link l# = added
rules l0 0 1 =
link_of l0 = l0 L R 0 1
link_of l1 = l1 L R 1 2
links = l0,l1";

#[test]
fn other_rules(rt: HostRuntime) -> Result<(), Fail> {
    follows(&rt, rt.alloc(), &EMPTY, RULES)
}

#[test]
fn copies(rt: HostRuntime) -> Result<(), Fail> {
    follows(
        &rt,
        rt.alloc(),
        &EMPTY,
        "link l7 = added\ncopied_link l7 = l7 L R 1 2",
    )
}

/// Adds a link of this name, unless there is one.
pub(crate) fn link(
    alloc: Global,
    links: &mut Links,
    name: &str,
    number: u64,
    content: &mut Vec<u8>,
) -> Result<(), Memory> {
    let link = link_named(alloc, name, number)?;
    if links.get(&link.name).is_some() {
        drop(link);
        return put(content, b"exists");
    }
    match links.insert(alloc, link) {
        Ok(()) => put(content, b"added"),
        Err(StoreFault::Full) => put(content, b"Full"),
        Err(StoreFault::Memory) => Err(Memory),
    }
}

fn link_named(alloc: Global, name: &str, number: u64) -> Result<LinkRecord, Memory> {
    let name = shared(alloc, text(alloc, name, number))?;
    let target = shared(alloc, reference(alloc, "L"))?;
    let register = shared(alloc, reference(alloc, "R"))?;
    Ok(LinkRecord {
        name,
        target,
        register,
        def_pass_on: FollowOption::IfNoLocal,
        limiting: FollowOption::Always,
    })
}

/// Takes the link of a name away, or gives it the two rules behind the name.
pub(crate) fn change_link(
    alloc: Global,
    links: &mut Links,
    word: &str,
    rest: &str,
    content: &mut Vec<u8>,
) -> Result<(), Memory> {
    let (name, rules) = cut(rest);
    let name = text(alloc, name, 0)?;
    if word == "rules" {
        let (def_pass_on, limiting) = cut(rules);
        links.set_rules(&name, rule_of(def_pass_on), rule_of(limiting));
        return Ok(());
    }
    match links.remove(&name) {
        None => put_text(content, None),
        Some(link) => put_text(content, Some(link.name.get())),
    }
}

/// Tells the names of the links, or how many there are and the last one.
pub(crate) fn see_links(
    alloc: Global,
    links: &Links,
    word: &str,
    content: &mut Vec<u8>,
) -> Result<(), Memory> {
    let names = links.names(alloc)?;
    if word == "links" {
        return put_names(content, names.as_slice());
    }
    put_number(alloc, content, Some(names.len() as u64))?;
    put_text(content, names.as_slice().last())
}

/// Tells what the link of a name has, or what a copy of it has.
pub(crate) fn see_link(
    alloc: Global,
    links: &Links,
    word: &str,
    name: &str,
    content: &mut Vec<u8>,
) -> Result<(), Memory> {
    let name = text(alloc, name, 0)?;
    match links.get(&name) {
        None => put(content, b"none"),
        Some(link) => {
            if word == "link_of" {
                return put_link(alloc, content, link);
            }
            let twin = link.copy(alloc)?;
            put_link(alloc, content, &twin)
        }
    }
}

/// The name, the ids of the Lookup and of the Register, and both rules.
fn put_link(alloc: Global, content: &mut Vec<u8>, link: &LinkRecord) -> Result<(), Memory> {
    put(content, link.name.as_slice())?;
    put(content, link.target.id.as_slice())?;
    put(content, link.register.id.as_slice())?;
    put_number(alloc, content, Some(link.def_pass_on.number() as u64))?;
    put_number(alloc, content, Some(link.limiting.number() as u64))
}
