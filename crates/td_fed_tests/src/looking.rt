//! What looks at traders are answered with, in words.

use crate::words::{rule_of, text, two};
use std::alloc::Global;
use td_cdr::{Memory, Text};
use td_exceptions::UserException;
use td_ior::{Iiop, IorFault, iiop_of};
use td_ops::{Attribute, Look, NumberAttribute, Outcome, ReferenceAttribute, Reply};
use td_trader::Trader;
use td_value::{Ior, LinkInfo, OfferInfo, ProxyInfo, SpecifiedServiceTypes, is_dynamic};
use td_walk::Address;

// ---- looks

/// The attribute of this name; any other is max_list.
fn attribute(name: &str) -> Attribute {
    match name {
        "lookup_if" => Attribute::Reference(ReferenceAttribute::LookupIf),
        "register_if" => Attribute::Reference(ReferenceAttribute::RegisterIf),
        "link_if" => Attribute::Reference(ReferenceAttribute::LinkIf),
        "proxy_if" => Attribute::Reference(ReferenceAttribute::ProxyIf),
        "admin_if" => Attribute::Reference(ReferenceAttribute::AdminIf),
        "type_repos" => Attribute::Reference(ReferenceAttribute::TypeRepos),
        "request_id_stem" => Attribute::RequestIdStem,
        _ => Attribute::Number(NumberAttribute::MaxList),
    }
}

/// A look at what has this id or name.
fn named_look(word: &str, name: Text) -> Look {
    match word {
        "offer" => Look::Describe { id: name },
        "proxy" => Look::DescribeProxy { id: name },
        _ => Look::DescribeLink { name },
    }
}

fn look(alloc: Global, words: &str) -> Result<Look, Memory> {
    let (word, rest) = words.split_once(' ').unwrap_or((words, ""));
    match word {
        "links" => Ok(Look::ListLinks),
        "offers" => Ok(Look::ListOffers { how_many: 1 }),
        "proxies" => Ok(Look::ListProxies { how_many: 1 }),
        "types" => Ok(Look::ListTypes {
            which: SpecifiedServiceTypes::All,
        }),
        "get" => Ok(Look::Get(attribute(rest))),
        _ => Ok(named_look(word, text(alloc, rest)?)),
    }
}

fn is_answer(alloc: Global, answer: Result<(Outcome, u32), Memory>, content: &str) -> bool {
    let passed = match &answer {
        Ok((outcome, _max_list)) => is_outcome(alloc, outcome, content),
        Err(_) => false,
    };
    drop(answer);
    passed
}

/// Whether a trader answers so to the look of these words.
pub(crate) fn tells(alloc: Global, trader: &Trader, words: &str, content: &str) -> bool {
    match look(alloc, words) {
        Ok(look) => {
            let passed = is_answer(alloc, trader.look(&look), content);
            drop(look);
            passed
        }
        Err(_) => false,
    }
}

// ---- answers

/// Whether an outcome is this: what a reply holds, or a word for an exception.
pub(crate) fn is_outcome(alloc: Global, outcome: &Outcome, content: &str) -> bool {
    match outcome {
        Outcome::Done(reply) => is_reply(alloc, reply, content),
        Outcome::User(exception) => is_raised(exception, content),
        Outcome::System { .. } => false,
    }
}

fn is_raised(exception: &UserException, content: &str) -> bool {
    match exception {
        UserException::UnknownTraderName { .. } => content == "unknown",
        UserException::IllegalTraderName { .. } => content == "illegal",
        UserException::NotImplemented => content == "unsupported",
        _ => false,
    }
}

fn is_reply(alloc: Global, reply: &Reply, content: &str) -> bool {
    match reply {
        Reply::Reference(reference) => is_object(alloc, reference, content),
        Reply::Link(info) => is_link(alloc, info, content),
        Reply::Stem(octets) => are_octets(octets.as_slice(), content),
        Reply::Number(number) => content.parse::<u32>() == Ok(*number),
        Reply::Offer(info) => is_offer(info, content),
        Reply::Proxy(info) => is_proxy(info.get(), content),
        Reply::Names(names) => is_count(names.len(), content),
        Reply::Ids { ids, .. } => is_count(ids.len(), content),
        _ => false,
    }
}

fn is_count(count: usize, content: &str) -> bool {
    content.parse::<usize>() == Ok(count)
}

/// Whether octets are these numbers.
pub(crate) fn are_octets(octets: &[u8], content: &str) -> bool {
    let mut numbers = content.split(' ');
    for octet in octets {
        if numbers.next().unwrap_or("").parse::<u8>() != Ok(*octet) {
            return false;
        }
    }
    numbers.next().is_none()
}

/// Whether a port is this, with the minor version of IIOP behind a slash where it isn't 0.
fn is_port(port: u16, minor: u8, content: &str) -> bool {
    let (number, version) = content.split_once('/').unwrap_or((content, "0"));
    number.parse::<u16>() == Ok(port) && version.parse::<u8>() == Ok(minor)
}

/// Whether an address is `HOST PORT`.
pub(crate) fn is_home(home: &Address, content: &str) -> bool {
    let (host, port) = content.split_once(' ').unwrap_or((content, ""));
    home.host.as_slice() == host.as_bytes() && is_port(home.port, home.minor, port)
}

/// Whether a profile is `HOST PORT KEY`; where there is none, nothing is told.
fn is_at(profile: Result<Iiop, IorFault>, content: &str) -> bool {
    let (host, rest) = content.split_once(' ').unwrap_or((content, ""));
    let (port, key) = rest.split_once(' ').unwrap_or((rest, ""));
    let passed = match &profile {
        Ok(found) => found.host.as_slice() == host.as_bytes()
            && is_port(found.port, found.minor, port)
            && found.key.as_slice() == key.as_bytes(),
        Err(_) => content.is_empty(),
    };
    drop(profile);
    passed
}

/// Whether a reference is `ID HOST PORT KEY`; nothing is told of one without an id and a profile.
fn is_object(alloc: Global, reference: &Ior, content: &str) -> bool {
    let (id, place) = content.split_once(' ').unwrap_or((content, ""));
    reference.id.as_slice() == id.as_bytes() && is_at(iiop_of(alloc, reference), place)
}

/// Whether a link is `TARGET;REGISTER;DEFAULT LIMITING`.
fn is_link(alloc: Global, info: &LinkInfo, content: &str) -> bool {
    let (target, rest) = two(content);
    let (register, rules) = two(rest);
    is_object(alloc, &info.target, target)
        && is_object(alloc, &info.target_reg, register)
        && has_rules(info, rules)
}

fn has_rules(info: &LinkInfo, content: &str) -> bool {
    let (def_pass_on, limiting) = content.split_once(' ').unwrap_or((content, ""));
    info.def_pass_on_follow_rule == rule_of(def_pass_on)
        && info.limiting_follow_rule == rule_of(limiting)
}

/// Whether an offer has this type and two properties, of which the second is evaluated.
fn is_offer(info: &OfferInfo, content: &str) -> bool {
    match info.properties.as_slice() {
        [stated, evaluated] => {
            info.service_type.as_slice() == content.as_bytes()
                && !is_dynamic(&stated.value.code)
                && is_dynamic(&evaluated.value.code)
        }
        _ => false,
    }
}

/// Whether a proxy offer is `TYPE;RECIPE`, matches by one property, and has no policies.
fn is_proxy(info: &ProxyInfo, content: &str) -> bool {
    let (service_type, recipe) = two(content);
    info.service_type.as_slice() == service_type.as_bytes()
        && info.recipe.as_slice() == recipe.as_bytes()
        && !info.if_match_all
        && info.properties.len() == 1
        && info.policies_to_pass_on.len() == 0
}
