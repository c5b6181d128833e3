//! What is answered, in words.

use crate::values::counted;
use td_cdr::{Memory, Octets, Text};
use td_exceptions::{UserException, user_id};
use td_ops::{Outcome, Reply, SystemKind};
use td_store::Local;
use td_trader::Begin;
use td_value::{FollowOption, IncarnationNumber, LinkInfo, OfferInfo, Property, ProxyInfo};

/// Whether an outcome is this: a reply in words, what stands in an exception's id behind `IDL:omg.org/CosTrading`, or
/// the name of a system exception.
pub fn is_outcome(outcome: &Outcome, content: &str) -> bool {
    match outcome {
        Outcome::Done(reply) => is_reply(reply, content),
        Outcome::User(exception) => is_raised(exception, content),
        Outcome::System { kind, .. } => is_system(*kind, content),
    }
}

fn is_system(kind: SystemKind, content: &str) -> bool {
    match kind {
        SystemKind::NoImplement => content == "NO_IMPLEMENT",
        SystemKind::ImpLimit => content == "IMP_LIMIT",
        _ => false,
    }
}

/// Behind the id of InvalidPolicyValue stands the policy's name.
fn is_raised(exception: &UserException, content: &str) -> bool {
    let (id, name) = content.split_once(' ').unwrap_or((content, ""));
    let policy = match exception {
        UserException::InvalidPolicyValue { policy } => policy.get().name.as_slice(),
        _ => b"".as_slice(),
    };
    let behind = user_id(exception).strip_prefix(b"IDL:omg.org/CosTrading");
    behind.unwrap_or(b"") == id.as_bytes() && policy == name.as_bytes()
}

/// Whether a reply is this: a word for its kind and what it holds, or a word alone.
pub fn is_reply(reply: &Reply, content: &str) -> bool {
    let (word, rest) = content.split_once(' ').unwrap_or((content, ""));
    let (kind, is_held) = match reply {
        Reply::Nothing => ("done", rest.is_empty()),
        Reply::Truth(true) => ("TRUE", rest.is_empty()),
        Reply::Truth(false) => ("FALSE", rest.is_empty()),
        Reply::Follow(rule) => (rule_name(*rule), rest.is_empty()),
        Reply::Id(id) => ("id", id.as_slice() == rest.as_bytes()),
        Reply::Number(number) => ("number", is_number(*number, rest)),
        Reply::Stem(octets) => ("stem", are_octets(octets.as_slice(), rest)),
        Reply::Incarnation(number) => ("incarnation", is_incarnation(number, rest)),
        Reply::Names(names) => ("names", are_names(names.as_slice(), rest)),
        Reply::Ids { ids, .. } => ("ids", are_names(ids.as_slice(), rest)),
        Reply::Offer(info) => ("offer", is_offer(info, rest)),
        Reply::Proxy(info) => ("proxy", is_proxy(info.get(), rest)),
        Reply::Link(info) => ("rules", has_rules(info, rest)),
        Reply::Typed(described) => ("type", described.if_name.as_slice() == rest.as_bytes()),
        _ => ("", false),
    };
    kind == word && is_held
}

fn is_number(number: u32, content: &str) -> bool {
    content.parse::<u32>() == Ok(number)
}

fn rule_name(rule: FollowOption) -> &'static str {
    match rule {
        FollowOption::LocalOnly => "local_only",
        FollowOption::IfNoLocal => "if_no_local",
        FollowOption::Always => "always",
    }
}

/// Whether octets are those of a word, as often as it says.
fn are_octets(octets: &[u8], word: &str) -> bool {
    let (word, count) = counted(word);
    let bytes = word.as_bytes();
    let mut rest = octets;
    for _ in 0..count {
        match rest.strip_prefix(bytes) {
            Some(behind) => rest = behind,
            None => return false,
        }
    }
    rest.is_empty()
}

fn is_incarnation(number: &IncarnationNumber, low: &str) -> bool {
    number.high == 0 && is_number(number.low, low)
}

fn are_names(names: &[Text], words: &str) -> bool {
    if words.is_empty() {
        return names.is_empty();
    }
    let mut left = words.split(' ');
    for name in names {
        if name.as_slice() != left.next().unwrap_or("").as_bytes() {
            return false;
        }
    }
    left.next().is_none()
}

fn have_names(properties: &[Property], words: &str) -> bool {
    if words.is_empty() {
        return properties.is_empty();
    }
    let mut left = words.split(' ');
    for property in properties {
        if property.name.as_slice() != left.next().unwrap_or("").as_bytes() {
            return false;
        }
    }
    left.next().is_none()
}

/// `TYPE;PROPERTIES`
fn is_offer(info: &OfferInfo, content: &str) -> bool {
    let (service_type, properties) = content.split_once(';').unwrap_or((content, ""));
    info.service_type.as_slice() == service_type.as_bytes()
        && have_names(info.properties.as_slice(), properties)
}

/// `TYPE;RECIPE` of one that matches whatever is asked.
fn is_proxy(info: &ProxyInfo, content: &str) -> bool {
    let (service_type, recipe) = content.split_once(';').unwrap_or((content, ""));
    info.service_type.as_slice() == service_type.as_bytes()
        && info.recipe.as_slice() == recipe.as_bytes()
        && info.if_match_all
}

/// `DEFAULT LIMITING`
fn has_rules(info: &LinkInfo, content: &str) -> bool {
    let (def_pass_on, limiting) = content.split_once(' ').unwrap_or((content, ""));
    rule_name(info.def_pass_on_follow_rule) == def_pass_on
        && rule_name(info.limiting_follow_rule) == limiting
}

/// Whether a query begins so: an outcome that refuses it, `repeat MARK`, `path LINK IDENTIFIER`, or
/// `search IDENTIFIER MARK POINT OFFERS LINKS OVER` with how many offers and links are searched and how many policies
/// are above their maximum.
pub fn is_begun(answer: Result<Begin, Memory>, content: &str) -> bool {
    let begun = match &answer {
        Ok(begin) => begins_so(begin, content),
        Err(_) => false,
    };
    drop(answer);
    begun
}

fn begins_so(begin: &Begin, content: &str) -> bool {
    let (word, rest) = content.split_once(' ').unwrap_or((content, ""));
    match begin {
        Begin::Refused(outcome) => is_outcome(outcome.get(), content),
        Begin::Repeat(mark) => word == "repeat" && rest.parse::<u64>() == Ok(*mark),
        Begin::Search(local) => word == "search" && is_search(local.get(), rest),
        Begin::Path(local) => word == "path" && is_path(local.get(), rest),
    }
}

/// The identifier, the mark, the point, and how many offers and links are searched and policies above their maximum.
fn is_search(local: &Local, content: &str) -> bool {
    let (identifier, numbers) = content.split_once(' ').unwrap_or((content, ""));
    let mut words = numbers.split(' ');
    for number in [
        local.mark,
        local.point,
        local.candidates.len() as u64,
        local.links.len() as u64,
        local.effective.over.len() as u64,
    ] {
        if words.next().unwrap_or("").parse::<u64>() != Ok(number) {
            return false;
        }
    }
    words.next().is_none() && local.path.is_none() && has_identifier(&local.identifier, identifier)
}

/// The link and the identifier. A path is neither marked nor searched.
fn is_path(local: &Local, content: &str) -> bool {
    let (name, identifier) = content.split_once(' ').unwrap_or((content, ""));
    match &local.path {
        Some(link) => link.name.as_slice() == name.as_bytes()
            && has_identifier(&local.identifier, identifier)
            && local.candidates.is_empty()
            && local.links.is_empty()
            && local.mark == 0,
        None => false,
    }
}

/// An identifier in words: `-` none, `#NUMBER` the stem `A` and this value, or its octets.
fn has_identifier(identifier: &Option<Octets>, word: &str) -> bool {
    match (identifier, word.strip_prefix('#')) {
        (Some(octets), Some(value)) => is_made(octets.as_slice(), value),
        (Some(octets), None) => are_octets(octets.as_slice(), word),
        (None, _) => word == "-",
    }
}

fn is_made(octets: &[u8], value: &str) -> bool {
    match octets.strip_prefix(b"A\0\0\0\0\0\0\0") {
        Some([last]) => value.parse::<u8>() == Ok(*last),
        _ => false,
    }
}
