//! All triples of rules for following links.

use crate::lines::{EMPTY, follows};
use crate::policies::stated_of;
use crate::telling::put_number;
use crate::words::{cut, rule_of};
use std::alloc::Global;
use std::test::Fail;
use td_cdr::Memory;
use td_policy::{Attributes, Stated, follow, pass_on};
use td_value::FollowOption;

/// The trader's maximum, the link's limiting rule and a third rule, as 0 for local_only, 1 for if_no_local, 2 for
/// always: by which rule the link is followed where the third is stated, and which is passed on; then the same where
/// none is stated, and the third is the trader's default and the link's own.
const RULES: &str = "follow 0 0 0 = 0 0 0 0
follow 0 0 1 = 0 0 0 0
follow 0 0 2 = 0 0 0 0
follow 0 1 0 = 0 0 0 0
follow 0 1 1 = 0 0 0 0
follow 0 1 2 = 0 0 0 0
follow 0 2 0 = 0 0 0 0
follow 0 2 1 = 0 0 0 0
follow 0 2 2 = 0 0 0 0
follow 1 0 0 = 0 0 0 0
follow 1 0 1 = 0 0 0 1
follow 1 0 2 = 0 0 0 1
follow 1 1 0 = 0 0 0 0
follow 1 1 1 = 1 1 1 1
follow 1 1 2 = 1 1 1 1
follow 1 2 0 = 0 0 0 0
follow 1 2 1 = 1 1 1 1
follow 1 2 2 = 1 1 1 1
follow 2 0 0 = 0 0 0 0
follow 2 0 1 = 0 0 0 1
follow 2 0 2 = 0 0 0 2
follow 2 1 0 = 0 0 0 0
follow 2 1 1 = 1 1 1 1
follow 2 1 2 = 1 1 1 2
follow 2 2 0 = 0 0 0 0
follow 2 2 1 = 1 1 1 1
follow 2 2 2 = 2 2 2 2";

#[test]
fn triples(rt: HostRuntime) -> Result<(), Fail> {
    follows(&rt, rt.alloc(), &EMPTY, RULES)
}

/// Tells the rules of `MAXIMUM LIMITING THIRD`.
pub(crate) fn follow_rules(
    alloc: Global,
    attributes: &mut Attributes,
    words: &str,
    content: &mut Vec<u8>,
) -> Result<(), Memory> {
    let (maximum, rest) = cut(words);
    let (limiting, third) = cut(rest);
    attributes.max_follow_policy = rule_of(maximum);
    attributes.def_follow_policy = rule_of(third);
    let policy = format!(in alloc; "link_follow_rule:rule:{third}")?;
    let limiting = rule_of(limiting);
    let stated = stated_of(alloc, policy.as_str())?;
    put_rules(
        alloc,
        content,
        stated.get(),
        attributes,
        limiting,
        FollowOption::Always,
    )?;
    let unstated = stated_of(alloc, "-")?;
    put_rules(
        alloc,
        content,
        unstated.get(),
        attributes,
        limiting,
        rule_of(third),
    )
}

/// The rule by which a link is followed, and the one that is passed on.
fn put_rules(
    alloc: Global,
    content: &mut Vec<u8>,
    stated: &Stated,
    attributes: &Attributes,
    limiting: FollowOption,
    own: FollowOption,
) -> Result<(), Memory> {
    let followed = follow(stated, attributes, limiting);
    let passed = pass_on(stated, attributes, limiting, own);
    put_number(alloc, content, Some(followed.number() as u64))?;
    put_number(alloc, content, Some(passed.number() as u64))
}
