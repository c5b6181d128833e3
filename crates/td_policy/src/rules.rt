//! How far links are followed (OMG's Trading Object Service, "Link Follow Behavior").

ghost use Rattle.std.specs.Prelude.{◌≡◌};
ghost use Rattle.td_policy.specs.Rules.{lesser, follow, pass_on};

use crate::attributes::Attributes;
use crate::stated::Stated;
use td_value::FollowOption;

/// The rule that permits less. Takes no memory.
pub fn lesser(a: FollowOption, b: FollowOption) -> FollowOption
    ensures { result ≡ lesser a b }
{
    if b.number() < a.number() { b } else { a }
}

/// The rule by which a link with this limiting rule is followed: the least of the trader's maximum,
/// the limiting rule, and the rule that is stated or else the trader's default. Takes no memory.
pub fn follow(stated: &Stated, attributes: &Attributes, limiting: FollowOption) -> FollowOption
    ensures { result ≡ follow stated.now attributes.now limiting }
{
    let rule = stated.follow.unwrap_or(attributes.def_follow_policy);
    lesser(lesser(attributes.max_follow_policy, limiting), rule)
}

/// The rule that is passed on over a link: the least of the trader's maximum, the limiting rule and
/// the stated rule; where none is stated, the lesser of the maximum and the link's own rule for
/// passing on. Takes no memory.
pub fn pass_on(
    stated: &Stated,
    attributes: &Attributes,
    limiting: FollowOption,
    def_pass_on: FollowOption,
) -> FollowOption
    ensures { result ≡ pass_on stated.now attributes.now limiting def_pass_on }
{
    match stated.follow {
        Some(rule) => lesser(lesser(attributes.max_follow_policy, limiting), rule),
        None => lesser(attributes.max_follow_policy, def_pass_on),
    }
}
