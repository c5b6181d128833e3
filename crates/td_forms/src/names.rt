//! The words for truth values, for property modes and for rules of following links.

ghost use Rattle.std.specs.Prelude.{◌≡◌};
ghost use Rattle.td_forms.specs.Words.{mode_named, rule_named, truth_named};

use td_value::{FollowOption, PropertyMode};

/// The truth value that a word stands for: `TRUE` or `FALSE`.
pub fn truth_named(word: &[u8]) -> Option<bool>
    ensures { result ≡ truth_named word.now }
{
    if word == b"TRUE".as_slice() {
        Some(true)
    } else if word == b"FALSE".as_slice() {
        Some(false)
    } else {
        None
    }
}

/// The mode that a word stands for: `normal`, `readonly`, `mandatory` or `mandatory_readonly`.
pub fn mode_named(word: &[u8]) -> Option<PropertyMode>
    ensures { result ≡ mode_named word.now }
{
    if word == b"normal".as_slice() {
        Some(PropertyMode::Normal)
    } else if word == b"readonly".as_slice() {
        Some(PropertyMode::Readonly)
    } else if word == b"mandatory".as_slice() {
        Some(PropertyMode::Mandatory)
    } else if word == b"mandatory_readonly".as_slice() {
        Some(PropertyMode::MandatoryReadonly)
    } else {
        None
    }
}

/// The rule that a word stands for: `local_only`, `if_no_local` or `always`.
pub fn rule_named(word: &[u8]) -> Option<FollowOption>
    ensures { result ≡ rule_named word.now }
{
    if word == b"local_only".as_slice() {
        Some(FollowOption::LocalOnly)
    } else if word == b"if_no_local".as_slice() {
        Some(FollowOption::IfNoLocal)
    } else if word == b"always".as_slice() {
        Some(FollowOption::Always)
    } else {
        None
    }
}
