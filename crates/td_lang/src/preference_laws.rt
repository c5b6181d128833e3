//! What holds of all preferences, as functions that do nothing: each one's contract is the law.

ghost use Rattle.std.specs.Prelude.{◌≡◌, ℕ, List, Result};
ghost use Rattle.td_lang.specs.declared.expr.Preference.{Preference};
ghost use Rattle.td_lang.specs.declared.fault.LangFault.{LangFault};
ghost use Rattle.td_lang.specs.declared.token.Token.{Token};
ghost use Rattle.td_lang.specs.Preferences.{IsPreference, Prefers, preference_of};

/// Each text is a preference or has a first fault, by the grammar, and `read_preference` finds it. No text
/// has two of these, and no list of tokens is two preferences.
pub fn preferences_are_read()
    ensures found { (text : List ℕ) → Prefers text (preference_of text) }
    ensures one_answer { (text : List ℕ) (r q : Result Preference LangFault) → Prefers text r
        → Prefers text q → r ≡ q }
    ensures one_preference { (ts : List Token) (p q : Preference) → IsPreference ts p
        → IsPreference ts q → p ≡ q }
{}
