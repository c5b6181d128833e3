//! What holds of all that is printed, as functions that do nothing: each one's contract is the law.

ghost use Rattle.std.specs.Prelude.{◌≡◌, ℕ, List, [], Ok};
ghost use Rattle.td_lang.specs.declared.expr.Expr.{Expr};
ghost use Rattle.td_lang.specs.declared.expr.Constraint.{Constraint};
ghost use Rattle.td_lang.specs.declared.expr.Preference.{Preference};
ghost use Rattle.td_lang.specs.Constraints.{constraint_of};
ghost use Rattle.td_lang.specs.Grammar.{Phrase, IsOfLevel, Shallow, tree};
ghost use Rattle.td_lang.specs.Preferences.{preference_of};
ghost use Rattle.td_lang.specs.PrintedTexts.{constraint_text, preference_text, IsReadAs, ConstraintCanBeRead};
ghost use Rattle.td_lang.specs.PrintedTexts.{PreferenceCanBeRead};
ghost use Rattle.td_lang.specs.Printing.{phrase_of, IsTight};

/// What is printed is read as the same tree, where it is short, its names are identifiers, its numbers
/// have a size below 2^63, and few enough parentheses are open. Each tree that was read is such a tree.
pub fn printed_is_read()
    ensures constraint { (c : Constraint) → ConstraintCanBeRead c
        → IsReadAs constraint_of (constraint_text c) c }
    ensures preference { (p : Preference) → PreferenceCanBeRead p
        → IsReadAs preference_of (preference_text p) p }
    ensures read_constraint { (text : List ℕ) (c : Constraint) → constraint_of text ≡ Ok c
        → ConstraintCanBeRead c }
    ensures read_preference { (text : List ℕ) (p : Preference) → preference_of text ≡ Ok p
        → PreferenceCanBeRead p }
{}

/// The phrase that is printed is in the grammar and has the tree. It is the only such phrase of which no
/// pair of parentheses could be left out, and no phrase of the tree has fewer of them open at once.
pub fn printed_has_least()
    ensures fits { (e : Expr) → IsOfLevel 1 (phrase_of e 1) }
    ensures same { (e : Expr) → tree (phrase_of e 1) ≡ e }
    ensures tight { (e : Expr) → IsTight 1 (phrase_of e 1) }
    ensures only { (c : Phrase) → IsOfLevel 1 c → IsTight 1 c → c ≡ phrase_of (tree c) 1 }
    ensures least { (c : Phrase) (most : ℕ) → IsOfLevel 1 c → Shallow most c
        → Shallow most (phrase_of (tree c) 1) }
{}
