//! What holds of all expressions, rankings and recipes, as functions that do nothing: each one's contract is the
//! law.

ghost use Rattle.std.specs.Prelude.{◌≡◌, ℕ, ◌≤◌, ◌++◌, List, length, Some, Ok};
ghost use Rattle.std.specs.List.{IsDistinct};
ghost use Rattle.std.specs.List.Sorted.{IsPermutation};
ghost use Rattle.std.specs.Str.{bytes_eq};
ghost use Rattle.td_lang.specs.declared.expr.Constraint.{Constraint};
ghost use Rattle.td_lang.specs.declared.expr.Constraint.TheVariants.{Is};
ghost use Rattle.td_lang.specs.declared.expr.Expr.{Expr};
ghost use Rattle.td_lang.specs.declared.expr.Expr.TheVariants.{Str};
ghost use Rattle.td_lang.specs.declared.expr.Part.{Part};
ghost use Rattle.td_lang.specs.declared.expr.Preference.{Preference};
ghost use Rattle.td_lang.specs.Constraints.{constraint_of};
ghost use Rattle.td_value.specs.declared.structures.Offer.{Offer};
ghost use Rattle.td_value.specs.declared.structures.Property.{Property};
ghost use Rattle.td_eval.specs.Expansion.{text_literal, expansion};
ghost use Rattle.td_eval.specs.Mentioning.{names_in, constraint_names, preference_names, names_asked, is_mentioned};
ghost use Rattle.td_eval.specs.Ranking.{IsArranged, IsRanked};
ghost use Rattle.td_eval.specs.Reading.{Agree, HasNone};
ghost use Rattle.td_eval.specs.Values.{matches_constraint, simple_value};

/// An expression's value rests on the properties alone whose names it mentions.
#[tactic(auto, using(crate::proofs::Agreeing::reads))]
pub fn values_rest_on_the_names()
    ensures { (m n : List Property) (e : Expr) → Agree m n (names_in e) → simple_value m e
        ≡ simple_value n e }
{}

/// Whether a constraint matches doesn't change by properties that stand behind the others under names that it
/// doesn't mention.
#[tactic(auto, using(crate::proofs::Further::further))]
pub fn further_properties_change_nothing()
    ensures { (c : Constraint) (m more : List Property) → HasNone more (constraint_names c)
        → matches_constraint (m ++ more) c ≡ matches_constraint m c }
{}

/// The names that are asked for stand there once each, and are just those that the constraint or the preference
/// mentions.
pub fn names_are_asked_once()
    ensures once { (c : Constraint) (p : Preference) → IsDistinct bytes_eq (names_asked c p) }
    ensures mentioned { (c : Constraint) (p : Preference) (name : List ℕ) →
        is_mentioned name (names_asked c p)
        ≡ is_mentioned name (constraint_names c ++ preference_names p) }
{}

/// No offer is lost or made by a ranking.
#[tactic(auto, using(crate::proofs::Arranged::same_offers))]
pub fn rankings_keep_the_offers()
    ensures { (p : Preference) (word : ℕ → ℕ) (offers ranked : List Offer)
        → IsRanked p word offers ranked → IsPermutation offers ranked }
{}

/// An expansion has at most 65,536 bytes.
#[tactic(auto, using(crate::proofs::Literals::expansion_is_short))]
pub fn expansions_are_short()
    ensures { (asked : List ℕ) (map : List Property) (parts : List Part) (text : List ℕ)
        → expansion asked map parts ≡ Some text → length text ≤ 65536 }
{}

/// The literal of a text is read as that text.
#[tactic(auto, using(crate::proofs::Literals::literal_is_read))]
pub fn literals_are_read()
    ensures { (t : List ℕ) → length (text_literal t) ≤ 4096 → constraint_of (text_literal t)
        ≡ Ok (Is (Str t)) }
{}

/// No two arrangements of the same offers are in order and leave ties as they stood.
pub fn arrangements_are_one()
    ensures { (p : Preference) (offers xs ys : List Offer) → IsArranged p offers xs
        → IsArranged p offers ys → xs ≡ ys }
{}
