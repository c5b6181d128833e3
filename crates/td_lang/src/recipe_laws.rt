//! What holds of all recipes, as a function that does nothing: its contract is the law.

ghost use Rattle.std.specs.Prelude.{◌≡◌, ◌≢◌, ◌≤◌, ◌⊎◌, ◌↔◌, ℕ, [], ◌∷◌, List, Some, get_or, length};
ghost use Rattle.td_lang.specs.declared.expr.Part.{Part};
ghost use Rattle.td_lang.specs.Recipes.{BeginsNone, SpellsParts, IsRefusedAt, recipe_of};

/// The recipe of a text is the parts that it spells, where it isn't too long. No text has two recipes, or is
/// refused at two places, or both; and where no part begins, there is a `\` that ends the text, or a `$`.
pub fn recipes_are_read()
    ensures spelled { (text : List ℕ) (ps : List Part) →
        recipe_of text ≡ Some ps ↔ (length text ≤ 4096) × SpellsParts ps text }
    ensures one_recipe { (ps qs : List Part) (text : List ℕ) → SpellsParts ps text
        → SpellsParts qs text → ps ≡ qs }
    ensures one_place { (text : List ℕ) (m n : ℕ) → IsRefusedAt text m → IsRefusedAt text n
        → m ≡ n }
    ensures not_both { (text : List ℕ) (place : ℕ) (ps : List Part) → IsRefusedAt text place
        → SpellsParts ps text → ⊥ }
    ensures byte { (rest : List ℕ) → rest ≢ [] → BeginsNone rest → (rest ≡ 92 ∷ [])
        ⊎ (get_or rest 0 0 ≡ 36) }
{}
