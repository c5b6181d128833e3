//! What holds of policies, whatever they are (OMG's Trading Object Service, "Policies").

ghost use Rattle.std.specs.Prelude.{◌≡◌, ◌≤◌, ℕ, Bool, List, [], ◌∷◌, ◌++◌, length, map, reverse, Err};
ghost use Rattle.td_value.specs.declared.enumerations.FollowOption.{FollowOption};
ghost use Rattle.td_value.specs.declared.structures.Policy.{Policy};
ghost use Rattle.td_policy.specs.Effective.{effective_of};
ghost use Rattle.td_policy.specs.Laws.{FollowedIsBounded, PassedOnIsBounded, EachStatesItsField};
ghost use Rattle.td_policy.specs.Stated.{next_stated, stated, stated_value};
ghost use Rattle.td_policy.specs.Values.{truth, number, rule, texts, octets, policy};
ghost use Rattle.td_policy.specs.declared.attributes.Attributes.{Attributes};
ghost use Rattle.td_policy.specs.declared.fault.PolicyFault.{PolicyFault};
ghost use Rattle.td_policy.specs.declared.fault.PolicyFault.TheVariants.{Memory as memory};
ghost use Rattle.td_policy.specs.declared.stated.Stated.{Stated};

/// What a query is served with is never above the trader's maximum.
pub fn effective_values_are_bounded()
    ensures hops { (s : Stated) (a : Attributes) → (effective_of s a).hops ≤ a.max_hop_count }
    ensures match_card { (s : Stated) (a : Attributes) → (effective_of s a).match_card
        ≤ a.max_match_card }
    ensures return_card { (s : Stated) (a : Attributes) → (effective_of s a).return_card
        ≤ a.max_return_card }
    ensures search_card { (s : Stated) (a : Attributes) → (effective_of s a).search_card
        ≤ a.max_search_card }
{}

/// The rule by which a link is followed permits no more than the trader's maximum, the link's
/// limiting rule and the rule that is stated.
pub fn followed_rules_are_bounded()
    ensures { (s : Stated) (a : Attributes) (limiting : FollowOption)
        → FollowedIsBounded s a limiting }
{}

/// The rule that is passed on permits no more than the trader's maximum; where a rule is stated, no
/// more than that and the link's limiting rule; where none is, no more than the link's own rule for
/// passing on.
pub fn passed_on_rules_are_bounded()
    ensures { (s : Stated) (a : Attributes) (limiting own : FollowOption)
        → PassedOnIsBounded s a limiting own }
{}

/// The first bad policy decides, whatever follows it; and behind good policies a further one is
/// judged by what stands before it.
pub fn the_first_bad_policy_decides()
    ensures first { (ps after : List Policy) (f : PolicyFault) → stated ps ≡ Err f
        → stated (ps ++ after) ≡ Err f }
    ensures next { (ps : List Policy) (s : Stated) (p : Policy) → stated ps ≡ Ok s
        → stated (ps ++ p ∷ []) ≡ next_stated (reverse (map (λ (q : Policy). q.name) ps)) s p }
{}

/// A policy that this crate wrote is read as the value that it was written from.
pub fn written_policies_are_read_back()
    ensures truth { (name : List ℕ) (b : Bool) → stated_value truth (policy truth name b)
        ≡ Ok (Some b) }
    ensures number { (name : List ℕ) (n : ℕ) → stated_value number (policy number name n)
        ≡ Ok (Some n) }
    ensures rule { (name : List ℕ) (r : FollowOption) → stated_value rule (policy rule name r)
        ≡ Ok (Some r) }
    ensures texts { (name : List ℕ) (xs : List (List ℕ)) (most : ℕ) → length xs ≤ most
        → stated_value (texts most) (policy (texts most) name xs) ≡ Ok (Some xs) }
    ensures octets { (name : List ℕ) (xs : List ℕ) (most : ℕ) → length xs ≤ most
        → stated_value (octets most) (policy (octets most) name xs) ≡ Ok (Some xs) }
{}

/// Each policy states the field of its name, and no other.
pub fn each_policy_states_its_field()
    ensures { EachStatesItsField }
{}

/// As it is defined, a list of policies states something, or an exception refuses it: running out of memory is
/// the code's alone.
pub fn policies_never_run_out_of_memory()
    ensures { (ps : List Policy) → stated ps ≡ Err memory → ⊥ }
{}
