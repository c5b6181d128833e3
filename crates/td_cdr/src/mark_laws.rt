//! What holds of the marks by which a trader remembers the identifiers of queries (Trading Object Service, the policy
//! request_id of a query), as functions that do nothing: each one's contract is the law.

ghost use Rattle.std.specs.Prelude.{◌≡◌, ℕ, ◌+◌, ◌^◌, ◌<◌, ◌≤◌, ◌⊎◌, List, Some, None};
ghost use Rattle.td_cdr.specs.Marks.{Marks, RemembersAs, remembered, KeepsLatest, add_mark, made_identifier, Later};
ghost use Rattle.td_cdr.specs.Marks.{IsMarkedFrom};

/// An identifier is remembered under a number exactly where it is among the marks that are kept.
#[tactic(auto, using(crate::proofs::Marking::is_held, crate::proofs::Marking::is_not_held))]
pub fn the_kept_are_remembered()
    ensures held { (m : Marks) (i : List ℕ) (n : ℕ) → remembered m i ≡ Some n → RemembersAs m i n }
    ensures not_held { (m : Marks) (i : List ℕ) → remembered m i ≡ None → (n : ℕ)
        → RemembersAs m i n
        → ⊥ }
{}

/// A mark of an identifier that isn't remembered: the marks are later then and in order, and the mark is new.
pub fn marks_follow()
    ensures { (m : Marks) (i : List ℕ) (c : ℕ) → KeepsLatest m → m.counter ≤ c
        → ((n : ℕ) → RemembersAs m i n → ⊥) → IsMarkedFrom m (add_mark m i c) }
{}

/// What is remembered behind one more mark: that one with the next number, no other that wasn't, and each that there
/// is room for.
pub fn one_more_is_remembered()
    ensures new { (m : Marks) (i : List ℕ) (c : ℕ) → RemembersAs (add_mark m i c) i (m.count + 1) }
    ensures others { (m : Marks) (i j : List ℕ) (c n : ℕ) →
        RemembersAs (add_mark m i c) j n → RemembersAs m j n ⊎ ((i ≡ j) × (m.count + 1 ≡ n)) }
    ensures kept { (m : Marks) (i j : List ℕ) (c n : ℕ) →
        KeepsLatest m → m.count + 1 < n + m.ring → RemembersAs m j n
        → RemembersAs (add_mark m i c) j n }
{}

/// Marks are later than themselves, and later on is later.
#[tactic(auto, using(crate::proofs::Marking::later_itself, crate::proofs::Marking::later_on))]
pub fn later_is_an_order()
    ensures itself { (a : Marks) → Later a a }
    ensures on { (a b c : Marks) → Later a b → Later b c → Later a c }
{}

/// Two values of a trader's counter make two identifiers, whatever the stems.
#[tactic(auto, using(crate::proofs::Marking::made_apart))]
pub fn made_identifiers_differ()
    ensures { (s t : List ℕ) (k l : ℕ) → k < 256 ^ 8 → l < 256 ^ 8
        → made_identifier s k ≡ made_identifier t l → k ≡ l }
{}
