//! Laws of the desk: public functions with empty bodies whose contracts are proved for all values.

ghost use Rattle.std.specs.Prelude.{◌≡◌, ◌≢◌, ℕ, List, [], ◌∷◌, ◌++◌, Some, map, take, slice_get, slice_index_or};
ghost use Rattle.td_cdr.specs.Marks.{In};
ghost use Rattle.td_desk.specs.Examples.{WorkedTurns};
ghost use Rattle.td_desk.specs.Giving.{IsFrontOfList, PutOthers, IteratorItem, given, places_at, places_through};
ghost use Rattle.td_desk.specs.Giving.{things_of};
ghost use Rattle.td_desk.specs.Standings.{empty_desk, state_after};
ghost use Rattle.td_desk.specs.declared.event.Event.{Event as Done};
ghost use Rattle.td_desk.specs.declared.event.Event.TheVariants.{Draw, Add};
ghost use Rattle.td_desk.specs.Acting.{ExtendsHistory};
ghost use Rattle.td_desk.specs.Sharing.{OwnActsAreOrdered};
ghost use Rattle.td_iter.specs.declared.desk.DeskEntry.{DeskEntry};
ghost use Rattle.td_iter.specs.declared.item.Item.{Item};

/// Nothing is done: of an iterator that is put on the desk once, under a number of its own, what was given so far is
/// the front of its list, and what is left of it, while it is there, is the rest.
pub fn given_is_front()
    ensures { (before acts : List Done) (e : DeskEntry Item) → PutOthers e.trader e.number before
        → PutOthers e.trader e.number acts → (rest : List IteratorItem)
        × IsFrontOfList (before ++ Add e ∷ acts) e rest }
{}

/// Nothing is done: no item of an iterator's list is given by two calls of the history. So of two passes that have no
/// call in common none is given what the other is given. And what a call gives stands in the list at these places.
pub fn no_item_is_given_twice()
    ensures calls { (h : List Done) (e : DeskEntry Item) (p q k : ℕ) →
        In k (places_at h e p) → In k (places_at h e q) → p ≡ q }
    ensures passes { (h : List Done) (e : DeskEntry Item) (own others : List ℕ) →
        ((p : ℕ) → In p own → In p others → ⊥) → (k : ℕ) →
        In k (places_through h e own) → In k (places_through h e others) → ⊥ }
    ensures items { (before acts : List Done) (e : DeskEntry Item)
        → PutOthers e.trader e.number before
        → PutOthers e.trader e.number acts → (place : ℕ) →
        map (slice_get (things_of e.item)) (places_at (before ++ Add e ∷ acts) e place)
        ≡ map Some (slice_index_or (given e.trader e.number empty_desk (before ++ Add e ∷ acts))
        place []) }
{}

/// Nothing is done: no number is drawn twice.
pub fn numbers_are_apart()
    ensures { (h : List Done) (p q : ℕ) → slice_get h p ≡ Some Draw → slice_get h q ≡ Some Draw
        → (state_after (take p h)).draws ≡ (state_after (take q h)).draws → p ≡ q }
{}

/// Nothing is done: a pass that has put iterators on the desk under numbers that it drew, each once, stays so while
/// others go on.
pub fn passes_stay_in_order()
    ensures { (h k : List Done) (own : List ℕ) → ExtendsHistory h k → OwnActsAreOrdered h own
        → OwnActsAreOrdered k own }
{}

/// Nothing is done: of two passes that have no call in common, neither puts an iterator on the desk under a number that
/// the other has used. So each iterator that passes put there has a number of its own.
pub fn numbers_are_used_once()
    ensures { (h : List Done) (own others : List ℕ) → OwnActsAreOrdered h own
        → OwnActsAreOrdered h others →
        ((p : ℕ) → In p own → In p others → ⊥) → (p q : ℕ) (e f : DeskEntry Item) → In p own
        → In q others → slice_get h p ≡ Some (Add e) → slice_get h q ≡ Some (Add f)
        → e.number ≢ f.number }
{}

/// Nothing is done: a worked history of two connections that ask for the rest of one answer.
pub fn worked_turns()
    ensures { WorkedTurns }
{}
