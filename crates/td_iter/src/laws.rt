//! Laws of batches: public functions with empty bodies whose contracts are proved for all values.

ghost use Rattle.std.specs.Prelude.{◌≡◌, ◌++◌, ℕ, List, Bool, length};
ghost use Rattle.td_cdr.specs.Format.{Piece};
ghost use Rattle.td_cdr.specs.Writing.{Draft};
ghost use Rattle.td_cdr.specs.Format.{upwards};
ghost use Rattle.td_iter.specs.Desks.{DeskEvent, LiveOf, numbers_given};
ghost use Rattle.td_iter.specs.Batches.{Batches, FitsMessage, IsBatch, join_lists};

use td_cdr::Spelled;

/// Nothing is done: batches one after the other are the front of the list, and with what is left they
/// are the whole.
pub fn batches_are_fronts<T: Spelled>()
    ensures { (left rest : List T) (batches : List (List T)) →
        Batches left batches rest → join_lists batches ++ rest ≡ left }
{}

/// Nothing is done: no list has two batches, and where the message without items fits, it has one.
pub fn one_batch<T: Spelled>()
    ensures one { (head : List T → Bool → Piece) (left : List T) (draft : Draft) (n j k : ℕ) →
        IsBatch head left draft n j → IsBatch head left draft n k → j ≡ k }
    ensures there { (head : List T → Bool → Piece) (left : List T) (draft : Draft) (n : ℕ) →
        FitsMessage head left draft 0 → (k : ℕ) × IsBatch head left draft n k }
{}

/// Nothing is done: over any list of calls a desk gives the numbers from its next one on, each one more
/// than the one before. So they rise, and none is given twice.
pub fn numbers_rise<I>()
    ensures { (events : List (DeskEvent I)) (live : LiveOf I) →
        numbers_given events live ≡ upwards live.1 (length (numbers_given events live)) }
{}
