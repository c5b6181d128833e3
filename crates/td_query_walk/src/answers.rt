//! What a visit answers.

ghost use Rattle.std.specs.Prelude.{◌≡◌, ℕ, List, ◌∷◌, ◌++◌};
ghost use Rattle.td_typecode.specs.declared.code.Any.{Any};
ghost use Rattle.td_store.specs.declared.local.Local.{Local};
ghost use Rattle.td_walk.specs.Answers.{IsAnswer, joined_offers, limits_applied};
ghost use Rattle.td_walk.specs.Visits.{sub_answer};
ghost use Rattle.td_walk.specs.declared.answer.StepAnswer.{StepAnswer};
ghost use Rattle.td_walk.specs.declared.answer.StepAnswer.TheVariants.{Evaluated, Failed};
ghost use Rattle.td_walk.specs.declared.answer.SubAnswer.{SubAnswer};
ghost use Rattle.td_walk.specs.declared.found.Found.{Found};
ghost use Rattle.td_query_walk.specs.Answering.{nothing_given};

use td_eval::laws::arrangements_are_one;

/// A step that failed, or that was answered by a value, gives no offers and no limits. An answer without offers and
/// limits, as a repeat and a refusal give it, adds none.
pub fn failed_steps_give_nothing()
    ensures failed { sub_answer Failed ≡ nothing_given }
    ensures value { (a : Any) → sub_answer (Evaluated a) ≡ nothing_given }
    ensures offers { (found : List Found) (before after : List SubAnswer)
        → joined_offers (record { found = found; given = before ++ nothing_given ∷ after })
        ≡ joined_offers (record { found = found; given = before ++ after }) }
    ensures limits { (over : List (List ℕ)) (before after : List SubAnswer)
        → limits_applied over (before ++ nothing_given ∷ after)
        ≡ limits_applied over (before ++ after) }
{}

/// The answers to a visit's questions and the random words determine its answer.
pub fn answers_are_one()
    ensures { (l : Local) (answers : List StepAnswer) (word : ℕ → ℕ) (a b : SubAnswer)
        → IsAnswer l answers word a → IsAnswer l answers word b → a ≡ b }
{
    arrangements_are_one();
}
