//! When a search stops to ask other traders.

ghost use Rattle.std.specs.Prelude.{◌≡◌, ℕ, ◌≤◌, true, Bool, List, [], ◌++◌, length, None, Ok, Option};
ghost use Rattle.td_store.specs.declared.local.Local.{Local};
ghost use Rattle.td_store.specs.declared.record.LinkRecord.{LinkRecord};
ghost use Rattle.td_store.specs.declared.record.OfferRecord.{OfferRecord};
ghost use Rattle.td_walk.specs.Answers.{IsRankedAnswer, joined_offers};
ghost use Rattle.td_walk.specs.SubQueries.{is_full, keeps_order, link_step, proxy_step, wanted_behind};
ghost use Rattle.td_walk.specs.Visits.{count_ordinary, gathered_offers, steps};
ghost use Rattle.td_walk.specs.declared.answer.StepAnswer.{StepAnswer};
ghost use Rattle.td_walk.specs.declared.answer.SubAnswer.{SubAnswer};
ghost use Rattle.td_walk.specs.declared.found.Found.{Found};

/// Once enough offers are there, no link is followed and no proxy offer's trader is called. So a search at which enough
/// ordinary offers matched asks nobody, where the offers are in the order in which they are gathered.
pub fn full_visits_ask_nobody()
    ensures links { (l : Local) (wanted : Option ℕ) (local_match : Bool) (link : LinkRecord)
        → is_full wanted ≡ true → link_step l wanted local_match link ≡ None }
    ensures proxies { (l : Local) (wanted : Option ℕ) (o : OfferRecord) → is_full wanted ≡ true
        → proxy_step l wanted o ≡ None }
    ensures visit { (l : Local) (found : List Found) (answers : List StepAnswer)
        → keeps_order l.preference ≡ true → l.effective.return_card ≤ count_ordinary found
        → gathered_offers found answers (wanted_behind l (count_ordinary found)) (steps l found)
        ≡ Ok (record { found = found; given = [] }, answers) }
{}

/// What other traders would give once enough offers are there is cut from the answer, where the offers are in the order
/// in which they are gathered: so it isn't asked for.
pub fn asking_on_would_be_cut()
    ensures { (l : Local) (found : List Found) (given more : List SubAnswer) (word : ℕ → ℕ)
        (a b : SubAnswer)
        → keeps_order l.preference ≡ true
        → l.effective.return_card ≤ length (joined_offers (record { found = found; given = given }))
        → IsRankedAnswer l (record { found = found; given = given }) word a
        → IsRankedAnswer l (record { found = found; given = given ++ more }) word b
        → b.offers ≡ a.offers }
{}
