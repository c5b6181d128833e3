//! What holds of queries at every trader, as functions that do nothing: each one's contract is the law.

ghost use Rattle.std.specs.Prelude.{◌≡◌, ℕ, ◌≤◌, [], ◌∷◌, ◌++◌, Some, None, List, codes, length};
ghost use Rattle.td_exceptions.specs.declared.exception.UserException.TheVariants as user;
ghost use Rattle.td_changes.specs.Examples.{masked_store, printer};
ghost use Rattle.td_changes.specs.Histories.{at};
ghost use Rattle.td_trader.specs.Queries.{refusal, TakenQueriesAreRead, UnknownStartsAreRefused};
ghost use Rattle.td_trader.specs.QueryExamples.{asks, refusal_of_query, bad_name_policy, path, three};
ghost use Rattle.td_register.specs.Stores.{Store};
ghost use Rattle.td_register.specs.declared.history.Accepted.{Accepted};
ghost use Rattle.td_register.specs.declared.refusal.Refusal.TheVariants as refused;

/// The store at a point stays as it is however the history goes on.
pub fn points_stay()
    ensures { (opening : Store) (history more : List Accepted) (point : ℕ) → point ≤ length history
        → at opening (history ++ more) point ≡ at opening history point }
{}

/// The policies of a query that isn't refused can be read.
pub fn taken_queries_are_read()
    ensures { TakenQueriesAreRead }
{}

/// A path whose first name no link has is refused: by the policy starting_trader, as it is stated.
pub fn unknown_starts_are_refused()
    ensures { UnknownStartsAreRefused }
{}

/// Worked examples over a trader with the type Printer and a link `b`, at which three marks may be made: a
/// masked type is queried as any other; a constraint with a fraction is refused before a policy whose name
/// is none; a desired name that is none is refused before the first name of a path that no link has, and
/// that before the fourth mark.
pub fn worked_queries()
    ensures taken { refusal_of_query 2 (asks printer [] (path (codes "b") ∷ []) (codes "Cost" ∷ []))
        ≡ None }
    ensures masked { refusal three 0 masked_store (asks printer [] [] []) ≡ None }
    ensures illegal { refusal_of_query 3 (asks (codes "a printer") (codes "1.5") [] [])
        ≡ Some (refused.Raised (user.IllegalServiceType (codes "a printer"))) }
    ensures unknown { refusal_of_query 3 (asks (codes "Scanner") (codes "1.5") [] [])
        ≡ Some (refused.Raised (user.UnknownServiceType (codes "Scanner"))) }
    ensures constraint { refusal_of_query 3 (asks printer (codes "1.5") (bad_name_policy ∷ []) [])
        ≡ Some (refused.Raised (user.IllegalConstraint (codes "1.5"))) }
    ensures policy { refusal_of_query 3 (asks printer [] (bad_name_policy ∷ []) (codes "2x" ∷ []))
        ≡ Some (refused.Raised (user.IllegalPolicyName (codes "2x"))) }
    ensures desired { refusal_of_query 3 (asks printer [] (path (codes "c") ∷ []) (codes "2x" ∷ []))
        ≡ Some (refused.Raised (user.IllegalPropertyName (codes "2x"))) }
    ensures start { refusal_of_query 3 (asks printer [] (path (codes "c") ∷ []) (codes "Cost" ∷ []))
        ≡ Some (refused.Raised (user.InvalidPolicyValue (path (codes "c")))) }
    ensures limit { refusal_of_query 3 (asks printer [] (path (codes "b") ∷ []) (codes "Cost" ∷ []))
        ≡ Some refused.Limit }
{}
