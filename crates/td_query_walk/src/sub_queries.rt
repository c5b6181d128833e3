//! What the policies of a sub-query state, where they can be read.

ghost use Rattle.std.specs.Prelude.{◌≡◌, ℕ, List, Ok, Option};
ghost use Rattle.td_policy.specs.Stated.{stated};
ghost use Rattle.td_policy.specs.declared.stated.Stated.{Stated};
ghost use Rattle.td_store.specs.declared.local.Local.{Local};
ghost use Rattle.td_store.specs.declared.record.LinkRecord.{LinkRecord};
ghost use Rattle.td_store.specs.declared.record.ProxyPart.{ProxyPart};
ghost use Rattle.td_value.specs.declared.structures.Policy.{Policy};
ghost use Rattle.td_walk.specs.Passing.{along_path};
ghost use Rattle.td_walk.specs.SubQueries.{link_query, proxy_query};
ghost use Rattle.td_query_walk.specs.SubQueryLaws.{OverALink, ToAProxy, AlongAPath, WithPassed};

/// Over a link go one hop less than there were, the rule that is passed on, the search's identifier, no start
/// elsewhere, and as many offers as are still wanted, where that is limited; the other policies are as they were
/// stated.
pub fn sub_queries_over_a_link()
    ensures { (l : Local) (wanted : Option ℕ) (link : LinkRecord) (s : Stated)
        → stated (link_query l wanted link).policies ≡ Ok s → OverALink l wanted link s }
{}

/// To a proxy offer's trader go at most one hop less than there were and no more offers than are still wanted, where
/// that is limited, whatever the proxy offer passes on, and the search's identifier. A hop count of another type can't
/// be read, and that trader refuses the query.
#[tactic(auto, using(crate::proofs::Passed::to_a_proxy))]
pub fn sub_queries_to_a_proxy()
    ensures { (l : Local) (wanted : Option ℕ) (part : ProxyPart) (constraint : List ℕ) (s : Stated)
        → stated (proxy_query l wanted part constraint).policies ≡ Ok s → ToAProxy l wanted s }
{}

/// Where every policy that a proxy offer passes on can be read, each stands in the place of what was stated, but for
/// the identifier; of two hop counts and of two rules the lesser counts, and the fewer offers, where those that are
/// wanted are limited.
pub fn sub_queries_with_passed_policies()
    ensures { (l : Local) (wanted : Option ℕ) (part : ProxyPart) (constraint : List ℕ)
        (passed s : Stated)
        → stated l.query.policies ≡ Ok l.stated → stated part.policies ≡ Ok passed
        → stated (proxy_query l wanted part constraint).policies ≡ Ok s
        → WithPassed l wanted passed s }
{}

/// Along a path go the names that are left, and the other policies as they were stated.
#[tactic(auto, using(crate::proofs::Passed::along_a_path))]
pub fn sub_queries_along_a_path()
    ensures { (left : List (List ℕ)) (ps : List Policy) (before s : Stated) → stated ps ≡ Ok before
        → stated (along_path left ps) ≡ Ok s → AlongAPath left before s }
{}
