//! What peers in memory answer.

ghost use Rattle.std.specs.Prelude.{◌≡◌, ℕ, List, IfSome, option_copied};
ghost use Rattle.td_typecode.specs.References.{reference};
ghost use Rattle.td_typecode.specs.declared.code.Any.{Any};
ghost use Rattle.td_typecode.specs.declared.code.TypeCode.{TypeCode};
ghost use Rattle.td_typecode.specs.declared.reference.Ior.{Ior};
ghost use Rattle.td_ops.specs.declared.call.Query.{Query};
ghost use Rattle.td_peers.specs.Scripts.{gives, given_by, is_given, IsAllowed};
ghost use Rattle.td_walk.specs.Peering.{Querying, Evaluating, RegisterOf, Resolving, Answered, Evaluated, Referred};
ghost use Rattle.td_walk.specs.Peering.{HasSmallOffers};

use td_cdr::Boxed;
use td_value::{Any, Ior};
use td_walk::SubAnswer;

/// What a peer in memory answers.
#[derive(Drop)]
pub enum Scripted {
    /// The value of a dynamic property.
    Evaluated(Boxed<Any>),
    /// What a trader answers to a query.
    Offers(SubAnswer),
    /// A register.
    Reference(Ior),
    /// There is no answer.
    Failed,
}

/// The entry's offers.
pub(crate) fn offers_in(entry: Option<Scripted>) -> Option<SubAnswer>
    ensures given { (t : Ior) (q : Query) → gives (Querying t q) entry
        ≡ given_by (λ a. Answered a) result }
    ensures small { IfSome entry IsAllowed → IfSome result (λ a. HasSmallOffers a) }
{
    match entry? {
        Scripted::Offers(answer) => Some(answer),
        Scripted::Evaluated(_) => None,
        Scripted::Reference(_) => None,
        Scripted::Failed => None,
    }
}

/// The entry's value.
pub(crate) fn value_in(entry: Option<Scripted>) -> Option<Boxed<Any>>
    ensures { (t : Ior) (n : List ℕ) (c : TypeCode) (x : Any) → gives (Evaluating t n c x) entry
        ≡ given_by (λ v. Evaluated v) result }
{
    match entry? {
        Scripted::Evaluated(value) => Some(value),
        Scripted::Offers(_) => None,
        Scripted::Reference(_) => None,
        Scripted::Failed => None,
    }
}

/// The entry's reference.
pub(crate) fn reference_in(entry: Option<Scripted>) -> Option<Ior>
    ensures register { (t : Ior) → gives (RegisterOf t) entry ≡ given_by (λ r. Referred r) result }
    ensures resolved { (t : Ior) (n : List (List ℕ)) → gives (Resolving t n) entry
        ≡ given_by (λ r. Referred r) result }
    ensures admitted { IfSome entry IsAllowed → IfSome result (λ r. reference.format.admits r) }
{
    match entry? {
        Scripted::Reference(reference) => Some(reference),
        Scripted::Offers(_) => None,
        Scripted::Evaluated(_) => None,
        Scripted::Failed => None,
    }
}

/// Whether the entry answers a query.
pub(crate) fn is_offers(entry: Option<&Scripted>) -> bool
    ensures { (t : Ior) (q : Query)
        → result ≡ is_given (gives (Querying t q) (option_copied entry.entry)) }
{
    match entry {
        None => false,
        Some(Scripted::Offers(_)) => true,
        Some(Scripted::Evaluated(_)) => false,
        Some(Scripted::Reference(_)) => false,
        Some(Scripted::Failed) => false,
    }
}

/// Whether the entry answers an evaluation.
pub(crate) fn is_value(entry: Option<&Scripted>) -> bool
    ensures { (t : Ior) (n : List ℕ) (c : TypeCode) (x : Any)
        → result ≡ is_given (gives (Evaluating t n c x) (option_copied entry.entry)) }
{
    match entry {
        None => false,
        Some(Scripted::Evaluated(_)) => true,
        Some(Scripted::Offers(_)) => false,
        Some(Scripted::Reference(_)) => false,
        Some(Scripted::Failed) => false,
    }
}

/// Whether the entry answers a question for a register.
pub(crate) fn is_reference(entry: Option<&Scripted>) -> bool
    ensures register { (t : Ior)
        → result ≡ is_given (gives (RegisterOf t) (option_copied entry.entry)) }
    ensures resolved { (t : Ior) (n : List (List ℕ))
        → result ≡ is_given (gives (Resolving t n) (option_copied entry.entry)) }
{
    match entry {
        None => false,
        Some(Scripted::Reference(_)) => true,
        Some(Scripted::Offers(_)) => false,
        Some(Scripted::Evaluated(_)) => false,
        Some(Scripted::Failed) => false,
    }
}
