//! What holds of all calls and references, as functions that do nothing: the contract of each is a law.

ghost use Rattle.std.specs.Prelude.{◌≡◌, ◌≤◌, ◌<◌, ◌+◌, ◌^◌, ◌↔◌, ℕ, List, Some, true, length};
ghost use Rattle.td_cdr.specs.declared.order.Order.{Order as Ordered};
ghost use Rattle.td_typecode.specs.References.{reference};
ghost use Rattle.td_typecode.specs.declared.reference.Ior.{Ior as Reference};
ghost use Rattle.td_ior.specs.Laws.{ReadsWhatIsSpelled};
ghost use Rattle.td_names.specs.Applying.{AppliesCall};
ghost use Rattle.td_names.specs.Changing.{ChangesStore};
ghost use Rattle.td_names.specs.Examples.{WorkedCalls, WorkedKeys};
ghost use Rattle.td_names.specs.Limits.{name_fits};
ghost use Rattle.td_names.specs.Reaching.{Reach};
ghost use Rattle.td_names.specs.References.{IsAddress, IsContextNumber, LeadsTo, SpellsContext, context_number};
ghost use Rattle.td_names.specs.References.{context_of_reference, reference_of};
ghost use Rattle.td_names.specs.Refusing.{is_refusal};
ghost use Rattle.td_names.specs.Stores.{Store, is_live};
ghost use Rattle.td_names.specs.declared.act.NameAct.{NameAct as Called};
ghost use Rattle.td_names.specs.declared.act.NameAct.TheVariants as call;
ghost use Rattle.td_names.specs.declared.act.NameAnswer.{NameAnswer as Answered};
ghost use Rattle.td_names.specs.declared.act.NameAnswer.TheVariants.{Done};
ghost use Rattle.td_names.specs.declared.act.NameReply.TheVariants.{Object};
ghost use Rattle.td_names.specs.declared.address.Address.{Address as Home};
ghost use Rattle.td_names.specs.declared.component.NameComponent.{NameComponent as Part};

/// A name within the limits is resolved to an object exactly where it reaches the object, whatever the contexts lead
/// to, also back to themselves.
pub fn resolve_reaches()
    ensures { (s : Store) (c : ℕ) (name : List Part) (object : Reference) → name_fits name ≡ true
        → is_live s c ≡ true
        → AppliesCall s c (call.Resolve name) (Done (Object object)) s ↔ Reach s c name object }
{}

/// A call that is refused leaves everything as it was.
pub fn refusals_change_nothing()
    ensures { (s t : Store) (c : ℕ) (a : Called) (r : Answered) → AppliesCall s c a r t
        → is_refusal r ≡ true → t ≡ s }
{}

/// A call makes one change at most, and no context's number is given again.
pub fn calls_change_once()
    ensures { (s t : Store) (c : ℕ) (a : Called) (r : Answered) → AppliesCall s c a r t
        → (t.home ≡ s.home) × (s.changes ≤ t.changes) × (t.changes ≤ s.changes + 1)
        × (length s.contexts ≤ length t.contexts) }
{}

/// A call that changes something is refused or accepted, and where it is accepted it counts as one change: its reply is
/// nothing, or the reference of the context that it makes. Any other call leaves everything as it was.
pub fn changes_are_replied()
    ensures { (s t : Store) (c : ℕ) (a : Called) (r : Answered) → AppliesCall s c a r t
        → ChangesStore s a r t }
{}

/// The key of a context is read as it is written, and only so. A reference leads to a context exactly where its first
/// profile tells so, and the reference of each context leads back to it.
pub fn references_name_their_contexts()
    ensures keys { ReadsWhatIsSpelled SpellsContext context_number }
    ensures agrees { (home : Home) → ReadsWhatIsSpelled (LeadsTo home) (context_of_reference home) }
    ensures back { (home : Home) (n : ℕ) → IsAddress home → IsContextNumber n
        → context_of_reference home (reference_of home n) ≡ Some n }
{}

/// The reference of a context has at most 1,200 bytes, wherever and in which order it is written.
pub fn references_are_short()
    ensures { (home : Home) (n : ℕ) (order : Ordered) (place : ℕ) → IsAddress home → n < 2 ^ 32
        → length (reference.format.writes (reference_of home n) order place) ≤ 1200 }
{}

/// Worked examples: calls from the root on, one after the other, and keys.
pub fn worked_names()
    ensures calls { WorkedCalls }
    ensures keys { WorkedKeys }
{}
