//! What holds of every trader, as functions that do nothing: each one's contract is the law.

ghost use Rattle.std.specs.Prelude.{◌≡◌, ℕ, List, [], codes, false, length, replicate, true};
ghost use Rattle.td_typecode.specs.declared.reference.Ior.{Ior};
ghost use Rattle.td_ops.specs.declared.call.Change.{Change};
ghost use Rattle.td_ops.specs.declared.call.Change.TheVariants as change;
ghost use Rattle.td_ops.specs.declared.outcome.Reply.{Reply};
ghost use Rattle.td_ops.specs.declared.outcome.Outcome.TheVariants as outcome;
ghost use Rattle.td_ops.specs.declared.outcome.Reply.TheVariants as reply;
ghost use Rattle.td_ops.specs.declared.outcome.SystemKind.TheVariants as limit;
ghost use Rattle.td_exceptions.specs.declared.exception.UserException.TheVariants as user;
ghost use Rattle.td_value.specs.declared.structures.Property.{Property};
ghost use Rattle.td_changes.specs.Applying.{apply, apply_counted, comes_to, count_change, is_at_limit};
ghost use Rattle.td_register.specs.Causes.{system};
ghost use Rattle.td_register.specs.ChangeReplies.{answers_change};
ghost use Rattle.td_changes.specs.Examples.{export_printer, masked_store, modify_all, opening, printer, with_printer};
ghost use Rattle.td_changes.specs.Histories.{Legal, after_all, at, is_done, add_accepted};
ghost use Rattle.td_register.specs.Ids.{id_of};
ghost use Rattle.td_changes.specs.Laws.{ExtendsLegally, TakesNext, applied_after, refused_at_limit};
ghost use Rattle.td_register.specs.Stores.{Store};
ghost use Rattle.td_changes.specs.declared.bounds.Bounds.{Bounds};
ghost use Rattle.td_register.specs.declared.history.Accepted.{Accepted};

/// A refused change leaves the store as it was, whatever refused it.
pub fn refused_changes_leave_the_store()
    ensures counted { (bounds : Bounds) (count : ℕ) (s : Store) (c : Change) →
        is_done (apply_counted bounds count s c).outcome ≡ false
        → (apply_counted bounds count s c).store ≡ s }
    ensures uncounted { (s : Store) (c : Change) → is_done (apply s c).outcome ≡ false
        → (apply s c).store ≡ s }
{}

/// Where no more changes are accepted, a change is refused for what refuses it anyway, or else with IMP_LIMIT;
/// before that it comes to the same as where they aren't counted.
pub fn the_limit_comes_last()
    ensures full { (bounds : Bounds) (count : ℕ) (s : Store) (c : Change) →
        is_at_limit bounds count ≡ true → count_change bounds count s c
        ≡ refused_at_limit (comes_to s c) }
    ensures below { (bounds : Bounds) (count : ℕ) (s : Store) (c : Change) →
        is_at_limit bounds count ≡ false → count_change bounds count s c ≡ comes_to s c }
{}

/// An accepted export takes the number behind the last one that was given, also where that offer is
/// gone.
pub fn exports_take_the_next_number()
    ensures { (s : Store) (reference : Ior) (type_name : List ℕ) (properties : List Property)
        (content : Reply) → (apply s (change.Export reference type_name properties)).outcome
        ≡ outcome.Done content → TakesNext s reference type_name properties content
        (apply s (change.Export reference type_name properties)).store }
{}

/// An accepted change is answered with a reply that a history keeps in short (`td_register::ChangeReply`).
pub fn changes_have_their_replies()
    ensures { (s : Store) (c : Change) (content : Reply) → (apply s c).outcome
        ≡ outcome.Done content →
        answers_change content ≡ true }
{}

/// A history is legal from its opening on: no change at all makes one, and each change extends it.
pub fn histories_are_legal()
    ensures empty { (bounds : Bounds) (opening : Store) → Legal bounds opening [] }
    ensures extended { (bounds : Bounds) (opening : Store) (history : List Accepted) (c : Change) →
        Legal bounds opening history →
        ExtendsLegally bounds opening history c (applied_after bounds opening history c)
        (add_accepted history c (applied_after bounds opening history c).outcome) }
{}

/// At a history's own length one is behind all of it, and at 0 at the opening.
pub fn points_lead_to_stores()
    ensures whole { (opening : Store) (history : List Accepted) →
        at opening history (length history) ≡ after_all opening history }
    ensures none { (opening : Store) (history : List Accepted) → at opening history 0 ≡ opening }
{}

/// Worked examples over a trader with the type Printer, at which seven offers were exported and are
/// gone: an export is refused while the type is masked, and takes the number 8 otherwise; a modify that
/// sets two properties of offer 8 and then a readonly one that the offer has leaves the offer as it was;
/// a withdrawn number is unknown, and a text that is no number is no id; 65 octets are too many for a
/// stem.
pub fn worked_examples()
    ensures masked { (apply masked_store (export_printer [])).outcome
        ≡ outcome.User (user.UnknownServiceType printer) }
    ensures next { (apply opening (export_printer [])).outcome ≡ outcome.Done (reply.Id (id_of 8)) }
    ensures readonly { (apply with_printer modify_all).outcome
        ≡ outcome.User (user.ReadonlyProperty printer (codes "Serial")) }
    ensures unchanged { (apply with_printer modify_all).store ≡ with_printer }
    ensures withdrawn { (apply opening (change.Withdraw (codes "7"))).outcome
        ≡ outcome.User (user.UnknownOfferId (codes "7")) }
    ensures illegal { (apply opening (change.Withdraw (codes "07"))).outcome
        ≡ outcome.User (user.IllegalOfferId (codes "07")) }
    ensures stem { (apply opening (change.SetRequestIdStem (replicate 65 0))).outcome
        ≡ system limit.ImpLimit }
{}
