//! What holds of service types and interfaces, as functions that do nothing: each one's contract is
//! the law.

ghost use Rattle.std.specs.Prelude.{◌≡◌, ℕ, ◌↔◌, List, [], Ok, Err, Some, Option, IsTrue, true, false, map};
ghost use Rattle.std.specs.Prelude.{filter};
ghost use Rattle.td_cdr.specs.Sound.{text, sequence};
ghost use Rattle.td_value.specs.Structures.{prop_struct};
ghost use Rattle.td_value.specs.declared.structures.PropStruct.{PropStruct};
ghost use Rattle.td_types.specs.Calls.{add_type, remove_type, mask_type, unmask_type, describe_type};
ghost use Rattle.td_types.specs.Calls.{fully_describe_type, list_types, is_listed, sub_type};
ghost use Rattle.td_types.specs.Conforming.{conforms, Conforms};
ghost use Rattle.td_types.specs.Interfaces.{LeadsTo, InterfaceConforms, interface_conforms};
ghost use Rattle.td_types.specs.Laws.{RisesAbove, Removes, SetsMask, IsNewest, IsOldestSubType, AreAsStrong};
ghost use Rattle.td_types.specs.Properties.{full_properties};
ghost use Rattle.td_types.specs.Repository.{InterfaceBases, Repository, ServiceType, IsRepository, has_type, is_among};
ghost use Rattle.td_types.specs.Writable.{IsWritable, AreWritable, StaysWritable};
ghost use Rattle.td_types.specs.declared.fault.TypesFault.TheVariants.{Memory as memory};
ghost use Rattle.td_types.specs.declared.reply.TypesReply.{TypesReply};

/// The test of conforming interfaces is the relation: declared bases lead from the one to the other,
/// in however many steps, or either is empty. What leads on from where an interface leads is led to.
pub fn interfaces_conform()
    ensures test { (declared : InterfaceBases) (sub base : List ℕ) →
        IsTrue (interface_conforms declared sub base) ↔ InterfaceConforms declared sub base }
    ensures transitive { (declared : InterfaceBases) (first middle last : List ℕ) →
        LeadsTo declared first middle → LeadsTo declared middle last → LeadsTo declared first last }
{}

/// The test of conforming types is the relation: declared supertypes lead from the one to the other, in
/// however many steps. So a type that is there conforms to itself, and to what those conform to that it
/// conforms to.
pub fn types_conform()
    ensures test { (r : Repository) (a b : List ℕ) → IsRepository r →
        IsTrue (conforms r.types a b) ↔ Conforms r.types a b }
    ensures reflexive { (types : List ServiceType) (name : List ℕ) →
        IsTrue (has_type types name) → IsTrue (conforms types name name) }
    ensures transitive { (r : Repository) (a b c : List ℕ) → IsRepository r →
        IsTrue (conforms r.types a b) → IsTrue (conforms r.types b c)
        → IsTrue (conforms r.types a c) }
{}

/// An accepted removal takes the type of that name and leaves all others as they were, in their
/// order. The declared interfaces and the last incarnation stay.
pub fn removing_leaves_the_others()
    ensures { (r after : Repository) (name : List ℕ) (content : TypesReply) → IsRepository r →
        remove_type r name ≡ Ok (content, after) → Removes name r after }
{}

/// A removal that is refused since another type conforms names the oldest of these.
pub fn the_oldest_sub_type_is_named()
    ensures { (r : Repository) (name : List ℕ) (sub : ServiceType) → IsRepository r →
        sub_type r name ≡ Some sub → IsOldestSubType r name sub }
{}

/// A mask changes nothing but itself: a masked type conforms to what it did, and others to it.
pub fn masks_change_nothing_else()
    ensures mask { (r after : Repository) (name : List ℕ) (content : TypesReply) → IsRepository r →
        mask_type r name ≡ Ok (content, after) → SetsMask name true r after }
    ensures unmask { (r after : Repository) (name : List ℕ) (content : TypesReply) → IsRepository r
        →
        unmask_type r name ≡ Ok (content, after) → SetsMask name false r after }
{}

/// A new type's incarnation is above all that were given before, those of removed types too, since a
/// removal leaves the last incarnation as it was.
pub fn incarnations_are_new()
    ensures { (r after : Repository) (name if_name : List ℕ) (props : List PropStruct)
        (supers : List (List ℕ)) → (content : TypesReply) → IsRepository r
        → add_type r name if_name props supers ≡ Ok (content, after) → IsNewest r after content }
{}

/// Types are listed by rising incarnation.
pub fn listing_rises()
    ensures { (r : Repository) (since : Option ℕ) → IsRepository r →
        RisesAbove 0 (map (λ t. t.incarnation) (filter (is_listed since) r.types)) }
{}

/// Each full property of a supertype is among a new type's full properties, with a mode that is at
/// least the supertype's.
pub fn supertypes_modes_hold()
    ensures { (r after : Repository) (name if_name : List ℕ) (props : List PropStruct)
        (supers : List (List ℕ)) → (content : TypesReply) → add_type r name if_name props supers
        ≡ Ok (content, after) → (super : List ℕ) → IsTrue (is_among super supers)
        → AreAsStrong (full_properties after.types name) (full_properties r.types super) }
{}

/// A repository without types can be written. A call whose parameters can be written leaves one that
/// can be written so, and what it answers can be written: the reply, or the exception's members.
pub fn types_stay_writable()
    ensures new { (interfaces : InterfaceBases)
        → IsWritable (record { types = []; interfaces = interfaces; last = 0 }) }
    ensures add { (r : Repository) (name if_name : List ℕ) (props : List PropStruct)
        (supers : List (List ℕ)) → IsWritable r → AreWritable name if_name props supers
        → StaysWritable (add_type r name if_name props supers) }
    ensures remove { (r : Repository) (name : List ℕ) → IsRepository r → IsWritable r →
        text.format.admits name → StaysWritable (remove_type r name) }
    ensures mask { (r : Repository) (name : List ℕ) → IsWritable r → text.format.admits name →
        StaysWritable (mask_type r name) }
    ensures unmask { (r : Repository) (name : List ℕ) → IsWritable r → text.format.admits name →
        StaysWritable (unmask_type r name) }
    ensures describe { (r : Repository) (name : List ℕ) → IsWritable r → text.format.admits name →
        StaysWritable (describe_type r name) }
    ensures fully_describe { (r : Repository) (name : List ℕ) → IsWritable r
        → text.format.admits name → StaysWritable (fully_describe_type r name) }
    ensures list { (r : Repository) (since : Option ℕ) → IsWritable r
        → StaysWritable (list_types r since) }
    ensures properties { (r : Repository) (name : List ℕ) → IsWritable r →
        (sequence prop_struct).format.admits (full_properties r.types name) }
{}

/// As they are defined, the calls come to an answer, an exception or the limit: running out of memory is the
/// code's alone.
pub fn calls_never_run_out_of_memory()
    ensures add { (r : Repository) (name if_name : List ℕ) (props : List PropStruct)
        (supers : List (List ℕ)) → add_type r name if_name props supers ≡ Err memory → ⊥ }
    ensures remove { (r : Repository) (name : List ℕ) → remove_type r name ≡ Err memory → ⊥ }
    ensures mask { (r : Repository) (name : List ℕ) → mask_type r name ≡ Err memory → ⊥ }
    ensures unmask { (r : Repository) (name : List ℕ) → unmask_type r name ≡ Err memory → ⊥ }
    ensures describe { (r : Repository) (name : List ℕ) → describe_type r name ≡ Err memory → ⊥ }
    ensures fully_describe { (r : Repository) (name : List ℕ) → fully_describe_type r name
        ≡ Err memory → ⊥ }
    ensures list { (r : Repository) (since : Option ℕ) → list_types r since ≡ Err memory → ⊥ }
{}
