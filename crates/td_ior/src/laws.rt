//! What holds of all keys, profiles and texts, as functions that do nothing: each one's contract is
//! the law.

ghost use Rattle.std.specs.Prelude.{◌≡◌, ℕ, ◌^◌, ◌≤◌, ◌<◌, List, [], length, Some, None};
ghost use Rattle.hex.specs.Hex.{IsBytes};
ghost use Rattle.td_cdr.specs.Names.{IsTraderName};
ghost use Rattle.td_cdr.specs.Text.{HasNoNul};
ghost use Rattle.td_value.specs.declared.key.ObjectKey.{ObjectKey};
ghost use Rattle.td_typecode.specs.declared.reference.Ior.{Ior};
ghost use Rattle.td_typecode.specs.declared.reference.Profile.{Profile};
ghost use Rattle.td_typecode.specs.References.{reference};
ghost use Rattle.td_ior.specs.Enclosed.{encapsulate_value};
ghost use Rattle.td_ior.specs.Keys.{SpellsKey, IsKind, key_of, written_key};
ghost use Rattle.td_ior.specs.Laws.{ReadsWhatIsSpelled};
ghost use Rattle.td_ior.specs.Profiles.{IsIiop, HasNoIiop, IsFirstIiop, iiop_in, first_iiop, iiop_of, made_octets};
ghost use Rattle.td_ior.specs.Profiles.{made_reference};
ghost use Rattle.td_ior.specs.Texts.{IsReferenceText, reference_in, printed_ior};

/// A key is read as it is written, and only so, and no two keys are written alike.
pub fn keys_are_read()
    ensures agrees { ReadsWhatIsSpelled SpellsKey key_of }
    ensures back { (key : ObjectKey) → IsTraderName key.trader → IsKind key.kind
        → key_of (written_key key) ≡ Some key }
    ensures one_key { (key other : ObjectKey) → IsTraderName key.trader → IsTraderName other.trader
        → IsKind key.kind → IsKind other.kind → written_key key ≡ written_key other → key ≡ other }
{}

/// A profile is read as the layout of IIOP spells it, and only so, and the first one that is of IIOP is
/// taken; there is none exactly where no profile is of IIOP. A made reference gives its host, its port,
/// its key and its minor version back, and no components.
pub fn profiles_are_read()
    ensures one { ReadsWhatIsSpelled IsIiop iiop_in }
    ensures first { ReadsWhatIsSpelled IsFirstIiop first_iiop }
    ensures none { (profiles : List Profile) → first_iiop profiles ≡ None → HasNoIiop profiles }
    ensures only_none { (profiles : List Profile) → HasNoIiop profiles → first_iiop profiles
        ≡ None }
    ensures back { (id host key : List ℕ) (port minor : ℕ) → HasNoNul host → port < 65536
        → minor ≤ 1 → length (made_octets host port key minor) < 2 ^ 32
        → iiop_of (made_reference id host port key minor)
        ≡ Some (record { host = host; port = port; key = key; minor = minor; components = [] }) }
{}

/// A text is read as the reference that one of the two forms says it spells, and only so. A printed
/// reference is read back as that reference where it has a spelling, as a made one does.
pub fn texts_are_read()
    ensures agrees { ReadsWhatIsSpelled IsReferenceText reference_in }
    ensures back { (r : Ior) → reference.format.admits r → IsBytes (encapsulate_value reference r)
        → length (encapsulate_value reference r) < 2 ^ 32 → reference_in (printed_ior r) ≡ Some r }
    ensures made { (id host key : List ℕ) (port minor : ℕ) → HasNoNul id
        → reference.format.admits (made_reference id host port key minor) }
{}
