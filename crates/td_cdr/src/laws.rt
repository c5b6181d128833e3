//! What holds of all spellings, as functions that do nothing: each one's contract is the law. An item
//! is a primitive, a string, a sequence of octets, one item after another, or an encapsulation of an
//! item, to any depth (`specs/Items.antt`).

ghost use Rattle.std.specs.Prelude.{◌≡◌, ◌≢◌, ◌≤◌, Err, ℕ, ℤ, Bool, ◌+◌, ◌^◌, ◌<◌, List, [], ◌∷◌, ◌++◌, length};
ghost use Rattle.std.specs.Int.{w16, w32, w64, cast_unsigned, from_bool};
ghost use Rattle.std.specs.Int.RustNames.{FitsSigned};
ghost use Rattle.td_cdr.specs.declared.order.Order.{Order};
ghost use Rattle.td_cdr.specs.declared.fault.CdrFault.TheVariants.{Memory};
ghost use Rattle.td_cdr.specs.Place.{At};
ghost use Rattle.td_cdr.specs.Gap.{flag};
ghost use Rattle.td_cdr.specs.Text.{HasNoNul};
ghost use Rattle.td_cdr.specs.Writing.{written_number, written_octets};
ghost use Rattle.td_cdr.specs.Spelling.{SpellsNumber, SpellsSigned, SpellsBoolean, SpellsOctets, SpellsString, Joins};
ghost use Rattle.td_cdr.specs.Faults.{Refuses};
ghost use Rattle.td_cdr.specs.Items.{Item, pair, encapsulated, ValueOf, Spells, reading, IsFaulty};

/// What is read is spelled so, and what is spelled so is read, whatever follows. A reading is refused
/// exactly with the fault of the first item that has no spelling, and never when out of memory. No
/// bytes at one place begin with spellings of two values.
pub fn is_read()
    ensures joins { (item : Item) → Joins (Spells item) (reading item) }
    ensures refuses { (item : Item) → Refuses (IsFaulty item) (reading item) }
    ensures takes_no_memory { (item : Item) (a : At) → a.origin ≤ a.place
        → reading item a ≢ Err Memory }
    ensures one_value { (item : Item) (order : Order) (place : ℕ) (v w : ValueOf item)
        (b c more others : List ℕ)
        → Spells item order place v b → Spells item order place w c → b ++ more ≡ c ++ others
        → v ≡ w }
{}

/// What a writer appends is a spelling: of a number that fits its size, of a boolean as 0 or 1, of
/// octets, of a text without NUL, of one item after another, and of an encapsulation of what is
/// spelled in an order of its own behind the octet that tells it.
pub fn is_written()
    ensures number { (size : ℕ) (order : Order) (place v : ℕ) → v < 256 ^ size
        → SpellsNumber size order place v (written_number size order place v) }
    ensures short { (order : Order) (place : ℕ) (v : ℤ) → FitsSigned w16 v
        → SpellsSigned w16 2 order place v (written_number 2 order place (cast_unsigned w16 v)) }
    ensures long { (order : Order) (place : ℕ) (v : ℤ) → FitsSigned w32 v
        → SpellsSigned w32 4 order place v (written_number 4 order place (cast_unsigned w32 v)) }
    ensures longlong { (order : Order) (place : ℕ) (v : ℤ) → FitsSigned w64 v
        → SpellsSigned w64 8 order place v (written_number 8 order place (cast_unsigned w64 v)) }
    ensures boolean { (order : Order) (place : ℕ) (v : Bool)
        → SpellsBoolean order place v (written_number 1 order place (from_bool v)) }
    ensures octets { (order : Order) (place : ℕ) (v : List ℕ) → length v < 2 ^ 32
        → SpellsOctets order place v (written_octets order place v) }
    ensures string { (order : Order) (place : ℕ) (v : List ℕ) → HasNoNul v → length v + 1 < 2 ^ 32
        → SpellsString order place v (written_octets order place (v ++ 0 ∷ [])) }
    ensures pair { (first second : Item) (order : Order) (place : ℕ) (v : ValueOf first)
        (w : ValueOf second) (front back : List ℕ)
        → Spells first order place v front → Spells second order (place + length front) w back
        → Spells (pair first second) order place (v, w) (front ++ back) }
    ensures encapsulated { (item : Item) (order inner : Order) (place : ℕ) (v : ValueOf item)
        (body : List ℕ)
        → Spells item inner 1 v body → length body + 1 < 2 ^ 32
        → Spells (encapsulated item) order place v
        (written_octets order place (flag inner ∷ body)) }
{}
