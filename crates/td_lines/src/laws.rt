//! What holds of all files, as functions that do nothing: each one's contract is the law.

ghost use Rattle.std.specs.Prelude.{◌≡◌, ℕ, List, [], ◌∷◌, codes, map, None, Some};
ghost use Rattle.td_lines.specs.Drafts.{with_line};
ghost use Rattle.td_lines.specs.Examples.{comment_alone, late_version, dangling_link, odd_property, short_type};
ghost use Rattle.td_lines.specs.Examples.{two_versions};
ghost use Rattle.td_lines.specs.Laws.{IsValidScript};
ghost use Rattle.td_lines.specs.Scripts.{script_of};
ghost use Rattle.td_lines.specs.Steps.{refusal};
ghost use Rattle.td_lines.specs.declared.cause.LineCause.TheVariants.{Name, Place, Words};
ghost use Rattle.td_lines.specs.declared.entry.FileEntry.TheVariants as entry;
ghost use Rattle.td_ops.specs.declared.attribute.NumberAttribute.TheVariants.{MaxList};
ghost use Rattle.td_ops.specs.declared.call.Change.TheVariants as change;
ghost use Rattle.td_value.specs.declared.enumerations.FollowOption.TheVariants.{Always, LocalOnly};

/// What a file says has a host of 1,000 bytes at most without NUL, a minor version of at most 1, a seed of 32 octets,
/// and traders of distinct names, each of 32 bytes at most.
pub fn scripts_are_sound()
    ensures { (text : List ℕ) → IsValidScript (script_of text) }
{}

/// Worked examples: a type line without an interface is refused at its number; a property of no known type is answered
/// with the line of its type; a file of comments lacks its address in the first line; the version of the server's
/// references is told behind its address, and not behind a trader; a trader's link and its set attribute are entries
/// with the numbers of their lines.
pub fn worked_files()
    ensures words { (script_of short_type).refused ≡ Some (refusal 3 Words) }
    ensures first_line { (script_of odd_property).refused ≡ Some (refusal 4 Name) }
    ensures address { (script_of comment_alone).refused ≡ Some (refusal 1 Place) }
    ensures version { (script_of two_versions).home
        ≡ Some (record { host = codes "h"; port = 9; minor = 1 }) }
    ensures late { (script_of late_version).refused ≡ Some (refusal 3 Place) }
    ensures whole { (script_of dangling_link).refused ≡ None }
    ensures entries { map (λ t. t.entries) (script_of dangling_link).traders
        ≡ (with_line 3 (entry.Link (codes "l") (codes "B") LocalOnly Always)
        ∷ with_line 4 (entry.Change (change.SetNumber MaxList 7)) ∷ []) ∷ [] }
{}
