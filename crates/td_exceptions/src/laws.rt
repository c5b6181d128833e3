//! What holds of all exceptions, as a function that does nothing: its contract is the law.

ghost use Rattle.td_exceptions.specs.Laws.{IdIsOfScopeAndName, IdHasNoNul, IdTellsMembers, WrittenApart};

/// The repository id of an exception is `IDL:omg.org/`, its scope, `/`, its name and `:1.0`, without a NUL. No id
/// is that of two exceptions, so that it alone tells which members follow; and no two exceptions are written
/// alike, at any place and in either order, whatever follows.
pub fn exceptions_are_distinct()
    ensures id { IdIsOfScopeAndName }
    ensures text { IdHasNoNul }
    ensures members { IdTellsMembers }
    ensures apart { WrittenApart }
{}
