//! The replies of all sessions over the traders of a file.

ghost use Rattle.td_listen_laws.specs.Spelling.{FilesSpellReplies};

/// Where `listen` has served its last visitor, each reply of each session over the traders of its file spells the
/// outcome of its Request, whatever the file is, and whatever the other sessions do meanwhile.
pub fn replies_of_files_spell_outcomes<V>()
    ensures { FilesSpellReplies V }
{}
