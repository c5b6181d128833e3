//! What holds of every run of the program.

ghost use Rattle.td_command_laws.specs.Ending.{DrillsAreNotRefused};
ghost use Rattle.td_command_laws.specs.Growing.{HistoriesGrowByOwn};
ghost use Rattle.td_command_laws.specs.Spelling.{FilesSpellReplies, RunsSpellReplies};

/// Of each trader that a file opens, what comes to its history in a session are the session's accepted changes, each at
/// its point, and nothing else: no other session has the traders.
pub fn histories_grow_by_own_changes()
    ensures { HistoriesGrowByOwn }
{
    td_session_runs::alone_histories_grow_by_own_changes();
}

/// Where the stores can be written that a session over traders of its own begins with, each reply of it spells the
/// outcome of its Request.
pub fn replies_spell_outcomes()
    ensures { RunsSpellReplies }
{}

/// Each reply of a session over the traders of a file spells the outcome of its Request, whatever the file is.
pub fn replies_of_files_spell_outcomes()
    ensures { FilesSpellReplies }
{}

/// `drill N` has status 0, 7 where its line can't be printed, or 9 when out of memory: never 3, since the file that
/// `make N` prints opens and isn't too long.
pub fn drills_are_not_refused()
    ensures { DrillsAreNotRefused }
{
    td_make_file_laws::generated_files_open();
}
