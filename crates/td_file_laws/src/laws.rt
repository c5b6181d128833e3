//! The traders of a file.

ghost use Rattle.td_file_laws.specs.Examples.{WorkedTelling};
ghost use Rattle.td_file_laws.specs.Files.{FilesOpenReachedTraders, FilesOpenWritableTraders};

/// Each trader of a file that is accepted is one that calls reach from its opening on, as laws on traders ask: it is as
/// it was opened, within such bounds as a trader may have.
pub fn files_open_reached_traders()
    ensures { FilesOpenReachedTraders }
{}

/// Each trader of a file of octets that is accepted can be written: its store is empty at first, each reference, value
/// and TypeCode that a line tells has a spelling, and a change whose names or lists haven't is refused.
pub fn files_open_writable_traders()
    ensures { FilesOpenWritableTraders }
{}

/// Worked examples: which changes the lines of a file tell.
pub fn worked_telling()
    ensures { WorkedTelling }
{}
