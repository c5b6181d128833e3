//! What the commands on logs make of what each other prints.

ghost use Rattle.td_audit_run_laws.specs.Examples.{WorkedCommands};
ghost use Rattle.td_audit_run_laws.specs.Rings.{FilesLogsPass, RingLogsAreRight, RingLogsAreShort, RingLogsFit};
ghost use Rattle.td_audit_run_laws.specs.Rings.{RingLogsPass};

use td_audit_laws::verdicts_are_one;

/// A log that was made of the traders of a file passes, if it has fewer than 2^32 bytes. So an audit, over the file of
/// a ring of 1 to 64 traders, of the log that was printed for that ring says that each line passes; or a text isn't
/// read, memory runs out, or the sink fails.
pub fn made_logs_are_audited()
    ensures files { FilesLogsPass }
    ensures rings { RingLogsPass }
{
    verdicts_are_one();
    td_make_laws::generated_files_are_read();
    td_make_file_laws::generated_files_open();
}

/// The log of a ring of 1 to 64 traders has 128 lines at most for each of them, and 64 MiB at most, as a text that is
/// read may have. So the verdict on it is that each line passes, or memory runs out.
pub fn ring_logs_are_short()
    ensures lines { RingLogsAreShort }
    ensures bytes { RingLogsFit }
    ensures right { RingLogsAreRight }
{
    verdicts_are_one();
    td_make_laws::generated_files_are_read();
    td_make_file_laws::generated_files_open();
}

/// Worked examples: which words are a command on logs, what it prints, and how it ends; an empty log passes.
pub fn worked_commands()
    ensures { WorkedCommands }
{}
