//! What holds of every log that was made.

ghost use Rattle.td_log_laws.specs.Examples.{WorkedLogs};
ghost use Rattle.td_log_laws.specs.Made.{MadeLogsAreRight, MadeLogsPass};
ghost use Rattle.td_log_laws.specs.Short.{MadeLogsAreShort, MadeLogsAreSmall, MadeLogsFit};
ghost use Rattle.td_trader.specs.PlainTraders.{PlainTrader};
ghost use Rattle.td_walk.specs.declared.trace.Address.{Address};

use td_audit_laws::verdicts_are_one;

/// A log that `make_log` gives of traders that a file can open passes when it is audited, if it has fewer than 2^32
/// bytes: each of its lines is read, each event is accepted, and each reply is the one that the server writes. So
/// `audit` of it answers that each line passes, or runs out of memory.
pub fn made_logs_pass()
    ensures passes { MadeLogsPass }
    ensures right { MadeLogsAreRight }
{
    verdicts_are_one();
}

/// A log that `make_log` gives has 128 lines at most for each trader, where each has two links at most, ordinary offers
/// without dynamic properties alone, and a default hop count of at most 5. The log of 64 such traders at most has fewer
/// than 2^32 bytes; and 64 MiB at most where the references of their offers have at most 4,096 bytes.
pub fn made_logs_are_short()
    ensures lines { MadeLogsAreShort }
    ensures bytes { MadeLogsAreSmall }
    ensures fits { MadeLogsFit }
{}

/// Worked examples: the log of no traders, which is empty; and traders that no file opens.
pub fn worked_logs()
    ensures { (t : PlainTrader) (home : Address) → WorkedLogs t home }
{}
