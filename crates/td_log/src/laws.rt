//! Worked examples, as a function that does nothing: its contract is that they hold.

ghost use Rattle.td_log.specs.Examples.{WorkedEvents, WorkedLogs, WorkedMessages, WorkedValues};

/// Lines of a log: events, a value, values and messages that are cut off or have bytes behind them, a number that
/// begins with zero, a trader that isn't there; and how a log is cut into lines.
pub fn worked_lines()
    ensures events { WorkedEvents }
    ensures values { WorkedValues }
    ensures messages { WorkedMessages }
    ensures logs { WorkedLogs }
{}
