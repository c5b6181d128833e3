//! Worked examples, as a function that does nothing: its contract is that they hold.

ghost use Rattle.td_name_command.specs.Examples.{WorkedWords};

/// Which words are a command, and the host and port at which its contexts are reached.
pub fn worked_words()
    ensures { WorkedWords }
{}
