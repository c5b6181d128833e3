//! Why files are refused, in words.

use td_file::{FileFault, LineCause};

fn cause_name(cause: LineCause) -> &'static str {
    match cause {
        LineCause::Words => "words",
        LineCause::Name => "name",
        LineCause::Number => "number",
        LineCause::Place => "place",
        LineCause::Twice => "twice",
        LineCause::Value => "value",
        LineCause::Reference => "reference",
        LineCause::Rejected => "rejected",
    }
}

/// Whether an entry is refused at this line for this cause: `LINE CAUSE`.
pub(crate) fn is_fault(fault: FileFault, content: &str) -> bool {
    let (number, name) = content.split_once(' ').unwrap_or((content, ""));
    match fault {
        FileFault::Line(line, cause) => number.parse::<u32>() == Ok(line)
            && name == cause_name(cause),
        FileFault::Memory => false,
    }
}
