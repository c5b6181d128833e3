//! What a generated file says.

ghost use Rattle.td_make_laws.specs.Said.{GeneratedAreRead};

/// No line of the file of a ring of 1 to 64 traders is refused as it is read: it says an address, and so many traders,
/// by their names T1, T2 and so on.
pub fn generated_files_are_read()
    ensures { GeneratedAreRead }
{}
