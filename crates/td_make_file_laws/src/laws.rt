//! What a generated file opens.

ghost use Rattle.td_make_file_laws.specs.Opened.{GeneratedOpen};

/// The file of a ring of 1 to 64 traders opens: no entry of it is refused, by its lines or by its operation, and it is
/// at most 64 MiB long. Its traders are T1, T2 and so on.
pub fn generated_files_open()
    ensures { GeneratedOpen }
{
    td_make_laws::generated_files_are_read();
}
