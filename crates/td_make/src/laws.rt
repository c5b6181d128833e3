//! Worked examples, as a function that does nothing: its contract is what they say.

ghost use Rattle.std.specs.Prelude.{◌≡◌, count_by, nat_eq};
ghost use Rattle.td_make.specs.Examples.{chord_of_five, file, ring_of_one, ring_of_two};
ghost use Rattle.td_make.specs.Generated.{generated_file, link_lines};

/// The files of one trader and of two, line by line. The first has 27 lines. In a ring of five the third trader's chord
/// leads past the last one to the first.
pub fn worked_files()
    ensures one { generated_file 1 ≡ file ring_of_one }
    ensures lines { count_by (nat_eq 10) (generated_file 1) ≡ 27 }
    ensures two { generated_file 2 ≡ file ring_of_two }
    ensures five { link_lines 5 3 ≡ file chord_of_five }
{}
