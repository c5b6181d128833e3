//! Worked examples, as a function that does nothing: its contract is what they say.

ghost use Rattle.std.specs.Prelude.{◌≡◌, [], codes};
ghost use Rattle.td_check.specs.Checked.{all_lines, count_line};
ghost use Rattle.td_walk.specs.declared.trace.Address.{Address};

/// The first line of a generated trader; of no traders there are no lines.
pub fn worked_lines()
    ensures counts { count_line (codes "T1") 2 10 2
        ≡ codes "trader T1 types 2 offers 10 links 2\n" }
    ensures none { (home : Address) → all_lines home [] ≡ [] }
{}
