//! The line in front of a log.

ghost use Rattle.std.specs.Prelude.{◌≡◌, ◌<◌, ◌∷◌, length, nat_eq};
ghost use Rattle.std.specs.List.{position};
ghost use Rattle.td_log.specs.Words.{lines_of};

/// The first line of a log that isn't empty, and what follows it.
pub fn next_line(log: &[u8]) -> (&[u8], &[u8])
    requires { 0 < length log.now }
    ensures cut { lines_of log.now ≡ result.0.now ∷ lines_of result.1.now }
    ensures shorter { length result.1.now < length log.now }
{
    let Some(end) = line_end(log) else {
        return (log, &[]);
    };
    let (line, rest) = log.split_at(end);
    let (_feed, after) = rest.split_at(1);
    (line, after)
}

/// The place of the first LF.
fn line_end(log: &[u8]) -> Option<usize>
    ensures { result ≡ position (λ b. nat_eq b 10) log.now }
{
    log.iter().position(|byte| *byte == b'\n')
}
