//! Words that are cut at a mark.

ghost use Rattle.std.specs.Prelude.{◌≡◌, ◌<◌, length, IfSome, option_map};
ghost use Rattle.std.specs.List.{position};
ghost use Rattle.td_cli_request.specs.Cuts.{cut_at, cut_first, cut_type, is_mark, type_end};

/// The first place of a byte.
#[tactic(auto, using(crate::proofs::Places::within))]
fn mark_place(text: &[u8], mark: u8) -> Option<usize>
    ensures place { result ≡ position (is_mark mark) text.now }
    ensures within { IfSome result (λ n. n < length text.now) }
{
    text.iter().position(|byte| *byte == mark)
}

/// What stands in front of the byte at a place, and what stands behind it.
fn cut_at(text: &[u8], place: usize) -> (&[u8], &[u8])
    requires { place < length text.now }
    ensures { (result.0.now, result.1.now) ≡ cut_at place text.now }
{
    let (front, behind) = text.split_at(place);
    let (_mark, back) = behind.split_at(1);
    (front, back)
}

/// What stands in front of the first such byte, and what stands behind it.
pub(crate) fn cut_first(text: &[u8], mark: u8) -> Option<(&[u8], &[u8])>
    ensures { option_map (λ c. (c.0.now, c.1.now)) result ≡ cut_first mark text.now }
{
    match mark_place(text, mark) {
        Some(place) => Some(cut_at(text, place)),
        None => None,
    }
}

/// The place of the colon that ends a type: the first one, or of a sequence the one behind `seq:`.
fn type_end(text: &[u8]) -> Option<usize>
    ensures place { result ≡ type_end text.now }
    ensures within { IfSome result (λ n. n < length text.now) }
{
    if let Some(item) = text.strip_prefix(b"seq:".as_slice()) {
        return match mark_place(item, b':') {
            Some(place) => Some(place + 4),
            None => None,
        };
    }
    mark_place(text, b':')
}

/// The word for a type, and what stands behind the colon that ends it.
pub(crate) fn cut_type(text: &[u8]) -> Option<(&[u8], &[u8])>
    ensures { option_map (λ c. (c.0.now, c.1.now)) result ≡ cut_type text.now }
{
    match type_end(text) {
        Some(place) => Some(cut_at(text, place)),
        None => None,
    }
}
