//! Numbers in decimal, without leading zeros.

ghost use Rattle.std.specs.Prelude.{◌≡◌, ◌+◌, ◌≤◌, IfSome};
ghost use Rattle.std.specs.List.{list_all};
ghost use Rattle.td_cdr.specs.Names.{is_digit};
ghost use Rattle.td_ior.specs.Number.{leads_with_zero, numeral, number_below, number_of, port_of};

fn is_digit(byte: u8) -> bool
    ensures { result ≡ is_digit byte }
{
    byte.is_ascii_digit()
}

fn has_only_digits(word: &[u8]) -> bool
    ensures { result ≡ list_all is_digit word.now }
{
    word.iter().all(|byte| is_digit(*byte))
}

fn leads_with_zero(word: &[u8]) -> bool
    ensures { result ≡ leads_with_zero word.now }
{
    word.len() >= 2 && word[0] == b'0'
}

/// Whether a word is a decimal number without leading zeros.
fn is_numeral(word: &[u8]) -> bool
    ensures { result ≡ numeral word.now }
{
    !word.is_empty() && has_only_digits(word) && !leads_with_zero(word)
}

/// The number below 2^64 that a word spells in decimal without leading zeros.
pub fn number_of(word: &[u8]) -> Option<u64>
    ensures { result ≡ number_of word.now }
{
    if !is_numeral(word) {
        return None;
    }
    let Ok(text) = str::from_utf8(word) else {
        return None;
    };
    text.parse().ok()
}

/// The number that a word spells in decimal without leading zeros, where it is at most `most`.
pub fn number_up_to(word: &[u8], most: u64) -> Option<u64>
    ensures found { result ≡ number_below (most + 1) word.now }
    ensures small { IfSome result (λ n. n ≤ most) }
{
    let number = number_of(word)?;
    if number <= most { Some(number) } else { None }
}

/// The port that a word spells, from 0 to 65535.
pub(crate) fn port_of(word: &[u8]) -> Option<u16>
    ensures { result ≡ port_of word.now }
{
    let number = number_of(word)?;
    if number < 65536 {
        Some(number as u16)
    } else {
        None
    }
}
