//! Signed numbers in decimal, without leading zeros.

ghost use Rattle.std.specs.Prelude.{◌≡◌, ◌≤◌};
ghost use Rattle.td_forms.specs.Numbers.{minus, negative, positive, signed_below};

use td_ior::number_up_to;

/// -n, and nothing for 0.
fn minus_short(n: u64) -> Option<i16>
    requires { n ≤ 32768 }
    ensures { result ≡ minus n }
{
    if n == 0 {
        None
    } else {
        Some(-((n - 1) as i16) - 1)
    }
}

fn negative_short(digits: &[u8]) -> Option<i16>
    ensures { result ≡ negative 32768 digits.now }
{
    minus_short(number_up_to(digits, 32768)?)
}

fn positive_short(word: &[u8]) -> Option<i16>
    ensures { result ≡ positive 32768 word.now }
{
    let n = number_up_to(word, 32767)?;
    Some(n as i16)
}

/// The number from -2^15 to 2^15 - 1 that a word spells.
pub(crate) fn short_of(word: &[u8]) -> Option<i16>
    ensures { result ≡ signed_below 32768 word.now }
{
    if let Some(digits) = word.strip_prefix(b"-".as_slice()) {
        return negative_short(digits);
    }
    positive_short(word)
}

/// -n, and nothing for 0.
fn minus_long(n: u64) -> Option<i32>
    requires { n ≤ 2147483648 }
    ensures { result ≡ minus n }
{
    if n == 0 {
        None
    } else {
        Some(-((n - 1) as i32) - 1)
    }
}

fn negative_long(digits: &[u8]) -> Option<i32>
    ensures { result ≡ negative 2147483648 digits.now }
{
    minus_long(number_up_to(digits, 2147483648)?)
}

fn positive_long(word: &[u8]) -> Option<i32>
    ensures { result ≡ positive 2147483648 word.now }
{
    let n = number_up_to(word, 2147483647)?;
    Some(n as i32)
}

/// The number from -2^31 to 2^31 - 1 that a word spells.
pub(crate) fn long_of(word: &[u8]) -> Option<i32>
    ensures { result ≡ signed_below 2147483648 word.now }
{
    if let Some(digits) = word.strip_prefix(b"-".as_slice()) {
        return negative_long(digits);
    }
    positive_long(word)
}

/// -n, and nothing for 0.
fn minus_long_long(n: u64) -> Option<i64>
    requires { n ≤ 9223372036854775808 }
    ensures { result ≡ minus n }
{
    if n == 0 {
        None
    } else {
        Some(-((n - 1) as i64) - 1)
    }
}

fn negative_long_long(digits: &[u8]) -> Option<i64>
    ensures { result ≡ negative 9223372036854775808 digits.now }
{
    minus_long_long(number_up_to(digits, 9223372036854775808)?)
}

fn positive_long_long(word: &[u8]) -> Option<i64>
    ensures { result ≡ positive 9223372036854775808 word.now }
{
    let n = number_up_to(word, 9223372036854775807)?;
    Some(n as i64)
}

/// The number from -2^63 to 2^63 - 1 that a word spells.
pub(crate) fn long_long_of(word: &[u8]) -> Option<i64>
    ensures { result ≡ signed_below 9223372036854775808 word.now }
{
    if let Some(digits) = word.strip_prefix(b"-".as_slice()) {
        return negative_long_long(digits);
    }
    positive_long_long(word)
}
