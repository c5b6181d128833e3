//! The names of service types, links, properties, policies and traders.

ghost use Rattle.std.specs.Prelude.{◌≡◌, ◌&&◌, nat_le, length};
ghost use Rattle.std.specs.List.{list_all};
ghost use Rattle.td_cdr.specs.Names.{is_letter, is_word, is_printing, is_trader_byte, word_name, identifier};
ghost use Rattle.td_cdr.specs.Names.{trader_name};

/// Whether these bytes are a word name: 1 to 256 bytes, each from `!` to `~`. Service types and links
/// have such names.
pub fn is_word_name(name: &[u8]) -> bool
    ensures { result ≡ word_name name.now }
{
    has_length(name, 256) && all_printing(name)
}

/// Whether these bytes are an identifier: a letter, then letters, digits and `_`, at most 256 bytes.
/// Properties and policies have such names.
pub fn is_identifier(name: &[u8]) -> bool
    ensures { result ≡ identifier name.now }
{
    let Some((first, others)) = name.split_first() else {
        return false;
    };
    is_letter(*first) && others.len() <= 255 && all_words(others)
}

/// Whether these bytes are a trader's name: 1 to 32 letters, digits, `_` and `-`.
pub fn is_trader_name(name: &[u8]) -> bool
    ensures { result ≡ trader_name name.now }
{
    has_length(name, 32) && all_trader_bytes(name)
}

/// Whether there are 1 to `most` bytes.
fn has_length(name: &[u8], most: usize) -> bool
    ensures { result ≡ (nat_le 1 (length name.now) && nat_le (length name.now) most) }
{
    1 <= name.len() && name.len() <= most
}

fn all_printing(bytes: &[u8]) -> bool
    ensures { result ≡ list_all is_printing bytes.now }
{
    bytes.iter().all(|byte| is_printing(*byte))
}

fn all_words(bytes: &[u8]) -> bool
    ensures { result ≡ list_all is_word bytes.now }
{
    bytes.iter().all(|byte| is_word(*byte))
}

fn all_trader_bytes(bytes: &[u8]) -> bool
    ensures { result ≡ list_all is_trader_byte bytes.now }
{
    bytes.iter().all(|byte| is_trader_byte(*byte))
}

fn is_printing(byte: u8) -> bool
    ensures { result ≡ is_printing byte }
{
    b'!' <= byte && byte <= b'~'
}

fn is_letter(byte: u8) -> bool
    ensures { result ≡ is_letter byte }
{
    byte.is_ascii_alphabetic()
}

/// Whether a byte is a letter, a digit or `_`.
pub fn is_word(byte: u8) -> bool
    ensures { result ≡ is_word byte }
{
    byte.is_ascii_alphanumeric() || byte == b'_'
}

fn is_trader_byte(byte: u8) -> bool
    ensures { result ≡ is_trader_byte byte }
{
    is_word(byte) || byte == b'-'
}
