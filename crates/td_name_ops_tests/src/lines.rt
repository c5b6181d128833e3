//! Lines of vectors.

use std::alloc::Global;
use std::test::Fail;
use td_cdr::Order;
use td_name_ops::NameKind;

/// The object that a letter names.
pub(crate) fn kind_of(letter: &str) -> NameKind {
    if letter == "I" {
        NameKind::Iterator
    } else {
        NameKind::Context
    }
}

/// The bytes of hexadecimal digits, where a dash is none, with those of others behind them.
pub(crate) fn bytes_of(alloc: Global, digits: &str, back: &str) -> Result<Vec<u8>, Fail> {
    let digits = if digits == "-" { "" } else { digits };
    let all = format!(in alloc; "{digits}{back}")?;
    Ok(hex::decode(alloc, all.as_bytes())?)
}

/// The first word of a line, and what stands behind it.
pub(crate) fn cut(line: &str) -> (&str, &str) {
    line.split_once(' ').unwrap_or((line, ""))
}

/// The digits of a body: the big order's come first.
pub(crate) fn body_in(bodies: &str, order: Order) -> &str {
    let (big, little) = cut(bodies);
    if order == Order::Big { big } else { little }
}
