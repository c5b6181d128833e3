//! A file of 64 MiB is a text, and one of a byte more is too long, although nothing is told of either.

use crate::fake_files::Zeros;
use std::alloc::Global;
use std::test::Fail;
use td_out::{FileTexts, TextFault, Texts};

/// How long a text may be, in bytes.
const LONGEST: usize = 64 * 1024 * 1024;

/// How long the text of a file of this size is.
fn text_size(alloc: Global, size: usize) -> Result<usize, TextFault> {
    let files = Zeros { size };
    let mut texts = FileTexts::new(&files);
    match texts.text(alloc, "zeros") {
        Ok(text) => Ok(text.len()),
        Err(fault) => Err(fault),
    }
}

#[test]
fn a_text_is_too_long_exactly_above_64_mib(rt: HostRuntime) {
    let alloc = rt.alloc();
    for size in [0, 1, 4096, 4097, LONGEST] {
        assert_eq!(rt; text_size(alloc, size), Ok(size));
    }
    assert_eq!(rt; text_size(alloc, LONGEST + 1), Err(TextFault::TooLong));
}
