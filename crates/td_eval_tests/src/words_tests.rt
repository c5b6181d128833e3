//! Random words.

use std::alloc::Global;
use td_cdr::{List, Memory};
use td_out::{ChaChaWords, MemWords, Words};

fn draw<W: Words>(words: &mut W) -> u64 {
    words.next()
}

fn draw_from<W: Words + Drop>(mut words: W) -> u64 {
    words.next()
}

fn draw_over_a_seeding(words: &mut MemWords) -> bool {
    let first = draw(words) == 7;
    words.seed(&[1; 32], 5);
    first && draw_from(&mut *words) == 4 && draw(words) == 0
}

fn go_on(alloc: Global) -> Result<bool, Memory> {
    let mut words = MemWords::new(List::from_slice(alloc, &[7, 4])?);
    Ok(draw_over_a_seeding(&mut words))
}

#[test]
fn words_in_memory_go_on_over_a_seeding(rt: HostRuntime) {
    let alloc = rt.alloc();
    assert!(rt; go_on(alloc) == Ok(true));
}

fn are_published(words: &mut ChaChaWords) -> bool {
    let front = draw(words) == 0x903d_f1a0_ade0_b876 && draw(words) == 0x28bd_8653_e56a_5d40;
    for _ in 2..8 {
        draw(words);
    }
    front && draw(words) == 0x7a38_5155_bee7_079f
}

/// The key stream of the zero key: RFC 8439, appendix A.1, test vectors 1 and 2 (which begin blocks 0 and 1).
#[test]
fn words_of_chacha20_are_the_published_ones(rt: HostRuntime) {
    assert!(rt; are_published(&mut ChaChaWords::new()));
}

/// Whether the zero key's stream of this number begins with this word, whatever was drawn before.
fn begins(words: &mut ChaChaWords, stream: u64, word: u64) -> bool {
    words.seed(&[0; 32], stream);
    draw(words) == word
}

fn begin_anew(words: &mut ChaChaWords) -> bool {
    draw(words);
    begins(words, 0, 0x903d_f1a0_ade0_b876)
        && begins(words, 0x0200_0000_0000_0000, 0x3736_d58c_374d_c6c2)
}

/// A seeding begins its stream, whatever was drawn. The second one is that of RFC 8439, appendix A.1, test vector
/// 5, whose nonce ends in a 2.
#[test]
fn a_seeding_begins_a_stream(rt: HostRuntime) {
    assert!(rt; begin_anew(&mut ChaChaWords::new()));
}
