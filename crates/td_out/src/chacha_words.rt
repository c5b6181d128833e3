//! Random words of ChaCha20.

ghost use Rattle.std.specs.Prelude.{◌≡◌, ℕ, ◌+◌, ◌%◌, ◌^◌, length, Some, replicate};
ghost use Rattle.td_out.specs.RandomWords.{StreamSeed, WordPosition, chacha_word, start_of};

use crate::words::Words;
use rand_chacha::ChaCha20Rng;
use rand_core::SeedableRng;
use rand_core::utils::NextWord;
use std::marker::Model;

/// The words of ChaCha20, each of them two successive ones of 32 bits of which the first is the lower half.
#[derive(Drop)]
pub struct ChaChaWords {
    key: [u8; 32],
    generator: ChaCha20Rng,
}

impl Model for ChaChaWords {
    ghost use Rattle.std.specs.Prelude.{◌≡◌};
    ghost use Rattle.rand_chacha.specs.ChaCha.{key_of};
    ghost use Rattle.td_out.specs.RandomWords.{WordPosition};

    ghost Value = { WordPosition };

    ghost view = { λ w. record {
      seeding = record { key = w.key; stream = w.generator.stream };
      place = w.generator.word_pos;
    } };

    ghost invariant = { λ w. w.generator.key ≡ key_of w.key };
}

impl ChaChaWords {
    /// The words after a seeding with 32 zero bytes and stream 0.
    pub fn new() -> ChaChaWords
        ensures { result ≡ start_of (record { key = replicate 32 0; stream = 0 }) }
    {
        ChaChaWords::at_start([0u8; 32], 0)
    }

    /// The words from the beginning of a stream of a key. A change of the stream alone would keep the place.
    fn at_start(key: [u8; 32], stream: u64) -> ChaChaWords
        ensures { result ≡ start_of (record { key = key; stream = stream }) }
    {
        let mut generator = ChaCha20Rng::from_seed(key);
        generator.set_stream(stream);
        ChaChaWords { key, generator }
    }
}

impl Words for ChaChaWords {
    ghost last_seeding = { λ w. Some w.seeding };

    ghost word = { λ w. chacha_word w };

    ghost word_after = { λ _ s. chacha_word (start_of s) };

    ghost same = { λ _ _. Unit {0} };

    ghost same_self = { λ _. tt };

    ghost same_on = { λ _ _ _ _ _. tt };

    fn seed(&mut self, key: &[u8], stream: u64)
        requires { length key.now ≡ 32 }
        ensures same { Unit {0} }
        ensures seeded { Some self.new.seeding ≡ Some (record { key = key.now; stream = stream }) }
        ensures words { (k : ℕ) → chacha_word self.new k
            ≡ chacha_word (start_of (record { key = key.now; stream = stream })) k }
        ensures start { self.new ≡ start_of (record { key = key.now; stream = stream }) }
    {
        let mut bytes = [0u8; 32];
        bytes.copy_from_slice(key);
        *self = ChaChaWords::at_start(bytes, stream);
    }

    fn next(&mut self) -> u64
        ensures same { Unit {0} }
        ensures first { result ≡ chacha_word self.old 0 }
        ensures rest { (k : ℕ) → chacha_word self.new k ≡ chacha_word self.old (k + 1) }
        ensures kept { Some self.new.seeding ≡ Some self.old.seeding }
        ensures place { self.new.place ≡ (self.old.place + 2) % 2 ^ 68 }
    {
        let _place = self.generator.get_word_pos();
        let low = self.generator.next_word();
        let high = self.generator.next_word();
        u64::from(low) + 0x1_0000_0000 * u64::from(high)
    }
}
