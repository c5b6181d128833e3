//! Random words in memory.

ghost use Rattle.std.specs.Prelude.{◌≡◌, ℕ, ◌+◌, List, drop, length, Some, None};
ghost use Rattle.td_out.specs.RandomWords.{WordsState, StreamSeed, word_in};

use crate::words::Words;
use std::marker::Model;
use td_cdr::List;

/// A seeding, as it was told.
#[derive(Clone, Copy, Debug)]
struct SeedingBytes {
    pub key: [u8; 32],
    pub stream: u64,
}

/// Words that lie in memory in the order in which they come. A seeding is told, and changes none of them.
#[derive(Debug, Drop)]
pub struct MemWords {
    words: List<u64>,
    place: usize,
    seeding: Option<SeedingBytes>,
}

impl Model for MemWords {
    ghost use Rattle.std.specs.Prelude.{◌≤◌, length, drop, option_map};
    ghost use Rattle.td_out.specs.RandomWords.{WordsState};

    ghost Value = { WordsState };

    ghost view = { λ w. record {
      left = drop w.place w.words;
      seeding = option_map (λ s. record { key = s.key; stream = s.stream }) w.seeding;
    } };

    ghost invariant = { λ w. w.place ≤ length w.words };
}

impl MemWords {
    /// These words, and then 0 for ever. There was no seeding yet.
    pub fn new(words: List<u64>) -> MemWords
        ensures { result ≡ record { left = words; seeding = None } }
    {
        MemWords {
            words,
            place: 0,
            seeding: None,
        }
    }
}

impl Words for MemWords {
    ghost last_seeding = { λ w. w.seeding };

    ghost word = { λ w. word_in w };

    ghost word_after = { λ w _. word_in w };

    ghost same = { λ _ _. Unit {0} };

    ghost same_self = { λ _. tt };

    ghost same_on = { λ _ _ _ _ _. tt };

    fn seed(&mut self, key: &[u8], stream: u64)
        requires { length key.now ≡ 32 }
        ensures same { Unit {0} }
        ensures seeded { self.new.seeding ≡ Some (record { key = key.now; stream = stream }) }
        ensures words { (k : ℕ) → word_in self.new k ≡ word_in self.old k }
        ensures left { self.new.left ≡ self.old.left }
    {
        let mut bytes = [0u8; 32];
        bytes.copy_from_slice(key);
        self.seeding = Some(SeedingBytes { key: bytes, stream });
    }

    #[tactic(auto, using(crate::proofs::WordsLeft::by_place))]
    fn next(&mut self) -> u64
        ensures same { Unit {0} }
        ensures first { result ≡ word_in self.old 0 }
        ensures rest { (k : ℕ) → word_in self.new k ≡ word_in self.old (k + 1) }
        ensures kept { self.new.seeding ≡ self.old.seeding }
        ensures left { self.new.left ≡ drop 1 self.old.left }
    {
        let words = self.words.as_slice();
        if self.place < words.len() {
            let word = words[self.place];
            self.place += 1;
            word
        } else {
            0
        }
    }
}
