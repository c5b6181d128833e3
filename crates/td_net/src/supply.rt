//! Random words that lie in a list, and how many of them were drawn.

ghost use Rattle.std.specs.Prelude.{◌≡◌, ℕ, ◌+◌, ◌≤◌, length, Some, None};
ghost use Rattle.td_net.specs.Supplies.{IsTrimmed, without_zeros, word_of};
ghost use Rattle.td_out.specs.RandomWords.{StreamSeed};

use std::marker::Model;
use td_cdr::List;
use td_out::Words;

/// A seeding, as it was told.
#[derive(Clone, Copy)]
struct SeedingBytes {
    pub key: [u8; 32],
    pub stream: u64,
}

/// Words that lie in a list, of which so many were drawn; behind them comes 0 for ever. A seeding is told, and changes
/// none of them.
#[derive(Drop)]
pub(crate) struct Supply {
    all: Vec<u64>,
    place: usize,
    seeding: Option<SeedingBytes>,
}

impl Model for Supply {
    ghost use Rattle.std.specs.Prelude.{◌≤◌, length, option_map};
    ghost use Rattle.td_net.specs.Supplies.{IsTrimmed, WordSupply};

    ghost Value = { WordSupply };

    ghost view = { λ s. record {
      all = s.all.items;
      drawn = s.place;
      seeding = option_map (λ b. record { key = b.key; stream = b.stream }) s.seeding;
    } };

    ghost invariant = { λ s. (s.place ≤ length s.all.items) × IsTrimmed s.all.items };
}

impl Supply {
    /// These words, of which none was drawn. Zeros at the end are left out, since 0 comes behind them.
    #[tactic(auto, using(crate::proofs::Trimming::last_word))]
    pub(crate) fn new(words: List<u64>) -> Supply
        ensures { result ≡ record { all = without_zeros words; drawn = 0; seeding = None } }
    {
        Supply {
            all: trim(words.into_vec()),
            place: 0,
            seeding: None,
        }
    }

    /// How many were drawn.
    pub(crate) fn drawn(&self) -> usize
        ensures number { result ≡ self.now.drawn }
        ensures within { self.now.drawn ≤ length self.now.all }
        ensures trimmed { IsTrimmed self.now.all }
    {
        self.place
    }
}

/// Words without the zeros at the end.
fn trim(mut words: Vec<u64>) -> Vec<u64>
    ensures { result.items ≡ without_zeros words.items }
{
    loop {
        match words.pop() {
            None => return words,
            Some(0) => {}
            Some(word) => {
                words.push_reserved(word);
                return words;
            }
        }
    }
}

impl Words for Supply {
    ghost last_seeding = { λ s. s.seeding };

    ghost word = { λ s. word_of s };

    ghost word_after = { λ s _. word_of s };

    ghost same = { λ a b. b.all ≡ a.all };

    ghost use Rattle.std.proofs.Common.{◌∙◌, refl};

    ghost same_self = { λ a. refl };

    ghost same_on = { λ a b c p q. q ∙ p };

    fn seed(&mut self, key: &[u8], stream: u64)
        requires { length key.now ≡ 32 }
        ensures same { self.new.all ≡ self.old.all }
        ensures seeded { self.new.seeding ≡ Some (record { key = key.now; stream = stream }) }
        ensures words { (k : ℕ) → word_of self.new k ≡ word_of self.old k }
    {
        let mut bytes = [0u8; 32];
        bytes.copy_from_slice(key);
        self.seeding = Some(SeedingBytes { key: bytes, stream });
    }

    #[tactic(auto, using(crate::proofs::Counting::past, crate::proofs::Counting::next_word))]
    fn next(&mut self) -> u64
        ensures same { self.new.all ≡ self.old.all }
        ensures first { result ≡ word_of self.old 0 }
        ensures rest { (k : ℕ) → word_of self.new k ≡ word_of self.old (k + 1) }
        ensures kept { self.new.seeding ≡ self.old.seeding }
    {
        if self.place < self.all.len() {
            let word = self.all[self.place];
            self.place += 1;
            word
        } else {
            0
        }
    }
}
