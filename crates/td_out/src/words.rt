//! Where random words come from.

ghost use Rattle.std.specs.Prelude.{◌≡◌, ℕ, ◌+◌, length, Option, Some};
ghost use Rattle.td_out.specs.RandomWords.{StreamSeed};

/// Where random words come from.
pub trait Words {
    /// The last seeding, where there was one.
    ghost last_seeding: { Self → Option StreamSeed };

    /// The word to come of a number, counted from 0.
    ghost word: { Self → ℕ → ℕ };

    /// The word of a number that comes after a seeding, counted from 0.
    ghost word_after: { Self → StreamSeed → ℕ → ℕ };

    /// They are the same words still: of a borrow, that no others were put in their place.
    ghost same: { Self → Self → Type 0 };

    /// Goes on with the words of a key of 32 bytes and a stream.
    fn seed(&mut self, key: &[u8], stream: u64)
        requires { length key.now ≡ 32 }
        ensures same { same self.old self.new }
        ensures seeded { last_seeding self.new ≡ Some (record { key = key.now; stream = stream }) }
        ensures words { (k : ℕ) → word self.new k
            ≡ word_after self.old (record { key = key.now; stream = stream }) k };

    /// The next word, which is drawn.
    fn next(&mut self) -> u64
        ensures same { same self.old self.new }
        ensures first { result ≡ word self.old 0 }
        ensures rest { (k : ℕ) → word self.new k ≡ word self.old (k + 1) }
        ensures kept { last_seeding self.new ≡ last_seeding self.old };

    ghost same_self: { (a : Self) → same a a };

    ghost same_on: { (a b c : Self) → same a b → same b c → same a c };
}

impl<W: Words> Words for &mut W {
    ghost last_seeding = { λ w. W.last_seeding w.now };

    ghost word = { λ w. W.word w.now };

    ghost word_after = { λ w. W.word_after w.now };

    ghost same = { λ a b. a.ghost_name ≡ b.ghost_name };

    ghost use Rattle.std.proofs.Common.{◌∙◌, refl};

    ghost same_self = { λ a. refl };

    ghost same_on = { λ a b c p q. p ∙ q };

    fn seed(&mut self, key: &[u8], stream: u64) {
        (**self).seed(key, stream);
    }

    fn next(&mut self) -> u64 {
        (**self).next()
    }
}
