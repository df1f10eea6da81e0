// Sets of moments, a bit for each.
ghost use Rattle.std.specs.Prelude.{◌≡◌, ℕ, ◌+◌, ◌/◌, ◌%◌, ◌^◌, ◌<◌, false, ◌&&◌, ◌||◌, Decides, ◌==◌, slice_index};
ghost use Rattle.graph.specs.Sets.{Within, holds, pair};

use std::array;

// A set of moments, each below 256.
#[derive(Clone, Copy)]
pub struct Moments {
    words: [u64; 4],
}

impl Moments {
    pub fn none() -> Self
        ensures { (k : ℕ) → k < 256 → holds result k ≡ false }
    {
        Moments { words: [0; 4] }
    }

    // The word of a moment, shifted so that the moment has the lowest bit.
    fn word_from(&self, moment: u8) -> u64
        ensures { result ≡ slice_index self.now.words (moment / 64) / 2 ^ (moment % 64) }
    {
        self.words[moment as usize / 64] >> (moment % 64)
    }

    pub fn has(&self, moment: u8) -> bool
        ensures { result ≡ holds self.now moment }
    {
        self.word_from(moment) & 1 == 1
    }

    // Which of a moment and the next one are in the set: 1 for the first, 2 for the next, and their sum.
    pub fn pair_from(&self, first: u8) -> usize
        requires { first % 2 ≡ 0 }
        ensures { result ≡ pair (holds self.now first) (holds self.now (first + 1)) }
    {
        (self.word_from(first) & 3) as usize
    }

    // Puts in a moment.
    pub fn put(&mut self, moment: u8)
        ensures { (k : ℕ) → k < 256 → holds self.new k ≡ (holds self.old k || k == moment) }
    {
        self.put_if(true, moment);
    }

    // Puts in a moment, if told to; without a branch, for speed.
    pub fn put_if(&mut self, told: bool, moment: u8)
        ensures { (k : ℕ) → k < 256 → holds self.new k ≡ (holds self.old k || (told && k == moment)) }
    {
        self.words[moment as usize / 64] |= (told as u64) << (moment % 64);
    }

    // The set with the moments of another.
    pub fn join(self, other: Self) -> Self
        ensures { (k : ℕ) → k < 256 → holds result k ≡ (holds self k || holds other k) }
    {
        Moments {
            words: array::from_fn(|i| self.words[i] | other.words[i]),
        }
    }

    // Puts in the moments of another set, if the set has a given one.
    pub fn follow(&mut self, given: u8, other: Self)
        ensures { (k : ℕ) → k < 256 → holds self.new k ≡ (holds self.old k || (holds self.old given && holds other k)) }
    {
        if self.has(given) {
            *self = self.join(other);
        }
    }

    // Whether each moment of the set is one of the other.
    pub fn within(self, other: Self) -> bool
        ensures { Decides result (Within self other) }
    {
        // A loop, since the proof of an `all` did not close: it does not know that the words fit.
        for (word, wider) in self.words.iter().zip(&other.words) {
            if word | wider != *wider {
                return false;
            }
        }
        true
    }
}
