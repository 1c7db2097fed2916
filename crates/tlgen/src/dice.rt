//! Numbers that look random, the same for the same seed.
ghost use Rattle.std.specs.Prelude.{◌<◌};

use rand_core::SeedableRng;
use rand_core::utils::NextWord;
use rand_pcg::Pcg32;

/// A generator of numbers.
#[derive(Drop)]
pub(crate) struct Dice {
    words: Pcg32,
}

impl Dice {
    /// The generator of a seed.
    pub(crate) fn new(seed: u32) -> Dice {
        Dice {
            words: Pcg32::seed_from_u64(u64::from(seed)),
        }
    }

    /// A number below `sides`; 0 where there are no sides.
    pub(crate) fn below(&mut self, sides: u32) -> u32
        ensures { 0 < sides → result < sides }
    {
        let word: u32 = self.words.next_word();
        if sides == 0 { 0 } else { word % sides }
    }

    /// A number from 1 to 65,536, of each size as often as of the next.
    pub(crate) fn size(&mut self) -> u32 {
        let shift = 16 + self.below(16);
        let word: u32 = self.words.next_word();
        (word >> shift).saturating_add(1)
    }

    /// One of some words.
    pub(crate) fn pick(&mut self, words: &[&'static str]) -> &'static str {
        let count = u32::try_from(words.len()).unwrap_or(0);
        words.get(self.below(count) as usize).copied().unwrap_or("")
    }

    /// A byte.
    pub(crate) fn byte(&mut self) -> u8 {
        self.below(256) as u8
    }
}
