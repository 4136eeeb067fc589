// A fixed sequence of numbers that look like random ones.
ghost use Rattle.std.specs.Prelude.{◌<◌};

use rand_core::utils::NextWord;
use rand_pcg::Pcg32;

/// The numbers.
#[derive(Drop)]
pub(crate) struct Sequence {
    generator: Pcg32,
}

impl Sequence {
    /// The sequence of that seed.
    pub(crate) fn new(seed: u64) -> Self {
        Self {
            generator: Pcg32::new(seed, 1),
        }
    }

    /// The next number below the bound.
    pub(crate) fn below(&mut self, bound: u32) -> u32
        requires { 0 < bound }
        ensures { result < bound }
    {
        self.generator.next_word() % bound
    }
}
