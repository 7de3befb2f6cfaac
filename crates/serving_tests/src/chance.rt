//! Pseudo-random numbers, the same at each run.

/// A linear congruential generator.
#[derive(Drop)]
pub struct Chance {
    state: u64,
}

impl Chance {
    /// Returns the generator with this seed.
    pub fn new(seed: u64) -> Chance {
        Chance { state: seed }
    }

    /// Returns a number below `bound`, or 0 if `bound` is 0.
    pub fn below(&mut self, bound: usize) -> usize {
        self.state = self
            .state
            .wrapping_mul(6_364_136_223_846_793_005)
            .wrapping_add(1_442_695_040_888_963_407);
        let number = (self.state >> 33) as usize;
        number.checked_rem(bound).unwrap_or(0)
    }
}
