//! Which changes survive a loss of power.

/// Which of the changes that may be lost survive; the lowest bit is for the first change.
#[derive(Clone, Copy)]
pub(crate) struct Choices(u64);

impl Choices {
    /// Returns whether the next change survives.
    pub(crate) fn survives(&mut self) -> bool {
        let survives = self.0 % 2 == 1;
        self.0 /= 2;
        survives
    }
}

/// The greatest number of changes for which each choice is tried.
const ALL_TRIED: usize = 10;

/// How many choices are tried for more changes.
const TRIED: u64 = 1000;

/// The choices that are tried for a number of changes: all for at most ten changes, else 1,000 from
/// a fixed seed.
#[derive(Drop)]
pub(crate) struct Tries {
    at: u64,
    count: u64,
    /// The state of the generator, or `None` if all choices are tried.
    seed: Option<u64>,
}

/// Returns two to the power of `times`.
fn doubled(times: usize) -> u64 {
    let mut count = 1u64;
    for _ in 0..times {
        count = count.saturating_mul(2);
    }
    count
}

impl Tries {
    pub(crate) fn new(changes: usize) -> Tries {
        if changes <= ALL_TRIED {
            return Tries {
                at: 0,
                count: doubled(changes),
                seed: None,
            };
        }
        Tries {
            at: 0,
            count: TRIED,
            seed: Some(0x9e37_79b9_7f4a_7c15),
        }
    }

    /// Returns the next choice, or `None` after the last one.
    pub(crate) fn next_choices(&mut self) -> Option<Choices> {
        if self.at >= self.count {
            return None;
        }
        let at = self.at;
        self.at = at.saturating_add(1);
        let Some(seed) = self.seed else {
            return Some(Choices(at));
        };
        let next = xorshift(seed);
        self.seed = Some(next);
        Some(Choices(next))
    }
}

/// Returns the next number of Marsaglia's 64-bit xorshift generator.
fn xorshift(state: u64) -> u64 {
    let state = state ^ state.wrapping_shl(13);
    let state = state ^ state.wrapping_shr(7);
    state ^ state.wrapping_shl(17)
}
