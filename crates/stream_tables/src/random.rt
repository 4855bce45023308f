//! Numbers that a seed fixes.

/// A generator of numbers, SplitMix64 of Steele, Lea and Flood
/// (<https://doi.org/10.1145/2660193.2660195>): the same seed gives the same numbers everywhere.
#[derive(Clone, Copy)]
pub struct Random {
    state: u64,
}

impl Random {
    /// Returns the generator of this seed.
    pub fn new(seed: u64) -> Random {
        Random { state: seed }
    }

    /// Returns the next number.
    pub fn next(&mut self) -> u64 {
        self.state = self.state.wrapping_add(0x9e37_79b9_7f4a_7c15);
        let mut mixed = self.state;
        mixed = (mixed ^ (mixed >> 30)).wrapping_mul(0xbf58_476d_1ce4_e5b9);
        mixed = (mixed ^ (mixed >> 27)).wrapping_mul(0x94d0_49bb_1331_11eb);
        mixed ^ (mixed >> 31)
    }

    /// Returns the next number, below 256.
    pub fn byte(&mut self) -> u8 {
        (self.next() % 256) as u8
    }

    /// Returns a number up to the greatest, this included.
    pub fn up_to(&mut self, greatest: u8) -> usize {
        let kinds = greatest as u64 + 1;
        (self.next() % kinds) as usize
    }
}
