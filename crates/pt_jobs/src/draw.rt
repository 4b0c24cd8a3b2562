//! Numbers drawn from a seed.

/// Numbers that a seed gives one after another, by the method splitmix64.
#[derive(Clone, Copy)]
pub struct Draw {
    state: u64,
}

impl Draw {
    /// The numbers of a seed.
    pub fn of(seed: u64) -> Draw {
        Draw { state: seed }
    }

    /// The next number.
    pub fn next(&mut self) -> u64 {
        self.state = self.state.wrapping_add(0x9E37_79B9_7F4A_7C15);
        let first = (self.state ^ (self.state >> 30)).wrapping_mul(0xBF58_476D_1CE4_E5B9);
        let second = (first ^ (first >> 27)).wrapping_mul(0x94D0_49BB_1331_11EB);
        second ^ (second >> 31)
    }

    /// The next number from the least to the greatest.
    pub fn between(&mut self, least: u64, greatest: u64) -> u64 {
        let span = greatest.saturating_sub(least).saturating_add(1);
        least.saturating_add(self.next() % span)
    }

    /// Whether the next number is one of so many in a hundred.
    pub fn is_one_of(&mut self, hundredths: u64) -> bool {
        self.next() % 100 < hundredths
    }
}
