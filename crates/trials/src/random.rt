// Random numbers from a seed.

// SplitMix64. The kit has this generator too, but not its mixing of one number, which is used alone as well.
#[derive(Drop)]
pub(crate) struct Random {
    state: u64,
}

// Mixes a number, so that near numbers give far ones.
pub(crate) fn mixed(number: u64) -> u64 {
    let a = (number ^ (number >> 30)).wrapping_mul(0xbf58_476d_1ce4_e5b9);
    let b = (a ^ (a >> 27)).wrapping_mul(0x94d0_49bb_1331_11eb);
    b ^ (b >> 31)
}

impl Random {
    pub(crate) fn new(seed: u64) -> Random {
        Random { state: seed }
    }

    pub(crate) fn number(&mut self) -> u64 {
        self.state = self.state.wrapping_add(0x9e37_79b9_7f4a_7c15);
        mixed(self.state)
    }

    // A number below the limit, or 0 where that is 0.
    pub(crate) fn below(&mut self, limit: u32) -> u32 {
        let scaled = (self.number() >> 32).wrapping_mul(u64::from(limit));
        ((scaled >> 32) & 0xffff_ffff) as u32
    }

    // True in so many of a hundred cases.
    pub(crate) fn chance(&mut self, percent: u32) -> bool {
        self.below(100) < percent
    }

    pub(crate) fn byte(&mut self) -> u8 {
        (self.number() & 0xff) as u8
    }
}
