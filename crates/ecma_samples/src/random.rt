//! Numbers that look random.

/// Numbers that look random, the same for each seed: the steps of splitmix64 (Steele, Lea and Flood, 2014).
#[derive(Clone, Copy, Debug)]
pub struct Random {
    state: u64,
}

impl Random {
    pub fn new(seed: u64) -> Random {
        Random { state: seed }
    }

    /// The next number.
    pub fn next_number(&mut self) -> u64 {
        self.state = self.state.wrapping_add(0x9e37_79b9_7f4a_7c15);
        let first = (self.state ^ (self.state >> 30)).wrapping_mul(0xbf58_476d_1ce4_e5b9);
        let second = (first ^ (first >> 27)).wrapping_mul(0x94d0_49bb_1331_11eb);
        second ^ (second >> 31)
    }

    /// A number below `count`, or 0 where that is 0.
    pub fn below(&mut self, count: usize) -> usize {
        if count == 0 {
            return 0;
        }
        (self.next_number() % count as u64) as usize
    }

    /// One of these texts, or the empty text where there is none.
    pub fn pick<'a>(&mut self, texts: &[&'a str]) -> &'a str {
        match texts.get(self.below(texts.len())) {
            Some(text) => *text,
            None => "",
        }
    }
}
