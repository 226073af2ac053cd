//! A seeded generator of numbers, the same on every run.
#[derive(Drop)]
pub struct Random {
    state: u32,
}

impl Random {
    /// The generator of a seed.
    pub fn new(seed: u32) -> Random {
        Random { state: seed }
    }

    /// A number below the bound, or 0.
    pub fn below(&mut self, bound: u16) -> u16 {
        self.state = self
            .state
            .wrapping_mul(1_664_525)
            .wrapping_add(1_013_904_223);
        let high = (self.state >> 16) as u16;
        if bound == 0 { 0 } else { high % bound }
    }
}
