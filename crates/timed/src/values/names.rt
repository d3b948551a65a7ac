//! Numbers drawn at random, the same in each run.
ghost use Rattle.std.specs.Prelude.{◌<◌};

/// What the next number is drawn from.
#[derive(Drop)]
pub struct Draws(u64);

impl Draws {
    /// From the same number in each run.
    pub fn new() -> Draws {
        Draws(1)
    }

    /// A number below the most.
    pub fn below(&mut self, most: u32) -> u32
        requires { 0 < most }
        ensures { result < most }
    {
        self.0 = self
            .0
            .wrapping_mul(6_364_136_223_846_793_005)
            .wrapping_add(1_442_695_040_888_963_407);
        ((self.0 >> 33) % u64::from(most)) as u32
    }
}
