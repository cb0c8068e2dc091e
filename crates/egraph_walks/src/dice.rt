//! Numbers that look random.

ghost use Rattle.std.specs.Prelude.{◌<◌};

/// A generator by shifts and exclusive or. Its state is never 0.
#[derive(Drop)]
pub struct Dice {
    state: u64,
}

impl Dice {
    pub fn new(seed: u64) -> Dice {
        Dice {
            state: seed.wrapping_mul(11_400_714_819_323_198_485) | 1,
        }
    }

    /// A number below the bound.
    pub fn below(&mut self, bound: usize) -> usize
        requires { 0 < bound }
        ensures { result < bound }
    {
        self.state ^= self.state << 13;
        self.state ^= self.state >> 7;
        self.state ^= self.state << 17;
        (self.state >> 11) as usize % bound
    }
}
