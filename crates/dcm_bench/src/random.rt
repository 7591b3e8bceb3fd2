// Numbers that look random.
ghost use Rattle.std.specs.Prelude.{◌<◌};

/// Numbers that look random, the same for the same seed (splitmix64, by Steele, Lea and Flood).
#[derive(Clone, Copy)]
pub struct Random {
    state: u64,
}

/// What the state grows by: the golden ratio, of 64 bits.
const STEP: u64 = 0x9E37_79B9_7F4A_7C15;

impl Random {
    /// The numbers of a seed, other ones for each round.
    pub fn new(seed: u64, round: u64) -> Self {
        Random {
            state: seed.wrapping_mul(STEP).wrapping_add(round << 32),
        }
    }

    /// The next number.
    pub fn number(&mut self) -> u64 {
        self.state = self.state.wrapping_add(STEP);
        let mixed = (self.state ^ (self.state >> 30)).wrapping_mul(0xBF58_476D_1CE4_E5B9);
        let mixed = (mixed ^ (mixed >> 27)).wrapping_mul(0x94D0_49BB_1331_11EB);
        mixed ^ (mixed >> 31)
    }

    /// The next number below a limit.
    pub fn below(&mut self, limit: u32) -> u32
        requires { 0 < limit }
        ensures { result < limit }
    {
        (self.number() % u64::from(limit)) as u32
    }
}
