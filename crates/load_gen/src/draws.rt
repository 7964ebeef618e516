//! Numbers drawn from a seed.

ghost use Rattle.std.specs.Prelude.{◌≡◌, ◌<◌};
ghost use Rattle.load_gen.specs.Draws.{draw, next};

const MULTIPLIER: u128 = 6364136223846793005;

const INCREMENT: u128 = 1442695040888963407;

const MODULUS: u128 = 1 << 64;

/// A generator of numbers, by a linear congruence modulo 2^64.
#[derive(Clone, Copy, Debug, PartialEq, Eq)]
pub(crate) struct Draws {
    pub(crate) state: u64,
}

impl Draws {
    /// The next number below `below`.
    #[tactic(auto, unfolding(crate::specs::Draws::next, crate::specs::Draws::drawn))]
    pub(crate) fn draw(&mut self, below: u64) -> u64
        requires { 0 < below }
        ensures value { result ≡ draw self.old.state below }
        ensures small { result < below }
        ensures state { self.new.state ≡ next self.old.state }
    {
        self.state = ((u128::from(self.state) * MULTIPLIER + INCREMENT) % MODULUS) as u64;
        (self.state >> 33) % below
    }
}
