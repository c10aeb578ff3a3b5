//! Pseudo-random numbers, the same ones in each run.

ghost use Rattle.std.specs.Prelude.{◌<◌};

/// A linear congruential generator of pseudo-random numbers.
#[derive(Clone, Copy)]
pub struct Sequence {
    last: u32,
}

impl Sequence {
    /// The generator with this seed.
    pub fn new(first: u32) -> Sequence {
        Sequence { last: first }
    }

    /// The next number, below a bound that is not 0.
    pub fn next(&mut self, bound: u32) -> u32
        requires { 0 < bound }
        ensures { result < bound }
    {
        self.last = self
            .last
            .wrapping_mul(1_664_525)
            .wrapping_add(1_013_904_223);
        (self.last >> 8) % bound
    }
}
