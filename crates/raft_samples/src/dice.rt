//! [`Dice`]: random numbers that can be repeated.

ghost use Rattle.std.specs.Prelude.{◌<◌};

use raft_base::hash_u64;

/// A generator of random numbers that depend only on its seed.
#[derive(Drop)]
pub struct Dice {
    /// The hash of the seed, raised by one for each number that was drawn.
    drawn: u64,
}

impl Dice {
    /// Returns a generator, which draws the same numbers for the same `seed`.
    pub fn new(seed: u64) -> Dice {
        Dice {
            drawn: hash_u64(seed),
        }
    }

    /// Draws a number below `end`, which must be above 0.
    pub fn draw_below(&mut self, end: u64) -> u64
        requires { 0 < end }
        ensures { result < end }
    {
        self.drawn = self.drawn.wrapping_add(1);
        hash_u64(self.drawn) % end
    }

    /// Draws `true` once in `times` draws on average, else `false`. `times` must be above 0.
    pub fn draw_one_in(&mut self, times: u64) -> bool
        requires { 0 < times }
    {
        self.draw_below(times) == 0
    }

    /// Draws one of the letters `a` to `z`, in ASCII.
    pub fn draw_letter(&mut self) -> u8 {
        b'a' + self.draw_below(26) as u8
    }
}
