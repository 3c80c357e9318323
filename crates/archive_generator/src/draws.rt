//! Numbers that are drawn one after the other.

ghost use Rattle.std.specs.Prelude.{◌≡◌, ◌<◌, ◌≤◌};
ghost use Rattle.archive_generator.specs.Draws as spec;

/// What a linear congruential generator multiplies its state by, and what it adds then: Knuth's
/// numbers for a state of 64 bits.
const MULTIPLIER: u64 = 6_364_136_223_846_793_005;

const INCREMENT: u64 = 1_442_695_040_888_963_407;

/// A source of numbers, which a seed decides. It takes no memory.
#[derive(Drop)]
pub struct Draws {
    /// What the next draw is made from: the seed at first, and any number of 64 bits after a draw.
    pub state: u64,
}

impl Draws {
    /// The draws from a seed.
    pub fn new(seed: u64) -> Draws
        ensures { result.state ≡ seed }
    {
        Draws { state: seed }
    }

    /// A number below a bound: the upper 31 bits of the next state, modulo the bound. It takes
    /// constant time.
    #[tactic(auto, unfolding(crate::specs::Draws::next, crate::specs::Draws::drawn))]
    pub fn draw(&mut self, bound: u32) -> u32
        requires { 0 < bound }
        ensures value { result ≡ spec.drawn bound self.old.state }
        ensures state { self.new.state ≡ spec.next self.old.state }
        ensures below { result < bound }
    {
        self.state = self.state.wrapping_mul(MULTIPLIER).wrapping_add(INCREMENT);
        ((self.state >> 33) % bound as u64) as u32
    }

    /// Nothing in one of eight cases, else a number below a bound.
    #[tactic(auto, unfolding(crate::specs::Draws::perhaps))]
    pub(crate) fn perhaps(&mut self, bound: u32) -> Option<u32>
        requires { 0 < bound }
        ensures value { result ≡ (spec.perhaps bound self.old.state).0 }
        ensures state { self.new.state ≡ (spec.perhaps bound self.old.state).1 }
    {
        if self.draw(8) == 0 {
            return None;
        }
        Some(self.draw(bound))
    }
}
