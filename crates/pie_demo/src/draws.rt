//! Numbers that look random, and are the same each time.
ghost use Rattle.std.specs.Prelude.{◌≡◌, ◌<◌, ◌%◌, ◌^◌};
ghost use Rattle.pie_demo.specs.Draws.{next_state, state_after, drawn};

/// The most files that a demo has.
pub(crate) const MAX_SIZE: u32 = 1000;

/// The state of the draws. Rule: docs/FORMATS.md, "The demo".
#[derive(Clone, Copy)]
pub(crate) struct Draws {
    state: u64,
}

impl Draws {
    /// The draws of a seed.
    pub(crate) fn new(seed: u64) -> Draws
        ensures { result.state ≡ seed }
    {
        Draws { state: seed }
    }

    /// The next number.
    fn draw(&mut self) -> u64
        ensures drawn { result ≡ drawn self.old.state }
        ensures state { self.new.state ≡ next_state self.old.state }
        ensures small { result < 2 ^ 31 }
    {
        self.state = self
            .state
            .wrapping_mul(6364136223846793005)
            .wrapping_add(1442695040888963407);
        self.state >> 33
    }

    /// The next number, modulo a bound.
    pub(crate) fn below(&mut self, bound: u32) -> u32
        requires { 0 < bound }
        ensures below { result < bound }
        ensures drawn { result ≡ drawn self.old.state % bound }
        ensures state { self.new.state ≡ next_state self.old.state }
    {
        (self.draw() % bound as u64) as u32
    }

    /// Passes over so many numbers.
    pub(crate) fn skip(&mut self, count: u32)
        ensures { self.new.state ≡ state_after self.old.state count }
    {
        for _ in 0..count {
            self.draw();
        }
    }
}
