//! What is drawn: numbers that look random and are the same each time, and paths by such numbers.
ghost use Rattle.std.specs.Prelude.{◌<◌};

use pie_base::{Path, PathError};
use std::alloc::Global;
use std::test::Fail;

/// Numbers that look random and are the same each time.
#[derive(Clone, Copy)]
pub(crate) struct Draws {
    pub(crate) state: u64,
}

impl Draws {
    fn draw(&mut self) -> u32 {
        self.state = self
            .state
            .wrapping_mul(6364136223846793005)
            .wrapping_add(1442695040888963407);
        (self.state >> 33) as u32
    }

    pub(crate) fn below(&mut self, bound: u32) -> u32
        requires { 0 < bound }
        ensures { result < bound }
    {
        self.draw() % bound
    }
}

/// One of four paths.
pub(crate) fn path(alloc: Global, which: u32) -> Result<Path, PathError> {
    match which % 4 {
        0 => Path::read(alloc, "a"),
        1 => Path::read(alloc, "a/b"),
        2 => Path::read(alloc, "out/a"),
        _ => Path::read(alloc, "out/a-b"),
    }
}

/// Up to two paths.
pub(crate) fn paths(alloc: Global, draws: &mut Draws) -> Result<Vec<Path>, Fail> {
    let mut paths = Vec::new(alloc);
    for _ in 0..draws.below(3) {
        paths.push(path(alloc, draws.draw())?)?;
    }
    Ok(paths)
}
