//! The whole demo.
ghost use Rattle.std.specs.Prelude.{◌≡◌, ◌≤◌, ◌<◌, ◌-◌, length, IfOk};
ghost use Rattle.std.specs.FinMap as fin;
ghost use Rattle.pie_files.specs.inner.SureFiles.{held_by};
ghost use Rattle.pie_demo.specs.Rounds.{IsDemo};

use crate::rounds::{go, rebuilt};
use crate::sources::put_sources;
use pie_base::OutOfMemory;
use pie_files::SureFiles;
use pie_vm::Runs;
use std::alloc::Global;

// How many rounds a demo has.
const ROUNDS: u32 = 10;

/// What a demo came to.
#[derive(Clone, Copy, Debug, PartialEq, Eq)]
pub struct Summary {
    /// How many tasks the roots reach at the end.
    pub tasks: u32,
    /// How many rounds there were.
    pub rounds: u32,
    /// How many tasks were started in the rounds.
    pub ran: u32,
    /// After how many rounds the project was, byte for byte, what a clean build of its sources leaves.
    pub same: u32,
}

/// Makes a project of so many files, 1 to 1,000, from a seed, builds it, and does ten rounds. `runs` gains the tasks that the first build started and
/// then those of the rounds, `clean` those of the clean builds that these are held against. Rule: docs/FORMATS.md, "The demo".
pub fn demo(
    alloc: Global,
    files: &mut SureFiles,
    seed: u64,
    size: u32,
    runs: &mut Runs,
    clean: &mut Runs,
) -> Result<Summary, OutOfMemory>
    requires some { 0 < size }
    requires few { size ≤ 1000 }
    ensures rounds { IfOk result (λ s. s.rounds ≡ 10) }
    ensures same { IfOk result (λ s. s.same ≤ 10) }
    ensures demo { held_by files.old ≡ fin.empty → IfOk result (IsDemo seed size (held_by files.new) runs.old runs.new clean.old clean.new) }
{
    put_sources(alloc, files, seed, size)?;
    rebuilt(alloc, files, runs)?;
    let before = runs.count();
    let mut summary = Summary {
        tasks: 0,
        rounds: ROUNDS,
        ran: 0,
        same: 0,
    };
    for done in 0..ROUNDS {
        let round = go(alloc, files, seed, size, done + 1, runs, clean)?;
        summary.tasks = round.live;
        summary.same += u32::from(round.is_same);
    }
    summary.ran = count_since(before, runs)?;
    Ok(summary)
}

// How many tasks were started after so many others. More than a number of 32 bits holds have no room in memory.
fn count_since(before: usize, runs: &Runs) -> Result<u32, OutOfMemory>
    ensures { IfOk result (λ count. count ≡ length runs.now - before) }
{
    match u32::try_from(runs.count().saturating_sub(before)) {
        Ok(count) => Ok(count),
        Err(_) => Err(OutOfMemory),
    }
}
