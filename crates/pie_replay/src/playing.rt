//! Replaying a script.
ghost use Rattle.std.specs.Prelude.{map};
ghost use Rattle.pie_build.specs.inner.Rebuilt.{Tells};
ghost use Rattle.pie_replay.specs.Replays.{KeepsOthers, Replays};
ghost use Rattle.pie_script.specs.Steps.{plain};

use crate::step::go;
use pie_files::Files;
use pie_project::BuildError;
use pie_report::Report;
use pie_script::Step;
use pie_vm::Runs;
use std::alloc::Global;

/// Does the steps of a script in their order, and appends one report for each build. A build has the names since the build before,
/// and begins with nothing pending: what was put and removed before it is made to last first.
/// It ends at the first step that fails; the reports of the builds before it stay. A build that is refused by its verdict doesn't end it.
/// Rule: docs/BUILDING.md, "Scripts".
pub fn replay<F: Files>(
    alloc: Global,
    files: &mut F,
    steps: &[Step],
    runs: &mut Runs,
    done: &mut Vec<Report>,
) -> Result<(), BuildError>
    ensures replays { Replays F.holds F.moment F.left_since F.images F.asked (map plain steps.now) files.old files.new done.old.items done.new.items runs.old runs.new result }
    ensures rest { KeepsOthers (map plain steps.now) (F.holds files.old) (F.holds files.new) }
    ensures told { Tells F.faults files.old files.new result }
{
    let mut names = Vec::new(alloc);
    for step in steps {
        go(alloc, files, step, &mut names, runs, done)?;
    }
    Ok(())
}
