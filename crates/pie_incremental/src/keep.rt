//! The commit of a refused build.
ghost use Rattle.std.specs.Prelude.{◌≡◌, true, IfSome, IfOk, OnOk};
ghost use Rattle.std.specs.Option.{option_copied};
ghost use Rattle.pie_files.specs.Images.{Only};
ghost use Rattle.pie_files.specs.Streams.{Counted};
ghost use Rattle.pie_commit.specs.Outcomes.{IsAtRest, LeavesFromRest};
ghost use Rattle.pie_commit.specs.inner.Plans.{is_sound};
ghost use Rattle.pie_named.specs.Asking.{MakesOnly};
ghost use Rattle.pie_incremental.specs.inner.Asked.{IsChange};
ghost use Rattle.pie_incremental.specs.Crashes.{EndsMarked};
ghost use Rattle.pie_incremental.specs.Kept.{IsOfNames, KeepsAllFiles, KeepsNames};
ghost use Rattle.pie_incremental.specs.Own.{bytes_at, pending_path, IsClosed};
ghost use Rattle.pie_incremental.specs.inner.Marked.{EndsNames};
ghost use Rattle.pie_incremental.specs.inner.Plans.{IsNamesPlan};

use crate::committing::commit_plan;
use crate::pending::pending_part;
use pie_base::{OutOfMemory, Path};
use pie_commit::Plan;
use pie_files::{Files, FilesError};
use std::alloc::Global;

/// Keeps the names of a refused build for the next one, where the file of pending names has these bytes. Nothing is done where it has the
/// names already.
pub fn keep_names<F: Files>(
    alloc: Global,
    files: &mut F,
    names: &[Path],
    before: Option<&[u8]>,
) -> Result<(), FilesError>
    ensures kept { IfSome (F.holds files.old) (λ d. bytes_at d pending_path ≡ option_copied before.entry → IsClosed d → OnOk result (KeepsNames names.now d (F.holds files.new))) }
    ensures rest { KeepsAllFiles (F.holds files.old) (F.holds files.new) }
    ensures crash { LeavesFromRest F.holds F.moment F.left_since F.images (IsOfNames names.now (option_copied before.entry)) files.old files.new }
    ensures marked { EndsMarked F.holds F.images (EndsNames names.now (option_copied before.entry)) files.old files.new }
    ensures durable { OnOk result (IfSome (F.holds files.old) (λ d. Only d (F.images files.old) → IsAtRest (F.holds files.new) (F.images files.new))) }
    ensures asks { MakesOnly IsChange (F.asked files.old) (F.asked files.new) }
    ensures counted { Counted F.faults FilesError.Failed files.old files.new result }
{
    let plan = names_plan(alloc, names, before)?;
    commit_plan(files, &plan)?;
    Ok(())
}

// The plan that changes the pending names alone.
fn names_plan(alloc: Global, names: &[Path], before: Option<&[u8]>) -> Result<Plan, OutOfMemory>
    ensures plan { IfOk result (IsNamesPlan names.now (option_copied before.entry)) }
    ensures sound { IfOk result (λ p. is_sound p ≡ true) }
{
    let pending = pending_part(alloc, names, before)?;
    let plan = Plan::new(alloc, Vec::new(alloc), Vec::new(alloc), pending, None)?;
    Ok(plan)
}
