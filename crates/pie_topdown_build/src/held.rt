//! What stands under `out/`, and whether names are pending.
ghost use Rattle.std.specs.Prelude.{◌≡◌, is_some, IfOk, IfSome, OnOk};
ghost use Rattle.pie_diff.specs.Hashes.{files_paths};
ghost use Rattle.pie_diff.specs.inner.Held.{Looks};
ghost use Rattle.pie_files.specs.Reading.{ReadsOnly};
ghost use Rattle.pie_incremental.specs.Own.{bytes_at, pending_path};
ghost use Rattle.pie_left_laws.specs.Held.{HoldsRightly};
ghost use Rattle.pie_reach.specs.Plan.{IsPlan};
ghost use Rattle.pie_topdown_build.specs.inner.Anew.{HoldsBeside};

use pie_base::{OutOfMemory, Path};
use pie_build::paths_of;
use pie_diff::Held;
use pie_files::{Files, FilesError};
use pie_reach::plan_removals;
use std::alloc::Global;

/// What stands under `out/`: every file is looked at.
#[tactic(auto, using(pie_files::proofs::Reading::reads))]
pub(crate) fn held_under_out<F: Files>(alloc: Global, files: &mut F) -> Result<Held, FilesError>
    ensures held { IfSome (F.holds files.old) (λ d. IfOk result (λ held. HoldsRightly held d)) }
    ensures reads { ReadsOnly F.holds F.moment F.left_since F.images F.faults files.old files.new result }
{
    let out = Path::known(alloc, "out")?;
    let paths = files.all_under(&out)?;
    let mut held = Held::new(alloc);
    look_at(&mut held, paths.as_slice(), files)?;
    Ok(held)
}

/// What stands under `out/` beside these files: every other file is looked at.
#[tactic(auto, using(pie_files::proofs::Reading::reads))]
pub(crate) fn held_beside<F: Files>(
    alloc: Global,
    files: &mut F,
    contents: &[(Path, Vec<u8>)],
) -> Result<Held, FilesError>
    ensures held { IfSome (F.holds files.old) (λ d. IfOk result (λ held. HoldsBeside contents.now held d)) }
    ensures reads { ReadsOnly F.holds F.moment F.left_since F.images F.faults files.old files.new result }
{
    let out = Path::known(alloc, "out")?;
    let paths = files.all_under(&out)?;
    let others = others_of(alloc, paths.as_slice(), contents)?;
    let mut held = Held::new(alloc);
    look_at(&mut held, others.as_slice(), files)?;
    Ok(held)
}

// The paths that aren't those of these files.
fn others_of(
    alloc: Global,
    paths: &[Path],
    contents: &[(Path, Vec<u8>)],
) -> Result<Vec<Path>, OutOfMemory>
    ensures { IfOk result (λ others. IsPlan paths.now (files_paths contents.now) others.items) }
{
    let beside = paths_of(alloc, contents)?;
    let others = plan_removals(alloc, paths, beside.as_slice())?;
    Ok(others)
}

#[tactic(auto, using(pie_files::proofs::Reading::reads))]
fn look_at<F: Files>(held: &mut Held, paths: &[Path], files: &mut F) -> Result<(), FilesError>
    ensures seen { IfSome (F.holds files.old) (λ d. OnOk result (Looks d held.old held.new paths.now)) }
    ensures reads { ReadsOnly F.holds F.moment F.left_since F.images F.faults files.old files.new result }
{
    for path in paths {
        held.look(path, files)?;
    }
    Ok(())
}

/// Whether a file of pending names is there.
#[tactic(auto, using(pie_files::proofs::Reading::reads))]
pub(crate) fn is_pending<F: Files>(alloc: Global, files: &mut F) -> Result<bool, FilesError>
    ensures found { IfSome (F.holds files.old) (λ d. IfOk result (λ there. there ≡ is_some (bytes_at d pending_path))) }
    ensures reads { ReadsOnly F.holds F.moment F.left_since F.images F.faults files.old files.new result }
{
    let names = Path::known(alloc, ".pie/pending")?;
    files.exists(&names)
}
