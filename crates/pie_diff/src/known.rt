//! What is held by the records of the build before and by the named paths.
ghost use Rattle.std.specs.Prelude.{◌≡◌, ℕ, List, Contains, IfOk, IfSome, OnOk};
ghost use Rattle.pie_files.specs.Reading.{ReadsOnly};
ghost use Rattle.pie_named.specs.Asking.{AsksFor};
ghost use Rattle.pie_diff.specs.Hashes.{held_at};
ghost use Rattle.pie_diff.specs.Known.{known_at, writes_of};
ghost use Rattle.pie_diff.specs.inner.Held.{Adds, Looks};

use crate::Held;
use pie_base::{OutOfMemory, Path};
use pie_files::{Files, FilesError};
use pie_record::TaskRecord;
use std::alloc::Global;

/// What the directory holds under `out/` by these records of the build before, where these paths may have changed since: at a named
/// path what is there now, and elsewhere what a record wrote.
#[tactic(auto, using(pie_files::proofs::Reading::reads, crate::proofs::Asking::looks))]
pub fn held_by<F: Files>(
    alloc: Global,
    files: &mut F,
    rows: &[TaskRecord],
    names: &[Path],
) -> Result<Held, FilesError>
    ensures known { IfSome (F.holds files.old) (λ d. IfOk result (λ h. (q : List ℕ) → held_at h q ≡ known_at d rows.now names.now q)) }
    ensures asks { AsksFor (Contains names.now) (F.asked files.old) (F.asked files.new) }
    ensures reads { ReadsOnly F.holds F.moment F.left_since F.images F.faults files.old files.new result }
{
    let mut held = Held::new(alloc);
    add_rows(&mut held, rows)?;
    look_at(&mut held, names, files)?;
    Ok(held)
}

fn add_rows(held: &mut Held, rows: &[TaskRecord]) -> Result<(), OutOfMemory>
    ensures { OnOk result (Adds held.old held.new (writes_of rows.now)) }
{
    for row in rows {
        add_writes(held, row.writes.as_slice())?;
    }
    Ok(())
}

fn add_writes(held: &mut Held, writes: &[(Path, [u8; 32])]) -> Result<(), OutOfMemory>
    ensures { OnOk result (Adds held.old held.new writes.now) }
{
    for (path, hash) in writes {
        held.wrote(path, *hash)?;
    }
    Ok(())
}

#[tactic(auto, using(pie_files::proofs::Reading::reads, crate::proofs::Asking::looks))]
fn look_at<F: Files>(held: &mut Held, names: &[Path], files: &mut F) -> Result<(), FilesError>
    ensures seen { IfSome (F.holds files.old) (λ d. OnOk result (Looks d held.old held.new names.now)) }
    ensures asks { AsksFor (Contains names.now) (F.asked files.old) (F.asked files.new) }
    ensures reads { ReadsOnly F.holds F.moment F.left_since F.images F.faults files.old files.new result }
{
    for path in names {
        held.look(path, files)?;
    }
    Ok(())
}
