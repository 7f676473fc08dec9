//! The paths at which a scan looks for files.
ghost use Rattle.std.specs.Prelude.{◌≡◌, ◌++◌, [], ◌∷◌, ℕ, List, map, Some, IfSome, IfOk, OnOk};
ghost use Rattle.std.specs.List.{filter, flat_map};
ghost use Rattle.std.specs.List.Sorted.{IsStrictlySortedBy};
ghost use Rattle.pie_base.specs.Path.{is_source};
ghost use Rattle.pie_files.specs.declared.files.Call.TheVariants.{AllUnder};
ghost use Rattle.pie_files.specs.Directory.{files_under};
ghost use Rattle.pie_files.specs.inner.Held.{is_among, Gains};
ghost use Rattle.pie_files.specs.Reading.{ReadsOnly};
ghost use Rattle.pie_scan.specs.Entries.{path_cmp};
ghost use Rattle.pie_scan.specs.Scanned.{out_dir, found_below, found_paths, candidates as specs_candidates, listings, AsksAll};

use crate::in_path_order;
use pie_base::{OutOfMemory, Path};
use pie_files::{Files, FilesError};
use std::alloc::Global;

/// The source tops and what is found below them, and what is found under `out/`, in path order.
#[tactic(auto, using(pie_files::proofs::Reading::reads, crate::proofs::Growing::asking))]
pub(crate) fn candidates<F: Files>(
    alloc: Global,
    files: &mut F,
    tops: &[Path],
) -> Result<Vec<Path>, FilesError>
    ensures paths { IfSome (F.holds files.old) (λ d. IfOk result (λ paths. paths.items ≡ specs_candidates d tops.now)) }
    ensures ordered { IfOk result (λ paths. IsStrictlySortedBy path_cmp paths.items) }
    ensures found { IfSome (F.holds files.old) (λ d. IfOk result (λ paths. (q : List ℕ) → is_among q paths.items ≡ is_among q (found_paths d tops.now))) }
    ensures asks { OnOk result (AsksAll (listings tops.now) (F.asked files.old) (F.asked files.new)) }
    ensures reads { ReadsOnly F.holds F.moment F.left_since F.images F.faults files.old files.new result }
{
    let mut found = Vec::new(alloc);
    below_tops(&mut found, files, tops)?;
    below_out(&mut found, alloc, files)?;
    let sorted = in_path_order(alloc, found.as_slice())?;
    Ok(sorted)
}

#[tactic(auto, using(pie_files::proofs::Reading::reads))]
fn below_tops<F: Files>(
    found: &mut Vec<Path>,
    files: &mut F,
    tops: &[Path],
) -> Result<(), FilesError>
    ensures found { IfSome (F.holds files.old) (λ d. OnOk result (found.new.items ≡ found.old.items ++ flat_map (found_below d) tops.now)) }
    ensures asks { OnOk result (AsksAll (map (λ top. AllUnder top) tops.now) (F.asked files.old) (F.asked files.new)) }
    ensures reads { ReadsOnly F.holds F.moment F.left_since F.images F.faults files.old files.new result }
{
    for top in tops {
        below_top(found, files, top)?;
    }
    Ok(())
}

// Notes the source paths at or below a top.
#[tactic(auto, using(pie_files::proofs::Reading::reads))]
fn below_top<F: Files>(found: &mut Vec<Path>, files: &mut F, top: &Path) -> Result<(), FilesError>
    ensures found { IfSome (F.holds files.old) (λ d. OnOk result (found.new.items ≡ found.old.items ++ found_below d top.now)) }
    ensures asks { OnOk result (AsksAll (AllUnder top.now ∷ []) (F.asked files.old) (F.asked files.new)) }
    ensures reads { ReadsOnly F.holds F.moment F.left_since F.images F.faults files.old files.new result }
{
    let paths = files.all_under(top)?;
    note(found, top)?;
    note_all(found, paths.as_slice())?;
    Ok(())
}

fn note_all(found: &mut Vec<Path>, paths: &[Path]) -> Result<(), OutOfMemory>
    ensures { OnOk result (found.new.items ≡ found.old.items ++ filter is_source paths.now) }
{
    for path in paths {
        note(found, path)?;
    }
    Ok(())
}

// Notes a path where it is one of a source.
fn note(found: &mut Vec<Path>, path: &Path) -> Result<(), OutOfMemory>
    ensures { OnOk result (found.new.items ≡ found.old.items ++ filter is_source (path.now ∷ [])) }
{
    if path.is_source() {
        found.push(path.copy()?)?;
    }
    Ok(())
}

// Notes the paths under `out/`.
#[tactic(auto, using(pie_files::proofs::Reading::reads))]
fn below_out<F: Files>(
    found: &mut Vec<Path>,
    alloc: Global,
    files: &mut F,
) -> Result<(), FilesError>
    ensures found { IfSome (F.holds files.old) (λ d. OnOk result (found.new.items ≡ found.old.items ++ files_under d out_dir)) }
    ensures asks { OnOk result (AsksAll (AllUnder out_dir ∷ []) (F.asked files.old) (F.asked files.new)) }
    ensures reads { ReadsOnly F.holds F.moment F.left_since F.images F.faults files.old files.new result }
{
    let out = Path::known(alloc, "out")?;
    let paths = files.all_under(&out)?;
    put_all(found, paths.as_slice())?;
    Ok(())
}

fn put_all(found: &mut Vec<Path>, paths: &[Path]) -> Result<(), OutOfMemory>
    ensures { OnOk result (found.new.items ≡ found.old.items ++ paths.now) }
{
    for path in paths {
        found.push(path.copy()?)?;
    }
    Ok(())
}
