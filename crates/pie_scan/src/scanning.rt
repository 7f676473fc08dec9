//! The scan: what the files of a directory have at the scanned paths.
ghost use Rattle.std.specs.Prelude.{◌≡◌, ◌++◌, [], ◌∷◌, map, true, false, All, IfSome, IfOk, OnOk};
ghost use Rattle.std.specs.List.{filter_map};
ghost use Rattle.std.specs.List.Sorted.{IsStrictlySortedBy};
ghost use Rattle.std.specs.Option.{option_to_list};
ghost use Rattle.pie_base.specs.Path.{is_out};
ghost use Rattle.pie_files.specs.declared.files.Call.TheVariants.{Read};
ghost use Rattle.pie_files.specs.Reading.{ReadsOnly};
ghost use Rattle.pie_scan.specs.Entries.{path_cmp, AreInOrder};
ghost use Rattle.pie_scan.specs.Texts.{HasMark};
ghost use Rattle.pie_scan.specs.inner.Noting.{IsOfPath, NotesAt};
ghost use Rattle.pie_scan.specs.Scanned.{AreScanned, entry_in, entry_of as specs_entry_of, scan_calls, AsksAll};

use crate::Entry;
use crate::candidates::candidates;
use pie_base::Path;
use pie_files::{Files, FilesError, Found};
use pie_stamp::hash_of;
use std::alloc::Global;

/// The entries of all files under `out/`, and of all sources at or below a top, in path order. A top that is no path of a source
/// adds nothing. Each directory is listed once for each time that it is named, and each file is read once at most.
#[tactic(auto, using(pie_files::proofs::Reading::reads, crate::proofs::Growing::asking, crate::proofs::Looking::scanned_all))]
pub fn scan<F: Files>(alloc: Global, files: &mut F, tops: &[Path]) -> Result<Vec<Entry>, FilesError>
    ensures scanned { IfSome (F.holds files.old) (λ d. IfOk result (λ entries. AreScanned d tops.now entries.items)) }
    ensures ordered { IfOk result (λ entries. AreInOrder entries.items) }
    ensures marks { IfOk result (λ entries. All HasMark entries.items) }
    ensures asks { IfSome (F.holds files.old) (λ d. OnOk result (AsksAll (scan_calls d tops.now) (F.asked files.old) (F.asked files.new))) }
    ensures reads { ReadsOnly F.holds F.moment F.left_since F.images F.faults files.old files.new result }
{
    let paths = candidates(alloc, files, tops)?;
    let entries = read_all(alloc, files, paths.as_slice())?;
    Ok(entries)
}

#[tactic(auto, using(pie_files::proofs::Reading::reads))]
fn read_all<F: Files>(
    alloc: Global,
    files: &mut F,
    paths: &[Path],
) -> Result<Vec<Entry>, FilesError>
    ensures read { IfSome (F.holds files.old) (λ d. IfOk result (λ entries. entries.items ≡ filter_map (entry_in d) paths.now)) }
    ensures ordered { IfOk result (λ entries. IsStrictlySortedBy path_cmp paths.now → AreInOrder entries.items) }
    ensures marks { IfOk result (λ entries. All HasMark entries.items) }
    ensures asks { OnOk result (AsksAll (map (λ path. Read path) paths.now) (F.asked files.old) (F.asked files.new)) }
    ensures reads { ReadsOnly F.holds F.moment F.left_since F.images F.faults files.old files.new result }
{
    let mut entries = Vec::new(alloc);
    for path in paths {
        note(&mut entries, files, path)?;
    }
    Ok(entries)
}

// Notes the entry of a path where a file is.
#[tactic(auto, using(pie_files::proofs::Reading::reads))]
fn note<F: Files>(entries: &mut Vec<Entry>, files: &mut F, path: &Path) -> Result<(), FilesError>
    ensures read { IfSome (F.holds files.old) (λ d. OnOk result (entries.new.items ≡ entries.old.items ++ option_to_list (entry_in d path.now))) }
    ensures noted { OnOk result (NotesAt path.now entries.old.items entries.new.items) }
    ensures asks { OnOk result (AsksAll (Read path.now ∷ []) (F.asked files.old) (F.asked files.new)) }
    ensures reads { ReadsOnly F.holds F.moment F.left_since F.images F.faults files.old files.new result }
{
    if let Some(entry) = look(files, path)? {
        entries.push(entry)?;
    }
    Ok(())
}

// The entry of a path, where a file is. One under `out/` needn't fit into memory.
#[tactic(auto, using(pie_files::proofs::Reading::reads))]
fn look<F: Files>(files: &mut F, path: &Path) -> Result<Option<Entry>, FilesError>
    ensures read { IfSome (F.holds files.old) (λ d. IfOk result (λ entry. entry ≡ entry_in d path.now)) }
    ensures own { IfOk result (λ entry. IfSome entry (IsOfPath path.now)) }
    ensures asks { OnOk result (AsksAll (Read path.now ∷ []) (F.asked files.old) (F.asked files.new)) }
    ensures reads { ReadsOnly F.holds F.moment F.left_since F.images F.faults files.old files.new result }
{
    if path.under_out() {
        look_out(files, path)
    } else {
        look_source(files, path)
    }
}

#[tactic(auto, using(pie_files::proofs::Reading::reads))]
fn look_out<F: Files>(files: &mut F, path: &Path) -> Result<Option<Entry>, FilesError>
    requires { is_out path.now ≡ true }
    ensures read { IfSome (F.holds files.old) (λ d. IfOk result (λ entry. entry ≡ entry_in d path.now)) }
    ensures own { IfOk result (λ entry. IfSome entry (IsOfPath path.now)) }
    ensures asks { OnOk result (AsksAll (Read path.now ∷ []) (F.asked files.old) (F.asked files.new)) }
    ensures reads { ReadsOnly F.holds F.moment F.left_since F.images F.faults files.old files.new result }
{
    let Some(hash) = files.digest(path)? else {
        return Ok(None);
    };
    let path = path.copy()?;
    Ok(Some(Entry {
        path,
        mark: 0,
        hash,
    }))
}

#[tactic(auto, using(pie_files::proofs::Reading::reads))]
fn look_source<F: Files>(files: &mut F, path: &Path) -> Result<Option<Entry>, FilesError>
    requires { is_out path.now ≡ false }
    ensures read { IfSome (F.holds files.old) (λ d. IfOk result (λ entry. entry ≡ entry_in d path.now)) }
    ensures own { IfOk result (λ entry. IfSome entry (IsOfPath path.now)) }
    ensures asks { OnOk result (AsksAll (Read path.now ∷ []) (F.asked files.old) (F.asked files.new)) }
    ensures reads { ReadsOnly F.holds F.moment F.left_since F.images F.faults files.old files.new result }
{
    let Some(found) = files.read(path)? else {
        return Ok(None);
    };
    let path = path.copy()?;
    Ok(Some(entry_of(path, &found)))
}

fn entry_of(path: Path, found: &Found) -> Entry
    requires { is_out path ≡ false }
    ensures { result ≡ specs_entry_of path (found.now.bytes.items, found.now.mark) }
{
    Entry {
        path,
        mark: found.mark,
        hash: hash_of(found.bytes.as_slice()),
    }
}
