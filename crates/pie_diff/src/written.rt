//! The files that are written.
ghost use Rattle.std.specs.Prelude.{◌≡◌, not, All, IsTrue};
ghost use Rattle.std.specs.List.{filter};
ghost use Rattle.std.specs.List.Sorted.{IsStrictlySortedBy};
ghost use Rattle.sha2.specs.Sha256.{sha256};
ghost use Rattle.pie_base.specs.Path.{is_out};
ghost use Rattle.pie_reach.specs.Plan.{path_cmp};
ghost use Rattle.pie_diff.specs.Hashes.{held_at, is_hash, is_new as specs_is_new, files_paths};

use crate::Held;
use pie_base::Path;
use pie_stamp::hash_of;

/// Of the files of an accepted build those that are written: a file whose content is held already isn't written again.
pub fn writes(held: &Held, files: Vec<(Path, Vec<u8>)>) -> Vec<(Path, Vec<u8>)>
    ensures new { result.items ≡ filter (specs_is_new held.now) files.items }
    ensures order { IsStrictlySortedBy path_cmp (files_paths files.items) → IsStrictlySortedBy path_cmp (files_paths result.items) }
    ensures out { All (λ f. IsTrue (is_out f.0)) files.items → All (λ f. IsTrue (is_out f.0)) result.items }
{
    let mut files = files;
    keep_new(held, &mut files);
    files
}

// Drops the files whose content is held.
fn keep_new(held: &Held, files: &mut Vec<(Path, Vec<u8>)>)
    ensures { files.new.items ≡ filter (specs_is_new held.now) files.old.items }
{
    files.retain(|file| is_new(held, &file.0, file.1.as_slice()));
}

fn is_new(held: &Held, path: &Path, bytes: &[u8]) -> bool
    ensures { result ≡ not (is_hash (held_at held.now path.now) (sha256 bytes.now)) }
{
    !held.is(path, hash_of(bytes))
}
