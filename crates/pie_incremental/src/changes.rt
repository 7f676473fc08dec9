//! The plan of an accepted build.
ghost use Rattle.std.specs.Prelude.{◌≡◌, true, None, All, IsTrue, IfOk};
ghost use Rattle.pie_base.specs.Path.{is_out};
ghost use Rattle.pie_commit.specs.inner.Plans.{is_sound};
ghost use Rattle.pie_incremental.specs.inner.Plans.{store_change, IsChangesPlan};
ghost use Rattle.pie_incremental.specs.inner.Changes.{bytes_of, Changes};

use crate::OwnFiles;
use pie_base::{OutOfMemory, Path};
use pie_commit::{Pending, Plan};
use pie_diff::{Held, removals, writes};
use pie_record::TaskRecord;
use std::alloc::Global;

/// The plan of an accepted build that didn't start afresh: with what is held under `out/`, the records of the live tasks, the files of tasks that
/// ran, the text of the store, and the builder's own files as they were. A file is written where its content isn't held, removed where it is held
/// and no record writes it; the store is written where its text is another one, and the pending names go.
pub fn changes_plan(
    alloc: Global,
    own: &OwnFiles,
    held: &Held,
    rows: &[TaskRecord],
    contents: Vec<(Path, Vec<u8>)>,
    store: Vec<u8>,
) -> Result<Plan, OutOfMemory>
    requires { All (λ f. IsTrue (is_out f.0)) contents.items }
    ensures plan { IfOk result (IsChangesPlan own.now held.now rows.now contents.items store) }
    ensures sound { IfOk result (λ p. is_sound p ≡ true) }
{
    let removals = removals(alloc, held, rows)?;
    let writes = writes(held, contents);
    let pending = end_of_names(own);
    let store = change_of(own.store.as_slice(), store);
    let plan = Plan::new(alloc, removals, writes, pending, store)?;
    Ok(plan)
}

// What becomes of the pending names: they go, where there are any.
fn end_of_names(own: &OwnFiles) -> Pending
    ensures { Changes (bytes_of own.now.pending) None result }
{
    match &own.pending {
        Some(_) => Pending::Drop,
        None => Pending::Keep,
    }
}

// The text of the store, where it is another one than before.
fn change_of(before: &[u8], text: Vec<u8>) -> Option<Vec<u8>>
    ensures { result ≡ store_change before.now text }
{
    if before == text.as_slice() {
        return None;
    }
    Some(text)
}
