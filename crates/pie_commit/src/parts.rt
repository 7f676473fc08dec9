//! The parts of a commit, of at most three calls on the files each.
ghost use Rattle.std.specs.Prelude.{◌≡◌, true, [], ◌∷◌, IfSome, OnOk};
ghost use Rattle.pie_files.specs.Images.{MayLeave, Stays, Only};
ghost use Rattle.pie_files.specs.Streams.{Counted};
ghost use Rattle.pie_commit.specs.inner.Steps.{Makes, Writes, Removes, Syncs, beginning, ending, removing, writing, pending_steps, store_steps};
ghost use Rattle.pie_commit.specs.inner.Plans.{is_sound, is_inner, Bytes, Gone, at, removed, written, pended, stored};
ghost use Rattle.pie_commit.specs.Outcomes.{HasBrought, KeepsOthers, KeepsMarked, LeavesFromRest, IsEarly, IsEnding, IsAtRest, Stands};

use crate::{Pending, Plan};
use pie_base::Path;
use pie_files::{Files, FilesError};

/// Sets the marker, and makes it last before the first change.
pub(crate) fn begin<F: Files>(files: &mut F, plan: &Plan) -> Result<(), FilesError>
    ensures done { OnOk result (HasBrought (at plan.now.marker (Bytes [])) (F.holds files.old) (F.holds files.new)) }
    ensures outside { KeepsOthers plan.now (F.holds files.old) (F.holds files.new) }
    ensures crash { LeavesFromRest F.holds F.moment F.left_since F.images (IsEarly plan.now) files.old files.new }
    ensures stands { OnOk result (IfSome (F.holds files.old) (λ d. Stands plan.now d (F.images files.new))) }
    ensures makes { Makes F.asked (beginning plan.now) files.old files.new result }
    ensures counted { Counted F.faults FilesError.Failed files.old files.new result }
{
    files.write(&plan.marker, b"")?;
    make_last(files)
}

/// Removes the files that go.
pub(crate) fn remove_all<F: Files>(files: &mut F, plan: &Plan) -> Result<(), FilesError>
    requires { is_sound plan.now ≡ true }
    ensures done { OnOk result (HasBrought (removed plan.now.removals.items) (F.holds files.old) (F.holds files.new)) }
    ensures outside { KeepsOthers plan.now (F.holds files.old) (F.holds files.new) }
    ensures crash { KeepsMarked F.holds F.moment F.left_since F.images plan.now files.old files.new }
    ensures makes { Makes F.asked (removing plan.now.removals.items) files.old files.new result }
    ensures counted { Counted F.faults FilesError.Failed files.old files.new result }
{
    for path in &plan.removals {
        remove(files, plan, path)?;
    }
    Ok(())
}

/// Writes the files that are written.
pub(crate) fn write_all<F: Files>(files: &mut F, plan: &Plan) -> Result<(), FilesError>
    requires { is_sound plan.now ≡ true }
    ensures done { OnOk result (HasBrought (written plan.now.writes.items) (F.holds files.old) (F.holds files.new)) }
    ensures outside { KeepsOthers plan.now (F.holds files.old) (F.holds files.new) }
    ensures crash { KeepsMarked F.holds F.moment F.left_since F.images plan.now files.old files.new }
    ensures makes { Makes F.asked (writing plan.now.writes.items) files.old files.new result }
    ensures counted { Counted F.faults FilesError.Failed files.old files.new result }
{
    for (path, bytes) in &plan.writes {
        write(files, plan, path, bytes.as_slice())?;
    }
    Ok(())
}

/// Writes or removes the pending names, where the plan says so.
pub(crate) fn put_pending<F: Files>(files: &mut F, plan: &Plan) -> Result<(), FilesError>
    requires { is_sound plan.now ≡ true }
    ensures done { OnOk result (HasBrought (at plan.now.names_place (pended plan.now.pending)) (F.holds files.old) (F.holds files.new)) }
    ensures outside { KeepsOthers plan.now (F.holds files.old) (F.holds files.new) }
    ensures crash { KeepsMarked F.holds F.moment F.left_since F.images plan.now files.old files.new }
    ensures makes { Makes F.asked (pending_steps plan.now.names_place plan.now.pending) files.old files.new result }
    ensures counted { Counted F.faults FilesError.Failed files.old files.new result }
{
    match &plan.pending {
        Pending::Keep => Ok(()),
        Pending::Put(bytes) => write(files, plan, &plan.names_place, bytes.as_slice()),
        Pending::Drop => remove(files, plan, &plan.names_place),
    }
}

/// Writes the store, where the plan has one.
pub(crate) fn put_store<F: Files>(files: &mut F, plan: &Plan) -> Result<(), FilesError>
    requires { is_sound plan.now ≡ true }
    ensures done { OnOk result (HasBrought (at plan.now.place (stored plan.now.store)) (F.holds files.old) (F.holds files.new)) }
    ensures outside { KeepsOthers plan.now (F.holds files.old) (F.holds files.new) }
    ensures crash { KeepsMarked F.holds F.moment F.left_since F.images plan.now files.old files.new }
    ensures makes { Makes F.asked (store_steps plan.now.place plan.now.store) files.old files.new result }
    ensures counted { Counted F.faults FilesError.Failed files.old files.new result }
{
    match &plan.store {
        Some(bytes) => write(files, plan, &plan.place, bytes.as_slice()),
        None => Ok(()),
    }
}

/// Takes the marker away, and makes that last.
pub(crate) fn end<F: Files>(files: &mut F, plan: &Plan) -> Result<(), FilesError>
    ensures done { OnOk result (HasBrought (at plan.now.marker Gone) (F.holds files.old) (F.holds files.new)) }
    ensures outside { KeepsOthers plan.now (F.holds files.old) (F.holds files.new) }
    ensures crash { LeavesFromRest F.holds F.moment F.left_since F.images (IsEnding plan.now.marker) files.old files.new }
    ensures durable { OnOk result (IfSome (F.holds files.old) (λ e. IsAtRest (F.holds files.new) (F.images files.new))) }
    ensures makes { Makes F.asked (ending plan.now) files.old files.new result }
    ensures counted { Counted F.faults FilesError.Failed files.old files.new result }
{
    files.remove(&plan.marker)?;
    make_last(files)
}

fn remove<F: Files>(files: &mut F, plan: &Plan, path: &Path) -> Result<(), FilesError>
    requires { is_inner plan.now path.now ≡ true }
    ensures done { OnOk result (HasBrought (at path.now Gone) (F.holds files.old) (F.holds files.new)) }
    ensures outside { KeepsOthers plan.now (F.holds files.old) (F.holds files.new) }
    ensures crash { KeepsMarked F.holds F.moment F.left_since F.images plan.now files.old files.new }
    ensures makes { Makes F.asked (Removes path.now ∷ []) files.old files.new result }
    ensures counted { Counted F.faults FilesError.Failed files.old files.new result }
{
    files.remove(path)
}

fn write<F: Files>(files: &mut F, plan: &Plan, path: &Path, bytes: &[u8]) -> Result<(), FilesError>
    requires { is_inner plan.now path.now ≡ true }
    ensures done { OnOk result (HasBrought (at path.now (Bytes bytes.now)) (F.holds files.old) (F.holds files.new)) }
    ensures outside { KeepsOthers plan.now (F.holds files.old) (F.holds files.new) }
    ensures crash { KeepsMarked F.holds F.moment F.left_since F.images plan.now files.old files.new }
    ensures makes { Makes F.asked (Writes path.now ∷ []) files.old files.new result }
    ensures counted { Counted F.faults FilesError.Failed files.old files.new result }
{
    files.write(path, bytes)
}

/// Makes what was done so far outlast a crash.
pub(crate) fn make_last<F: Files>(files: &mut F) -> Result<(), FilesError>
    ensures same { F.holds files.new ≡ F.holds files.old }
    ensures durable { IfSome (F.holds files.old) (λ d. OnOk result (Only d (F.images files.new))) }
    ensures crash { MayLeave F.holds F.moment F.left_since F.images Stays files.old files.new }
    ensures makes { Makes F.asked (Syncs ∷ []) files.old files.new result }
    ensures counted { Counted F.faults FilesError.Failed files.old files.new result }
{
    files.sync()
}
