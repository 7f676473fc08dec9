//! The commit: the marker is durable before the first change, and goes only once all changes are.
ghost use Rattle.std.specs.Prelude.{◌≡◌, true, false, IfSome, OnOk, OnErr};
ghost use Rattle.pie_files.specs.Images.{Only};
ghost use Rattle.pie_files.specs.Streams.{Counted};
ghost use Rattle.pie_commit.specs.inner.Steps.{Makes, changing, steps_of};
ghost use Rattle.pie_commit.specs.inner.Ends.{EndsKnown};
ghost use Rattle.pie_commit.specs.inner.Plans.{is_sound, is_empty, wanted_by, changes};
ghost use Rattle.pie_commit.specs.Outcomes.{HasBrought, KeepsOthers, KeepsMarked, LeavesFromRest, IsAtRest, IsOfThree, LeavesMarked};

use crate::Plan;
use crate::parts::{begin, end, make_last, put_pending, put_store, remove_all, write_all};
use pie_files::{Files, FilesError};

/// Does what the plan says. An empty plan makes no call. It takes no memory itself.
/// Rule: docs/BUILDING.md, "The commit".
pub fn commit<F: Files>(files: &mut F, plan: &Plan) -> Result<(), FilesError>
    requires { is_sound plan.now ≡ true }
    ensures done { is_empty plan.now ≡ false → OnOk result (HasBrought (wanted_by plan.now) (F.holds files.old) (F.holds files.new)) }
    ensures empty { is_empty plan.now ≡ true → files.new ≡ files.old }
    ensures outside { KeepsOthers plan.now (F.holds files.old) (F.holds files.new) }
    ensures crash { LeavesFromRest F.holds F.moment F.left_since F.images (IsOfThree plan.now) files.old files.new }
    ensures ends { EndsKnown F.holds F.images plan.now files.old files.new result }
    ensures makes { is_empty plan.now ≡ false → Makes F.asked (steps_of plan.now) files.old files.new result }
    ensures counted { Counted F.faults FilesError.Failed files.old files.new result }
{
    if plan.is_empty() {
        return Ok(());
    }
    commit_all(files, plan)
}

fn commit_all<F: Files>(files: &mut F, plan: &Plan) -> Result<(), FilesError>
    requires { is_sound plan.now ≡ true }
    ensures done { OnOk result (HasBrought (wanted_by plan.now) (F.holds files.old) (F.holds files.new)) }
    ensures outside { KeepsOthers plan.now (F.holds files.old) (F.holds files.new) }
    ensures crash { LeavesFromRest F.holds F.moment F.left_since F.images (IsOfThree plan.now) files.old files.new }
    ensures failed { OnErr result (IfSome (F.holds files.old) (λ d. Only d (F.images files.old) → LeavesMarked plan.now d (F.images files.new))) }
    ensures durable { OnOk result (IfSome (F.holds files.old) (λ d. IsAtRest (F.holds files.new) (F.images files.new))) }
    ensures makes { Makes F.asked (steps_of plan.now) files.old files.new result }
    ensures counted { Counted F.faults FilesError.Failed files.old files.new result }
{
    begin(files, plan)?;
    change(files, plan)?;
    end(files, plan)
}

// Makes all changes, and makes them last.
fn change<F: Files>(files: &mut F, plan: &Plan) -> Result<(), FilesError>
    requires { is_sound plan.now ≡ true }
    ensures done { OnOk result (HasBrought (changes plan.now) (F.holds files.old) (F.holds files.new)) }
    ensures outside { KeepsOthers plan.now (F.holds files.old) (F.holds files.new) }
    ensures crash { KeepsMarked F.holds F.moment F.left_since F.images plan.now files.old files.new }
    ensures durable { OnOk result (IfSome (F.holds files.old) (λ e. IsAtRest (F.holds files.new) (F.images files.new))) }
    ensures makes { Makes F.asked (changing plan.now) files.old files.new result }
    ensures counted { Counted F.faults FilesError.Failed files.old files.new result }
{
    remove_all(files, plan)?;
    write_all(files, plan)?;
    put_pending(files, plan)?;
    put_store(files, plan)?;
    make_last(files)
}
