//! The commit of a plan.
ghost use Rattle.std.specs.Prelude.{◌≡◌, true, IfSome, OnOk};
ghost use Rattle.pie_files.specs.Images.{Only};
ghost use Rattle.pie_files.specs.Streams.{Counted};
ghost use Rattle.pie_commit.specs.Outcomes.{IsAtRest, LeavesMarked};
ghost use Rattle.pie_commit.specs.inner.Plans.{is_sound};
ghost use Rattle.pie_named.specs.Asking.{MakesOnly};
ghost use Rattle.pie_incremental.specs.inner.Asked.{IsChange};
ghost use Rattle.pie_incremental.specs.inner.Parts.{Commits, StopsCommitting};
ghost use Rattle.pie_incremental.specs.inner.Plans.{Marks};

use pie_commit::{Plan, commit};
use pie_files::{Files, FilesError};

/// Commits a plan of a build that began without a marker.
pub fn commit_plan<F: Files>(files: &mut F, plan: &Plan) -> Result<(), FilesError>
    requires { is_sound plan.now ≡ true }
    ensures changes { Commits plan.now (F.holds files.old) (F.holds files.new) result }
    ensures crash { StopsCommitting F.holds F.moment F.left_since F.images plan.now files.old files.new }
    ensures marks { IfSome (F.holds files.old) (λ d. Only d (F.images files.old) → Marks plan.now d (F.images files.new)) }
    ensures told { IfSome (F.holds files.old) (λ d. Only d (F.images files.old) → LeavesMarked plan.now d (F.images files.new)) }
    ensures durable { OnOk result (IfSome (F.holds files.old) (λ d. Only d (F.images files.old) → IsAtRest (F.holds files.new) (F.images files.new))) }
    ensures asks { MakesOnly IsChange (F.asked files.old) (F.asked files.new) }
    ensures counted { Counted F.faults FilesError.Failed files.old files.new result }
{
    commit(files, plan)
}
