//! Whether the observations of a record stand, one after another.
ghost use Rattle.std.specs.Prelude.{◌≡◌, ◌↔◌, ◌++◌, ◌∷◌, [], length, slice_get, Some, All, IfOk, IsTrue};
ghost use Rattle.pie_graph.specs.Numbers.{numbers, AllBelow};
ghost use Rattle.pie_value.specs.Canonical.{IsEncodableTask};
ghost use Rattle.pie_record.specs.Canonical.{IsStorableDep};
ghost use Rattle.pie_record.specs.Kinds.{calls as specs_calls};
ghost use Rattle.pie_record.specs.declared.dep.DepOn.TheVariants.{Called};
ghost use Rattle.pie_tables.specs.Tabled.{IsTables};
ghost use Rattle.pie_compare.specs.inner.Here.{around};
ghost use Rattle.pie_compare.specs.inner.Standing.{FileStands, OnStands, DepStands, DepsStand, Tells, SourceStands};

use crate::present::Present;
use pie_base::{OutOfMemory, Path};
use pie_graph::{TaskNo, TaskRows};
use pie_record::{Dep, DepKind, DepOn};
use pie_value::{Stamp, Task};

impl<'a, R: TaskRows> Present<'a, R> {
    /// Whether all these observations stand.
    pub(crate) fn deps_stand(&self, deps: &[Dep]) -> Result<bool, OutOfMemory>
        requires tables { IsTables self.now.tables.now }
        requires rows { length self.now.tables.now.names ≡ length (R.rows self.now.rows.now) }
        requires deps { All IsStorableDep deps.now }
        ensures { IfOk result (λ stand. IsTrue stand ↔ DepsStand (around (R.rows self.now.rows.now) self.now) [] deps.now) }
    {
        let mut required = Vec::new(self.alloc);
        for dep in deps {
            if !self.dep_stands(&mut required, dep)? {
                return Ok(false);
            }
        }
        Ok(true)
    }

    /// Whether an observation would have the stamp that was recorded, where these tasks were required before it. A task that is required with it
    /// comes to the required ones. Nothing is asked of the files: a source is compared with what is known.
    /// Rule: docs/BUILDING.md, "A build without a list".
    pub fn dep_stands(&self, required: &mut Vec<TaskNo>, dep: &Dep) -> Result<bool, OutOfMemory>
        requires tables { IsTables self.now.tables.now }
        requires rows { length self.now.tables.now.names ≡ length (R.rows self.now.rows.now) }
        requires required { AllBelow (length (R.rows self.now.rows.now)) (numbers required.old.items) }
        requires dep { IsStorableDep dep.now }
        ensures below { IfOk result (λ _. AllBelow (length (R.rows self.now.rows.now)) (numbers required.new.items)) }
        ensures tells { IfOk result (λ stands. Tells (DepStands (around (R.rows self.now.rows.now) self.now) (numbers required.old.items) dep.now) stands (numbers required.new.items)) }
    {
        match &dep.what {
            DepOn::File(path) => {
                let stands = self.file_stands(required.as_slice(), dep.kind, path, &dep.stamp)?;
                Ok(stands)
            }
            DepOn::Called(task) => {
                let stands = self.called_stands(required, dep.kind, task, &dep.stamp)?;
                Ok(stands)
            }
        }
    }

    fn file_stands(
        &self,
        required: &[TaskNo],
        kind: DepKind,
        path: &Path,
        stamp: &Stamp,
    ) -> Result<bool, OutOfMemory>
        requires { AllBelow (length (R.rows self.now.rows.now)) (numbers required.now) }
        ensures { IfOk result (λ stands. IsTrue stands ↔ FileStands (around (R.rows self.now.rows.now) self.now) (numbers required.now) kind path.now stamp.now) }
    {
        if calls(kind) {
            return Ok(false);
        }
        if path.under_out() {
            let stands = self.out_stands(required, kind, path, stamp)?;
            return Ok(stands);
        }
        Ok(self.source_stands(kind, path, stamp))
    }

    // Whether an observation of a source stands, or of a reserved path, where nothing is.
    fn source_stands(&self, kind: DepKind, path: &Path, stamp: &Stamp) -> bool
        ensures { IsTrue result ↔ SourceStands self.now.named.now kind path.now stamp.now }
    {
        if path.is_source() {
            !self.named.is_known_to_differ(kind, path, stamp)
        } else {
            stamp.same(&Stamp::Absent)
        }
    }

    // Whether an observation of a required task stands, which comes to the required ones.
    fn called_stands(
        &self,
        required: &mut Vec<TaskNo>,
        kind: DepKind,
        task: &Task,
        stamp: &Stamp,
    ) -> Result<bool, OutOfMemory>
        requires tables { IsTables self.now.tables.now }
        requires rows { length self.now.tables.now.names ≡ length (R.rows self.now.rows.now) }
        requires required { AllBelow (length (R.rows self.now.rows.now)) (numbers required.old.items) }
        requires task { IsEncodableTask task.now }
        ensures below { IfOk result (λ _. AllBelow (length (R.rows self.now.rows.now)) (numbers required.new.items)) }
        ensures tells { IfOk result (λ stands. Tells (OnStands (around (R.rows self.now.rows.now) self.now) (numbers required.old.items) kind (Called task.now) stamp.now) stands (numbers required.new.items)) }
    {
        let _names = self.tables.names.as_slice();
        match self.tables.names.number(task)? {
            Some(no) => {
                required.push(no)?;
                let stands = self.output_stands(no, kind, stamp)?;
                Ok(stands)
            }
            None => Ok(false),
        }
    }
}

// Whether an observation of this kind is of a task.
fn calls(kind: DepKind) -> bool
    ensures { result ≡ specs_calls kind }
{
    match kind {
        DepKind::Require | DepKind::RequireHash | DepKind::Run => true,
        _ => false,
    }
}
