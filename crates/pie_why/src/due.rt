//! Which old tasks a build takes up first.
ghost use Rattle.std.specs.Prelude.{◌≡◌, IfOk};
ghost use Rattle.pie_named.specs.inner.Names.{SameNames};
ghost use Rattle.pie_why.specs.Due.{Learning, SaysDue};

use crate::functions::flag_of;
use pie_compare::is_touched;
use pie_files::{Files, FilesError};
use pie_graph::TaskNo;
use pie_named::Named;
use pie_record::Records;
use std::alloc::Global;

/// Which of the first so many tasks are taken up first: those whose function isn't as it was, and those of whose record something that was observed of a named source, or
/// written at a named path, isn't there now as it was. Rule: docs/BUILDING.md, "A build by what changed".
pub(crate) fn due_flags<F: Files>(
    alloc: Global,
    files: &mut F,
    named: &mut Named,
    records: &Records,
    same: &[bool],
    count: u32,
) -> Result<Vec<bool>, FilesError>
    ensures same { F.holds files.new ≡ F.holds files.old }
{
    let mut flags = Vec::new(alloc);
    for n in 0..count {
        let due = is_due(files, named, records, same, TaskNo(n))?;
        flags.push(due)?;
    }
    Ok(flags)
}

// Whether a task is taken up first.
fn is_due<F: Files>(
    files: &mut F,
    named: &mut Named,
    records: &Records,
    same: &[bool],
    no: TaskNo,
) -> Result<bool, FilesError>
    ensures due { IfOk result (λ due. Learning (F.holds files.old) named.old named.new (λ d. SaysDue d named.old records.now same.now no.0 due)) }
    ensures names { SameNames named.old named.new }
    ensures same { F.holds files.new ≡ F.holds files.old }
{
    if !flag_of(same, no) {
        return Ok(true);
    }
    match records.get(no) {
        Some(rec) => {
            let touched = is_touched(named, rec, files)?;
            Ok(touched)
        }
        None => Ok(true),
    }
}
