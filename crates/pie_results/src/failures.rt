//! The first root that failed.
ghost use Rattle.std.specs.Prelude.{◌≡◌, All, IfOk};
ghost use Rattle.pie_record.specs.inner.Records.{record_of};
ghost use Rattle.pie_tables.specs.Tabled.{IsTables};
ghost use Rattle.pie_value.specs.Canonical.{IsEncodableTask};
ghost use Rattle.pie_results.specs.inner.Failures.{FailsFirst, Fails, refusal_by};

use pie_base::OutOfMemory;
use pie_graph::TaskNo;
use pie_record::Outcome;
use pie_tables::Tables;
use pie_value::{Refusal, Task};

/// Why the first of the roots that failed did.
pub(crate) fn first_failure(tables: &Tables, roots: &[Task]) -> Result<Option<Refusal>, OutOfMemory>
    requires tables { IsTables tables.now }
    requires roots { All IsEncodableTask roots.now }
    ensures { IfOk result (FailsFirst tables.now.names tables.now.records roots.now) }
{
    for root in roots {
        match failure(tables, root)? {
            Some(refusal) => return Ok(Some(refusal)),
            None => {}
        }
    }
    Ok(None)
}

// Why a root failed, if it did.
fn failure(tables: &Tables, root: &Task) -> Result<Option<Refusal>, OutOfMemory>
    requires tables { IsTables tables.now }
    requires root { IsEncodableTask root.now }
    ensures { IfOk result (Fails tables.now.names tables.now.records root.now) }
{
    match tables.names.number(root)? {
        Some(no) => {
            let why = failure_at(tables, no)?;
            Ok(why)
        }
        None => Ok(None),
    }
}

// Why the task with a number failed, if it did.
fn failure_at(tables: &Tables, no: TaskNo) -> Result<Option<Refusal>, OutOfMemory>
    requires tables { IsTables tables.now }
    ensures { IfOk result (λ why. why ≡ refusal_by (record_of tables.now.records no.0)) }
{
    match tables.outcome(no)? {
        Some(Outcome::Failed(fault)) => Ok(Some(Refusal::Fault(fault))),
        Some(Outcome::Cycled(tasks)) => Ok(Some(Refusal::Cycle(tasks))),
        _ => Ok(None),
    }
}
