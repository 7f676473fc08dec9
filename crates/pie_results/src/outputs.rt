//! The numbers and the outputs of roots.
ghost use Rattle.std.specs.Prelude.{◌≡◌, ◌++◌, ◌∷◌, [], List, All, IfOk, OnOk};
ghost use Rattle.pie_graph.specs.Numbers.{numbers};
ghost use Rattle.pie_record.specs.inner.Records.{record_of};
ghost use Rattle.pie_value.specs.Canonical.{IsEncodableTask};
ghost use Rattle.pie_value.specs.declared.task.Task.{Task};
ghost use Rattle.pie_results.specs.inner.Live.{AreStarts};
ghost use Rattle.pie_results.specs.inner.Outputs.{AreOutputs, GainsOutput, GivesOutput, IsDone, output_by};

use pie_base::OutOfMemory;
use pie_graph::TaskNo;
use pie_record::Outcome;
use pie_tables::Tables;
use pie_value::{Task, Value};

/// The numbers of roots, of those that have one.
pub(crate) fn numbers_of(tables: &Tables, roots: &[Task]) -> Result<Vec<TaskNo>, OutOfMemory>
    requires { All IsEncodableTask roots.now }
    ensures { IfOk result (λ nos. AreStarts tables.now.names roots.now (numbers nos.items)) }
{
    let mut nos = Vec::new(tables.alloc);
    for root in roots {
        put_number(tables, root, &mut nos)?;
    }
    Ok(nos)
}

// Adds the number of a root, if it has one.
fn put_number(tables: &Tables, root: &Task, nos: &mut Vec<TaskNo>) -> Result<(), OutOfMemory>
    requires { IsEncodableTask root.now }
    ensures { (seen : List Task) → AreStarts tables.now.names seen (numbers nos.old.items)
        → OnOk result (AreStarts tables.now.names (seen ++ root.now ∷ []) (numbers nos.new.items)) }
{
    match tables.names.number(root)? {
        Some(no) => {
            nos.push(no)?;
            Ok(())
        }
        None => Ok(()),
    }
}

/// The outputs of roots in their order, of those that are done.
pub(crate) fn outputs_of(tables: &Tables, roots: &[Task]) -> Result<Vec<(Task, Value)>, OutOfMemory>
    requires { All IsEncodableTask roots.now }
    ensures { IfOk result (λ outputs. All (IsDone tables.now.names tables.now.records) roots.now
        → AreOutputs tables.now.names tables.now.records roots.now outputs.items) }
{
    let mut outputs = Vec::new(tables.alloc);
    for root in roots {
        put_output(tables, root, &mut outputs)?;
    }
    Ok(outputs)
}

// Adds the output of a root, if it is done.
fn put_output(
    tables: &Tables,
    root: &Task,
    outputs: &mut Vec<(Task, Value)>,
) -> Result<(), OutOfMemory>
    requires { IsEncodableTask root.now }
    ensures { IsDone tables.now.names tables.now.records root.now
        → OnOk result (GainsOutput tables.now.names tables.now.records root.now outputs.old.items outputs.new.items) }
{
    match output(tables, root)? {
        Some(output) => {
            let root = root.copy()?;
            outputs.push((root, output))?;
            Ok(())
        }
        None => Ok(()),
    }
}

// The output of a task, if it is done.
fn output(tables: &Tables, task: &Task) -> Result<Option<Value>, OutOfMemory>
    requires { IsEncodableTask task.now }
    ensures { IfOk result (λ o. IsDone tables.now.names tables.now.records task.now → GivesOutput tables.now.names tables.now.records task.now o) }
{
    match tables.names.number(task)? {
        Some(no) => {
            let output = output_at(tables, no)?;
            Ok(output)
        }
        None => Ok(None),
    }
}

// The output of the task with a number, if it is done.
fn output_at(tables: &Tables, no: TaskNo) -> Result<Option<Value>, OutOfMemory>
    ensures { IfOk result (λ o. o ≡ output_by (record_of tables.now.records no.0)) }
{
    match tables.records.get(no) {
        Some(rec) => match &rec.outcome {
            Outcome::Done(value) => Ok(Some(value.copy()?)),
            _ => Ok(None),
        },
        None => Ok(None),
    }
}
