//! Values that share the contents of equal ones, so that a store stands in memory once.
ghost use Rattle.std.specs.Prelude.{◌≡◌, OnOk};

use pie_base::{OutOfMemory, Text};
use pie_record::{Outcome, TaskRecord};
use pie_value::{Stamp, Task, Value};

// An observed task, of which this is the record.
pub(crate) fn share_task(known: &TaskRecord, task: &mut Task) -> Result<(), OutOfMemory>
    requires { known.now.task ≡ task.old }
    ensures { OnOk result (task.new ≡ task.old) }
{
    *task = known.task.copy()?;
    Ok(())
}

// The stamp of a task that is observed, of which this is the record.
pub(crate) fn share_stamp(known: &TaskRecord, stamp: &mut Stamp) -> Result<(), OutOfMemory>
    ensures { OnOk result (stamp.new ≡ stamp.old) }
{
    match (&known.outcome, stamp) {
        (Outcome::Done(known), Stamp::Whole(value)) => share_value(known, value),
        _ => Ok(()),
    }
}

fn share_value(known: &Value, value: &mut Value) -> Result<(), OutOfMemory>
    ensures { OnOk result (value.new ≡ value.old) }
{
    if value.same(known) {
        *value = known.copy()?;
    }
    Ok(())
}

// The name of a function, where the record before is of the same one.
pub(crate) fn share_name(known: &Text, name: &mut Text) -> Result<(), OutOfMemory>
    ensures { OnOk result (name.new ≡ name.old) }
{
    if known.as_str() == name.as_str() {
        *name = known.copy()?;
    }
    Ok(())
}
