//! Tasks in the order of their canonical bytes.
ghost use Rattle.std.specs.Prelude.{◌≡◌, [], map, All, IfOk, OnOk};
ghost use Rattle.std.specs.List.{fold};
ghost use Rattle.pie_value.specs.Canonical.{IsEncodableTask};
ghost use Rattle.pie_topdown_build.specs.inner.Reused.{by_key, put_task, InByteOrder};

use pie_base::OutOfMemory;
use pie_value::{Task, encode_task};
use std::alloc::Global;
use std::collections::BTreeMap;

/// These tasks in the order of their canonical bytes, each once.
pub(crate) fn in_order(alloc: Global, tasks: &[Task]) -> Result<Vec<Task>, OutOfMemory>
    requires { All IsEncodableTask tasks.now }
    ensures encodable { IfOk result (λ found. All IsEncodableTask found.items) }
    ensures order { IfOk result (λ found. InByteOrder tasks.now found.items) }
{
    let keyed = by_bytes(alloc, tasks)?;
    let found = listed(alloc, &keyed)?;
    Ok(found)
}

// The tasks by their canonical bytes.
fn by_bytes(alloc: Global, tasks: &[Task]) -> Result<BTreeMap<Vec<u8>, Task>, OutOfMemory>
    requires { All IsEncodableTask tasks.now }
    ensures { IfOk result (λ keyed. map by_key keyed.entries ≡ fold put_task [] tasks.now) }
{
    let mut keyed = BTreeMap::new(alloc);
    for task in tasks {
        put(alloc, &mut keyed, task)?;
    }
    Ok(keyed)
}

// Puts a task to its canonical bytes.
fn put(alloc: Global, keyed: &mut BTreeMap<Vec<u8>, Task>, task: &Task) -> Result<(), OutOfMemory>
    requires { IsEncodableTask task.now }
    ensures { OnOk result (map by_key keyed.new.entries ≡ put_task (map by_key keyed.old.entries) task.now) }
{
    let bytes = encode_task(alloc, task)?;
    let _old = keyed.insert(bytes, task.copy()?)?;
    Ok(())
}

// The tasks that are held, in the order of their bytes.
fn listed(alloc: Global, keyed: &BTreeMap<Vec<u8>, Task>) -> Result<Vec<Task>, OutOfMemory>
    ensures { IfOk result (λ found. found.items ≡ map (λ e. e.1) keyed.now.entries) }
{
    let mut found = Vec::new(alloc);
    for (_, task) in keyed {
        found.push(task.copy()?)?;
    }
    Ok(found)
}
