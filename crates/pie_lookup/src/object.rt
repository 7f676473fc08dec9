//! The graph of the last build as JSON.

use crate::concerned::{listed_path, read_path};
use pie_base::{OutOfMemory, Path};
use pie_record::{Dep, DepOn, TaskRecord};
use pie_value::show_task;
use serde_json::{Map, Value as Json};
use std::alloc::Global;

/// The tasks of these records as one line of JSON: an object without spaces with the key `tasks`, a list in the order of the records. A task has the keys `lists`, `reads`,
/// `requires` (the tasks), `task` and `writes`, in this order, each but `task` a list of texts in the order of the record. Rule: docs/INSPECT.md.
pub fn graph_json(alloc: Global, rows: &[TaskRecord]) -> Result<String, OutOfMemory> {
    let mut items = Vec::new(alloc);
    for rec in rows {
        items.push(record_of(alloc, rec)?)?;
    }
    let mut members = Map::new(alloc);
    serde_json::put(&mut members, alloc, "tasks", Json::from(items))?;
    let mut text = Json::from(members).to_string(alloc)?;
    text.push_str("\n")?;
    Ok(text)
}

fn record_of(alloc: Global, rec: &TaskRecord) -> Result<Json, OutOfMemory> {
    let deps = rec.deps.as_slice();
    let mut members = Map::new(alloc);
    let lists = lists_of(alloc, deps)?;
    serde_json::put(&mut members, alloc, "lists", lists)?;
    let reads = reads_of(alloc, deps)?;
    serde_json::put(&mut members, alloc, "reads", reads)?;
    let required = required_of(alloc, deps)?;
    serde_json::put(&mut members, alloc, "requires", required)?;
    let task = Json::from(show_task(alloc, &rec.task)?);
    serde_json::put(&mut members, alloc, "task", task)?;
    let writes = writes_of(alloc, rec.writes.as_slice())?;
    serde_json::put(&mut members, alloc, "writes", writes)?;
    Ok(Json::from(members))
}

fn lists_of(alloc: Global, deps: &[Dep]) -> Result<Json, OutOfMemory> {
    let mut items = Vec::new(alloc);
    for dep in deps {
        put_path(alloc, &mut items, listed_path(dep))?;
    }
    Ok(Json::from(items))
}

fn reads_of(alloc: Global, deps: &[Dep]) -> Result<Json, OutOfMemory> {
    let mut items = Vec::new(alloc);
    for dep in deps {
        put_path(alloc, &mut items, read_path(dep))?;
    }
    Ok(Json::from(items))
}

fn required_of(alloc: Global, deps: &[Dep]) -> Result<Json, OutOfMemory> {
    let mut items = Vec::new(alloc);
    for dep in deps {
        if let DepOn::Called(task) = &dep.what {
            items.push(Json::from(show_task(alloc, task)?))?;
        }
    }
    Ok(Json::from(items))
}

fn writes_of(alloc: Global, writes: &[(Path, [u8; 32])]) -> Result<Json, OutOfMemory> {
    let mut items = Vec::new(alloc);
    for (path, _) in writes {
        put_path(alloc, &mut items, Some(path))?;
    }
    Ok(Json::from(items))
}

fn put_path(alloc: Global, items: &mut Vec<Json>, path: Option<&Path>) -> Result<(), OutOfMemory> {
    if let Some(path) = path {
        items.push(Json::try_from_str(alloc, path.as_str())?)?;
    }
    Ok(())
}
