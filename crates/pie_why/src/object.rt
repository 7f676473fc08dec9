//! What a build would do, as one line of JSON.

use crate::reason::{Due, FunctionNow, Reason, Why, Whys};
use crate::text::{put, put_cause};
use pie_base::{OutOfMemory, Path};
use pie_record::DepKind;
use pie_store::Cause;
use pie_value::{Task, show_task};
use serde_json::{Map, Value as Json};
use std::alloc::Global;

/// What a build would do, as one line of JSON: an object without spaces whose keys are `fresh` (the cause, or null), `kept`, `may_run` and `runs`, in this order. An item of
/// `runs` has `reasons` and `task`, a reason `kind`, `named` (the path of the list that leads to it, or null) and `what` (a path, or the name of a function).
/// Rule: docs/INSPECT.md, "What a build would run".
pub fn json(alloc: Global, why: &Why) -> Result<String, OutOfMemory> {
    let object = match why {
        Why::Afresh(cause) => afresh(alloc, cause)?,
        Why::From(whys) => from(alloc, whys)?,
    };
    let mut text = object.to_string(alloc)?;
    put(&mut text, "\n")?;
    Ok(text)
}

fn afresh(alloc: Global, cause: &Cause) -> Result<Json, OutOfMemory> {
    let mut text = String::new(alloc);
    put_cause(alloc, &mut text, cause)?;
    let mut members = Map::new(alloc);
    serde_json::put(&mut members, alloc, "fresh", Json::from(text))?;
    serde_json::put(&mut members, alloc, "kept", Json::from(0u32))?;
    serde_json::put(&mut members, alloc, "may_run", Json::from(Vec::new(alloc)))?;
    serde_json::put(&mut members, alloc, "runs", Json::from(Vec::new(alloc)))?;
    Ok(Json::from(members))
}

fn from(alloc: Global, whys: &Whys) -> Result<Json, OutOfMemory> {
    let mut members = Map::new(alloc);
    serde_json::put(&mut members, alloc, "fresh", Json::from(()))?;
    serde_json::put(&mut members, alloc, "kept", Json::from(whys.kept))?;
    let may = tasks_of(alloc, whys.may.as_slice())?;
    serde_json::put(&mut members, alloc, "may_run", may)?;
    let runs = dues_of(alloc, whys.due.as_slice())?;
    serde_json::put(&mut members, alloc, "runs", runs)?;
    Ok(Json::from(members))
}

fn tasks_of(alloc: Global, tasks: &[Task]) -> Result<Json, OutOfMemory> {
    let mut items = Vec::new(alloc);
    for task in tasks {
        items.push(Json::from(show_task(alloc, task)?))?;
    }
    Ok(Json::from(items))
}

fn dues_of(alloc: Global, dues: &[Due]) -> Result<Json, OutOfMemory> {
    let mut items = Vec::new(alloc);
    for due in dues {
        items.push(due_of(alloc, due)?)?;
    }
    Ok(Json::from(items))
}

fn due_of(alloc: Global, due: &Due) -> Result<Json, OutOfMemory> {
    let mut members = Map::new(alloc);
    let reasons = reasons_of(alloc, due.task.func.as_str(), due.reasons.as_slice())?;
    serde_json::put(&mut members, alloc, "reasons", reasons)?;
    let task = Json::from(show_task(alloc, &due.task)?);
    serde_json::put(&mut members, alloc, "task", task)?;
    Ok(Json::from(members))
}

fn reasons_of(alloc: Global, func: &str, reasons: &[Reason]) -> Result<Json, OutOfMemory> {
    let mut items = Vec::new(alloc);
    for reason in reasons {
        items.push(reason_of(alloc, func, reason)?)?;
    }
    Ok(Json::from(items))
}

fn reason_of(alloc: Global, func: &str, reason: &Reason) -> Result<Json, OutOfMemory> {
    match reason {
        Reason::Function(now) => object(alloc, kind_of_function(*now), None, func),
        Reason::Observed(kind, path) => {
            object(alloc, kind_of_sight(*kind), Some(path), path.as_str())
        }
        Reason::Listed(dir, name, _) => object(alloc, "list", name.as_ref(), dir.as_str()),
        Reason::Wrote(path) => object(alloc, "wrote", Some(path), path.as_str()),
    }
}

fn kind_of_function(now: FunctionNow) -> &'static str {
    match now {
        FunctionNow::Changed => "function changed",
        FunctionNow::Gone => "function gone",
        FunctionNow::Unknown => "function unknown",
    }
}

fn kind_of_sight(kind: DepKind) -> &'static str {
    match kind {
        DepKind::Exists => "exists",
        DepKind::Digest => "digest",
        _ => "read",
    }
}

fn object(
    alloc: Global,
    kind: &str,
    named: Option<&Path>,
    what: &str,
) -> Result<Json, OutOfMemory> {
    let mut members = Map::new(alloc);
    let kind = Json::try_from_str(alloc, kind)?;
    serde_json::put(&mut members, alloc, "kind", kind)?;
    let named = named_of(alloc, named)?;
    serde_json::put(&mut members, alloc, "named", named)?;
    let what = Json::try_from_str(alloc, what)?;
    serde_json::put(&mut members, alloc, "what", what)?;
    Ok(Json::from(members))
}

fn named_of(alloc: Global, named: Option<&Path>) -> Result<Json, OutOfMemory> {
    match named {
        Some(path) => Ok(Json::try_from_str(alloc, path.as_str())?),
        None => Ok(Json::from(())),
    }
}
