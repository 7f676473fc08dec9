//! The report as one line of JSON.
ghost use Rattle.std.specs.Prelude.{◌≡◌, ◌++◌, [], codes, false, map, All, IfOk, string_bytes};
ghost use Rattle.serde_json.specs.Data.{string};
ghost use Rattle.serde_json.specs.View.{view};
ghost use Rattle.serde_json.specs.Written.{has_float, compact_text};
ghost use Rattle.pie_value.specs.Canonical.{IsEncodableTask};
ghost use Rattle.pie_value.specs.Shown.{shown_task};
ghost use Rattle.pie_report.specs.Causes.{cause_text};
ghost use Rattle.pie_report.specs.Objects.{texts_data, fresh_data, output_data, outputs_data, report_data, IsJson};
ghost use Rattle.pie_report.specs.Verdicts.{verdict_text};

use crate::Report;
use crate::cause::put_cause;
use crate::task_order::in_task_order;
use crate::verdict::{put, put_verdict};
use pie_base::{OutOfMemory, Path};
use pie_store::Cause;
use pie_value::{Task, Value, Verdict, show, show_task};
use serde_json::{Map, Value as Json};
use std::alloc::Global;

/// The report as one line of JSON: an object without spaces whose keys are `fresh` (the cause, or null), `live`,
/// `outputs` (pairs of texts), `ran` (in task order), `removed`, `verdict` and `wrote`, in this order; the texts are those of `print`.
/// Rule: docs/BUILDING.md, "What is printed".
pub fn print_json(alloc: Global, report: &Report) -> Result<String, OutOfMemory>
    requires { All IsEncodableTask report.now.ran.items }
    ensures { IfOk result (λ text. IsJson report.now (string_bytes text)) }
{
    let runs = in_task_order(alloc, report.ran.as_slice())?;
    json_of(alloc, report, runs.as_slice())
}

// The line of a report whose runs stand in this order.
#[tactic(auto, using(crate::proofs::Floats::no_float))]
fn json_of(alloc: Global, report: &Report, runs: &[Task]) -> Result<String, OutOfMemory>
    ensures { IfOk result (λ text. string_bytes text ≡ compact_text (report_data report.now runs.now) ++ codes "\n") }
{
    let object = object_of(alloc, report, runs)?;
    line_of(alloc, &object)
}

fn line_of(alloc: Global, object: &Json) -> Result<String, OutOfMemory>
    requires { has_float (view object.now) ≡ false }
    ensures { IfOk result (λ text. string_bytes text ≡ compact_text (view object.now) ++ codes "\n") }
{
    let mut text = object.to_string(alloc)?;
    put(&mut text, "\n")?;
    Ok(text)
}

fn object_of(alloc: Global, report: &Report, runs: &[Task]) -> Result<Json, OutOfMemory>
    ensures { IfOk result (λ object. view object ≡ report_data report.now runs.now) }
{
    let mut members = Map::new(alloc);
    let fresh = fresh_of(alloc, &report.fresh)?;
    serde_json::put(&mut members, alloc, "fresh", fresh)?;
    serde_json::put(&mut members, alloc, "live", Json::from(report.live))?;
    let outputs = outputs_of(alloc, report.outputs.as_slice())?;
    serde_json::put(&mut members, alloc, "outputs", outputs)?;
    let ran = tasks_of(alloc, runs)?;
    serde_json::put(&mut members, alloc, "ran", ran)?;
    let removed = paths_of(alloc, report.removed.as_slice())?;
    serde_json::put(&mut members, alloc, "removed", removed)?;
    let verdict = verdict_of(alloc, &report.verdict)?;
    serde_json::put(&mut members, alloc, "verdict", verdict)?;
    let wrote = paths_of(alloc, report.wrote.as_slice())?;
    serde_json::put(&mut members, alloc, "wrote", wrote)?;
    Ok(Json::from(members))
}

fn fresh_of(alloc: Global, fresh: &Option<Cause>) -> Result<Json, OutOfMemory>
    ensures { IfOk result (λ value. view value ≡ fresh_data fresh.now) }
{
    match fresh {
        None => Ok(Json::from(())),
        Some(cause) => cause_of(alloc, cause),
    }
}

fn cause_of(alloc: Global, cause: &Cause) -> Result<Json, OutOfMemory>
    ensures { IfOk result (λ value. view value ≡ string (cause_text cause.now)) }
{
    let mut text = String::new(alloc);
    put_cause(alloc, &mut text, cause)?;
    Ok(Json::from(text))
}

fn verdict_of(alloc: Global, verdict: &Verdict) -> Result<Json, OutOfMemory>
    ensures { IfOk result (λ value. view value ≡ string (verdict_text verdict.now)) }
{
    let mut text = String::new(alloc);
    put_verdict(alloc, &mut text, verdict)?;
    Ok(Json::from(text))
}

fn tasks_of(alloc: Global, tasks: &[Task]) -> Result<Json, OutOfMemory>
    ensures { IfOk result (λ value. view value ≡ texts_data (map shown_task tasks.now)) }
{
    let mut items = Vec::new(alloc);
    for task in tasks {
        items.push(Json::from(show_task(alloc, task)?))?;
    }
    Ok(Json::from(items))
}

fn paths_of(alloc: Global, paths: &[Path]) -> Result<Json, OutOfMemory>
    ensures { IfOk result (λ value. view value ≡ texts_data paths.now) }
{
    let mut items = Vec::new(alloc);
    for path in paths {
        items.push(Json::try_from_str(alloc, path.as_str())?)?;
    }
    Ok(Json::from(items))
}

fn outputs_of(alloc: Global, outputs: &[(Task, Value)]) -> Result<Json, OutOfMemory>
    ensures { IfOk result (λ value. view value ≡ outputs_data outputs.now) }
{
    let mut items = Vec::new(alloc);
    for output in outputs {
        items.push(output_of(alloc, output)?)?;
    }
    Ok(Json::from(items))
}

fn output_of(alloc: Global, output: &(Task, Value)) -> Result<Json, OutOfMemory>
    ensures { IfOk result (λ value. view value ≡ output_data output.now) }
{
    let (task, value) = output;
    let mut items = Vec::new(alloc);
    items.push(Json::from(show_task(alloc, task)?))?;
    items.push(Json::from(show(alloc, value)?))?;
    Ok(Json::from(items))
}
