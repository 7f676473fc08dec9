//! The steps of a script, and what is told of them.
ghost use Rattle.std.specs.Prelude.{◌≡◌, ◌++◌, All, true, IfOk, OnOk, map, string_bytes};
ghost use Rattle.pie_cli.specs.Replay.{heading, last_status as status_of_last, ArePrinted, StepsLeave};
ghost use Rattle.pie_cli.specs.Run.{files_fault_text, is_told};
ghost use Rattle.pie_cli.specs.inner.Played.{Adds, IsBefore, IsTellable, PlaySays, TellsScript};
ghost use Rattle.pie_replay.specs.Replays.{KeepsOthers};
ghost use Rattle.pie_script.specs.Steps.{plain};

use crate::check::{bad_pipeline, bad_roots};
use crate::told::{CommandResult, printed, status_of};
use pie_base::{OutOfMemory, Status};
use pie_files::Files;
use pie_project::BuildError;
use pie_replay::replay;
use pie_report::Report;
use pie_script::Step;
use pie_vm::Runs;
use std::alloc::Global;

/// Does the steps of a script, and tells the reports of its builds, each as JSON where that is wanted. After these it tells why the script ended
/// early, where it did.
pub(crate) fn replay_script<F: Files>(
    alloc: Global,
    files: &mut F,
    steps: &[Step],
    json: bool,
) -> Result<CommandResult, OutOfMemory>
    ensures says { IfOk result (λ told. PlaySays F.holds F.moment F.left_since F.images F.asked F.faults json (map plain steps.now) files.old files.new (string_bytes told.text) told.status) }
    ensures told { IfOk result (λ told. is_told told.status ≡ true) }
    ensures rest { KeepsOthers (map plain steps.now) (F.holds files.old) (F.holds files.new) }
    ensures crash { StepsLeave F.holds F.moment F.left_since F.images (map plain steps.now) files.old files.new }
{
    let mut runs = Runs::new(alloc);
    let mut done = Vec::new(alloc);
    let ended = replay(alloc, files, steps, &mut runs, &mut done);
    tell(alloc, done.as_slice(), ended, json)
}

// What is told of a script that came to these reports.
fn tell(
    alloc: Global,
    reports: &[Report],
    ended: Result<(), BuildError>,
    json: bool,
) -> Result<CommandResult, OutOfMemory>
    requires { All IsTellable reports.now }
    ensures { IfOk result (λ told. TellsScript json reports.now ended (string_bytes told.text) told.status) }
{
    match ended {
        Ok(()) => all(alloc, reports, json),
        Err(BuildError::Pipeline(fault)) => {
            let line = bad_pipeline(alloc, fault)?;
            with_line(alloc, reports, json, &line)
        }
        Err(BuildError::Roots(reason)) => {
            let line = bad_roots(alloc, reason)?;
            with_line(alloc, reports, json, &line)
        }
        Err(BuildError::Files) => {
            let line = files_fault(alloc)?;
            with_line(alloc, reports, json, &line)
        }
        Err(BuildError::OutOfMemory) => Err(OutOfMemory),
    }
}

// What is told where a call on the files failed.
fn files_fault(alloc: Global) -> Result<CommandResult, OutOfMemory>
    ensures text { IfOk result (λ told. string_bytes told.text ≡ files_fault_text) }
    ensures status { IfOk result (λ told. told.status ≡ Status.Files) }
{
    let text = String::from_str(alloc, "files fault\n")?;
    Ok(CommandResult {
        text,
        status: Status::Files,
    })
}

// The reports of a script that was done to its end, and the status of the last.
fn all(alloc: Global, reports: &[Report], json: bool) -> Result<CommandResult, OutOfMemory>
    requires { All IsTellable reports.now }
    ensures text { IfOk result (λ told. ArePrinted json 1 reports.now (string_bytes told.text)) }
    ensures status { IfOk result (λ told. told.status ≡ status_of_last reports.now) }
{
    let text = texts(alloc, reports, json)?;
    let status = last_status(reports);
    Ok(CommandResult { text, status })
}

// Reports, and then a line with its status.
fn with_line(
    alloc: Global,
    reports: &[Report],
    json: bool,
    line: &CommandResult,
) -> Result<CommandResult, OutOfMemory>
    requires { All IsTellable reports.now }
    ensures text { IfOk result (λ told. IsBefore json reports.now (string_bytes line.now.text) (string_bytes told.text)) }
    ensures status { IfOk result (λ told. told.status ≡ line.now.status) }
{
    let mut text = texts(alloc, reports, json)?;
    text.push_str(line.text.as_str())?;
    Ok(CommandResult {
        text,
        status: line.status,
    })
}

// The texts of reports, one after another.
fn texts(alloc: Global, reports: &[Report], json: bool) -> Result<String, OutOfMemory>
    requires { All IsTellable reports.now }
    ensures { IfOk result (λ text. ArePrinted json 1 reports.now (string_bytes text)) }
{
    let mut text = String::new(alloc);
    let mut number = 0;
    for report in reports {
        number += 1;
        put_report(alloc, &mut text, report, number, json)?;
    }
    Ok(text)
}

fn put_report(
    alloc: Global,
    text: &mut String,
    report: &Report,
    number: usize,
    json: bool,
) -> Result<(), OutOfMemory>
    requires { IsTellable report.now }
    ensures { OnOk result (Adds json number report.now (string_bytes text.old) (string_bytes text.new)) }
{
    let one = printed(alloc, report, json)?;
    put_heading(alloc, text, number, json)?;
    text.push_str(one.as_str())?;
    Ok(())
}

// The number of a build. Before a line of JSON stands none.
fn put_heading(
    alloc: Global,
    text: &mut String,
    number: usize,
    json: bool,
) -> Result<(), OutOfMemory>
    ensures { OnOk result (string_bytes text.new ≡ string_bytes text.old ++ heading json number) }
{
    if json {
        return Ok(());
    }
    let line = format!(in alloc; "build {number}\n")?;
    text.push_str(line.as_str())?;
    Ok(())
}

// The status of the last of some builds.
fn last_status(reports: &[Report]) -> Status
    ensures { result ≡ status_of_last reports.now }
{
    match reports.last() {
        Some(report) => status_of(&report.verdict),
        None => Status::Ok,
    }
}
