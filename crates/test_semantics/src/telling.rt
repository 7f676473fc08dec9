//! Events in words.
use pie_base::FaultKind;
use pie_semantics_program::EvaluatorOutcome;
use pie_value::{By, Event, How, Value, show, show_task};
use std::alloc::Global;
use std::test::Fail;

fn fault_name(fault: &FaultKind) -> &'static str {
    match fault {
        FaultKind::NotText => "NotText",
        FaultKind::BadPath => "BadPath",
        FaultKind::BadWrite => "BadWrite",
        FaultKind::WroteTwice => "WroteTwice",
        FaultKind::ReadThenWrite => "ReadThenWrite",
        FaultKind::Clash => "Clash",
        FaultKind::Budget => "Budget",
        FaultKind::Big => "Big",
        FaultKind::Overflow => "Overflow",
        FaultKind::Zero => "Zero",
        FaultKind::Null => "Null",
        FaultKind::Said(_) => "Said",
        FaultKind::Range => "Range",
        FaultKind::BadList => "BadList",
        FaultKind::Unknown => "Unknown",
    }
}

// A fault in words.
fn fault_told(alloc: Global, fault: &FaultKind) -> Result<String, Fail> {
    match fault {
        FaultKind::Said(text) => Ok(format!(in alloc; "fail Said {}", text.as_str())?),
        _ => Ok(format!(in alloc; "fail {}", fault_name(fault))?),
    }
}

// An output in words.
fn done_told(alloc: Global, value: &Value) -> Result<String, Fail> {
    let value = show(alloc, value)?;
    Ok(format!(in alloc; "done {value}")?)
}

fn way(how: How) -> &'static str {
    match how {
        How::Whole => "whole",
        How::Hashed => "hashed",
        How::Ran => "ran",
    }
}

// An event in words.
pub(crate) fn told(alloc: Global, event: &Event) -> Result<String, Fail> {
    match event {
        Event::Exists(path) => Ok(format!(in alloc; "exists {}", path.as_str())?),
        Event::Read(path, By::Mark) => Ok(format!(in alloc; "read {} by mark", path.as_str())?),
        Event::Read(path, _) => Ok(format!(in alloc; "read {}", path.as_str())?),
        Event::Digest(path) => Ok(format!(in alloc; "digest {}", path.as_str())?),
        Event::List(path) => Ok(format!(in alloc; "list {}", path.as_str())?),
        Event::Write(path, bytes) => {
            let bytes = show(alloc, &Value::Bytes(bytes.copy()?))?;
            Ok(format!(in alloc; "write {} {bytes}", path.as_str())?)
        }
        Event::Require(task, how) => {
            let task = show_task(alloc, task)?;
            Ok(format!(in alloc; "{task} {}", way(*how))?)
        }
        Event::Done(value) => done_told(alloc, value),
        Event::Fail(kind) => fault_told(alloc, kind),
    }
}

// What the evaluator evaluated to in words, as an event would be told.
pub(crate) fn outcome_told(alloc: Global, outcome: &EvaluatorOutcome) -> Result<String, Fail> {
    match outcome {
        EvaluatorOutcome::Done(value) => done_told(alloc, value),
        EvaluatorOutcome::Fails(kind) => fault_told(alloc, kind),
        EvaluatorOutcome::Wants(event) => told(alloc, event),
    }
}

// An event in words with the ticks up to it, behind others.
pub(crate) fn tell(alloc: Global, event: &str, ticks: u32, all: &mut String) -> Result<(), Fail> {
    let one = format!(in alloc; "{event} at {ticks}; ")?;
    all.push_str(one.as_str())?;
    Ok(())
}
