//! The demo, and what is told of it.
ghost use Rattle.std.specs.Prelude.{◌≡◌, ◌<◌, ◌≤◌, IfOk, string_bytes};
ghost use Rattle.pie_cli.specs.Demo.{summary_text, IsDemoText};

use crate::told::CommandResult;
use pie_base::{OutOfMemory, Status};
use pie_demo::{Summary, demo};
use pie_files::SureFiles;
use pie_vm::Runs;
use std::alloc::Global;

/// Does a demo in memory, and tells what it came to.
pub(crate) fn tell_demo(alloc: Global, seed: u64, size: u32) -> Result<CommandResult, OutOfMemory>
    requires some { 0 < size }
    requires few { size ≤ 1000 }
    ensures told { IfOk result (λ told. IsDemoText seed size (string_bytes told.text)) }
    ensures status { IfOk result (λ told. told.status ≡ Status.Ok) }
{
    let mut files = SureFiles::new(alloc);
    let mut runs = Runs::new(alloc);
    let mut clean = Runs::new(alloc);
    let summary = demo(alloc, &mut files, seed, size, &mut runs, &mut clean)?;
    told(alloc, summary)
}

// What is told of a demo that came to this.
fn told(alloc: Global, summary: Summary) -> Result<CommandResult, OutOfMemory>
    ensures text { IfOk result (λ told. string_bytes told.text ≡ summary_text summary) }
    ensures status { IfOk result (λ told. told.status ≡ Status.Ok) }
{
    let Summary {
        tasks,
        rounds,
        ran,
        same,
    } = summary;
    let text = format!(in alloc; "tasks {tasks}\nrounds {rounds}\nran {ran}\nsame {same}\n")?;
    Ok(CommandResult {
        text,
        status: Status::Ok,
    })
}
