//! The result of a command.
ghost use Rattle.std.specs.Prelude.{◌≡◌, true, All, IfOk, string_bytes};
ghost use Rattle.pie_value.specs.Canonical.{IsEncodableTask};
ghost use Rattle.pie_cli.specs.Fresh.{IsPrinted, verdict_status};
ghost use Rattle.pie_cli.specs.Run.{is_answer};

use pie_base::{OutOfMemory, Status};
use pie_report::{Report, print, print_json};
use pie_value::Verdict;
use std::alloc::Global;

/// What a command prints, and the status that it ends with.
#[derive(Drop)]
pub(crate) struct CommandResult {
    pub(crate) text: String,
    pub(crate) status: Status,
}

/// What is told of a report, as JSON where that is wanted.
pub(crate) fn of_report(
    alloc: Global,
    report: Report,
    json: bool,
) -> Result<CommandResult, OutOfMemory>
    requires { All IsEncodableTask report.ran.items }
    ensures text { IfOk result (λ told. IsPrinted json report (string_bytes told.text)) }
    ensures status { IfOk result (λ told. told.status ≡ verdict_status report.verdict) }
    ensures answer { IfOk result (λ told. is_answer told.status ≡ true) }
{
    let text = printed(alloc, &report, json)?;
    let status = status_of(&report.verdict);
    Ok(CommandResult { text, status })
}

/// The text of a report, or its line of JSON.
pub(crate) fn printed(alloc: Global, report: &Report, json: bool) -> Result<String, OutOfMemory>
    requires { All IsEncodableTask report.now.ran.items }
    ensures { IfOk result (λ text. IsPrinted json report.now (string_bytes text)) }
{
    if json {
        print_json(alloc, report)
    } else {
        print(alloc, report)
    }
}

/// The status that a build with this verdict ends with.
pub(crate) fn status_of(verdict: &Verdict) -> Status
    ensures status { result ≡ verdict_status verdict.now }
    ensures answer { is_answer result ≡ true }
{
    match verdict {
        Verdict::Accepted => Status::Ok,
        Verdict::Refused(_) => Status::Refused,
    }
}
