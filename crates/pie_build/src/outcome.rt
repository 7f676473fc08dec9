//! What is reported of a build.
ghost use Rattle.std.specs.Prelude.{◌≡◌, [], None, IfOk};
ghost use Rattle.pie_value.specs.declared.verdict.Verdict.TheVariants as verdicts;

use pie_base::{OutOfMemory, Path};
use pie_report::Report;
use pie_value::{Refusal, Task, Value, Verdict};
use std::alloc::Global;

/// The report of a refused build.
pub fn refused(alloc: Global, refusal: Refusal, ran: Vec<Task>) -> Report
    ensures verdict { result.verdict ≡ verdicts.Refused refusal }
    ensures fresh { result.fresh ≡ None }
    ensures ran { result.ran ≡ ran }
    ensures wrote { result.wrote.items ≡ [] }
    ensures removed { result.removed.items ≡ [] }
    ensures outputs { result.outputs.items ≡ [] }
    ensures live { result.live ≡ 0 }
{
    Report {
        verdict: Verdict::Refused(refusal),
        fresh: None,
        ran,
        wrote: Vec::new(alloc),
        removed: Vec::new(alloc),
        live: 0,
        outputs: Vec::new(alloc),
    }
}

/// The report of an accepted build with so many live tasks.
pub fn accepted(
    live: usize,
    ran: Vec<Task>,
    wrote: Vec<Path>,
    removed: Vec<Path>,
    outputs: Vec<(Task, Value)>,
) -> Result<Report, OutOfMemory>
    ensures verdict { IfOk result (λ r. r.verdict ≡ verdicts.Accepted) }
    ensures fresh { IfOk result (λ r. r.fresh ≡ None) }
    ensures live { IfOk result (λ r. r.live ≡ live) }
    ensures ran { IfOk result (λ r. r.ran ≡ ran) }
    ensures wrote { IfOk result (λ r. r.wrote ≡ wrote) }
    ensures removed { IfOk result (λ r. r.removed ≡ removed) }
    ensures outputs { IfOk result (λ r. r.outputs ≡ outputs) }
{
    match u32::try_from(live) {
        Ok(live) => Ok(Report {
            verdict: Verdict::Accepted,
            fresh: None,
            ran,
            wrote,
            removed,
            live,
            outputs,
        }),
        Err(_) => Err(OutOfMemory),
    }
}
