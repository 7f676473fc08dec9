//! The verdict on a project and its roots.

ghost use Rattle.std.specs.Prelude.{◌≡◌, ℕ, IfOk, map};
ghost use Rattle.pie_model.specs.Verdict.{checked, by_findings, by_stop, final_checks, findings, least, verdict};
ghost use Rattle.pie_model.specs.Evaluation.{evaluation};

use crate::checks::{find_all, least_of};
use crate::roots::{evaluate_roots, gather};
use crate::setting::Setting;
use pie_model::bytes::{Bytes, Names};
use pie_model::words::{Check, Finding, Outcome, Verdict};
use std::alloc::{AllocError, Global};

/// The first of the last three refusals that holds.
fn refusal(overlap: Option<Finding>, nested: Option<Finding>, hidden: Option<Finding>) -> Verdict
    ensures { result ≡ by_findings overlap nested hidden }
{
    match overlap {
        Some(found) => Verdict::Overlap(found.path, found.first, found.second),
        None => match nested {
            Some(found) => Verdict::Nested(found.path, found.first),
            None => match hidden {
                Some(found) => Verdict::Hidden(found.path, found.first, found.second),
                None => Verdict::Accepted,
            },
        },
    }
}

/// The least finding of a check.
fn least_finding(
    alloc: Global,
    check: Check,
    xs: &[(Bytes, Bytes)],
    ys: &[(Bytes, Bytes)],
) -> Result<Option<Finding>, AllocError>
    ensures { IfOk result (λ f. f ≡ least (findings check xs.now ys.now)) }
{
    let mut found = Vec::new(alloc);
    find_all(alloc, &mut found, check, xs, ys)?;
    let least = least_of(alloc, found.as_slice())?;
    Ok(least)
}

/// The checks of written paths, and of absent ones against them.
fn checks(
    alloc: Global,
    written: &[(Bytes, Bytes)],
    missed: &[(Bytes, Bytes)],
) -> Result<Verdict, AllocError>
    ensures { IfOk result (λ v. v ≡ checked written.now missed.now) }
{
    let overlap = least_finding(alloc, Check::Overlapping, written, written)?;
    let nested = least_finding(alloc, Check::Nesting, written, written)?;
    let hidden = least_finding(alloc, Check::Hiding, missed, written)?;
    Ok(refusal(overlap, nested, hidden))
}

/// The checks of the live tasks.
fn check_live<S: Setting>(setting: &S, alloc: Global, tasks: &Names) -> Result<Verdict, AllocError>
    ensures { IfOk result (λ v. v ≡ final_checks (map (evaluation (S.world setting.now) (S.project setting.now)) tasks.now)) }
{
    let mut written = Vec::new(alloc);
    let mut missed = Vec::new(alloc);
    gather(setting, alloc, tasks.as_slice(), &mut written, &mut missed)?;
    let verdict = checks(alloc, written.as_slice(), missed.as_slice())?;
    Ok(verdict)
}

/// The verdict where not too many tasks are entered.
fn judge<S: Setting>(
    setting: &S,
    alloc: Global,
    stop: Option<Outcome>,
    tasks: &Names,
) -> Result<Verdict, AllocError>
    ensures { IfOk result (λ v. v ≡ by_stop stop (map (evaluation (S.world setting.now) (S.project setting.now)) tasks.now)) }
{
    match stop {
        None => check_live(setting, alloc, tasks),
        Some(Outcome::Ended(_)) => check_live(setting, alloc, tasks),
        Some(Outcome::Failed(task, kind)) => Ok(Verdict::Fault(task, kind)),
        Some(Outcome::Cycled(tasks)) => Ok(Verdict::Cycle(tasks)),
        Some(Outcome::Many) => Ok(Verdict::Many),
    }
}

/// The verdict on a project and its roots.
pub fn verdict_on<S: Setting>(
    setting: &S,
    alloc: Global,
    roots: &[Bytes],
) -> Result<Verdict, AllocError>
    ensures { IfOk result (λ v. v ≡ verdict (S.world setting.now) (S.project setting.now) roots.now) }
{
    let none = Names::new(alloc);
    let forest = evaluate_roots(setting, alloc, roots, &none)?;
    if setting.most_tasks() < forest.entered.len() as u64 {
        return Ok(Verdict::Many);
    }
    judge(setting, alloc, forest.stop, &forest.entered)
}
