//! The roots in their order, and the live tasks once more.

ghost use Rattle.std.specs.Prelude.{◌≡◌, ℕ, [], ◌∷◌, ◌++◌, IfOk, OnOk, map, Some, None};
ghost use Rattle.pie_model.specs.Evaluation.{evaluation};
ghost use Rattle.pie_model.specs.Verdict.{written_by, missed_by};
ghost use Rattle.pie_model_program.specs.Roots.{IsAlone, IsForest, written_by_all, missed_by_all};

use crate::evaluation::evaluate;
use crate::names::copied;
use crate::run::{Run, Summary};
use crate::setting::Setting;
use pie_model::bytes::{Bytes, Names};
use pie_model::words::Outcome;
use std::alloc::{AllocError, Global};

/// What is kept of the roots.
#[derive(Drop)]
pub struct Forest {
    /// The first outcome that is no value.
    pub stop: Option<Outcome>,
    /// The tasks entered.
    pub entered: Names,
}

/// The evaluation of a task with nothing above, after these tasks were entered.
fn alone<S: Setting>(
    setting: &S,
    alloc: Global,
    task: &Bytes,
    entered: &Names,
) -> Result<Summary, AllocError>
    ensures { IfOk result (IsAlone (S.world setting.now) (S.project setting.now) task.now entered.now) }
{
    let above = Names::new(alloc);
    let summary = evaluate(setting, alloc, setting.most_tasks(), &above, task, entered)?;
    Ok(summary)
}

/// The roots up to the first that does not end with a value.
pub fn evaluate_roots<S: Setting>(
    setting: &S,
    alloc: Global,
    roots: &[Bytes],
    entered: &Names,
) -> Result<Forest, AllocError>
    ensures { IfOk result (IsForest (S.world setting.now) (S.project setting.now) roots.now entered.now) }
{
    match roots {
        [] => {
            let all = copied(alloc, entered)?;
            Ok(Forest {
                stop: None,
                entered: all,
            })
        }
        [first, rest @ ..] => {
            let Summary { outcome, run } = alone(setting, alloc, first, entered)?;
            match outcome {
                Outcome::Ended(_) => {
                    let forest = evaluate_roots(setting, alloc, rest, &run.entered)?;
                    Ok(forest)
                }
                Outcome::Failed(task, kind) => Ok(stopped(
                    Outcome::Failed(task, kind),
                    run.entered,
                )),
                Outcome::Cycled(tasks) => Ok(stopped(Outcome::Cycled(tasks), run.entered)),
                Outcome::Many => Ok(stopped(Outcome::Many, run.entered)),
            }
        }
    }
}

/// Roots that stopped with this outcome.
fn stopped(outcome: Outcome, entered: Names) -> Forest
    ensures { result ≡ record { stop = Some outcome; entered = entered } }
{
    Forest {
        stop: Some(outcome),
        entered,
    }
}

/// Puts the paths of these writes at the end, each with the task.
fn pair_writes(
    alloc: Global,
    into: &mut Vec<(Bytes, Bytes)>,
    writes: &[(Bytes, Bytes)],
    task: &Bytes,
) -> Result<(), AllocError>
    ensures { OnOk result (into.new.items ≡ into.old.items ++ map (λ x. (x.0, task.now)) writes.now) }
{
    match writes {
        [] => Ok(()),
        [first, rest @ ..] => {
            into.push((first.0.copy(alloc)?, task.copy(alloc)?))?;
            pair_writes(alloc, into, rest, task)
        }
    }
}

/// Puts these paths at the end, each with the task.
fn pair_names(
    alloc: Global,
    into: &mut Vec<(Bytes, Bytes)>,
    names: &[Bytes],
    task: &Bytes,
) -> Result<(), AllocError>
    ensures { OnOk result (into.new.items ≡ into.old.items ++ map (λ p. (p, task.now)) names.now) }
{
    match names {
        [] => Ok(()),
        [first, rest @ ..] => {
            into.push((first.copy(alloc)?, task.copy(alloc)?))?;
            pair_names(alloc, into, rest, task)
        }
    }
}

/// Puts at the end the paths that a live task wrote, and those that it found absent, each with the task.
fn gather_one<S: Setting>(
    setting: &S,
    alloc: Global,
    task: &Bytes,
    written: &mut Vec<(Bytes, Bytes)>,
    missed: &mut Vec<(Bytes, Bytes)>,
) -> Result<(), AllocError>
    ensures written { OnOk result (written.new.items ≡ written.old.items ++ written_by (evaluation (S.world setting.now) (S.project setting.now) task.now)) }
    ensures missed { OnOk result (missed.new.items ≡ missed.old.items ++ missed_by (evaluation (S.world setting.now) (S.project setting.now) task.now)) }
{
    let entered = Names::new(alloc);
    let one = alone(setting, alloc, task, &entered)?;
    pair_both(alloc, task, &one.run, written, missed)?;
    Ok(())
}

/// Puts at the end the paths that a run wrote, and those that it found absent, each with the task.
fn pair_both(
    alloc: Global,
    task: &Bytes,
    run: &Run,
    written: &mut Vec<(Bytes, Bytes)>,
    missed: &mut Vec<(Bytes, Bytes)>,
) -> Result<(), AllocError>
    ensures written { OnOk result (written.new.items ≡ written.old.items ++ map (λ x. (x.0, task.now)) run.now.own.items) }
    ensures missed { OnOk result (missed.new.items ≡ missed.old.items ++ map (λ p. (p, task.now)) run.now.absent) }
{
    pair_writes(alloc, written, run.own.as_slice(), task)?;
    pair_names(alloc, missed, run.absent.as_slice(), task)?;
    Ok(())
}

/// Puts at the end the paths that these live tasks wrote, and those that they found absent, each with its task.
pub fn gather<S: Setting>(
    setting: &S,
    alloc: Global,
    tasks: &[Bytes],
    written: &mut Vec<(Bytes, Bytes)>,
    missed: &mut Vec<(Bytes, Bytes)>,
) -> Result<(), AllocError>
    ensures written { OnOk result (written.new.items ≡ written.old.items ++ written_by_all (S.world setting.now) (S.project setting.now) tasks.now) }
    ensures missed { OnOk result (missed.new.items ≡ missed.old.items ++ missed_by_all (S.world setting.now) (S.project setting.now) tasks.now) }
{
    match tasks {
        [] => Ok(()),
        [first, rest @ ..] => {
            gather_one(setting, alloc, first, written, missed)?;
            gather(setting, alloc, rest, written, missed)
        }
    }
}
