//! Evaluation: each required task is evaluated again.

ghost use Rattle.std.specs.Prelude.{IfOk, OnOk};
ghost use Rattle.pie_model_program.specs.Runs.{IsEvaluationOf, IsRequire, IsStep, IsTraceOf, TakesKid};

use crate::names::{contains, entering, extend, round_onto, tag_all, with_front};
use crate::run::{Run, Summary};
use crate::setting::Setting;
use pie_model::bytes::{Bytes, Names};
use pie_model::words::{Event, FaultKind, How, Outcome};
use std::alloc::{AllocError, Global};

/// What a required task's evaluation adds to a run.
fn take(alloc: Global, run: &mut Run, task: &Bytes, kid: Run) -> Result<(), AllocError>
    ensures { OnOk result (TakesKid task.now kid run.old run.new) }
{
    tag_all(alloc, &mut run.below, task, kid.own.as_slice())?;
    extend(alloc, &mut run.below, kid.below.as_slice())?;
    run.entered = kid.entered;
    Ok(())
}

/// A require.
#[cycle(evaluating)]
fn require<S: Setting>(
    setting: &S,
    alloc: Global,
    room: u64,
    below: &Names,
    how: How,
    task: &Bytes,
    run: &mut Run,
) -> Result<Option<Outcome>, AllocError>
    ensures { IfOk result (λ o. IsRequire (S.world setting.now) (S.project setting.now) room below.now how task.now run.old o run.new) }
{
    let kid = evaluate(setting, alloc, room, below, task, &run.entered)?;
    take(alloc, run, task, kid.run)?;
    run.require(how, kid.outcome)
}

/// The next event of a task below these, itself included.
#[cycle(evaluating)]
fn advance<S: Setting>(
    setting: &S,
    alloc: Global,
    room: u64,
    below: &Names,
    task: &Bytes,
    run: &mut Run,
) -> Result<Option<Outcome>, AllocError>
    ensures { IfOk result (λ o. IsStep (S.world setting.now) (S.project setting.now) room below.now task.now run.old o run.new) }
{
    match setting.next(task, run.answers.as_slice())? {
        Event::Done(value) => Ok(Some(Outcome::Ended(value))),
        Event::Fail(kind) => Ok(Some(Outcome::Failed(task.copy(alloc)?, kind))),
        Event::LookAt(look, path) => run.look(setting, alloc, task, look, &path),
        Event::ListOf(dir) => run.list(setting, alloc, task, &dir),
        Event::Write(path, bytes) => {
            run.write(path, bytes)?;
            Ok(None)
        }
        Event::Require(how, other) => require(setting, alloc, room, below, how, &other, run),
    }
}

/// All events of a task below these, itself included.
#[cycle(evaluating)]
fn events<S: Setting>(
    setting: &S,
    alloc: Global,
    room: u64,
    below: &Names,
    task: &Bytes,
    entered: Names,
) -> Result<Summary, AllocError>
    ensures { IfOk result (IsTraceOf (S.world setting.now) (S.project setting.now) room below.now task.now entered) }
{
    let mut run = Run::new(alloc, entered);
    let mut left = setting.most_events();
    'events: while left > 0 {
        left -= 1;
        match advance(setting, alloc, room, below, task, &mut run)? {
            Some(outcome) => return Ok(Summary { outcome, run }),
            None => {}
        }
    }
    let outcome = Outcome::Failed(task.copy(alloc)?, FaultKind::Budget);
    Ok(Summary { outcome, run })
}

/// The evaluation of a task below these, the newest first, where at most so many tasks may stand one below the other.
/// It is gone through after these tasks were entered.
#[cycle(evaluating)]
pub fn evaluate<S: Setting>(
    setting: &S,
    alloc: Global,
    room: u64,
    above: &Names,
    task: &Bytes,
    entered: &Names,
) -> Result<Summary, AllocError>
    ensures { IfOk result (IsEvaluationOf (S.world setting.now) (S.project setting.now) room above.now task.now entered.now) }
{
    let entered = entering(alloc, entered, task)?;
    if contains(above.as_slice(), task) {
        let tasks = round_onto(alloc, task, above.as_slice(), Names::new(alloc))?;
        return Ok(Summary {
            outcome: Outcome::Cycled(tasks),
            run: Run::new(alloc, entered),
        });
    }
    if room == 0 {
        return Ok(Summary {
            outcome: Outcome::Many,
            run: Run::new(alloc, entered),
        });
    }
    let below = with_front(alloc, task, above)?;
    events(setting, alloc, room - 1, &below, task, entered)
}
