//! Lists of names and of writes, copied and joined.

ghost use Rattle.std.specs.Prelude.{◌≡◌, ℕ, [], ◌∷◌, ◌++◌, IfOk, OnOk, take};
ghost use Rattle.pie_model.specs.Paths.{among};
ghost use Rattle.pie_model.specs.Trees.{enter};
ghost use Rattle.pie_model.specs.Evaluation.{round};
ghost use Rattle.pie_model_program.specs.Written.{tagged};

use pie_model::bytes::{Bytes, Names};
use std::alloc::{AllocError, Global};

/// Whether a name is one of these.
pub fn contains(names: &[Bytes], name: &Bytes) -> bool
    ensures { result ≡ among name.now names.now }
{
    match names {
        [] => false,
        [first, rest @ ..] => {
            if name.same(first) {
                return true;
            }
            contains(rest, name)
        }
    }
}

/// Puts copies of these names at the end.
fn push_all(alloc: Global, into: &mut Names, names: &[Bytes]) -> Result<(), AllocError>
    ensures { OnOk result (into.new ≡ into.old ++ names.now) }
{
    match names {
        [] => Ok(()),
        [first, rest @ ..] => {
            into.push(first.copy(alloc)?)?;
            push_all(alloc, into, rest)
        }
    }
}

/// These names.
pub fn copied(alloc: Global, names: &Names) -> Result<Names, AllocError>
    ensures { IfOk result (λ all. all ≡ names.now) }
{
    let mut all = Names::new(alloc);
    push_all(alloc, &mut all, names.as_slice())?;
    Ok(all)
}

/// These names with one in front.
pub fn with_front(alloc: Global, name: &Bytes, names: &Names) -> Result<Names, AllocError>
    ensures { IfOk result (λ all. all ≡ name.now ∷ names.now) }
{
    let mut all = Names::new(alloc);
    all.push(name.copy(alloc)?)?;
    push_all(alloc, &mut all, names.as_slice())?;
    Ok(all)
}

/// The tasks entered after these, once the task is.
pub fn entering(alloc: Global, entered: &Names, task: &Bytes) -> Result<Names, AllocError>
    ensures { IfOk result (λ all. all ≡ enter task.now entered.now) }
{
    let mut all = copied(alloc, entered)?;
    if !contains(entered.as_slice(), task) {
        all.push(task.copy(alloc)?)?;
    }
    Ok(all)
}

/// The tasks from one that is required again to the one that requires it, in front of those found.
pub fn round_onto(
    alloc: Global,
    task: &Bytes,
    above: &[Bytes],
    found: Names,
) -> Result<Names, AllocError>
    ensures { IfOk result (λ all. all ≡ round task.now above.now found) }
{
    match above {
        [] => Ok(found),
        [first, rest @ ..] => {
            let more = with_front(alloc, first, &found)?;
            if task.same(first) {
                return Ok(more);
            }
            round_onto(alloc, task, rest, more)
        }
    }
}

/// Puts a task's writes at the end, each with the task.
pub fn tag_all(
    alloc: Global,
    into: &mut Vec<(Bytes, Bytes, Bytes)>,
    task: &Bytes,
    writes: &[(Bytes, Bytes)],
) -> Result<(), AllocError>
    ensures { OnOk result (into.new.items ≡ into.old.items ++ tagged task.now writes.now) }
{
    match writes {
        [] => Ok(()),
        [first, rest @ ..] => {
            into.push((
                task.copy(alloc)?,
                first.0.copy(alloc)?,
                first.1.copy(alloc)?,
            ))?;
            tag_all(alloc, into, task, rest)
        }
    }
}

/// Puts copies of these writes at the end.
pub fn extend(
    alloc: Global,
    into: &mut Vec<(Bytes, Bytes, Bytes)>,
    writes: &[(Bytes, Bytes, Bytes)],
) -> Result<(), AllocError>
    ensures { OnOk result (into.new.items ≡ into.old.items ++ writes.now) }
{
    match writes {
        [] => Ok(()),
        [first, rest @ ..] => {
            into.push((
                first.0.copy(alloc)?,
                first.1.copy(alloc)?,
                first.2.copy(alloc)?,
            ))?;
            extend(alloc, into, rest)
        }
    }
}
