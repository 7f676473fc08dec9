//! The tasks of records by numbers, and the numbers of the tasks that each record requires.
ghost use Rattle.std.specs.Prelude.{◌≡◌, ◌++◌, ◌≤◌, All, Contains, IfOk, IfSome, OnOk, Some, length, map};
ghost use Rattle.pie_record.specs.Canonical.{IsStorable, IsStorableDep, IsStorableOn};
ghost use Rattle.pie_record.specs.inner.Names.{AreDistinct};
ghost use Rattle.pie_store.specs.Canonical.{AreInOrder, required_on, tasks_in};
ghost use Rattle.pie_store.specs.inner.Ties.{AreNeeds, AreTies, named_by, needs_in};
ghost use Rattle.pie_old.specs.inner.Rows.{AreNamed};

use pie_base::{MAX_TASKS, OutOfMemory};
use pie_graph::TaskNo;
use pie_record::{Dep, DepOn, TaskNames, TaskRecord};
use pie_store::Ties;
use std::alloc::Global;

/// The ties of records in store order: these, if there are some, or else they are made.
pub(crate) fn ties_of(
    alloc: Global,
    ties: Option<Ties>,
    rows: &[TaskRecord],
) -> Result<Ties, OutOfMemory>
    requires ties { IfSome ties (AreTies rows.now) }
    requires few { length rows.now ≤ MAX_TASKS }
    requires storable { All IsStorable rows.now }
    requires order { AreInOrder rows.now }
    ensures { IfOk result (AreTies rows.now) }
{
    match ties {
        Some(ties) => Ok(ties),
        None => made(alloc, rows),
    }
}

fn made(alloc: Global, rows: &[TaskRecord]) -> Result<Ties, OutOfMemory>
    requires few { length rows.now ≤ MAX_TASKS }
    requires storable { All IsStorable rows.now }
    requires order { AreInOrder rows.now }
    ensures { IfOk result (AreTies rows.now) }
{
    let names = names_of(alloc, rows)?;
    let needs = all_needs(alloc, &names, rows)?;
    Ok(Ties { names, needs })
}

// The tasks of records in order.
fn names_of(alloc: Global, rows: &[TaskRecord]) -> Result<TaskNames, OutOfMemory>
    requires few { length rows.now ≤ MAX_TASKS }
    requires storable { All IsStorable rows.now }
    requires distinct { AreDistinct (tasks_in rows.now) }
    ensures { IfOk result (λ names. names ≡ tasks_in rows.now) }
{
    let mut names = TaskNames::new(alloc);
    for rec in rows {
        let task = rec.task.copy()?;
        names.add(task)?;
    }
    Ok(names)
}

// The numbers of the tasks that each record requires.
fn all_needs(
    alloc: Global,
    names: &TaskNames,
    rows: &[TaskRecord],
) -> Result<Vec<Vec<TaskNo>>, OutOfMemory>
    requires storable { All IsStorable rows.now }
    requires named { All (AreNamed names.now) rows.now }
    ensures { IfOk result (λ needs. AreNeeds names.now needs.items rows.now) }
{
    let mut all = Vec::with_capacity(alloc, rows.len())?;
    for rec in rows {
        let needs = needs_of(alloc, names, rec.deps.as_slice())?;
        all.push(needs)?;
    }
    Ok(all)
}

// The numbers of the required tasks, in order.
fn needs_of(alloc: Global, names: &TaskNames, deps: &[Dep]) -> Result<Vec<TaskNo>, OutOfMemory>
    requires storable { All IsStorableDep deps.now }
    requires named { All (Contains names.now) (needs_in deps.now) }
    ensures { IfOk result (λ needs. named_by names.now needs.items ≡ map Some (needs_in deps.now)) }
{
    let mut needs = Vec::new(alloc);
    for dep in deps {
        put_need(names, &dep.what, &mut needs)?;
    }
    Ok(needs)
}

// Adds the number of what was observed, if that is a task.
fn put_need(names: &TaskNames, what: &DepOn, needs: &mut Vec<TaskNo>) -> Result<(), OutOfMemory>
    requires storable { IsStorableOn what.now }
    requires named { All (Contains names.now) (required_on what.now) }
    ensures { OnOk result (named_by names.now needs.new.items ≡ named_by names.now needs.old.items ++ map Some (required_on what.now)) }
{
    match what {
        DepOn::File(_) => Ok(()),
        DepOn::Called(task) => match names.number(task)? {
            Some(no) => Ok(needs.push(no)?),
            None => Ok(()),
        },
    }
}
