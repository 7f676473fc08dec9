//! Union and plain rows side by side, and many requires.
ghost use Rattle.std.specs.Prelude.{◌≡◌, ◌<◌, length, map, IfOk};
ghost use Rattle.std.specs.List.{All};
ghost use Rattle.pie_graph.specs.Numbers.{numbers, AllBelow};
ghost use Rattle.pie_graph.specs.Rows.{row_of};
ghost use Rattle.pie_graph.specs.declared.edges.Edges.{Edges};

use crate::drawn::{Draws, paths};
use crate::rows::{compare, grow, push_below};
use pie_base::{MAX_TASKS, OutOfMemory};
use pie_graph::{Edges, PlainRows, TaskNo, TaskRows};
use pie_union::UnionRows;
use std::alloc::Global;
use std::process::Abort;
use std::test::Fail;

// Edges with these required tasks, and with drawn paths.
fn edges(alloc: Global, needs: Vec<TaskNo>, mut draws: Draws) -> Result<Edges, Fail>
    ensures { IfOk result (λ made. made.needs.items ≡ needs.items) }
{
    let reads = paths(alloc, &mut draws)?;
    let lists = paths(alloc, &mut draws)?;
    let writes = paths(alloc, &mut draws)?;
    Ok(Edges {
        needs,
        reads,
        lists,
        writes,
    })
}

fn needs(alloc: Global, mut draws: Draws, count: u32) -> Result<Vec<TaskNo>, OutOfMemory>
    requires { 0 < count }
    ensures { IfOk result (λ needs. AllBelow count (numbers needs.items)) }
{
    let mut needs = Vec::new(alloc);
    for _ in 0..draws.below(5) {
        push_below(&mut needs, draws.below(count), count)?;
    }
    Ok(needs)
}

// The tasks that a task requires, and one more.
fn one_more(
    alloc: Global,
    rows: &PlainRows,
    from: TaskNo,
    to: TaskNo,
) -> Result<Vec<TaskNo>, OutOfMemory>
    requires from { from.0 < length rows.now }
    requires to { to.0 < length rows.now }
    ensures { IfOk result (λ needs. AllBelow (length rows.now) (numbers needs.items)) }
{
    let mut needs = Vec::from_slice(alloc, rows.callees(from))?;
    needs.push(to)?;
    Ok(needs)
}

// The edges of these rows, with the paths that were drawn for each.
fn edges_of(alloc: Global, rows: &PlainRows, drawn: &[Draws]) -> Result<Vec<Edges>, Fail>
    ensures count { IfOk result (λ all. length all.items ≡ length rows.now) }
    ensures below { IfOk result (λ all. All (λ e. AllBelow (length rows.now) (numbers e.needs.items)) all.items) }
{
    let mut all = Vec::new(alloc);
    for i in 0..rows.count() {
        let needs = Vec::from_slice(alloc, rows.callees(TaskNo(i)))?;
        let draws = drawn.get(i as usize).copied().unwrap_or(Draws { state: 0 });
        all.push(edges(alloc, needs, draws)?)?;
    }
    Ok(all)
}

// Rows with these edges, indexed in one pass.
fn made(alloc: Global, rows: &PlainRows, drawn: &[Draws]) -> Result<UnionRows, Fail> {
    let _count = rows.count();
    let all = edges_of(alloc, rows, drawn)?;
    Ok(UnionRows::of(alloc, all)?)
}

// A row gets drawn edges.
fn set<R: TaskRows>(
    rt: &impl Abort,
    alloc: Global,
    rows: &mut R,
    no: TaskNo,
    draws: Draws,
) -> Result<(), Fail> {
    let count = rows.count();
    assert!(rt; no.0 < count);
    let needs = needs(alloc, draws, count)?;
    let edges = edges(alloc, needs, draws)?;
    rows.set_edges(no, edges)?;
    Ok(())
}

// The same row of both gets the same drawn edges.
fn set_both(
    rt: &impl Abort,
    alloc: Global,
    plain: &mut PlainRows,
    union: &mut UnionRows,
    no: TaskNo,
    draws: Draws,
) -> Result<(), Fail> {
    set(rt, alloc, plain, no, draws)?;
    set(rt, alloc, union, no, draws)
}

// A row of both requires one more task. The plain one is written anew.
fn push_both(
    rt: &impl Abort,
    alloc: Global,
    plain: &mut PlainRows,
    union: &mut UnionRows,
    from: TaskNo,
    to: TaskNo,
    drawn: Draws,
) -> Result<(), Fail> {
    assert!(rt; from.0 < plain.count() && to.0 < plain.count());
    assert!(rt; from.0 < union.count() && to.0 < union.count());
    let needs = one_more(alloc, plain, from, to)?;
    let edges = edges(alloc, needs, drawn)?;
    plain.set_edges(from, edges)?;
    union.push_need(from, to)?;
    Ok(())
}

// Both get one more row.
fn add_both(rt: &impl Abort, plain: &mut PlainRows, union: &mut UnionRows) -> Result<TaskNo, Fail> {
    assert!(rt; plain.count() < MAX_TASKS && union.count() < MAX_TASKS);
    let no = plain.add()?;
    assert_eq!(rt; no, union.add()?);
    Ok(no)
}

// One of the calls, as it is drawn.
fn call(
    rt: &impl Abort,
    alloc: Global,
    plain: &mut PlainRows,
    union: &mut UnionRows,
    drawn: &mut Vec<Draws>,
    draws: &mut Draws,
) -> Result<(), Fail> {
    let count = plain.count();
    if count == 0 || draws.below(8) == 0 {
        let no = add_both(rt, plain, union)?;
        drawn.push(*draws)?;
        return set_both(rt, alloc, plain, union, no, *draws);
    }
    let from = TaskNo(draws.below(count));
    let to = TaskNo(draws.below(count));
    let set_anew = draws.below(2) == 0;
    if let Some(paths) = drawn.get_mut(from.0 as usize) {
        if set_anew {
            *paths = *draws;
            set_both(rt, alloc, plain, union, from, *draws)?;
        } else {
            push_both(rt, alloc, plain, union, from, to, *paths)?;
        }
    }
    Ok(())
}

// The callers that are lent are those that are listed.
fn lends_callers(rt: &impl Abort, rows: &UnionRows) -> Result<(), Fail> {
    for i in 0..rows.count() {
        assert_eq!(rt;
            rows.callers_of(TaskNo(i)),
            rows.callers(TaskNo(i))?.as_slice()
        );
    }
    Ok(())
}

#[test]
fn union_rows_answer_as_plain_rows_do(rt: HostRuntime) -> Result<(), Fail> {
    let alloc = rt.alloc();
    let mut plain = PlainRows::new(alloc);
    let mut union = UnionRows::new(alloc);
    let mut drawn = Vec::new(alloc);
    let mut draws = Draws { state: 7 };
    for step in 0..400 {
        call(&rt, alloc, &mut plain, &mut union, &mut drawn, &mut draws)?;
        if step % 16 == 15 {
            union = made(alloc, &plain, drawn.as_slice())?;
        }
        compare(&rt, alloc, &plain, &union)?;
        lends_callers(&rt, &union)?;
    }
    Ok(())
}

// So many rows without edges.
fn tasks(alloc: Global, count: u32) -> Result<UnionRows, Fail> {
    let mut rows = UnionRows::new(alloc);
    grow(&mut rows, count)?;
    Ok(rows)
}

fn push(rt: &impl Abort, rows: &mut UnionRows, from: u32, to: u32) -> Result<(), Fail> {
    let count = rows.count();
    assert!(rt; from < count && to < count);
    rows.push_need(TaskNo(from), TaskNo(to))?;
    Ok(())
}

// How many tasks a task requires, and how many require it.
fn degrees(rt: &impl Abort, rows: &UnionRows, no: u32) -> (usize, usize) {
    assert!(rt; no < rows.count());
    let no = TaskNo(no);
    (rows.callees(no).len(), rows.callers_of(no).len())
}

// The last of these rows requires all others.
fn one_requires_many(rt: &impl Abort, rows: &mut UnionRows) -> Result<(), Fail> {
    for i in 0..30_000 {
        push(rt, rows, 30_000, i)?;
    }
    assert_eq!(rt; degrees(rt, &*rows, 30_000), (30_000, 0));
    assert_eq!(rt; degrees(rt, &*rows, 12_345), (0, 1));
    Ok(())
}

#[test]
fn a_row_requires_thirty_thousand_tasks(rt: HostRuntime) -> Result<(), Fail> {
    one_requires_many(&rt, &mut tasks(rt.alloc(), 30_001)?)
}

// All require one, and the last 3,000 of them another one too.
fn many_require_one(rt: &impl Abort, rows: &mut UnionRows) -> Result<(), Fail> {
    for i in 0..30_000 {
        push(rt, rows, i, 30_000)?;
    }
    some_require_another(rt, rows)
}

fn some_require_another(rt: &impl Abort, rows: &mut UnionRows) -> Result<(), Fail> {
    for i in 0..3_000 {
        push(rt, rows, 29_999 - i, 30_001)?;
    }
    Ok(())
}

#[test]
fn thirty_thousand_rows_require_one_task(rt: HostRuntime) -> Result<(), Fail> {
    let mut rows = tasks(rt.alloc(), 30_002)?;
    many_require_one(&rt, &mut rows)?;
    for (no, wanted) in [
        (30_000, (0, 30_000)),
        (30_001, (0, 3_000)),
        (12_345, (1, 0)),
        (29_000, (2, 0)),
    ] {
        assert_eq!(rt; degrees(&rt, &rows, no), wanted, "at {no}");
    }
    Ok(())
}
