ghost use Rattle.std.specs.Prelude.{◌≡◌, ◌<◌, ◌^◌, length, All, IfOk, OnOk};
ghost use Rattle.pie_value.specs.Canonical.{IsEncodableTask};

use pie_base::{FaultKind, OutOfMemory, Path, Text};
use pie_report::{Report, print, print_json};
use pie_store::{Cause, StoreFault};
use pie_value::{Fault, Items, Refusal, Task, Tasks, Value, Verdict};
use std::alloc::Global;
use std::process::Abort;
use std::test::Fail;

// A task with one argument.
#[tactic(auto, using(crate::proofs::Encodable::one_number))]
fn task(alloc: Global, func: &str, arg: i64) -> Result<Task, OutOfMemory>
    requires { length func.now < 2 ^ 32 }
    ensures { IfOk result IsEncodableTask }
{
    let func = Text::new(alloc, func)?;
    let mut args = Items::new();
    args.push(alloc, Value::Int(arg))?;
    Ok(Task { func, args })
}

fn two_tasks(alloc: Global) -> Result<Tasks, OutOfMemory> {
    let mut tasks = Vec::new(alloc);
    tasks.push(task(alloc, "p", 1)?)?;
    tasks.push(task(alloc, "q", -2)?)?;
    Ok(Tasks::new(tasks))
}

fn path(alloc: Global, text: &str) -> Result<Path, Fail> {
    Ok(Path::read(alloc, text).map_err(|_| "path")?)
}

// A report of nothing but this.
#[tactic(auto, using(crate::proofs::Encodable::no_tasks))]
fn empty(alloc: Global, verdict: Verdict, fresh: Option<Cause>) -> Report
    ensures { All IsEncodableTask result.ran.items }
{
    Report {
        verdict,
        fresh,
        ran: Vec::new(alloc),
        wrote: Vec::new(alloc),
        removed: Vec::new(alloc),
        live: 0,
        outputs: Vec::new(alloc),
    }
}

// The text of a report of this refusal alone.
fn refusal_text(alloc: Global, refusal: Refusal) -> Result<String, OutOfMemory> {
    print(alloc, &empty(alloc, Verdict::Refused(refusal), None))
}

// This is the whole text of an empty report with this refusal.
fn refused(rt: &impl Abort, alloc: Global, refusal: Refusal, wanted: &str) -> Result<(), Fail> {
    let text = refusal_text(alloc, refusal)?;
    assert!(rt; text.as_str() == wanted, "{text}");
    Ok(())
}

// This is the text of a report of a fault of this kind.
fn failed(rt: &impl Abort, alloc: Global, kind: FaultKind, wanted: &str) -> Result<(), Fail> {
    let task = task(alloc, "f", 7)?;
    refused(rt, alloc, Refusal::Fault(Fault { task, kind }), wanted)
}

// The text of a report of this cause and a refusal.
fn cause_text(alloc: Global, cause: Cause) -> Result<String, OutOfMemory> {
    let verdict = Verdict::Refused(Refusal::Many);
    print(alloc, &empty(alloc, verdict, Some(cause)))
}

// This is the text of an empty report with this cause.
fn caused(rt: &impl Abort, alloc: Global, cause: Cause, wanted: &str) -> Result<(), Fail> {
    let text = cause_text(alloc, cause)?;
    assert!(rt; text.as_str() == wanted, "{text}");
    Ok(())
}

#[test]
fn each_kind_of_fault_has_its_name(rt: HostRuntime) -> Result<(), Fail> {
    let a = rt.alloc();
    failed(&rt, a, FaultKind::NotText, "refused fault f(7): NotText\n")?;
    failed(&rt, a, FaultKind::BadPath, "refused fault f(7): BadPath\n")?;
    failed(
        &rt,
        a,
        FaultKind::BadWrite,
        "refused fault f(7): BadWrite\n",
    )?;
    failed(
        &rt,
        a,
        FaultKind::WroteTwice,
        "refused fault f(7): WroteTwice\n",
    )?;
    failed(
        &rt,
        a,
        FaultKind::ReadThenWrite,
        "refused fault f(7): ReadThenWrite\n",
    )?;
    failed(&rt, a, FaultKind::Clash, "refused fault f(7): Clash\n")?;
    failed(&rt, a, FaultKind::Budget, "refused fault f(7): Budget\n")?;
    failed(&rt, a, FaultKind::Big, "refused fault f(7): Big\n")
}

fn said(alloc: Global) -> Result<FaultKind, OutOfMemory> {
    Ok(FaultKind::Said(Text::new(alloc, "no \"x\"\n")?))
}

#[test]
fn each_other_kind_of_fault_has_its_name(rt: HostRuntime) -> Result<(), Fail> {
    let a = rt.alloc();
    failed(
        &rt,
        a,
        FaultKind::Overflow,
        "refused fault f(7): Overflow\n",
    )?;
    failed(&rt, a, FaultKind::Zero, "refused fault f(7): Zero\n")?;
    failed(&rt, a, FaultKind::Null, "refused fault f(7): Null\n")?;
    failed(
        &rt,
        a,
        said(a)?,
        "refused fault f(7): Said \"no \\\"x\\\"\\n\"\n",
    )?;
    failed(&rt, a, FaultKind::Range, "refused fault f(7): Range\n")?;
    failed(&rt, a, FaultKind::BadList, "refused fault f(7): BadList\n")?;
    failed(&rt, a, FaultKind::Unknown, "refused fault f(7): Unknown\n")
}

// A reader and a writer.
fn reader_and_writer(alloc: Global) -> Result<(Task, Task), OutOfMemory> {
    let reader = task(alloc, "r", 1)?;
    let writer = task(alloc, "w", 2)?;
    Ok((reader, writer))
}

fn overlap(alloc: Global) -> Result<Refusal, Fail> {
    let place = path(alloc, "out/a")?;
    let (first, second) = reader_and_writer(alloc)?;
    Ok(Refusal::Overlap(place, first, second))
}

fn hidden(alloc: Global) -> Result<Refusal, Fail> {
    let place = path(alloc, "out/a")?;
    let (reader, writer) = reader_and_writer(alloc)?;
    Ok(Refusal::Hidden(place, reader, writer))
}

fn nested(alloc: Global) -> Result<Refusal, Fail> {
    let place = path(alloc, "out/a")?;
    Ok(Refusal::Nested(place, path(alloc, "out/a/b")?))
}

fn cycle(alloc: Global) -> Result<Refusal, OutOfMemory> {
    Ok(Refusal::Cycle(two_tasks(alloc)?))
}

#[test]
fn each_refusal_has_its_line(rt: HostRuntime) -> Result<(), Fail> {
    let a = rt.alloc();
    refused(&rt, a, cycle(a)?, "refused cycle p(1) -> q(-2)\n")?;
    refused(&rt, a, Refusal::Many, "refused many\n")?;
    refused(&rt, a, overlap(a)?, "refused overlap out/a: r(1), w(2)\n")?;
    refused(&rt, a, nested(a)?, "refused nested out/a, out/a/b\n")?;
    refused(&rt, a, hidden(a)?, "refused hidden out/a: r(1), w(2)\n")
}

fn union_cycle(alloc: Global) -> Result<Cause, OutOfMemory> {
    Ok(Cause::UnionCycle(two_tasks(alloc)?))
}

fn union_many(alloc: Global) -> Result<Cause, OutOfMemory> {
    Ok(Cause::UnionMany(30_001, 19_999, task(alloc, "f", 49_999)?))
}

#[test]
fn each_cause_has_its_line(rt: HostRuntime) -> Result<(), Fail> {
    let a = rt.alloc();
    caused(
        &rt,
        a,
        Cause::Interrupted,
        "refused many\nfresh Interrupted\n",
    )?;
    caused(&rt, a, Cause::NoStore, "refused many\nfresh NoStore\n")?;
    caused(
        &rt,
        a,
        Cause::BadPending,
        "refused many\nfresh BadPending\n",
    )?;
    caused(
        &rt,
        a,
        union_cycle(a)?,
        "refused many\nfresh UnionCycle p(1) -> q(-2)\n",
    )?;
    caused(
        &rt,
        a,
        union_many(a)?,
        "refused many\nfresh UnionMany f(49999)\n",
    )
}

// This is the text of a report of a damaged store.
fn damaged(rt: &impl Abort, alloc: Global, fault: StoreFault, wanted: &str) -> Result<(), Fail> {
    caused(rt, alloc, Cause::Damaged(fault), wanted)
}

#[test]
fn each_damage_has_its_line(rt: HostRuntime) -> Result<(), Fail> {
    let a = rt.alloc();
    damaged(
        &rt,
        a,
        StoreFault::Short,
        "refused many\nfresh Damaged Short\n",
    )?;
    damaged(
        &rt,
        a,
        StoreFault::Magic,
        "refused many\nfresh Damaged Magic\n",
    )?;
    damaged(
        &rt,
        a,
        StoreFault::Version,
        "refused many\nfresh Damaged Version\n",
    )?;
    damaged(
        &rt,
        a,
        StoreFault::Digest,
        "refused many\nfresh Damaged Digest\n",
    )?;
    damaged(
        &rt,
        a,
        StoreFault::Row(158),
        "refused many\nfresh Damaged Row at 158\n",
    )?;
    damaged(
        &rt,
        a,
        StoreFault::Order(260),
        "refused many\nfresh Damaged Order at 260\n",
    )?;
    damaged(
        &rt,
        a,
        StoreFault::Rest,
        "refused many\nfresh Damaged Rest\n",
    )
}

#[tactic(auto, using(crate::proofs::Encodable::one_more))]
fn add_run(alloc: Global, report: &mut Report, func: &str, arg: i64) -> Result<(), OutOfMemory>
    requires short { length func.now < 2 ^ 32 }
    requires all { All IsEncodableTask report.old.ran.items }
    ensures { OnOk result (All IsEncodableTask report.new.ran.items) }
{
    report.ran.push(task(alloc, func, arg)?)?;
    Ok(())
}

// Runs out of order, one of them twice.
fn add_runs(alloc: Global, report: &mut Report) -> Result<(), OutOfMemory>
    requires { All IsEncodableTask report.old.ran.items }
    ensures { OnOk result (All IsEncodableTask report.new.ran.items) }
{
    add_run(alloc, report, "site", 0)?;
    add_run(alloc, report, "w", 2)?;
    add_run(alloc, report, "page", 1)?;
    add_run(alloc, report, "w", 2)?;
    add_run(alloc, report, "w", 1)
}

fn add_paths(alloc: Global, report: &mut Report) -> Result<(), Fail>
    ensures { OnOk result (report.new.ran ≡ report.old.ran) }
{
    report.wrote.push(path(alloc, "out/a")?)?;
    report.wrote.push(path(alloc, "out/b")?)?;
    report.removed.push(path(alloc, "out/z")?)?;
    Ok(())
}

fn add_outputs(alloc: Global, report: &mut Report) -> Result<(), OutOfMemory>
    ensures { OnOk result (report.new.ran ≡ report.old.ran) }
{
    let text = Value::Text(Text::new(alloc, "x\ty")?);
    report.outputs.push((task(alloc, "site", 0)?, text))?;
    report.outputs.push((task(alloc, "w", 1)?, Value::Unit))?;
    Ok(())
}

// Fills the other parts of a report.
fn fill(alloc: Global, report: &mut Report) -> Result<(), Fail>
    requires { All IsEncodableTask report.old.ran.items }
    ensures { OnOk result (All IsEncodableTask report.new.ran.items) }
{
    report.live = 5;
    add_runs(alloc, report)?;
    add_paths(alloc, report)?;
    Ok(add_outputs(alloc, report)?)
}

const ACCEPTED: &str =
    "accepted\nfresh NoStore\nran w(1)\nran w(2)\nran w(2)\nran page(1)\nran site(0)\n\
    wrote out/a\nwrote out/b\nremoved out/z\nlive 5\noutput site(0) = \"x\\ty\"\noutput w(1) = unit\n";

const REFUSED: &str =
    "refused many\nfresh NoStore\nran w(1)\nran w(2)\nran w(2)\nran page(1)\nran site(0)\n\
    wrote out/a\nwrote out/b\nremoved out/z\n";

const JSON: &str =
    "{\"fresh\":\"NoStore\",\"live\":5,\"outputs\":[[\"site(0)\",\"\\\"x\\\\ty\\\"\"],[\"w(1)\",\"unit\"]],\
    \"ran\":[\"w(1)\",\"w(2)\",\"w(2)\",\"page(1)\",\"site(0)\"],\"removed\":[\"out/z\"],\"verdict\":\"accepted\",\
    \"wrote\":[\"out/a\",\"out/b\"]}\n";

const EMPTY_JSON: &str =
    "{\"fresh\":null,\"live\":0,\"outputs\":[],\"ran\":[],\"removed\":[],\"verdict\":\"refused many\",\"wrote\":[]}\n";

// Fills a report, and its text.
fn text_of(alloc: Global, report: &mut Report, json: bool) -> Result<String, Fail>
    requires { All IsEncodableTask report.old.ran.items }
{
    fill(alloc, report)?;
    if json {
        Ok(print_json(alloc, report)?)
    } else {
        Ok(print(alloc, report)?)
    }
}

// The text of a report with each part.
fn filled(alloc: Global, verdict: Verdict, json: bool) -> Result<String, Fail> {
    let fresh = Some(Cause::NoStore);
    text_of(alloc, &mut empty(alloc, verdict, fresh), json)
}

// This is the text of a report with each part.
fn is_printed(
    rt: &impl Abort,
    alloc: Global,
    verdict: Verdict,
    json: bool,
    wanted: &str,
) -> Result<(), Fail> {
    let text = filled(alloc, verdict, json)?;
    assert!(rt; text.as_str() == wanted, "{text}");
    Ok(())
}

#[test]
fn runs_stand_in_task_order_and_outputs_in_theirs(rt: HostRuntime) -> Result<(), Fail> {
    let a = rt.alloc();
    is_printed(&rt, a, Verdict::Accepted, false, ACCEPTED)?;
    is_printed(&rt, a, Verdict::Refused(Refusal::Many), false, REFUSED)
}

fn empty_json(alloc: Global) -> Result<String, OutOfMemory> {
    let verdict = Verdict::Refused(Refusal::Many);
    print_json(alloc, &empty(alloc, verdict, None))
}

#[test]
fn a_report_is_one_line_of_json(rt: HostRuntime) -> Result<(), Fail> {
    is_printed(&rt, rt.alloc(), Verdict::Accepted, true, JSON)?;
    let text = empty_json(rt.alloc())?;
    assert!(rt; text.as_str() == EMPTY_JSON, "{text}");
    Ok(())
}
