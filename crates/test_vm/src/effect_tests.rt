//! Each effect with its answers, and the states of a machine that asks.
ghost use Rattle.std.specs.Prelude.{◌≡◌, length, IfOk};
ghost use Rattle.pie_vm.specs.Machines.{Belongs};

use crate::tests::{does, instr, run_of};
use pie_base::{OutOfMemory, Text};
use pie_code::{Checked, Code, verify};
use pie_value::{Answer, Items, Task, Value};
use pie_vm::{Machine, MachineState, Runs};
use std::alloc::Global;
use std::process::Abort;
use std::test::Fail;

// Each code with the answers to a task that has it, and what the task does.
fn each_does_with(
    rt: &impl Abort,
    alloc: Global,
    cases: &[(&str, &str, &str)],
) -> Result<(), Fail> {
    for (words, answers, wanted) in cases {
        does(rt, alloc, words, answers, wanted)?;
    }
    Ok(())
}

const TAKEN: &[(&str, &str, &str)] = &[
    (
        "tick tick tick 's tick path read get return",
        "file",
        "read s; done \"1\" at 4",
    ),
    (
        "tick tick tick 's tick path read get return",
        "absent",
        "read s; fail Null at 4",
    ),
    ("'s path exists return", "flag", "exists s; done true at 0"),
    (
        "'s path mark return",
        "file",
        "read s by mark; done \"1\" at 0",
    ),
    (
        "'s path raw return",
        "file",
        "read s; done bytes(\"31\") at 0",
    ),
    (
        "'s path digest return",
        "digest",
        "digest s; done null at 0",
    ),
    (
        "'src path entries return",
        "entries",
        "list src; done [path(\"src/a\")] at 0",
    ),
    (
        "int@1 int@2 whole@2 return",
        "output",
        "f of 2 whole; done 5 at 0",
    ),
    ("hashed@0 return", "output", "f of 0 hashed; done 5 at 0"),
    (
        "int@7 int@1 ran@1 drop return",
        "ran",
        "f of 1 ran; done 7 at 0",
    ),
    (
        "'s path read drop 's path read drop tick whole@0 return",
        "file absent output",
        "read s; read s; f of 0 whole; done 5 at 1",
    ),
    (
        "'out/a path read return",
        "clash",
        "read out/a; fail Clash at 0",
    ),
    ("'out/a path entries return", "", "fail BadList at 0"),
    ("'s exists return", "", "fail Unknown at 0"),
];

#[test]
fn an_effect_is_asked_and_its_answer_taken(rt: HostRuntime) -> Result<(), Fail> {
    each_does_with(&rt, rt.alloc(), TAKEN)
}

const OF_ANOTHER_KIND: &[(&str, &str, &str)] = &[
    (
        "'s path exists return",
        "file",
        "exists s; fail Unknown at 0",
    ),
    ("'s path read return", "flag", "read s; fail Unknown at 0"),
    (
        "'s path digest return",
        "absent",
        "digest s; fail Unknown at 0",
    ),
    (
        "'s path entries return",
        "output",
        "list s; fail Unknown at 0",
    ),
    (
        "'out/a path 'x write return",
        "ran",
        "write out/a bytes(\"78\"); fail Unknown at 0",
    ),
    ("whole@0 return", "ran", "f of 0 whole; fail Unknown at 0"),
    ("ran@0 return", "output", "f of 0 ran; fail Unknown at 0"),
];

#[test]
fn an_answer_of_another_kind_is_unknown(rt: HostRuntime) -> Result<(), Fail> {
    each_does_with(&rt, rt.alloc(), OF_ANOTHER_KIND)
}

const WRITES: &[(&str, &str, &str)] = &[
    (
        "'out/a path 'é write return",
        "wrote",
        "write out/a bytes(\"c3a9\"); done unit at 0",
    ),
    (
        "'out/a path 'x to_bytes write return",
        "wrote",
        "write out/a bytes(\"78\"); done unit at 0",
    ),
    (
        "'out/a path 'x write drop 'out/a path 'y write return",
        "wrote",
        "write out/a bytes(\"78\"); fail WroteTwice at 0",
    ),
    (
        "'out/a path 'x write drop 'out/b path 'y write return",
        "wrote wrote",
        "write out/a bytes(\"78\"); write out/b bytes(\"79\"); done unit at 0",
    ),
    (
        "'out/a path read drop 'out/a path 'x write return",
        "absent",
        "read out/a; fail ReadThenWrite at 0",
    ),
    (
        "'out/a path exists drop 'out/a path 'x write return",
        "flag",
        "exists out/a; fail ReadThenWrite at 0",
    ),
    (
        "'out/a path digest drop 'out/a path 'x write return",
        "digest",
        "digest out/a; fail ReadThenWrite at 0",
    ),
    (
        "'out/a path 'x write drop 'out/a path read drop 'out/a path 'x write return",
        "wrote file",
        "write out/a bytes(\"78\"); read out/a; fail WroteTwice at 0",
    ),
    ("'src/a path 'x write return", "", "fail BadWrite at 0"),
    ("'out path 'x write return", "", "fail BadWrite at 0"),
    ("'out/a path unit write return", "", "fail Unknown at 0"),
    ("'out/a 'x write return", "", "fail Unknown at 0"),
];

#[test]
fn an_out_path_is_written_once_and_not_after_it_was_observed(rt: HostRuntime) -> Result<(), Fail> {
    each_does_with(&rt, rt.alloc(), WRITES)
}

// Code with one parameter: whether a file is there at the path that it spells.
fn looking(alloc: Global) -> Result<Checked, Fail>
    ensures { IfOk result (λ code. code.params ≡ 1) }
{
    let code = Code {
        params: 1,
        slots: 1,
        texts: Vec::new(alloc),
        instrs: vec![in alloc;
            instr("load@0"),
            instr("path"),
            instr("exists"),
            instr("return"),
        ]?,
    };
    Ok(verify(alloc, code)?)
}

// A task with one argument.
fn task_of(alloc: Global, text: &str) -> Result<Task, Fail>
    ensures { IfOk result (λ task. length task.args ≡ 1) }
{
    let mut args = Items::new();
    args.push(alloc, Value::Text(Text::new(alloc, text)?))?;
    let func = Text::new(alloc, "look")?;
    Ok(Task { func, args })
}

// The states at the start, after the first event, after its answer and at the end.
#[tactic(auto, using(crate::proofs::Asked::asked))]
fn states(code: &Checked, machine: &mut Machine) -> Result<[MachineState; 4], OutOfMemory>
    requires ready { machine.old.phase ≡ MachineState.Ready }
    requires belongs { Belongs code.now machine.old }
{
    let first = machine.state();
    let _event = machine.next(code)?;
    let asked = machine.state();
    if asked != MachineState::Waiting {
        return Ok([first, asked, asked, asked]);
    }
    machine.answer(Answer::Flag(false));
    let answered = machine.state();
    let _last = machine.next(code)?;
    Ok([first, asked, answered, machine.state()])
}

// The states of a machine over a task with this code.
fn states_of(
    alloc: Global,
    code: &Checked,
    task: &Task,
    runs: &mut Runs,
) -> Result<[MachineState; 4], OutOfMemory>
    requires { length task.now.args ≡ code.now.params }
{
    let mut machine = Machine::start(alloc, code, task, runs)?;
    states(code, &mut machine)
}

fn looking_states(alloc: Global) -> Result<[MachineState; 4], Fail> {
    let task = task_of(alloc, "s")?;
    let code = looking(alloc)?;
    Ok(states_of(alloc, &code, &task, &mut Runs::new(alloc))?)
}

#[test]
fn a_machine_waits_for_its_answer_and_is_over_at_its_end(rt: HostRuntime) -> Result<(), Fail> {
    let [first, asked, answered, last] = looking_states(rt.alloc())?;
    let waits = first == MachineState::Ready && asked == MachineState::Waiting;
    let ends = answered == MachineState::Ready && last == MachineState::Over;
    assert!(rt; waits && ends, "{first:?} {asked:?} {answered:?} {last:?}");
    Ok(())
}

fn looked_at(alloc: Global, runs: &mut Runs) -> Result<String, Fail> {
    let task = task_of(alloc, "s")?;
    let code = looking(alloc)?;
    run_of(alloc, &code, &task, runs, "flag")
}

// What the task does, and how many runs there are then.
fn looked_at_once(alloc: Global, runs: &mut Runs) -> Result<String, Fail> {
    let found = looked_at(alloc, runs)?;
    Ok(format!(in alloc; "{found} of {}", runs.count())?)
}

#[test]
fn a_task_is_among_the_runs_and_begins_with_its_arguments(rt: HostRuntime) -> Result<(), Fail> {
    let found = looked_at_once(rt.alloc(), &mut Runs::new(rt.alloc()))?;
    assert!(rt;
        found.as_str() == "exists s; done true at 0 of 1",
        "{found}"
    );
    Ok(())
}
