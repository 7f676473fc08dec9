//! What compiled code and the evaluator tell of a function: each event with the ticks up to it, for each prefix of the answers.
ghost use Rattle.std.specs.Prelude.{◌≡◌, length, IfOk, IfSome, IsTrue};
ghost use Rattle.pie_vm.specs.Machines.{Belongs};
ghost use Rattle.pie_vm.specs.declared.machine.MachineState.{MachineState};
ghost use Rattle.pie_vm.specs.declared.machine.MachineState.TheVariants as states;

use crate::given::{add_answers, answer, main_task};
use crate::telling::{outcome_told, tell, told};
use pie_base::OutOfMemory;
use pie_code::Checked;
use pie_codegen::compile;
use pie_lexer::lex;
use pie_parser::{Function, parse};
use pie_semantics_program::{Evaluated, EvaluatorOutcome, next_of};
use pie_types::{Typed, check};
use pie_value::{Answer, Event, Task};
use pie_vm::{Machine, MachineState, Runs};
use std::alloc::Global;
use std::process::Abort;
use std::test::Fail;

// The pipeline of a text with its types.
fn typed(alloc: Global, text: &str) -> Result<Typed, OutOfMemory> {
    let Ok(tokens) = lex(alloc, text) else {
        return Err(OutOfMemory);
    };
    let Ok(pipeline) = parse(alloc, tokens.as_slice()) else {
        return Err(OutOfMemory);
    };
    match check(alloc, pipeline) {
        Ok(typed) => Ok(typed),
        Err(_) => Err(OutOfMemory),
    }
}

// Tells the next event of a machine.
#[tactic(auto, using(crate::proofs::Asked::asked))]
fn next_told(
    alloc: Global,
    code: &Checked,
    machine: &mut Machine,
    all: &mut String,
) -> Result<(), Fail>
    requires ready { machine.old.phase ≡ states.Ready }
    requires belongs { Belongs code.now machine.old }
    ensures { IfOk result (λ _. machine.new.phase ≡ states.Waiting → Belongs code.now machine.new) }
{
    let event = machine.next(code)?;
    event_told(alloc, event, machine.ticks(), all)
}

// Tells an event that came after so many ticks.
fn event_told(alloc: Global, event: Event, ticks: u32, all: &mut String) -> Result<(), Fail> {
    let event = told(alloc, &event)?;
    tell(alloc, event.as_str(), ticks, all)
}

// Tells the next event, and answers it where it asks.
fn turn(
    alloc: Global,
    code: &Checked,
    machine: &mut Machine,
    answer: Answer,
    all: &mut String,
) -> Result<bool, Fail>
    requires ready { machine.old.phase ≡ states.Ready }
    requires belongs { Belongs code.now machine.old }
    ensures ready { IfOk result (λ asked. IsTrue asked → machine.new.phase ≡ states.Ready) }
    ensures belongs { IfOk result (λ asked. IsTrue asked → Belongs code.now machine.new) }
{
    next_told(alloc, code, machine, all)?;
    if machine.state() == MachineState::Waiting {
        machine.answer(answer);
        Ok(true)
    } else {
        Ok(false)
    }
}

// Tells events and gives these answers, as long as the machine asks.
fn answered(
    alloc: Global,
    code: &Checked,
    machine: &mut Machine,
    answers: &str,
    all: &mut String,
) -> Result<bool, Fail>
    requires ready { machine.old.phase ≡ states.Ready }
    requires belongs { Belongs code.now machine.old }
    ensures ready { IfOk result (λ asked. IsTrue asked → machine.new.phase ≡ states.Ready) }
    ensures belongs { IfOk result (λ asked. IsTrue asked → Belongs code.now machine.new) }
{
    for word in answers.split_whitespace() {
        let answer = answer(alloc, word)?;
        if !turn(alloc, code, machine, answer, all)? {
            return Ok(false);
        }
    }
    Ok(true)
}

// The events of a machine with these answers.
fn machine_story(alloc: Global, code: &Checked, task: &Task, answers: &str) -> Result<String, Fail>
    requires { length task.now.args ≡ code.now.params }
{
    let mut runs = Runs::new(alloc);
    let mut machine = Machine::start(alloc, code, task, &mut runs)?;
    let mut all = String::new(alloc);
    if answered(alloc, code, &mut machine, answers, &mut all)? {
        next_told(alloc, code, &mut machine, &mut all)?;
    }
    Ok(all)
}

// The code of a function, where it takes as many arguments.
fn code_at<'a>(codes: &'a [Checked], number: u32, task: &Task) -> Option<&'a Checked>
    ensures { IfSome result (λ code. length task.now.args ≡ code.now.params) }
{
    let number = number as usize;
    if number >= codes.len() {
        return None;
    }
    let code = &codes[number];
    if task.args.as_slice().len() != code.code().params as usize {
        return None;
    }
    Some(code)
}

// What compiled code tells.
fn compiled_story(
    alloc: Global,
    typed: &Typed,
    number: u32,
    task: &Task,
    answers: &str,
) -> Result<String, Fail> {
    let codes = compile(alloc, typed)?;
    match code_at(codes.as_slice(), number, task) {
        Some(code) => machine_story(alloc, code, task, answers),
        None => Ok(String::from_str(alloc, "no code")?),
    }
}

// What the evaluator evaluates to with the first answers, so many.
fn front(
    alloc: Global,
    function: &Function,
    task: &Task,
    answers: &str,
    count: usize,
) -> Result<Evaluated, Fail> {
    let mut front = Vec::new(alloc);
    add_answers(alloc, answers, count, &mut front)?;
    let came = next_of(alloc, function, task.args.as_slice(), front)?;
    Ok(came)
}

// Tells what the evaluator evaluated to, and whether it asks.
fn came_told(alloc: Global, came: &Evaluated, all: &mut String) -> Result<bool, Fail> {
    let event = outcome_told(alloc, &came.outcome)?;
    tell(alloc, event.as_str(), came.after.ticks(), all)?;
    match &came.outcome {
        EvaluatorOutcome::Wants(_) => Ok(true),
        _ => Ok(false),
    }
}

// Tells what the evaluator evaluates to with the first answers, so many, and whether it asks.
fn front_told(
    alloc: Global,
    function: &Function,
    task: &Task,
    answers: &str,
    count: usize,
    all: &mut String,
) -> Result<bool, Fail> {
    let came = front(alloc, function, task, answers, count)?;
    came_told(alloc, &came, all)
}

// Tells what the evaluator evaluates to with each prefix of these answers.
fn fronts_told(
    alloc: Global,
    function: &Function,
    task: &Task,
    answers: &str,
    all: &mut String,
) -> Result<bool, Fail> {
    let mut count: usize = 0;
    for _word in answers.split_whitespace() {
        if !front_told(alloc, function, task, answers, count, all)? {
            return Ok(false);
        }
        count = count.saturating_add(1);
    }
    front_told(alloc, function, task, answers, count, all)
}

// The events of the evaluator with each prefix of these answers.
fn evaluated_story(
    alloc: Global,
    function: &Function,
    task: &Task,
    answers: &str,
) -> Result<String, Fail> {
    let mut all = String::new(alloc);
    let _asks = fronts_told(alloc, function, task, answers, &mut all)?;
    Ok(all)
}

// What the evaluator tells of a function.
fn meant_story(
    alloc: Global,
    typed: &Typed,
    number: u32,
    task: &Task,
    answers: &str,
) -> Result<String, Fail> {
    match typed.pipeline().functions.as_slice().get(number as usize) {
        Some(function) => evaluated_story(alloc, function, task, answers),
        None => Ok(String::from_str(alloc, "no function")?),
    }
}

// What both tell of a task, if it is the same.
fn compared(
    alloc: Global,
    typed: &Typed,
    number: u32,
    task: &Task,
    answers: &str,
) -> Result<String, Fail> {
    let ran = compiled_story(alloc, typed, number, task, answers)?;
    let meant = meant_story(alloc, typed, number, task, answers)?;
    if ran.as_str() == meant.as_str() {
        return Ok(ran);
    }
    Ok(format!(in alloc; "code: {ran} meaning: {meant}")?)
}

// The same, where the pipeline has such a task.
fn told_by_both(alloc: Global, typed: &Typed, task: &Task, answers: &str) -> Result<String, Fail> {
    match typed.find(task) {
        Some(number) => compared(alloc, typed, number, task, answers),
        None => Ok(String::from_str(alloc, "no such task")?),
    }
}

// What both tell of the task `main` of a text, if it is the same.
fn story(alloc: Global, text: &str, args: &str, answers: &str) -> Result<String, Fail> {
    let typed = typed(alloc, text)?;
    let task = main_task(alloc, args)?;
    told_by_both(alloc, &typed, &task, answers)
}

// Both tell this, and the same, of the task `main` of a text.
pub(crate) fn tells(
    rt: &impl Abort,
    alloc: Global,
    text: &str,
    args: &str,
    answers: &str,
    wanted: &str,
) -> Result<(), Fail> {
    let found = story(alloc, text, args, answers)?;
    assert!(rt; found.as_str() == wanted, "{text}: {found}");
    Ok(())
}

// Each text, and what both tell of its task without arguments and answers.
pub(crate) fn tell_alike(
    rt: &impl Abort,
    alloc: Global,
    cases: &[(&str, &str)],
) -> Result<(), Fail> {
    for (text, wanted) in cases {
        tells(rt, alloc, text, "", "", wanted)?;
    }
    Ok(())
}

// Each text with the arguments of its task, and what both tell of it.
pub(crate) fn tell_alike_of(
    rt: &impl Abort,
    alloc: Global,
    cases: &[(&str, &str, &str)],
) -> Result<(), Fail> {
    for (text, args, wanted) in cases {
        tells(rt, alloc, text, args, "", wanted)?;
    }
    Ok(())
}

// Each text with the answers to its task, and what both tell of it.
pub(crate) fn tell_alike_after(
    rt: &impl Abort,
    alloc: Global,
    cases: &[(&str, &str, &str)],
) -> Result<(), Fail> {
    for (text, answers, wanted) in cases {
        tells(rt, alloc, text, "", answers, wanted)?;
    }
    Ok(())
}
