//! The machine over code that is written by hand, from event to event.
//! Code is written as words, with a number behind an `@`; a word behind a `'` is a text.
ghost use Rattle.std.specs.Prelude.{◌≡◌, length, IsTrue, IfOk};
ghost use Rattle.pie_vm.specs.Machines.{Belongs};

use pie_base::{FaultKind, Path, Text};
use pie_code::{Checked, Code, Constant, Each, Instr, Required, verify};
use pie_operators::{Binary, Observation, Unary};
use pie_value::{Answer, Blob, Builtin, By, Event, How, Items, Task, Value, show};
use pie_vm::{Machine, MachineState, Runs};
use std::alloc::Global;
use std::process::Abort;
use std::test::Fail;

// A loop whose slots are the first three or the next three.
fn loop_at(list: u16, end: u16) -> Instr {
    Instr::Each(Each {
        list,
        at: list.saturating_add(1),
        item: list.saturating_add(2),
        end: end as u32,
    })
}

fn require(how: How, count: u16) -> Instr {
    Instr::Require(Required {
        func: 0,
        count,
        how,
    })
}

fn numbered(name: &str, n: u16) -> Instr {
    match name {
        "int" => Instr::Push(Constant::Int(n as i64)),
        "load" => Instr::Load(n),
        "store" => Instr::Store(n),
        "jump" => Instr::Jump(n as u32),
        "branch" => Instr::JumpIfNot(n as u32),
        "each" => loop_at(0, n),
        "inner" => loop_at(3, n),
        "item" => Instr::Proj(n as u32),
        "whole" => require(How::Whole, n),
        "hashed" => require(How::Hashed, n),
        _ => require(How::Ran, n),
    }
}

fn operation(name: &str) -> Option<Instr> {
    match name {
        "neg" => Some(Instr::Unary(Unary::Neg)),
        "not" => Some(Instr::Unary(Unary::Not)),
        "add" => Some(Instr::Binary(Binary::Add)),
        "sub" => Some(Instr::Binary(Binary::Sub)),
        "mul" => Some(Instr::Binary(Binary::Mul)),
        "div" => Some(Instr::Binary(Binary::Div)),
        "push" => Some(Instr::ListPush),
        "pair" => Some(Instr::TuplePush),
        "path" => Some(Instr::Call(Builtin::Path)),
        "range" => Some(Instr::Call(Builtin::Range)),
        "len" => Some(Instr::Call(Builtin::Len)),
        "find" => Some(Instr::Call(Builtin::Find)),
        "get" => Some(Instr::Call(Builtin::Get)),
        "to_bytes" => Some(Instr::Call(Builtin::ToBytes)),
        _ => None,
    }
}

fn plain(name: &str) -> Instr {
    match name {
        "tick" => Instr::Tick,
        "unit" => Instr::Push(Constant::Unit),
        "null" => Instr::Push(Constant::Null),
        "true" => Instr::Push(Constant::Bool(true)),
        "false" => Instr::Push(Constant::Bool(false)),
        "list" => Instr::Push(Constant::EmptyList),
        "tuple" => Instr::Push(Constant::EmptyTuple),
        "drop" => Instr::Drop,
        "exists" => Instr::Observe(Observation::Exists),
        "read" => Instr::Observe(Observation::Read(By::Hash)),
        "mark" => Instr::Observe(Observation::Read(By::Mark)),
        "raw" => Instr::Observe(Observation::Read(By::Raw)),
        "digest" => Instr::Observe(Observation::Digest),
        "entries" => Instr::Observe(Observation::List),
        "write" => Instr::Write,
        "fail" => Instr::Fail,
        _ => Instr::Return,
    }
}

pub(crate) fn instr(word: &str) -> Instr {
    match word.split_once('@') {
        Some((name, digits)) => numbered(name, digits.parse::<u16>().unwrap_or(0)),
        None => operation(word).unwrap_or(plain(word)),
    }
}

// A word's instruction behind the others.
fn add_word(
    alloc: Global,
    texts: &mut Vec<Text>,
    instrs: &mut Vec<Instr>,
    word: &str,
) -> Result<(), Fail> {
    match word.strip_prefix("'") {
        Some(text) => {
            let number = u32::try_from(texts.len()).unwrap_or(0);
            instrs.push(Instr::PushText(number))?;
            texts.push(Text::new(alloc, text)?)?;
        }
        None => instrs.push(instr(word))?,
    }
    Ok(())
}

// Code with eight slots and no parameter. Its first text is `f`, the function that tasks are required of.
fn checked(alloc: Global, words: &str) -> Result<Checked, Fail>
    ensures { IfOk result (λ code. code.params ≡ 0) }
{
    let mut texts = vec![in alloc; Text::new(alloc, "f")?]?;
    let mut instrs = Vec::new(alloc);
    for word in words.split_whitespace() {
        add_word(alloc, &mut texts, &mut instrs, word)?;
    }
    let code = Code {
        params: 0,
        slots: 8,
        texts,
        instrs,
    };
    Ok(verify(alloc, code)?)
}

fn fault_name(fault: &FaultKind) -> &'static str {
    match fault {
        FaultKind::BadWrite => "BadWrite",
        FaultKind::WroteTwice => "WroteTwice",
        FaultKind::ReadThenWrite => "ReadThenWrite",
        FaultKind::Clash => "Clash",
        FaultKind::Budget => "Budget",
        FaultKind::Big => "Big",
        FaultKind::Zero => "Zero",
        FaultKind::Null => "Null",
        FaultKind::Said(_) => "Said",
        FaultKind::BadList => "BadList",
        FaultKind::Unknown => "Unknown",
        _ => "another",
    }
}

fn way(how: How) -> &'static str {
    match how {
        How::Whole => "whole",
        How::Hashed => "hashed",
        How::Ran => "ran",
    }
}

// An event as text. Of a required task the number of its arguments is told.
fn told(alloc: Global, event: &Event) -> Result<String, Fail> {
    match event {
        Event::Exists(path) => Ok(format!(in alloc; "exists {}", path.as_str())?),
        Event::Read(path, By::Mark) => Ok(format!(in alloc; "read {} by mark", path.as_str())?),
        Event::Read(path, _) => Ok(format!(in alloc; "read {}", path.as_str())?),
        Event::Digest(path) => Ok(format!(in alloc; "digest {}", path.as_str())?),
        Event::List(path) => Ok(format!(in alloc; "list {}", path.as_str())?),
        Event::Write(path, bytes) => {
            let bytes = show(alloc, &Value::Bytes(bytes.copy()?))?;
            Ok(format!(in alloc; "write {} {bytes}", path.as_str())?)
        }
        Event::Require(task, how) => {
            let count = task.args.as_slice().len();
            Ok(format!(in alloc; "{} of {count} {}", task.func.as_str(), way(*how))?)
        }
        Event::Done(value) => Ok(format!(in alloc; "done {}", show(alloc, value)?)?),
        Event::Fail(kind) => Ok(format!(in alloc; "fail {}", fault_name(kind))?),
    }
}

// Puts an event as text behind others.
fn put_told(alloc: Global, event: &Event, all: &mut String) -> Result<(), Fail> {
    let event = told(alloc, event)?;
    all.push_str(event.as_str())?;
    Ok(())
}

// An answer by its name.
fn answer(alloc: Global, name: &str) -> Result<Answer, Fail> {
    match name {
        "flag" => Ok(Answer::Flag(true)),
        "file" => Ok(Answer::Bytes(Some(Blob::new(b"1".as_slice().to_vec(alloc)?)))),
        "absent" => Ok(Answer::Bytes(None)),
        "digest" => Ok(Answer::Digest(None)),
        "entries" => {
            let mut entries = Items::new();
            entries.push(alloc, Value::Path(Path::read(alloc, "src/a")?))?;
            Ok(Answer::Entries(entries))
        }
        "wrote" => Ok(Answer::Wrote),
        "output" => Ok(Answer::Output(Value::Int(5))),
        "ran" => Ok(Answer::Ran),
        _ => Ok(Answer::Clash),
    }
}

// Tells the next event.
#[tactic(auto, using(crate::proofs::Asked::asked))]
fn next_told(
    alloc: Global,
    code: &Checked,
    machine: &mut Machine,
    all: &mut String,
) -> Result<(), Fail>
    requires ready { machine.old.phase ≡ MachineState.Ready }
    requires belongs { Belongs code.now machine.old }
    ensures { IfOk result (λ _. machine.new.phase ≡ MachineState.Waiting → Belongs code.now machine.new) }
{
    let event = machine.next(code)?;
    put_told(alloc, &event, all)
}

// Tells the next event, and answers it where it asks.
fn turn(
    alloc: Global,
    code: &Checked,
    machine: &mut Machine,
    name: &str,
    all: &mut String,
) -> Result<bool, Fail>
    requires ready { machine.old.phase ≡ MachineState.Ready }
    requires belongs { Belongs code.now machine.old }
    ensures ready { IfOk result (λ asked. IsTrue asked → machine.new.phase ≡ MachineState.Ready) }
    ensures belongs { IfOk result (λ asked. IsTrue asked → Belongs code.now machine.new) }
{
    next_told(alloc, code, machine, all)?;
    all.push_str("; ")?;
    if machine.state() == MachineState::Waiting {
        let answer = answer(alloc, name)?;
        machine.answer(answer);
        Ok(true)
    } else {
        Ok(false)
    }
}

// Tells events and gives these answers, as long as the machine asks.
fn answered(
    alloc: Global,
    code: &Checked,
    machine: &mut Machine,
    answers: &str,
    all: &mut String,
) -> Result<bool, Fail>
    requires ready { machine.old.phase ≡ MachineState.Ready }
    requires belongs { Belongs code.now machine.old }
    ensures ready { IfOk result (λ asked. IsTrue asked → machine.new.phase ≡ MachineState.Ready) }
    ensures belongs { IfOk result (λ asked. IsTrue asked → Belongs code.now machine.new) }
{
    for name in answers.split_whitespace() {
        if !turn(alloc, code, machine, name, all)? {
            return Ok(false);
        }
    }
    Ok(true)
}

// Tells the last event, and how many ticks were counted up to it.
fn end(alloc: Global, code: &Checked, machine: &mut Machine, all: &mut String) -> Result<(), Fail>
    requires ready { machine.old.phase ≡ MachineState.Ready }
    requires belongs { Belongs code.now machine.old }
{
    next_told(alloc, code, machine, all)?;
    let ticks = format!(in alloc; " at {}", machine.ticks())?;
    all.push_str(ticks.as_str())?;
    Ok(())
}

// The events with these answers, and how many ticks were counted up to the last.
fn story(
    alloc: Global,
    code: &Checked,
    machine: &mut Machine,
    answers: &str,
) -> Result<String, Fail>
    requires ready { machine.old.phase ≡ MachineState.Ready }
    requires belongs { Belongs code.now machine.old }
{
    let mut all = String::new(alloc);
    if answered(alloc, code, machine, answers, &mut all)? {
        end(alloc, code, machine, &mut all)?;
    }
    Ok(all)
}

// What a task does that has this code, among these runs.
pub(crate) fn run_of(
    alloc: Global,
    code: &Checked,
    task: &Task,
    runs: &mut Runs,
    answers: &str,
) -> Result<String, Fail>
    requires { length task.now.args ≡ code.now.params }
{
    let mut machine = Machine::start(alloc, code, task, runs)?;
    story(alloc, code, &mut machine, answers)
}

// The task `main` without arguments.
fn main_task(alloc: Global) -> Result<Task, Fail>
    ensures { IfOk result (λ task. length task.args ≡ 0) }
{
    let func = Text::new(alloc, "main")?;
    let args = Items::new();
    Ok(Task { func, args })
}

// What a task without arguments does that has this code.
fn run(alloc: Global, words: &str, answers: &str) -> Result<String, Fail> {
    let task = main_task(alloc)?;
    let code = checked(alloc, words)?;
    run_of(alloc, &code, &task, &mut Runs::new(alloc), answers)
}

// A task with this code and these answers does what is wanted.
pub(crate) fn does(
    rt: &impl Abort,
    alloc: Global,
    words: &str,
    answers: &str,
    wanted: &str,
) -> Result<(), Fail> {
    let found = run(alloc, words, answers)?;
    assert!(rt; found.as_str() == wanted, "{words}: {found}");
    Ok(())
}

// Each code, and what a task does that has it and asks nothing.
pub(crate) fn each_does(
    rt: &impl Abort,
    alloc: Global,
    cases: &[(&str, &str)],
) -> Result<(), Fail> {
    for (words, wanted) in cases {
        does(rt, alloc, words, "", wanted)?;
    }
    Ok(())
}

const INSTRUCTIONS: &[(&str, &str)] = &[
    ("int@7 int@2 sub return", "done 5 at 0"),
    ("int@7 neg return", "done -7 at 0"),
    ("true not return", "done false at 0"),
    ("int@1 int@0 div return", "fail Zero at 0"),
    ("int@1 unit add return", "fail Unknown at 0"),
    ("'ab 'b find return", "done 1 at 0"),
    ("null get return", "fail Null at 0"),
    ("list 'a push null push return", "done [\"a\", null] at 0"),
    ("unit 'a push return", "fail Unknown at 0"),
    ("tuple int@1 pair 'a pair return", "done (1, \"a\") at 0"),
    ("tuple int@1 pair 'a pair item@1 return", "done \"a\" at 0"),
    ("tuple item@0 return", "fail Unknown at 0"),
    ("load@7 return", "done unit at 0"),
    ("int@1 store@7 int@2 store@6 load@7 return", "done 1 at 0"),
    ("int@1 int@2 drop return", "done 1 at 0"),
    ("true branch@4 int@1 return int@2 return", "done 1 at 0"),
    ("false branch@4 int@1 return int@2 return", "done 2 at 0"),
    (
        "null branch@4 int@1 return int@2 return",
        "fail Unknown at 0",
    ),
    ("int@1 jump@3 unit return", "done 1 at 0"),
    ("tick int@1 tick return", "done 1 at 2"),
    ("tick 'no fail", "fail Said at 1"),
    ("int@1 fail", "fail Unknown at 0"),
];

#[test]
fn an_instruction_works_on_the_stack(rt: HostRuntime) -> Result<(), Fail> {
    each_does(&rt, rt.alloc(), INSTRUCTIONS)
}
