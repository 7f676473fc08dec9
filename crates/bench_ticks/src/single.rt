//! One function, from its text to the first event of a machine.
ghost use Rattle.std.specs.Prelude.{◌≡◌, ◌<◌, length, IfSome};

use pie_base::{FaultKind, OutOfMemory, Text};
use pie_code::Checked;
use pie_codegen::compile;
use pie_lexer::{LexError, lex};
use pie_parser::{ParseError, parse};
use pie_types::{TypeError, Typed, check};
use pie_value::{Event, Items, Task, show};
use pie_vm::{Machine, Runs};
use std::alloc::Global;

/// What a task evaluated to.
#[derive(Drop)]
pub(crate) struct FirstStop {
    /// Its output as it is printed, its fault where that is one of limits, or `effect`.
    pub(crate) what: String,
    pub(crate) ticks: u32,
}

/// Why nothing ran.
#[derive(Clone, Copy)]
pub(crate) enum Problem {
    /// The text is no typed pipeline.
    Refused,
    /// No function `main` without parameters is there.
    NoMain,
    OutOfMemory,
}

impl Problem {
    pub(crate) fn name(self) -> &'static str {
        match self {
            Problem::Refused => "refused",
            Problem::NoMain => "no main()",
            Problem::OutOfMemory => "out of memory",
        }
    }
}

impl From<OutOfMemory> for Problem {
    fn from(_: OutOfMemory) -> Self {
        Problem::OutOfMemory
    }
}

impl From<LexError> for Problem {
    fn from(_: LexError) -> Self {
        Problem::Refused
    }
}

impl From<ParseError> for Problem {
    fn from(_: ParseError) -> Self {
        Problem::Refused
    }
}

impl From<TypeError> for Problem {
    fn from(_: TypeError) -> Self {
        Problem::Refused
    }
}

/// What `main()` of a pipeline gives, up to its first effect.
pub(crate) fn evaluated_to(alloc: Global, text: &str) -> Result<FirstStop, Problem> {
    let tokens = lex(alloc, text)?;
    let typed = check(alloc, parse(alloc, tokens.as_slice())?)?;
    let codes = compile(alloc, &typed)?;
    let task = Task {
        func: Text::new(alloc, "main")?,
        args: Items::new(),
    };
    match code_of(&typed, codes.as_slice(), &task) {
        Some(code) => Ok(ran(alloc, code, &task)?),
        None => Err(Problem::NoMain),
    }
}

// The code of a task's function, where it takes as many arguments.
fn code_of<'a>(typed: &Typed, codes: &'a [Checked], task: &Task) -> Option<&'a Checked>
    ensures { IfSome result (λ code. length task.now.args ≡ code.now.params) }
{
    let number = typed.find(task)? as usize;
    if number >= codes.len() {
        return None;
    }
    let code = &codes[number];
    if task.args.as_slice().len() != code.code().params as usize {
        return None;
    }
    Some(code)
}

// What a machine gives at its first event.
fn ran(alloc: Global, code: &Checked, task: &Task) -> Result<FirstStop, OutOfMemory>
    requires { length task.now.args ≡ code.now.params }
{
    let mut runs = Runs::new(alloc);
    let mut machine = Machine::start(alloc, code, task, &mut runs)?;
    let event = machine.next(code)?;
    let what = told(alloc, &event)?;
    Ok(FirstStop {
        what,
        ticks: machine.ticks(),
    })
}

// An event, in words.
fn told(alloc: Global, event: &Event) -> Result<String, OutOfMemory> {
    match event {
        Event::Done(value) => Ok(show(alloc, value)?),
        Event::Fail(FaultKind::Budget) => Ok(String::from_str(alloc, "Budget")?),
        Event::Fail(FaultKind::Big) => Ok(String::from_str(alloc, "Big")?),
        Event::Fail(_) => Ok(String::from_str(alloc, "another fault")?),
        _ => Ok(String::from_str(alloc, "effect")?),
    }
}
