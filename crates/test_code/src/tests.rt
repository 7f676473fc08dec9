//! Which code is accepted, and the place of each refusal. Code is written as words, with a number behind an `@`.
use pie_code::{Code, CodeError, Constant, Each, Instr, Required, checks, verify};
use pie_value::How;
use std::alloc::{AllocError, Global};
use std::process::Abort;
use std::test::Fail;

fn loop_to(end: u32) -> Instr {
    Instr::Each(Each {
        list: 0,
        at: 1,
        item: 2,
        end,
    })
}

fn require(count: u16) -> Instr {
    Instr::Require(Required {
        func: 0,
        count,
        how: How::Whole,
    })
}

fn instr_of(name: &str, n: u16) -> Instr {
    match name {
        "tick" => Instr::Tick,
        "unit" => Instr::Push(Constant::Unit),
        "text" => Instr::PushText(n as u32),
        "load" => Instr::Load(n),
        "store" => Instr::Store(n),
        "drop" => Instr::Drop,
        "jump" => Instr::Jump(n as u32),
        "branch" => Instr::JumpIfNot(n as u32),
        "each" => loop_to(n as u32),
        "require" => require(n),
        "fail" => Instr::Fail,
        _ => Instr::Return,
    }
}

fn instr(word: &str) -> Instr {
    match word.split_once('@') {
        Some((name, digits)) => instr_of(name, digits.parse::<u16>().unwrap_or(0)),
        None => instr_of(word, 0),
    }
}

// Code without texts, with so many slots.
fn code_of(alloc: Global, slots: u16, text: &str) -> Result<Code, AllocError> {
    let mut instrs = Vec::new(alloc);
    for word in text.split_whitespace() {
        instrs.push(instr(word))?;
    }
    Ok(Code {
        params: 0,
        slots,
        texts: Vec::new(alloc),
        instrs,
    })
}

fn answer(alloc: Global, code: Code) -> Option<CodeError> {
    match verify(alloc, code) {
        Ok(_) => None,
        Err(error) => Some(error),
    }
}

fn each_answers(
    rt: &impl Abort,
    alloc: Global,
    cases: &[(&str, Option<CodeError>)],
) -> Result<(), Fail> {
    for (text, wanted) in cases {
        let code = code_of(alloc, 3, text)?;
        assert!(rt; answer(alloc, code) == *wanted, "{text}");
    }
    Ok(())
}

#[test]
fn heights_are_one_on_all_ways(rt: HostRuntime) -> Result<(), Fail> {
    let cases = [
        ("unit return", None),
        ("drop return", Some(CodeError::Height(0))),
        ("return", Some(CodeError::Height(0))),
        ("unit unit return", Some(CodeError::Height(2))),
        ("unit branch@4 unit return unit return", None),
        ("unit branch@3 unit unit return", Some(CodeError::Height(3))),
        ("unit return drop unit return", Some(CodeError::Height(2))),
        ("unit jump@4 unit unit return", None),
        ("each@5 tick unit drop jump@0 unit return", None),
        (
            "each@4 tick unit jump@0 unit return",
            Some(CodeError::Height(0)),
        ),
        (
            "unit each@5 tick drop jump@1 return",
            Some(CodeError::Height(1)),
        ),
        (
            "each@7 tick each@6 tick unit jump@2 jump@0 unit return",
            Some(CodeError::Height(0)),
        ),
        (
            "each@10 tick unit branch@9 each@8 tick unit jump@4 fail jump@0 unit return",
            Some(CodeError::Height(4)),
        ),
        ("unit require@2 return", Some(CodeError::Height(1))),
    ];
    each_answers(&rt, rt.alloc(), &cases)
}

#[test]
fn jumps_stay_in_the_code_and_go_back_to_loops_alone(rt: HostRuntime) -> Result<(), Fail> {
    let cases = [
        ("jump@9 return", Some(CodeError::Jump(0))),
        ("unit branch@3 return", Some(CodeError::Jump(1))),
        ("jump@0", Some(CodeError::Jump(0))),
        ("tick jump@0", Some(CodeError::Jump(1))),
        ("each@2 jump@0 unit return", Some(CodeError::Jump(0))),
        ("each@0 tick unit return", Some(CodeError::Jump(0))),
        ("each@4 tick unit return", Some(CodeError::Jump(0))),
        ("each@2 tick jump@0", Some(CodeError::Jump(0))),
        ("each@2 tick unit drop jump@0", Some(CodeError::Jump(0))),
        ("each@3 tick jump@0 unit return", None),
    ];
    each_answers(&rt, rt.alloc(), &cases)
}

#[test]
fn slots_and_texts_are_there(rt: HostRuntime) -> Result<(), Fail> {
    let alloc = rt.alloc();
    let cases = [
        ("load@2 return", None),
        ("load@3 return", Some(CodeError::Slot(0))),
        ("unit unit store@3 return", Some(CodeError::Slot(2))),
        ("text@0 return", Some(CodeError::Slot(0))),
        ("require@0 return", Some(CodeError::Slot(0))),
    ];
    each_answers(&rt, alloc, &cases)?;
    for (params, slots, text, wanted) in [
        (0, 2, "each@2 tick unit return", Some(CodeError::Slot(0))),
        (3, 3, "unit return", None),
        (4, 3, "unit return", Some(CodeError::Slot(0))),
        (1, 0, "", Some(CodeError::Slot(0))),
    ] {
        let mut code = code_of(alloc, slots, text)?;
        code.params = params;
        assert!(&rt; answer(alloc, code) == wanted, "{params} of {slots}");
    }
    Ok(())
}

#[test]
fn the_least_place_is_told_and_there_the_first_kind(rt: HostRuntime) -> Result<(), Fail> {
    let cases = [
        ("", Some(CodeError::NoEnd)),
        ("unit drop", Some(CodeError::NoEnd)),
        ("unit store@3", Some(CodeError::Slot(1))),
        ("jump@9 load@9 return", Some(CodeError::Jump(0))),
        ("load@9 jump@9", Some(CodeError::Slot(0))),
        ("drop jump@9", Some(CodeError::Height(0))),
        ("load@9 drop return", Some(CodeError::Slot(0))),
        ("store@9 unit return", Some(CodeError::Height(0))),
        ("branch@9 unit return", Some(CodeError::Jump(0))),
        ("jump@1 jump@0", Some(CodeError::Jump(1))),
    ];
    each_answers(&rt, rt.alloc(), &cases)
}

#[test]
fn checked_code_is_the_code_that_was_tested(rt: HostRuntime) -> Result<(), Fail> {
    let alloc = rt.alloc();
    let code = code_of(alloc, 7, "unit return")?;
    let Ok(checked) = verify(alloc, code) else {
        panic!(&rt; "refused");
    };
    assert_eq!(&rt; checked.code().slots, 7);
    assert_eq!(&rt; checked.code().instrs.len(), 2);
    Ok(())
}

#[test]
fn checks_tells_of_jumps_and_slots_alone(rt: HostRuntime) -> Result<(), Fail> {
    let code = code_of(rt.alloc(), 3, "each@3 drop load@3 jump@0 drop")?;
    for (at, wanted) in [(0, false), (1, true), (2, false), (3, true), (4, true)] {
        if at < code.instrs.len() {
            assert!(&rt; checks(&code, at) == wanted, "at {at}");
        }
    }
    Ok(())
}

// So many loops, one after another.
fn loops(instrs: &mut Vec<Instr>, count: u32) -> Result<(), AllocError> {
    for n in 0..count {
        let at = n.saturating_mul(3);
        instrs.push(loop_to(at.saturating_add(3)))?;
        instrs.push(Instr::Tick)?;
        instrs.push(Instr::Jump(at))?;
    }
    Ok(())
}

// So often the same instruction.
fn repeated(instrs: &mut Vec<Instr>, instr: Instr, count: u32) -> Result<(), AllocError> {
    for _ in 0..count {
        instrs.push(instr)?;
    }
    Ok(())
}

#[test]
fn long_code_is_accepted(rt: HostRuntime) -> Result<(), Fail> {
    let alloc = rt.alloc();
    let mut code = code_of(alloc, 3, "")?;
    loops(&mut code.instrs, 100_000)?;
    repeated(&mut code.instrs, instr("unit"), 350_000)?;
    repeated(&mut code.instrs, Instr::Drop, 349_999)?;
    code.instrs.push(Instr::Return)?;
    assert!(&rt; answer(alloc, code) == None);
    Ok(())
}

// A loop in a loop leaves a value in each turn, and so many tasks take values before the outer loop goes on.
fn growing(alloc: Global, tasks: u32) -> Result<Code, AllocError> {
    let mut code = code_of(
        alloc,
        3,
        "each@0 tick unit branch@4 each@8 tick unit jump@4",
    )?;
    repeated(&mut code.instrs, require(65_535), tasks)?;
    code.instrs.push(Instr::Jump(0))?;
    code.instrs.push(instr("unit"))?;
    code.instrs.push(Instr::Return)?;
    if let Some(first) = code.instrs.first_mut() {
        *first = loop_to(tasks.saturating_add(9));
    }
    Ok(code)
}

#[test]
fn a_million_further_heights_are_looked_at(rt: HostRuntime) -> Result<(), Fail> {
    let alloc = rt.alloc();
    for (tasks, wanted) in [
        (0, CodeError::Height(0)),
        (1, CodeError::Height(0)),
        (20, CodeError::OutOfMemory),
    ] {
        let code = growing(alloc, tasks)?;
        assert!(&rt; answer(alloc, code) == Some(wanted), "{tasks} tasks");
    }
    Ok(())
}
