//! The code of each form, instruction by instruction, and forms of many parts.
use pie_base::{OutOfMemory, Text};
use pie_code::{Code, Constant, Each, Instr, Required};
use pie_codegen::compile;
use pie_digest::func_digests;
use pie_lexer::lex;
use pie_parser::parse;
use pie_types::{Typed, check};
use sha2::{Digest, Sha256};
use std::alloc::{AllocError, Global};

// The pipeline of a text with its types.
fn typed(alloc: Global, text: &str) -> Result<Typed, OutOfMemory> {
    let Ok(tokens) = lex(alloc, text) else {
        return Err(OutOfMemory);
    };
    let Ok(pipeline) = parse(alloc, tokens.as_slice()) else {
        return Err(OutOfMemory);
    };
    match check(alloc, pipeline) {
        Ok(typed) => Ok(typed),
        Err(_) => Err(OutOfMemory),
    }
}

fn constant(alloc: Global, constant: Constant) -> Result<String, AllocError> {
    match constant {
        Constant::Unit => String::from_str(alloc, "push unit"),
        Constant::Bool(b) => format!(in alloc; "push {b}"),
        Constant::Int(n) => format!(in alloc; "push {n}"),
        Constant::Null => String::from_str(alloc, "push null"),
        Constant::EmptyList => String::from_str(alloc, "push []"),
        Constant::EmptyTuple => String::from_str(alloc, "push ()"),
    }
}

fn each(alloc: Global, slots: Each) -> Result<String, AllocError> {
    let list = slots.list;
    let at = slots.at;
    let item = slots.item;
    let end = slots.end;
    format!(in alloc; "each {list} {at} {item} {end}")
}

fn required(alloc: Global, task: Required) -> Result<String, AllocError> {
    let func = task.func;
    let count = task.count;
    let how = task.how;
    format!(in alloc; "require {func} {count} {how:?}")
}

// An instruction in words.
fn told(alloc: Global, instr: Instr) -> Result<String, AllocError> {
    match instr {
        Instr::Tick => String::from_str(alloc, "tick"),
        Instr::Push(value) => constant(alloc, value),
        Instr::PushText(n) => format!(in alloc; "text {n}"),
        Instr::Load(slot) => format!(in alloc; "load {slot}"),
        Instr::Store(slot) => format!(in alloc; "store {slot}"),
        Instr::Drop => String::from_str(alloc, "drop"),
        Instr::Unary(operator) => format!(in alloc; "{operator:?}"),
        Instr::Binary(operator) => format!(in alloc; "{operator:?}"),
        Instr::Jump(to) => format!(in alloc; "jump {to}"),
        Instr::JumpIfNot(to) => format!(in alloc; "unless {to}"),
        Instr::Each(slots) => each(alloc, slots),
        Instr::ListPush => String::from_str(alloc, "to list"),
        Instr::TuplePush => String::from_str(alloc, "to tuple"),
        Instr::Proj(n) => format!(in alloc; "item {n}"),
        Instr::Call(which) => format!(in alloc; "call {which:?}"),
        Instr::Observe(what) => format!(in alloc; "{what:?}"),
        Instr::Write => String::from_str(alloc, "write"),
        Instr::Require(task) => required(alloc, task),
        Instr::Fail => String::from_str(alloc, "fail"),
        Instr::Return => String::from_str(alloc, "return"),
    }
}

// Code in words: parameters, slots, the texts, and the instructions.
fn code_told(alloc: Global, code: &Code) -> Result<String, AllocError> {
    let params = code.params;
    let slots = code.slots;
    let mut out = format!(in alloc; "{params}/{slots}")?;
    for text in code.texts.as_slice() {
        out.push_str(" ")?;
        out.push_str(text.as_str())?;
    }
    out.push_str(":")?;
    for instr in code.instrs.as_slice() {
        out.push_str(" ")?;
        let one = told(alloc, *instr)?;
        out.push_str(one.as_str())?;
        out.push_str(";")?;
    }
    Ok(out)
}

// The code of the first function of a text, in words.
fn first_told(alloc: Global, text: &str) -> Result<String, OutOfMemory> {
    let typed = typed(alloc, text)?;
    let codes = compile(alloc, &typed)?;
    match codes.as_slice() {
        [checked, ..] => Ok(code_told(alloc, checked.code())?),
        [] => Err(OutOfMemory),
    }
}

// Whether the first function of a text has this code.
fn gives(alloc: Global, text: &str, wanted: &str) -> bool {
    match first_told(alloc, text) {
        Ok(found) => found.as_str() == wanted,
        Err(_) => false,
    }
}

#[test]
fn each_form_has_its_code(rt: HostRuntime) {
    let alloc = rt.alloc();
    let cases = [
        ("func f() -> int { 1 }", "0/0: tick; push 1; return;"),
        (
            "func f() -> text { \"ab\" }",
            "0/0 ab: tick; text 0; return;",
        ),
        ("func f() -> bool { true }", "0/0: tick; push true; return;"),
        ("func f() -> unit { }", "0/0: push unit; return;"),
        (
            "func f() -> int? { null int }",
            "0/0: tick; push null; return;",
        ),
        (
            "func f() -> [int] { empty int }",
            "0/0: tick; push []; return;",
        ),
        (
            "func f(a: int, b: int) -> int { b }",
            "2/2: tick; load 1; return;",
        ),
        (
            "func f() -> int { 1 + 2 - 3 }",
            "0/0: tick; tick; push 1; tick; push 2; Add; tick; push 3; Sub; return;",
        ),
        (
            "func f() -> bool { true || false }",
            "0/0: tick; tick; push true; Not; unless 8; tick; push false; jump 9; push true; return;",
        ),
        (
            "func f() -> bool { true && false && true }",
            "0/0: tick; tick; push true; unless 10; tick; push false; unless 10; tick; push true; jump 11; push false; return;",
        ),
        (
            "func f() -> bool { 1 < 2 }",
            "0/0: tick; tick; push 1; tick; push 2; Lt; return;",
        ),
        (
            "func f() -> bool { !true }",
            "0/0: tick; tick; push true; Not; return;",
        ),
        (
            "func f() -> int { -1 }",
            "0/0: tick; tick; push 1; Neg; return;",
        ),
        (
            "func f(a: ((int, int), int)) -> int { a.0.1 }",
            "1/1: tick; tick; load 0; item 0; item 1; return;",
        ),
        (
            "func f() -> (int, text) { (1, \"a\") }",
            "0/0 a: tick; push (); tick; push 1; to tuple; tick; text 0; to tuple; return;",
        ),
        (
            "func f() -> [int] { [1, 2] }",
            "0/0: tick; push []; tick; push 1; to list; tick; push 2; to list; return;",
        ),
        (
            "func f(a: [int]) -> [int] { [x for x in a] }",
            "1/4: tick; tick; load 0; store 1; push 0; store 2; push []; each 1 2 3 12; tick; load 3; to list; jump 7; return;",
        ),
        (
            "func f(a: bool) -> int { if a { 1 } else { 2 } }",
            "1/1: tick; tick; load 0; unless 7; tick; push 1; jump 9; tick; push 2; return;",
        ),
        (
            "func f(a: bool) -> unit { if a { } }",
            "1/1: tick; tick; load 0; unless 6; push unit; jump 7; push unit; return;",
        ),
        (
            "func f() -> int { len(\"a\") } func g() -> unit {}",
            "0/0 a: tick; tick; text 0; call Len; return;",
        ),
        (
            "func f() -> int { read_bytes(path(\"a\")); 1 }",
            "0/0 a: tick; tick; tick; text 0; call Path; Read(Raw); drop; tick; push 1; return;",
        ),
        (
            "func f(a: int) -> int { require f(a + 1) }",
            "1/1 f: tick; tick; tick; load 0; tick; push 1; Add; require 0 1 Whole; return;",
        ),
        (
            "func f() -> int { require f() by hash }",
            "0/0 f: tick; require 0 0 Hashed; return;",
        ),
        (
            "func f() -> int { run f(); 1 }",
            "0/0 f: tick; require 0 0 Ran; drop; tick; push 1; return;",
        ),
        (
            "func f() -> text? { read(path(\"a\") by mark) }",
            "0/0 a: tick; tick; tick; text 0; call Path; Read(Mark); return;",
        ),
        (
            "func f() -> unit { write(path(\"out/a\"), \"b\") }",
            "0/0 out/a b: tick; tick; tick; text 0; call Path; tick; text 1; write; return;",
        ),
        (
            "func f() -> int { fail int(\"a\") }",
            "0/0 a: tick; tick; text 0; push true; unless 6; fail; return;",
        ),
    ];
    for (text, wanted) in cases {
        if let Ok(found) = first_told(alloc, text) {
            let found = found.as_str();
            assert!(rt; found == wanted, "{text}: {found}");
        }
        assert!(rt; gives(alloc, text, wanted), "{text}");
    }
}

// A text of parts, each so many times.
fn repeated(alloc: Global, parts: &[(&str, u32)]) -> Result<String, AllocError> {
    let mut out = String::new(alloc);
    for (part, times) in parts {
        for _ in 0..*times {
            out.push_str(part)?;
        }
    }
    Ok(out)
}

// How many instructions and texts the first function of a text of parts has.
fn sizes(alloc: Global, parts: &[(&str, u32)]) -> Result<(usize, usize), OutOfMemory> {
    let text = repeated(alloc, parts)?;
    let typed = typed(alloc, text.as_str())?;
    let codes = compile(alloc, &typed)?;
    match codes.as_slice() {
        [checked, ..] => {
            let code = checked.code();
            Ok((code.instrs.len(), code.texts.len()))
        }
        [] => Err(OutOfMemory),
    }
}

// Whether a function of 100,000 parts has so many instructions and texts.
fn has_sizes(alloc: Global, parts: [&str; 3], wanted: (usize, usize)) -> bool {
    let [start, part, end] = parts;
    let parts = [(start, 1), (part, 99_999), (end, 1)];
    match sizes(alloc, parts.as_slice()) {
        Ok(found) => found.0 == wanted.0 && found.1 == wanted.1,
        Err(_) => false,
    }
}

#[test]
fn a_sum_of_100_000_operands_is_compiled(rt: HostRuntime) {
    let parts = ["func f() -> int { 1", " + 1", " }"];
    assert!(rt; has_sizes(rt.alloc(), parts, (300_001, 0)));
}

#[test]
fn an_or_of_100_000_operands_is_compiled(rt: HostRuntime) {
    let parts = ["func f() -> bool { true", " || true", " }"];
    assert!(rt; has_sizes(rt.alloc(), parts, (400_002, 0)));
}

#[test]
fn an_and_of_100_000_operands_is_compiled(rt: HostRuntime) {
    let parts = ["func f() -> bool { true", " && true", " }"];
    assert!(rt; has_sizes(rt.alloc(), parts, (300_003, 0)));
}

#[test]
fn a_list_of_100_000_texts_is_compiled(rt: HostRuntime) {
    let parts = ["func f() -> [text] { [\"a\"", ", \"a\"", "] }"];
    assert!(rt; has_sizes(rt.alloc(), parts, (300_003, 100_000)));
}

#[test]
fn a_block_of_100_000_lines_is_compiled(rt: HostRuntime) {
    let parts = ["func f() -> int { 1;", " 1;", " 1 }"];
    assert!(rt; has_sizes(rt.alloc(), parts, (300_003, 0)));
}

// The names and the digests of a text's functions.
fn digests(alloc: Global, text: &str) -> Result<Vec<(Text, [u8; 32])>, OutOfMemory> {
    let Ok(tokens) = lex(alloc, text) else {
        return Err(OutOfMemory);
    };
    func_digests(alloc, text, tokens.as_slice())
}

// Whether the functions of a text have these names, and digests of these spellings.
fn digested(alloc: Global, text: &str, wanted: &[(&str, &str)]) -> bool {
    let Ok(found) = digests(alloc, text) else {
        return false;
    };
    if found.len() != wanted.len() {
        return false;
    }
    for i in 0..found.len() {
        let (name, spelling) = wanted[i];
        let digest = Sha256::digest(spelling.as_bytes());
        if found[i].0.as_str() != name || found[i].1 != digest {
            return false;
        }
    }
    true
}

#[test]
fn a_digest_is_that_of_spellings_joined_by_a_space(rt: HostRuntime) {
    let alloc = rt.alloc();
    let cases = [
        ("func f()->int{1}", "f", "func f ( ) -> int { 1 }"),
        (
            "// a note\nfunc  f ( ) // and one\n -> text { \"a b\" } // the end",
            "f",
            "func f ( ) -> text { \"a b\" }",
        ),
    ];
    for (text, name, spelling) in cases {
        let wanted = [(name, spelling)];
        assert!(rt; digested(alloc, text, wanted.as_slice()), "{text}");
    }
}

#[test]
fn no_function_has_no_digest(rt: HostRuntime) {
    let wanted = [("", "")];
    assert!(rt; digested(rt.alloc(), "", &wanted[..0]));
}

#[test]
fn a_shorter_name_has_its_digest_first(rt: HostRuntime) {
    let text = "func aa()->unit{} func b()->unit{} func a()->unit{}";
    let wanted = [
        ("a", "func a ( ) -> unit { }"),
        ("b", "func b ( ) -> unit { }"),
        ("aa", "func aa ( ) -> unit { }"),
    ];
    assert!(rt; digested(rt.alloc(), text, wanted.as_slice()));
}
