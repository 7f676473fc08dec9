//! What is accepted, what is refused and where, and which tasks a pipeline has.
use pie_base::Text;
use pie_lexer::lex;
use pie_parser::parse;
use pie_types::{TypeError, TypeFault, TypeKind, Typed, check};
use pie_value::{Items, Task, Ty, Value};
use std::alloc::{AllocError, Global};

// A type as it is written, at most so deep.
#[cycle(show)]
fn show(out: &mut String, alloc: Global, ty: &Ty, depth: u32) -> Result<(), AllocError> {
    if depth == 0 {
        return Ok(());
    }
    match ty {
        Ty::Unit => out.push_str("unit"),
        Ty::Bool => out.push_str("bool"),
        Ty::Int => out.push_str("int"),
        Ty::Text => out.push_str("text"),
        Ty::Path => out.push_str("path"),
        Ty::Bytes => out.push_str("bytes"),
        Ty::List(item) => {
            out.push_str("[")?;
            show(out, alloc, item.get(), depth - 1)?;
            out.push_str("]")
        }
        Ty::Tuple(parts) => {
            out.push_str("(")?;
            show_each(out, alloc, parts.as_slice(), depth - 1)?;
            out.push_str(")")
        }
        Ty::Nullable(plain) => {
            show(out, alloc, plain.get(), depth - 1)?;
            out.push_str("?")
        }
    }
}

// Types with commas between them.
#[cycle(show)]
fn show_each(out: &mut String, alloc: Global, types: &[Ty], depth: u32) -> Result<(), AllocError> {
    for i in 0..types.len() {
        if i > 0 {
            out.push_str(",")?;
        }
        show(out, alloc, &types[i], depth)?;
    }
    Ok(())
}

fn kind_name(kind: &TypeKind) -> &'static str {
    match kind {
        TypeKind::UnknownName => "UnknownName",
        TypeKind::UnknownFunction => "UnknownFunction",
        TypeKind::Mismatch(_, _) => "Mismatch",
        TypeKind::Arity => "Arity",
        TypeKind::Duplicate => "Duplicate",
        TypeKind::TooManyNames => "TooManyNames",
    }
}

// A refusal: its name, its place and the types that it names.
fn told(alloc: Global, fault: &TypeFault) -> Result<String, AllocError> {
    let name = kind_name(&fault.kind);
    let at = fault.at;
    let end = fault.end;
    let mut out = format!(in alloc; "{name} {at} {end}")?;
    if let TypeKind::Mismatch(wanted, found) = &fault.kind {
        out.push_str(" ")?;
        show(&mut out, alloc, wanted, 9)?;
        out.push_str(" ")?;
        show(&mut out, alloc, found, 9)?;
    }
    Ok(out)
}

// The pipeline of a text with its types.
fn typed(alloc: Global, text: &str) -> Result<Typed, TypeError> {
    let Ok(tokens) = lex(alloc, text) else {
        return Err(TypeError::OutOfMemory);
    };
    match parse(alloc, tokens.as_slice()) {
        Ok(pipeline) => check(alloc, pipeline),
        Err(_) => Err(TypeError::OutOfMemory),
    }
}

// The answer to a text.
fn answer(alloc: Global, text: &str) -> Result<String, AllocError> {
    match typed(alloc, text) {
        Ok(_) => String::from_str(alloc, "typed"),
        Err(TypeError::Fault(fault)) => told(alloc, &fault),
        Err(TypeError::OutOfMemory) => String::from_str(alloc, "out of memory"),
    }
}

// Whether the answer to a text is this one.
fn answers(alloc: Global, text: &str, wanted: &str) -> bool {
    match answer(alloc, text) {
        Ok(found) => found.as_str() == wanted,
        Err(_) => false,
    }
}

#[test]
fn each_form_refuses_what_has_no_type(rt: HostRuntime) {
    let alloc = rt.alloc();
    let cases = [
        ("func f() -> int { x }", "UnknownName 18 19"),
        ("func f() -> int { null foo; 1 }", "UnknownName 23 26"),
        ("func f() -> int { empty [foo]; 1 }", "UnknownName 25 28"),
        ("func f() -> int { fail foo(zz) }", "UnknownName 23 26"),
        ("func f() -> int { fail int(1) }", "Mismatch 27 28 text int"),
        ("func f() -> bool { true || 1 }", "Mismatch 27 28 bool int"),
        ("func f() -> bool { 1 && true }", "Mismatch 19 20 bool int"),
        ("func f() -> bool { !1 }", "Mismatch 20 21 bool int"),
        ("func f() -> int { -true }", "Mismatch 19 23 int bool"),
        ("func f() -> bool { 1 == \"a\" }", "Mismatch 24 27 int text"),
        (
            "func f() -> bool { true < false }",
            "Mismatch 19 23 int bool",
        ),
        ("func f() -> bool { \"a\" < 1 }", "Mismatch 25 26 text int"),
        ("func f() -> int { true + true }", "Mismatch 18 22 int bool"),
        ("func f() -> text { \"a\" + 1 }", "Mismatch 25 26 text int"),
        (
            "func f() -> text { \"a\" + \"b\" - 1 }",
            "Mismatch 19 22 int text",
        ),
        (
            "func f() -> int { 1 + 2 - \"b\" }",
            "Mismatch 26 29 int text",
        ),
        ("func f() -> int { 2 * \"b\" }", "Mismatch 22 25 int text"),
        (
            "func f() -> int { ((1)+2).0 }",
            "Mismatch 19 24 (int,int) int",
        ),
        ("func f() -> int { (1, 2).2 }", "Arity 25 26"),
        (
            "func f() -> int { (1, 2).0.1 }",
            "Mismatch 27 28 (int,int) int",
        ),
        (
            "func f() -> [int] { [1, \"a\", zz] }",
            "Mismatch 24 27 int text",
        ),
        (
            "func f() -> [int] { [1 for x in 2] }",
            "Mismatch 32 33 [int] int",
        ),
        (
            "func f(x: int) -> [int] { [y for x in [1]] }",
            "Duplicate 33 34",
        ),
        (
            "func f(x: int) -> [int] { [y for x in y] }",
            "UnknownName 38 39",
        ),
        (
            "func f() -> int { if 1 { 1 } else { 2 } }",
            "Mismatch 21 22 bool int",
        ),
        (
            "func f() -> int { if true { 1 } else { \"a\" } }",
            "Mismatch 39 42 int text",
        ),
        (
            "func f() -> unit { if true { 1 } }",
            "Mismatch 29 30 unit int",
        ),
        (
            "func f() -> int { if true { 1 } else { 1; } }",
            "Mismatch 37 43 int unit",
        ),
        ("func f() -> path { path(1) }", "Mismatch 24 25 text int"),
        (
            "func f() -> bool { exists(\"a\") }",
            "Mismatch 26 29 path text",
        ),
        (
            "func f() -> unit { write(1, 2) }",
            "Mismatch 25 26 path int",
        ),
        (
            "func f() -> unit { write(path(\"a\"), 2) }",
            "Mismatch 36 37 text int",
        ),
    ];
    for (text, wanted) in cases {
        assert!(rt; answers(alloc, text, wanted), "{text}");
    }
}

#[test]
fn names_functions_and_blocks_are_told_apart_in_the_stated_order(rt: HostRuntime) {
    let alloc = rt.alloc();
    let cases = [
        ("func f() -> int { }", "Mismatch 16 19 int unit"),
        ("func f() -> int { 1; }", "Mismatch 16 22 int unit"),
        ("func f() -> int { \"a\" }", "Mismatch 18 21 int text"),
        ("func f() -> int { (\"a\") }", "Mismatch 19 22 int text"),
        ("func len() -> foo { 1 }", "Duplicate 5 8"),
        ("func read_bytes() -> int { 1 }", "Duplicate 5 15"),
        (
            "func f() -> int { x } func f() -> int { 1 }",
            "Duplicate 27 28",
        ),
        ("func f(a: foo, a: int) -> bar { 1 }", "UnknownName 10 13"),
        ("func f(a: int, a: foo) -> bar { 1 }", "Duplicate 15 16"),
        ("func f(a: int) -> bar { 1 }", "UnknownName 18 21"),
        (
            "func f() -> int { x } func g() -> bar { 1 }",
            "UnknownName 34 37",
        ),
        (
            "func f(x: int) -> int { val x = y; 1 }",
            "UnknownName 32 33",
        ),
        ("func f(x: int) -> int { val x = 1; 1 }", "Duplicate 28 29"),
        ("func f() -> int { val x = x; 1 }", "UnknownName 26 27"),
        (
            "func f() -> int { if true { val x = 1; }; x }",
            "UnknownName 42 43",
        ),
        ("func f() -> int { g(zz) }", "UnknownFunction 18 19"),
        ("func f(g: int) -> int { f(1) }", "UnknownFunction 24 25"),
        (
            "func f() -> int { require len(\"a\") }",
            "UnknownFunction 26 29",
        ),
        ("func f() -> int { run g(); 1 }", "UnknownFunction 22 23"),
        ("func f() -> int { require f(zz) }", "Arity 18 31"),
        ("func f() -> int { len() }", "Arity 18 23"),
        ("func f() -> bytes? { read_bytes() }", "Arity 21 33"),
        (
            "func f(a: int) -> int { require f(\"a\") }",
            "Mismatch 34 37 int text",
        ),
        (
            "func f(a: int, b: int) -> int { require f(\"a\", zz) }",
            "Mismatch 42 45 int text",
        ),
        ("func f() -> int { len(1) }", "Mismatch 22 23 text int"),
        (
            "func f() -> [int] { sort([true]) }",
            "Mismatch 25 31 [int] [bool]",
        ),
        ("func f() -> [int] { sort(1) }", "Mismatch 25 26 [int] int"),
        (
            "func f() -> [int] { reverse(1) }",
            "Mismatch 28 29 [int] int",
        ),
        ("func f() -> int { get(1) }", "Mismatch 22 23 int? int"),
        (
            "func f() -> int? { some(null int) }",
            "Mismatch 24 32 int int?",
        ),
        (
            "func f() -> bytes? { read_bytes(\"a\") }",
            "Mismatch 32 35 path text",
        ),
    ];
    for (text, wanted) in cases {
        assert!(rt; answers(alloc, text, wanted), "{text}");
    }
}

#[test]
fn each_form_is_accepted_where_the_rules_type_it(rt: HostRuntime) {
    let alloc = rt.alloc();
    let cases = [
        "",
        "func page(src: path) -> path { val body = get(read(src)); val foot = require footer();
           val target = join(path(\"out\"), name(src)); write(target, body + foot); target }
         func footer() -> text { trim(get(read(path(\"inc/foot\")))) }
         func site() -> int { len([require page(p) for p in list(path(\"src\"))]) }",
        "func f(len: int, f: text) -> text { f }",
        "func bytes(b: bytes) -> bytes? { read_bytes(path(\"a\")) }",
        "func f() -> [int] { [1] + [2] + empty int }",
        "func f() -> (int, text) { ((1, \"a\"), true).0 }",
        "func f() -> unit { if true { run f() }; if 1 < 2 && !false { } }",
        "func f() -> int { if \"a\" == \"b\" { 1 } else { -2 * 3 % 4 } }",
        "func f() -> text? { digest(path(\"a\")) }",
        "func f() -> int { val x = 1; [x for y in [x]]; val y = 2; x + y - 1 }",
        "func f() -> int { require f() by hash }",
        "func f() -> [[text]] { flatten([[split(\"a\", \",\")]]) }",
        "func f() -> int { fail int(\"no\") }",
        "func f() -> unit { write(path(\"a\"), to_bytes(\"b\")) }",
        "func f(a: [(int, text?)]) -> text? { at(a, 0).1 }",
    ];
    for text in cases {
        assert!(rt; answers(alloc, text, "typed"), "{text}");
    }
}

// A text of a prefix, so many numbered parts, and an end.
fn numbered(alloc: Global, front: &str, count: u32, end: &str) -> Result<String, AllocError> {
    let mut out = String::from_str(alloc, front)?;
    for i in 0..count {
        let part = format!(in alloc; "val x{i} = 1; ")?;
        out.push_str(part.as_str())?;
    }
    out.push_str(end)?;
    Ok(out)
}

#[test]
fn the_256th_name_is_one_too_many_unless_it_is_taken(rt: HostRuntime) {
    let alloc = rt.alloc();
    let front = "func f() -> int { ";
    let cases = [
        (255, "1 }", "typed"),
        (256, "1 }", "TooManyNames 3482 3486"),
        (255, "val x7 = 1; 1 }", "Duplicate 3482 3484"),
    ];
    for (count, end, wanted) in cases {
        if let Ok(text) = numbered(alloc, front, count, end) {
            assert!(rt; answers(alloc, text.as_str(), wanted), "{count} names");
        }
    }
}

// A text of parts, each so many times, and an end.
fn repeated(alloc: Global, parts: &[(&str, u32)], end: &str) -> Result<String, AllocError> {
    let mut out = String::new(alloc);
    for (part, times) in parts {
        for _ in 0..*times {
            out.push_str(part)?;
        }
    }
    out.push_str(end)?;
    Ok(out)
}

#[test]
fn the_deepest_tree_is_typed(rt: HostRuntime) {
    let alloc = rt.alloc();
    let parts = [
        ("func f() -> bool { ", 1),
        ("if ", 100),
        ("[", 60),
        ("true", 1),
        ("]", 60),
        (" == empty ", 1),
        ("[", 59),
        ("bool", 1),
        ("]", 59),
        (" { true } else { false }", 100),
    ];
    if let Ok(text) = repeated(alloc, parts.as_slice(), "}") {
        assert!(rt; answers(alloc, text.as_str(), "typed"));
    }
}

// A text whose last name has a type of twice the parts for each step, and one.
fn doubled(alloc: Global, steps: u32) -> Result<String, AllocError> {
    let mut out = String::from_str(alloc, "func f() -> int { val x0 = 1; ")?;
    for i in 1..steps {
        let before = i - 1;
        let part = format!(in alloc; "val x{i} = (x{before}, x{before}); ")?;
        out.push_str(part.as_str())?;
    }
    out.push_str("1 }")?;
    Ok(out)
}

#[test]
fn a_name_of_a_type_of_1023_parts_finds_no_memory(rt: HostRuntime) {
    let alloc = rt.alloc();
    let cases = [(9, "typed"), (10, "out of memory")];
    for (steps, wanted) in cases {
        if let Ok(text) = doubled(alloc, steps) {
            assert!(rt; answers(alloc, text.as_str(), wanted), "{steps} names");
        }
    }
}

// A task with one argument or none.
fn task(alloc: Global, name: &str, arg: Option<Value>) -> Result<Task, AllocError> {
    let func = Text::new(alloc, name).or(Err(AllocError))?;
    let mut args = Items::new();
    if let Some(value) = arg {
        args.push(alloc, value).or(Err(AllocError))?;
    }
    Ok(Task { func, args })
}

#[test]
fn a_task_has_the_function_of_its_name_where_its_arguments_fit(rt: HostRuntime) {
    let alloc = rt.alloc();
    let text = "func f(a: int?) -> int { 1 } func g() -> int { 2 }";
    let Ok(typed) = typed(alloc, text) else {
        return;
    };
    assert!(rt; typed.pipeline().functions.len() == 2);
    let cases = [
        ("f", Some(Value::Int(1)), Some(0)),
        ("f", Some(Value::Null), Some(0)),
        ("f", Some(Value::Unit), None),
        ("f", None, None),
        ("g", None, Some(1)),
        ("g", Some(Value::Int(1)), None),
        ("h", None, None),
    ];
    for (name, arg, wanted) in cases {
        if let Ok(task) = task(alloc, name, arg) {
            assert!(rt; typed.find(&task) == wanted, "{name}");
        }
    }
}
