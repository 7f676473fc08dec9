//! Trees of pipelines that were written out by hand.
use pie_lexer::lex;
use pie_parser::{
    Block, CallKind, Comparison, EffectKind, Expr, Form, Line, Literal, Operator, ParseError,
    PlainType, Prefix, Type, TypeForm, parse,
};
use std::alloc::{AllocError, Global};

// The tree of a type, at most so deep: each node is its name, its place and its parts.
#[cycle(show_type)]
fn show_type(out: &mut String, alloc: Global, t: &Type, depth: u32) -> Result<(), AllocError> {
    if depth == 0 {
        return Ok(());
    }
    match &t.form {
        TypeForm::Plain(plain) => put(out, alloc, plain_name(*plain), t.at, t.end)?,
        TypeForm::Named(name) => put(out, alloc, name.as_str(), t.at, t.end)?,
        TypeForm::List(item) => {
            put(out, alloc, "[]", t.at, t.end)?;
            show_type(out, alloc, item, depth - 1)?;
        }
        TypeForm::Tuple(items) => {
            put(out, alloc, "()", t.at, t.end)?;
            for item in items.as_slice() {
                show_type(out, alloc, item, depth - 1)?;
            }
        }
        TypeForm::Nullable(plain) => {
            put(out, alloc, "?", t.at, t.end)?;
            show_type(out, alloc, plain, depth - 1)?;
        }
    }
    Ok(())
}

fn plain_name(plain: PlainType) -> &'static str {
    match plain {
        PlainType::Unit => "unit",
        PlainType::Bool => "bool",
        PlainType::Int => "int",
        PlainType::Text => "text",
        PlainType::Path => "path",
    }
}

fn put(
    out: &mut String,
    alloc: Global,
    name: &str,
    at: usize,
    end: usize,
) -> Result<(), AllocError> {
    let node = format!(in alloc; "{name} {at} {end};")?;
    out.push_str(node.as_str())
}

fn operator_name(operator: Operator) -> &'static str {
    match operator {
        Operator::Or => "||",
        Operator::And => "&&",
        Operator::Plus => "+",
        Operator::Minus => "-",
        Operator::Times => "*",
        Operator::Divide => "/",
        Operator::Remainder => "%",
    }
}

fn comparison_name(comparison: Comparison) -> &'static str {
    match comparison {
        Comparison::Equal => "==",
        Comparison::NotEqual => "!=",
        Comparison::Less => "<",
        Comparison::LessEqual => "<=",
        Comparison::Greater => ">",
        Comparison::GreaterEqual => ">=",
    }
}

fn prefix_name(prefix: Prefix) -> &'static str {
    match prefix {
        Prefix::Not => "!",
        Prefix::Minus => "neg",
    }
}

fn call_name(kind: CallKind) -> &'static str {
    match kind {
        CallKind::Plain => "call",
        CallKind::Require => "require",
        CallKind::RequireByHash => "require by hash",
        CallKind::Run => "run",
    }
}

fn effect_name(kind: EffectKind) -> &'static str {
    match kind {
        EffectKind::Path => "path",
        EffectKind::Exists => "exists",
        EffectKind::Digest => "digest",
        EffectKind::List => "list",
        EffectKind::Read => "read",
        EffectKind::ReadByHash => "read by hash",
        EffectKind::ReadByMark => "read by mark",
    }
}

fn literal_name(literal: &Literal) -> &'static str {
    match literal {
        Literal::Int(_) => "int",
        Literal::Text(_) => "text",
        Literal::Bool(_) => "bool",
        Literal::Unit => "unit",
    }
}

// The name of a node.
fn form_name(form: &Form) -> &str {
    match form {
        Form::Literal(literal) => literal_name(literal),
        Form::Name(name) => name.as_str(),
        Form::Null(_) => "null",
        Form::Empty(_) => "empty",
        Form::Chain(_, steps) => match steps.as_slice() {
            [step, ..] => operator_name(step.operator),
            [] => "chain",
        },
        Form::Compare(comparison, _, _) => comparison_name(*comparison),
        Form::Prefix(prefix, _) => prefix_name(*prefix),
        Form::Project(_, _) => ".",
        Form::Tuple(_) => "()",
        Form::List(_) => "[]",
        Form::Each(_, _, _) => "for",
        Form::If(_, _, _) => "if",
        Form::Call(kind, _, _) => call_name(*kind),
        Form::Effect(kind, _) => effect_name(*kind),
        Form::Write(_, _) => "write",
        Form::Fail(_, _) => "fail",
    }
}

// The tree of an expression, at most so deep.
#[cycle(show)]
fn show(out: &mut String, alloc: Global, e: &Expr, depth: u32) -> Result<(), AllocError> {
    if depth == 0 {
        return Ok(());
    }
    put(out, alloc, form_name(&e.form), e.at, e.end)?;
    match &e.form {
        Form::Literal(_) | Form::Name(_) => {}
        Form::Null(t) | Form::Empty(t) => show_type(out, alloc, t, depth)?,
        Form::Chain(first, steps) => {
            show(out, alloc, first, depth - 1)?;
            for step in steps.as_slice() {
                show(out, alloc, &step.operand, depth - 1)?;
            }
        }
        Form::Prefix(_, a) | Form::Effect(_, a) => show(out, alloc, a, depth - 1)?,
        Form::Project(a, indices) => {
            show(out, alloc, a, depth - 1)?;
            for index in indices.as_slice() {
                put(out, alloc, "index", index.at, index.end)?;
            }
        }
        Form::Tuple(items) | Form::List(items) => {
            for item in items.as_slice() {
                show(out, alloc, item, depth - 1)?;
            }
        }
        Form::Each(item, name, list) => {
            show(out, alloc, item, depth - 1)?;
            put(out, alloc, name.text.as_str(), name.at, name.end)?;
            show(out, alloc, list, depth - 1)?;
        }
        Form::If(test, then, otherwise) => {
            show(out, alloc, test, depth - 1)?;
            show_block(out, alloc, then, depth - 1)?;
            if let Some(block) = otherwise {
                show_block(out, alloc, block, depth - 1)?;
            }
        }
        Form::Call(_, name, items) => {
            put(out, alloc, name.text.as_str(), name.at, name.end)?;
            for item in items.as_slice() {
                show(out, alloc, item, depth - 1)?;
            }
        }
        Form::Compare(_, a, b) | Form::Write(a, b) => {
            show(out, alloc, a, depth - 1)?;
            show(out, alloc, b, depth - 1)?;
        }
        Form::Fail(t, a) => {
            show_type(out, alloc, t, depth)?;
            show(out, alloc, a, depth - 1)?;
        }
    }
    Ok(())
}

// The tree of a block, at most so deep.
#[cycle(show)]
fn show_block(out: &mut String, alloc: Global, b: &Block, depth: u32) -> Result<(), AllocError> {
    if depth == 0 {
        return Ok(());
    }
    put(out, alloc, "{}", b.at, b.end)?;
    for line in b.lines.as_slice() {
        match line {
            Line::Val(at, end, name, value) => {
                put(out, alloc, "val", *at, *end)?;
                put(out, alloc, name.text.as_str(), name.at, name.end)?;
                show(out, alloc, value, depth - 1)?;
            }
            Line::Expr(value) => show(out, alloc, value, depth - 1)?,
        }
    }
    if let Some(last) = &b.last {
        show(out, alloc, last, depth - 1)?;
    }
    Ok(())
}

// The answer to a text: its functions' trees, or the fault.
fn answer(alloc: Global, text: &str) -> Result<String, AllocError> {
    let Ok(tokens) = lex(alloc, text) else {
        return String::from_str(alloc, "no tokens");
    };
    let mut out = String::new(alloc);
    match parse(alloc, tokens.as_slice()) {
        Ok(pipeline) => {
            for f in pipeline.functions.as_slice() {
                put(&mut out, alloc, f.name.text.as_str(), f.at, f.end)?;
                for p in f.params.as_slice() {
                    put(&mut out, alloc, p.name.text.as_str(), p.at, p.end)?;
                    show_type(&mut out, alloc, &p.kind, 100)?;
                }
                show_type(&mut out, alloc, &f.result, 100)?;
                show_block(&mut out, alloc, &f.body, 100)?;
            }
        }
        Err(ParseError::Expected(at)) => put(&mut out, alloc, "Expected", at, at)?,
        Err(ParseError::TooDeep(at)) => put(&mut out, alloc, "TooDeep", at, at)?,
        Err(ParseError::OutOfMemory) => out.push_str("OutOfMemory")?,
    }
    Ok(out)
}

// Whether the answer to a text is this one.
fn answers(alloc: Global, text: &str, wanted: &str) -> bool {
    match answer(alloc, text) {
        Ok(found) => found.as_str() == wanted,
        Err(_) => false,
    }
}

#[test]
fn each_node_spans_its_tokens(rt: HostRuntime) {
    let alloc = rt.alloc();
    let cases = [
        ("", ""),
        ("func f()->unit{}", "f 0 16;unit 10 14;{} 14 16;"),
        (
            "func f(a:int,b:[text?])->(int,x){}",
            "f 0 34;a 7 12;int 9 12;b 13 22;[] 15 22;? 16 21;text 16 20;() 25 32;int 26 29;x 30 31;{} 32 34;",
        ),
        (
            "func f()->int{(1)+2}",
            "f 0 20;int 10 13;{} 13 20;+ 14 19;int 15 16;int 18 19;",
        ),
        (
            "func f()->int{((1)+2)}",
            "f 0 22;int 10 13;{} 13 22;+ 15 20;int 16 17;int 19 20;",
        ),
        (
            "func f()->int{1+2*3-4;5}",
            "f 0 24;int 10 13;{} 13 24;+ 14 21;int 14 15;* 16 19;int 16 17;int 18 19;int 20 21;int 22 23;",
        ),
        (
            "func f()->int{a||b&&c<d||!e}",
            "f 0 28;int 10 13;{} 13 28;|| 14 27;a 14 15;&& 17 23;b 17 18;< 20 23;c 20 21;d 22 23;! 25 27;e 26 27;",
        ),
        (
            "func f()->int{-a.0.1}",
            "f 0 21;int 10 13;{} 13 21;neg 14 20;. 15 20;a 15 16;index 17 18;index 19 20;",
        ),
        (
            "func f()->int{val x=(1,2);[x,x];[y for y in z]}",
            "f 0 47;int 10 13;{} 13 47;val 14 26;x 18 19;() 20 25;int 21 22;int 23 24;[] 26 31;x 27 28;x 29 30;for 32 46;y 33 34;y 39 40;z 44 45;",
        ),
        (
            "func f()->int{if a{1;}else{}}",
            "f 0 29;int 10 13;{} 13 29;if 14 28;a 17 18;{} 18 22;int 19 20;{} 26 28;",
        ),
        (
            "func f()->int{null int;empty int?;fail text(a)}",
            "f 0 47;int 10 13;{} 13 47;null 14 22;int 19 22;empty 23 33;? 29 33;int 29 32;fail 34 46;text 39 43;a 44 45;",
        ),
        (
            "func f()->int{g();g(a,b);run g(a);require g()by hash}",
            "f 0 53;int 10 13;{} 13 53;call 14 17;g 14 15;call 18 24;g 18 19;a 20 21;b 22 23;run 25 33;g 29 30;a 31 32;require by hash 34 52;g 42 43;",
        ),
        (
            "func f()->int{path(a);exists(a);digest(a);list(a);write(a,b)}",
            "f 0 61;int 10 13;{} 13 61;path 14 21;a 19 20;exists 22 31;a 29 30;digest 32 41;a 39 40;list 42 49;a 47 48;write 50 60;a 56 57;b 58 59;",
        ),
        (
            "func f()->int{true;unit;\"a\"}",
            "f 0 28;int 10 13;{} 13 28;bool 14 18;unit 19 23;text 24 27;",
        ),
    ];
    for (text, wanted) in cases {
        assert!(rt; answers(alloc, text, wanted), "{text}");
    }
}

#[test]
fn by_belongs_to_the_nearest_that_may_have_it(rt: HostRuntime) {
    let alloc = rt.alloc();
    let cases = [
        (
            "func f()->int{read(a)}",
            "f 0 22;int 10 13;{} 13 22;read 14 21;a 19 20;",
        ),
        (
            "func f()->int{read(a by mark)}",
            "f 0 30;int 10 13;{} 13 30;read by mark 14 29;a 19 20;",
        ),
        (
            "func f()->int{read(a by hash)}",
            "f 0 30;int 10 13;{} 13 30;read by hash 14 29;a 19 20;",
        ),
        (
            "func f()->int{read(require f() by hash)}",
            "f 0 40;int 10 13;{} 13 40;read 14 39;require by hash 19 38;f 27 28;",
        ),
        (
            "func f()->int{read(require f() by hash by mark)}",
            "f 0 48;int 10 13;{} 13 48;read by mark 14 47;require by hash 19 38;f 27 28;",
        ),
        (
            "func f()->int{read(require f() by mark)}",
            "f 0 40;int 10 13;{} 13 40;read by mark 14 39;require 19 30;f 27 28;",
        ),
        (
            "func f()->int{read(a+-require f() by mark)}",
            "f 0 43;int 10 13;{} 13 43;read by mark 14 42;+ 19 33;a 19 20;neg 21 33;require 22 33;f 30 31;",
        ),
        (
            "func f()->int{read(if a{require f()}by mark)}",
            "f 0 45;int 10 13;{} 13 45;read by mark 14 44;if 19 36;a 22 23;{} 23 36;require 24 35;f 32 33;",
        ),
        (
            "func f()->int{read((require f())by hash)}",
            "f 0 41;int 10 13;{} 13 41;read by hash 14 40;require 20 31;f 28 29;",
        ),
        ("func f()->int{require f() by mark}", "Expected 29 29;"),
        ("func f()->int{require f() by }", "Expected 29 29;"),
        (
            "func f()->int{require f() by hash by mark}",
            "Expected 34 34;",
        ),
        (
            "func f()->int{read((require f() by mark))}",
            "Expected 35 35;",
        ),
        (
            "func f()->int{read([require f() by mark])}",
            "Expected 35 35;",
        ),
        (
            "func f()->int{read(g(require f() by mark))}",
            "Expected 36 36;",
        ),
        (
            "func f()->int{read(if require f() by mark{})}",
            "Expected 37 37;",
        ),
        (
            "func f()->int{read(if a{require f() by mark})}",
            "Expected 39 39;",
        ),
        (
            "func f()->int{read(require f() by mark+1)}",
            "Expected 38 38;",
        ),
        (
            "func f()->int{read(require f() by mark by mark)}",
            "Expected 39 39;",
        ),
        ("func f()->int{read(require f() by +)}", "Expected 34 34;"),
        ("func f()->int{read(require f() by mark", "Expected 38 38;"),
        ("func f()->int{read(a by)}", "Expected 23 23;"),
    ];
    for (text, wanted) in cases {
        assert!(rt; answers(alloc, text, wanted), "{text}");
    }
}

#[test]
fn the_first_token_that_cannot_stand_is_expected_otherwise(rt: HostRuntime) {
    let alloc = rt.alloc();
    let cases = [
        ("func f() -> int { 1 + }", "Expected 22 22;"),
        ("func f() -> int { 1 < 2 < 3 }", "Expected 24 24;"),
        ("func", "Expected 4 4;"),
        ("x", "Expected 0 0;"),
        ("func f(a:int,)->int{}", "Expected 13 13;"),
        ("func f()->(int){}", "Expected 14 14;"),
        ("func f()->int??{}", "Expected 14 14;"),
        ("func f()->int{null int?}", "Expected 22 22;"),
        ("func f()->int{[]}", "Expected 15 15;"),
        ("func f()->int{()}", "Expected 15 15;"),
        ("func f()->int{g(a,)}", "Expected 18 18;"),
        ("func f()->int{--1}", "Expected 15 15;"),
        ("func f()->int{!-1}", "Expected 15 15;"),
        ("func f()->int{a.b}", "Expected 16 16;"),
        ("func f()->int{val x=1}", "Expected 21 21;"),
        ("func f()->int{1 2}", "Expected 16 16;"),
        ("func f()->int{;}", "Expected 14 14;"),
        ("func f()->int{if a 1}", "Expected 19 19;"),
        ("func f()->int{if a{}else if b{}}", "Expected 25 25;"),
        ("func f()->int{[a,b for c in d]}", "Expected 19 19;"),
        ("func f()->int{write(a)}", "Expected 21 21;"),
        ("func f()->int{path}", "Expected 18 18;"),
        ("func f()->int{1}func", "Expected 20 20;"),
        ("func f()->int{1}}", "Expected 16 16;"),
    ];
    for (text, wanted) in cases {
        assert!(rt; answers(alloc, text, wanted), "{text}");
    }
}

// A text of a prefix, a part so many times, and an end.
fn repeated(
    alloc: Global,
    front: &str,
    part: &str,
    times: usize,
    end: &str,
) -> Result<String, AllocError> {
    let mut out = String::from_str(alloc, front)?;
    for _ in 0..times {
        out.push_str(part)?;
    }
    out.push_str(end)?;
    Ok(out)
}

// The answer to a text that is repeated, or what it begins with.
fn fault(alloc: Global, front: &str, part: &str, times: usize, end: &str) -> Option<ParseError> {
    let Ok(text) = repeated(alloc, front, part, times, end) else {
        return Some(ParseError::OutOfMemory);
    };
    let Ok(tokens) = lex(alloc, text.as_str()) else {
        return Some(ParseError::OutOfMemory);
    };
    match parse(alloc, tokens.as_slice()) {
        Ok(_) => None,
        Err(e) => Some(e),
    }
}

#[test]
fn brackets_and_conditions_nest_up_to_their_limits(rt: HostRuntime) {
    let alloc = rt.alloc();
    let front = "func f() -> int { ";
    let cases = [
        (front, "(", 64, "", Some(ParseError::TooDeep(81))),
        (front, "(", 63, "", Some(ParseError::Expected(81))),
        (front, "[", 64, "", Some(ParseError::TooDeep(81))),
        (front, "g(", 64, "", Some(ParseError::TooDeep(145))),
        (front, "if 1 {", 64, "", Some(ParseError::TooDeep(401))),
        ("func f(a:", "[", 64, "", Some(ParseError::TooDeep(72))),
        (front, "1)", 64, "", Some(ParseError::Expected(19))),
        (front, "if ", 100, "{", Some(ParseError::Expected(318))),
        (front, "if ", 100, "a", Some(ParseError::Expected(319))),
        (front, "if ", 101, "a", Some(ParseError::OutOfMemory)),
        (front, "if a {} else {};", 1_000, "}", None),
        (front, "-1;", 100_000, "}", None),
        (front, "1+", 100_000, "1}", None),
        ("func f() -> int { [1", ",1", 100_000, "]}", None),
        ("func f() -> int { a", ".0", 1_000, "}", None),
        ("", "func f() -> int { 1 }", 1_000, "", None),
    ];
    for (front, part, times, end, wanted) in cases {
        let found = fault(alloc, front, part, times, end);
        assert!(rt; found == wanted, "{times} times {part}: {found:?}");
    }
}

#[test]
fn the_most_brackets_that_may_be_open_are_read(rt: HostRuntime) {
    let alloc = rt.alloc();
    let text = repeated(alloc, "func f() -> int { ", "(", 63, "1");
    let Ok(text) = text else {
        return;
    };
    let Ok(text) = repeated(alloc, text.as_str(), ")", 63, " }") else {
        return;
    };
    assert!(rt;
        answers(
            alloc,
            text.as_str(),
            "f 0 147;int 12 15;{} 16 147;int 81 82;"
        )
    );
}
