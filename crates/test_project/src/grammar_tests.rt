//! Each answer of the call, on texts that were written out by hand.
use pie_lexer::lex;
use pie_parser::{ParseError, parse};
use std::alloc::{AllocError, Global};

// Why a text is no pipeline, or none where it is one.
fn refusal(alloc: Global, text: &str) -> Option<ParseError> {
    let Ok(tokens) = lex(alloc, text) else {
        return Some(ParseError::OutOfMemory);
    };
    match parse(alloc, tokens.as_slice()) {
        Ok(_) => None,
        Err(e) => Some(e),
    }
}

// A text of a prefix, a part so many times, and an end.
fn repeated(
    alloc: Global,
    front: &str,
    part: &str,
    times: usize,
    end: &str,
) -> Result<String, AllocError> {
    let mut out = String::from_str(alloc, front)?;
    for _ in 0..times {
        out.push_str(part)?;
    }
    out.push_str(end)?;
    Ok(out)
}

#[test]
fn a_pipeline_of_the_grammar_is_answered(rt: HostRuntime) {
    let alloc = rt.alloc();
    let cases = [
        "",
        "func f() -> int { 1 }",
        "func f() -> int { read(require g() by mark) }",
        "func f() -> int { read(require g() by hash by mark) }",
        "func f() -> int { read(a + require g() by mark) }",
        "func f(a: [int?], b: (text, path)) -> unit { val x = a; write(b, x); }",
    ];
    for text in cases {
        let found = refusal(alloc, text);
        assert!(rt; found == None, "{text}: {found:?}");
    }
}

#[test]
fn a_token_after_which_no_pipeline_goes_on_is_not_expected(rt: HostRuntime) {
    let alloc = rt.alloc();
    let cases = [
        ("func", 4),
        ("x", 0),
        ("func f() -> int { 1 + }", 22),
        ("func f() -> int { 1 < 2 < 3 }", 24),
        ("func f() -> int { require g() by mark }", 33),
        ("func f() -> int { require g() by", 32),
        ("func f() -> int { read((require g() by mark)) }", 39),
        ("func f() -> int { read(require g() by mark + 1) }", 43),
        ("func f() -> int { read(if require g() by mark {}) }", 41),
        ("func f() -> int { 1 } }", 22),
    ];
    for (text, at) in cases {
        let found = refusal(alloc, text);
        assert!(rt;
            found == Some(ParseError::Expected(at)),
            "{text}: {found:?}"
        );
    }
}

#[test]
fn the_lesser_place_is_answered(rt: HostRuntime) {
    let alloc = rt.alloc();
    let front = "func f() -> int { ";
    let cases = [
        (front, "(", 63, "", Some(ParseError::Expected(81))),
        (front, "(", 64, "", Some(ParseError::TooDeep(81))),
        (front, "(", 65, "", Some(ParseError::TooDeep(81))),
        (front, "[", 64, "", Some(ParseError::TooDeep(81))),
        (front, "if 1 {", 64, "", Some(ParseError::TooDeep(401))),
        ("func f(a: ", "[", 64, "", Some(ParseError::TooDeep(73))),
        (front, "(", 63, ")", Some(ParseError::Expected(81))),
        (front, "(", 63, "1 (", Some(ParseError::Expected(83))),
        (front, "(", 63, "g(", Some(ParseError::TooDeep(82))),
        (front, "(1);", 1_000, "}", None),
        (front, "if ", 101, "a", Some(ParseError::OutOfMemory)),
    ];
    for (front, part, times, end, wanted) in cases {
        let Ok(text) = repeated(alloc, front, part, times, end) else {
            return;
        };
        let found = refusal(alloc, text.as_str());
        assert!(rt;
            found == wanted,
            "{times} times {part} and {end}: {found:?}"
        );
    }
}
