//! Compiled code and the evaluator tell the same of built-in functions, of faults and of values past the limits.
//! Each case has what both have to tell.
use crate::stories::tell_alike;
use std::test::Fail;

const TEXTS_AND_PATHS: &[(&str, &str)] = &[
    (
        "func main() -> path { join(path(\"out\"), \"a\") }",
        "done path(\"out/a\") at 4; ",
    ),
    (
        "func main() -> text { name(path(\"src/a\")) }",
        "done \"a\" at 3; ",
    ),
    (
        "func main() -> path? { parent(path(\"src/a\")) }",
        "done path(\"src\") at 3; ",
    ),
    (
        "func main() -> path? { parent(path(\"a\")) }",
        "done null at 3; ",
    ),
    ("func main() -> text { to_text(-7) }", "done \"-7\" at 3; "),
    (
        "func main() -> text { to_text(true) + to_text(path(\"a\")) }",
        "done \"truea\" at 6; ",
    ),
    (
        "func main() -> int? { parse_int(\"007\") }",
        "done 7 at 2; ",
    ),
    (
        "func main() -> int? { parse_int(\"x\") }",
        "done null at 2; ",
    ),
    (
        "func main() -> text { trim(\" a\\n\") }",
        "done \"a\" at 2; ",
    ),
    (
        "func main() -> text { replace(\"aaa\", \"aa\", \"b\") }",
        "done \"ba\" at 4; ",
    ),
    (
        "func main() -> [text] { split(\"a,,b\", \",\") }",
        "done [\"a\", \"\", \"b\"] at 3; ",
    ),
    (
        "func main() -> [text] { lines(\"a\\n\\n\") }",
        "done [\"a\", \"\"] at 2; ",
    ),
    (
        "func main() -> text { join_text([\"a\", \"b\"], \"-\") }",
        "done \"a-b\" at 5; ",
    ),
    (
        "func main() -> text { slice(\"abc\", 1, 2) }",
        "done \"b\" at 4; ",
    ),
    (
        "func main() -> text { sha256(\"abc\") }",
        "done \"ba7816bf8f01cfea414140de5dae2223b00361a396177a9cb410ff61f20015ad\" at 2; ",
    ),
    (
        "func main() -> int? { find(\"abc\", \"c\") }",
        "done 2 at 3; ",
    ),
    (
        "func main() -> int? { find(\"abc\", \"x\") }",
        "done null at 3; ",
    ),
    (
        "func main() -> bool { contains(\"abc\", \"b\") }",
        "done true at 3; ",
    ),
    (
        "func main() -> bool { starts(\"abc\", \"b\") }",
        "done false at 3; ",
    ),
    (
        "func main() -> bool { ends(\"a.c\", \".c\") }",
        "done true at 3; ",
    ),
];

#[test]
fn built_in_functions_of_texts_and_paths(rt: HostRuntime) -> Result<(), Fail> {
    tell_alike(&rt, rt.alloc(), TEXTS_AND_PATHS)
}

const LISTS_BYTES_AND_NULL: &[(&str, &str)] = &[
    ("func main() -> int { len(\"é\") }", "done 2 at 2; "),
    ("func main() -> int { len([1, 2, 3]) }", "done 3 at 5; "),
    (
        "func main() -> int { len(to_bytes(\"ab\")) }",
        "done 2 at 3; ",
    ),
    ("func main() -> int { at([5, 6], 1) }", "done 6 at 5; "),
    ("func main() -> [int] { range(1, 3) }", "done [1, 2] at 3; "),
    (
        "func main() -> [int] { reverse([1, 2]) }",
        "done [2, 1] at 4; ",
    ),
    (
        "func main() -> [int] { sort([2, 1]) }",
        "done [1, 2] at 4; ",
    ),
    (
        "func main() -> [text] { sort([\"b\", \"a\"]) }",
        "done [\"a\", \"b\"] at 4; ",
    ),
    (
        "func main() -> [int] { flatten([[1], [2]]) }",
        "done [1, 2] at 6; ",
    ),
    ("func main() -> int? { some(1) }", "done 1 at 2; "),
    ("func main() -> int { get(some(1)) }", "done 1 at 3; "),
    (
        "func main() -> bool { is_null(null int) }",
        "done true at 2; ",
    ),
    (
        "func main() -> bool { is_null(some(1)) }",
        "done false at 3; ",
    ),
    (
        "func main() -> bytes { to_bytes(\"a\") }",
        "done bytes(\"61\") at 2; ",
    ),
    (
        "func main() -> text? { from_bytes(to_bytes(\"a\")) }",
        "done \"a\" at 3; ",
    ),
    (
        "func main() -> bytes { slice_bytes(to_bytes(\"abc\"), 1, 3) }",
        "done bytes(\"6263\") at 5; ",
    ),
];

#[test]
fn built_in_functions_of_lists_bytes_and_null(rt: HostRuntime) -> Result<(), Fail> {
    tell_alike(&rt, rt.alloc(), LISTS_BYTES_AND_NULL)
}

const FAULTS: &[(&str, &str)] = &[
    ("func main() -> int { 1 / 0 }", "fail Zero at 3; "),
    ("func main() -> int { 1 % 0 }", "fail Zero at 3; "),
    (
        "func main() -> int { 9223372036854775807 + 1 }",
        "fail Overflow at 3; ",
    ),
    (
        "func main() -> int { -(-9223372036854775807 - 1) }",
        "fail Overflow at 5; ",
    ),
    ("func main() -> int { get(null int) }", "fail Null at 2; "),
    ("func main() -> path { path(\"/\") }", "fail BadPath at 2; "),
    (
        "func main() -> path { join(path(\"a\"), \"..\") }",
        "fail BadPath at 4; ",
    ),
    ("func main() -> int { at([1], 1) }", "fail Range at 4; "),
    (
        "func main() -> [text] { split(\"a\", \"\") }",
        "fail Range at 3; ",
    ),
    (
        "func main() -> text { slice(\"é\", 0, 1) }",
        "fail Range at 4; ",
    ),
    (
        "func main() -> int { fail int(\"n\" + \"o\") }",
        "fail Said no at 4; ",
    ),
    (
        "func main() -> int { 1 / 0 + get(null int) }",
        "fail Zero at 4; ",
    ),
    (
        "func main() -> bool { starts(get(null text), fail text(\"no\")) }",
        "fail Null at 3; ",
    ),
];

#[test]
fn faults_of_operators_and_built_in_functions(rt: HostRuntime) -> Result<(), Fail> {
    tell_alike(&rt, rt.alloc(), FAULTS)
}

const PAST_THE_LIMITS: &[(&str, &str)] = &[
    (
        "func main() -> [int] { range(0, 200000) }",
        "fail Big at 3; ",
    ),
    (
        "func main() -> [int] { val a = range(0, 100000); a + a }",
        "fail Big at 6; ",
    ),
    (
        "func main() -> ([int], [int]) { val a = range(0, 100000); (a, a) }",
        "fail Big at 6; ",
    ),
    (
        "func main() -> [[int]] { val a = range(0, 100000); [a, a, a] }",
        "fail Big at 6; ",
    ),
    (
        "func main() -> [[int]] { val a = range(0, 100000); [a for x in [1, 2, 3]] }",
        "fail Big at 10; ",
    ),
];

#[test]
fn values_past_the_limits(rt: HostRuntime) -> Result<(), Fail> {
    tell_alike(&rt, rt.alloc(), PAST_THE_LIMITS)
}
