//! Compiled code and the evaluator tell the same of each form without effects: the output or the fault, and the ticks.
//! Each case has what both have to tell.
use crate::stories::{tell_alike, tell_alike_of};
use std::test::Fail;

const LITERALS_NAMES_AND_BLOCKS: &[(&str, &str, &str)] = &[
    ("func main() -> int { 1 }", "", "done 1 at 1; "),
    ("func main() -> text { \"a b\" }", "", "done \"a b\" at 1; "),
    ("func main() -> bool { true }", "", "done true at 1; "),
    ("func main() -> unit { unit }", "", "done unit at 1; "),
    ("func main() -> unit { }", "", "done unit at 0; "),
    ("func main() -> unit { 1; }", "", "done unit at 1; "),
    ("func main() -> int? { null int }", "", "done null at 1; "),
    ("func main() -> [int] { empty int }", "", "done [] at 1; "),
    (
        "func main(a: int, b: text) -> int { a }",
        "7 text",
        "done 7 at 1; ",
    ),
    (
        "func main(a: int, b: text) -> text { b }",
        "7 text",
        "done \"text\" at 1; ",
    ),
    (
        "func main(a: path, b: int?) -> int? { a; b }",
        "path null",
        "done null at 2; ",
    ),
    (
        "func main() -> int { val a = 1; val b = a + a; b; a + b }",
        "",
        "done 3 at 8; ",
    ),
    (
        "func main() -> int { val a = if true { val b = 5; b } else { 0 }; val b = a; b }",
        "",
        "done 5 at 6; ",
    ),
];

#[test]
fn literals_names_and_blocks(rt: HostRuntime) -> Result<(), Fail> {
    tell_alike_of(&rt, rt.alloc(), LITERALS_NAMES_AND_BLOCKS)
}

const CHAINS_OF_OPERATORS: &[(&str, &str)] = &[
    ("func main() -> int { 1 + 2 - 4 }", "done -1 at 4; "),
    ("func main() -> int { 2 * 7 / 3 % 3 }", "done 1 at 5; "),
    ("func main() -> int { 1 + 2 * 3 }", "done 7 at 5; "),
    ("func main() -> int { (1 + 2) * (3 - 4) }", "done -3 at 7; "),
    (
        "func main() -> text { \"a\" + \"b\" + \"c\" }",
        "done \"abc\" at 4; ",
    ),
    (
        "func main() -> [int] { [1] + [2, 3] }",
        "done [1, 2, 3] at 6; ",
    ),
    (
        "func main() -> bytes { to_bytes(\"a\") + to_bytes(\"b\") }",
        "done bytes(\"6162\") at 5; ",
    ),
    ("func main() -> bool { true || false }", "done true at 2; "),
    (
        "func main() -> bool { false || true || false }",
        "done true at 3; ",
    ),
    (
        "func main() -> bool { false || false }",
        "done false at 3; ",
    ),
    (
        "func main() -> bool { true && true && false }",
        "done false at 4; ",
    ),
    ("func main() -> bool { false && true }", "done false at 2; "),
    ("func main() -> bool { true && true }", "done true at 3; "),
    (
        "func main() -> bool { true || 1 / 0 == 0 }",
        "done true at 2; ",
    ),
    (
        "func main() -> bool { false && 1 / 0 == 0 }",
        "done false at 2; ",
    ),
    (
        "func main() -> bool { false || true && false || true }",
        "done true at 6; ",
    ),
];

#[test]
fn chains_of_operators(rt: HostRuntime) -> Result<(), Fail> {
    tell_alike(&rt, rt.alloc(), CHAINS_OF_OPERATORS)
}

const COMPARISONS: &[(&str, &str)] = &[
    ("func main() -> bool { 1 == 1 }", "done true at 3; "),
    ("func main() -> bool { 1 != 1 }", "done false at 3; "),
    ("func main() -> bool { 2 < 1 }", "done false at 3; "),
    ("func main() -> bool { 1 <= 1 }", "done true at 3; "),
    ("func main() -> bool { 1 > 2 }", "done false at 3; "),
    ("func main() -> bool { 2 >= 2 }", "done true at 3; "),
    ("func main() -> bool { \"a\" < \"b\" }", "done true at 3; "),
    (
        "func main() -> bool { \"b\" >= \"ba\" }",
        "done false at 3; ",
    ),
    (
        "func main() -> bool { path(\"a\") <= path(\"b\") }",
        "done true at 5; ",
    ),
    (
        "func main() -> bool { path(\"a\") > path(\"b\") }",
        "done false at 5; ",
    ),
    (
        "func main() -> bool { path(\"a\") == path(\"a\") }",
        "done true at 5; ",
    ),
    (
        "func main() -> bool { [1, 2] == [1, 2] }",
        "done true at 7; ",
    ),
    (
        "func main() -> bool { (1, \"a\") != (1, \"b\") }",
        "done true at 7; ",
    ),
    (
        "func main() -> bool { null int == some(1) }",
        "done false at 4; ",
    ),
    (
        "func main() -> bool { to_bytes(\"a\") == to_bytes(\"a\") }",
        "done true at 5; ",
    ),
    ("func main() -> bool { \"a\" <= \"a\" }", "done true at 3; "),
    ("func main() -> bool { \"a\" > \"b\" }", "done false at 3; "),
    (
        "func main() -> bool { path(\"a\") < path(\"b\") }",
        "done true at 5; ",
    ),
    (
        "func main() -> bool { path(\"a\") >= path(\"b\") }",
        "done false at 5; ",
    ),
    ("func main() -> bool { [1] != [2] }", "done true at 5; "),
    (
        "func main() -> bool { null int == null int }",
        "done true at 3; ",
    ),
    ("func main() -> bool { unit == unit }", "done true at 3; "),
    ("func main() -> bool { true != false }", "done true at 3; "),
];

#[test]
fn comparisons(rt: HostRuntime) -> Result<(), Fail> {
    tell_alike(&rt, rt.alloc(), COMPARISONS)
}

const OTHER_FORMS: &[(&str, &str)] = &[
    ("func main() -> bool { !true }", "done false at 2; "),
    ("func main() -> int { -7 }", "done -7 at 2; "),
    ("func main() -> int { -(-7) }", "done 7 at 3; "),
    ("func main() -> int { (1, (2, 3)).1.0 }", "done 2 at 6; "),
    (
        "func main() -> (int, text, bool) { (1, \"a\", true) }",
        "done (1, \"a\", true) at 4; ",
    ),
    ("func main() -> [int] { [1, 2] }", "done [1, 2] at 3; "),
    (
        "func main() -> [[int]] { [[1], empty int] }",
        "done [[1], []] at 4; ",
    ),
    (
        "func main() -> int { if true { 1 } else { 2 } }",
        "done 1 at 3; ",
    ),
    (
        "func main() -> int { if false { 1 } else { 2 } }",
        "done 2 at 3; ",
    ),
    ("func main() -> unit { if 1 < 2 { } }", "done unit at 4; "),
    (
        "func main() -> unit { if false { unit } }",
        "done unit at 2; ",
    ),
    (
        "func main() -> int { if if true { false } else { true } { 1 } else { 2 } }",
        "done 2 at 5; ",
    ),
];

#[test]
fn prefixes_tuples_lists_and_conditions(rt: HostRuntime) -> Result<(), Fail> {
    tell_alike(&rt, rt.alloc(), OTHER_FORMS)
}

const COMPREHENSIONS: &[(&str, &str, &str)] = &[
    (
        "func main() -> [int] { [x + 1 for x in [1, 2]] }",
        "",
        "done [2, 3] at 10; ",
    ),
    (
        "func main() -> [int] { [x for x in empty int] }",
        "",
        "done [] at 2; ",
    ),
    (
        "func main() -> [int] { [1 / 0 for x in empty int] }",
        "",
        "done [] at 2; ",
    ),
    (
        "func main() -> [[int]] { [[x * y for y in [1, 2]] for x in [3, 4]] }",
        "",
        "done [[3, 6], [4, 8]] at 24; ",
    ),
    (
        "func main() -> [int] { [x for x in [y for y in [1]]] }",
        "",
        "done [1] at 6; ",
    ),
    (
        "func main(a: [int], b: (int, text)) -> [int] { [if x == 2 { b.0 } else { x } for x in a] }",
        "numbers pair",
        "done [1, 1, 3] at 18; ",
    ),
    (
        "func main() -> [int] { [1 / x for x in [1, 0, 2]] }",
        "",
        "fail Zero at 11; ",
    ),
];

#[test]
fn comprehensions(rt: HostRuntime) -> Result<(), Fail> {
    tell_alike_of(&rt, rt.alloc(), COMPREHENSIONS)
}
