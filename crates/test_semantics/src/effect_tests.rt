//! Compiled code and the evaluator tell the same of each effect, with each prefix of the answers: the events up to the output or the
//! fault, and the ticks up to each. Each case has what both have to tell.
use crate::stories::tell_alike_after;
use std::test::Fail;

const OBSERVATIONS: &[(&str, &str, &str)] = &[
    (
        "func main() -> text { get(read(path(\"s\"))) }",
        "file",
        "read s at 4; done \"1\" at 4; ",
    ),
    (
        "func main() -> text { get(read(path(\"s\"))) }",
        "absent",
        "read s at 4; fail Null at 4; ",
    ),
    (
        "func main() -> text? { read(path(\"s\")) }",
        "broken",
        "read s at 3; fail NotText at 3; ",
    ),
    (
        "func main() -> text? { read(path(\"s\") by hash) }",
        "file",
        "read s at 3; done \"1\" at 3; ",
    ),
    (
        "func main() -> text? { read(path(\"s\") by mark) }",
        "file",
        "read s by mark at 3; done \"1\" at 3; ",
    ),
    (
        "func main() -> bytes? { read_bytes(path(\"s\")) }",
        "broken",
        "read s at 3; done bytes(\"ff\") at 3; ",
    ),
    (
        "func main() -> bytes? { read_bytes(path(\"s\")) }",
        "absent",
        "read s at 3; done null at 3; ",
    ),
    (
        "func main() -> bool { exists(path(\"s\")) }",
        "there",
        "exists s at 3; done true at 3; ",
    ),
    (
        "func main() -> text? { digest(path(\"s\")) }",
        "digest",
        "digest s at 3; done \"0000000000000000000000000000000000000000000000000000000000000000\" at 3; ",
    ),
    (
        "func main() -> text? { digest(path(\"s\")) }",
        "undigested",
        "digest s at 3; done null at 3; ",
    ),
    (
        "func main() -> [path] { list(path(\"src\")) }",
        "entries",
        "list src at 3; done [path(\"src/a\"), path(\"src/b\")] at 3; ",
    ),
    (
        "func main() -> [path] { list(path(\"out/a\")) }",
        "entries",
        "fail BadList at 3; ",
    ),
    (
        "func main() -> text? { read(path(\"out/a\")) }",
        "clash",
        "read out/a at 3; fail Clash at 3; ",
    ),
];

#[test]
fn observations(rt: HostRuntime) -> Result<(), Fail> {
    tell_alike_after(&rt, rt.alloc(), OBSERVATIONS)
}

const REQUIRED_TASKS: &[(&str, &str, &str)] = &[
    (
        "func main() -> int { require g(1, \"a\") } func g(a: int, b: text) -> int { a }",
        "output",
        "g(1, \"a\") whole at 3; done 5 at 3; ",
    ),
    (
        "func main() -> int { require g() by hash + 1 } func g() -> int { 1 }",
        "output",
        "g() hashed at 2; done 6 at 3; ",
    ),
    (
        "func main() -> int { run g([1]); 7 } func g(a: [int]) -> int { 1 }",
        "ran",
        "g([1]) ran at 3; done 7 at 4; ",
    ),
    (
        "func main() -> int { val a = range(0, 60000); require g(a, a) } func g(a: [int], b: [int]) -> int { 1 }",
        "output",
        "fail Big at 6; ",
    ),
];

#[test]
fn required_tasks(rt: HostRuntime) -> Result<(), Fail> {
    tell_alike_after(&rt, rt.alloc(), REQUIRED_TASKS)
}

const WRITES: &[(&str, &str, &str)] = &[
    (
        "func main() -> unit { write(path(\"out/a\"), \"é\") }",
        "wrote",
        "write out/a bytes(\"c3a9\") at 4; done unit at 4; ",
    ),
    (
        "func main() -> unit { write(path(\"out/a\"), to_bytes(\"x\")) }",
        "wrote",
        "write out/a bytes(\"78\") at 5; done unit at 5; ",
    ),
    (
        "func main() -> unit { write(path(\"out/a\"), \"x\"); write(path(\"out/b\"), \"y\"); }",
        "wrote wrote",
        "write out/a bytes(\"78\") at 4; write out/b bytes(\"79\") at 8; done unit at 8; ",
    ),
    (
        "func main() -> unit { write(path(\"out/a\"), \"x\"); write(path(\"out/a\"), \"y\"); }",
        "wrote wrote",
        "write out/a bytes(\"78\") at 4; fail WroteTwice at 8; ",
    ),
    (
        "func main() -> unit { read(path(\"out/a\")); write(path(\"out/a\"), \"y\"); }",
        "absent wrote",
        "read out/a at 3; fail ReadThenWrite at 7; ",
    ),
    (
        "func main() -> unit { exists(path(\"out/a\")); write(path(\"out/a\"), \"y\"); }",
        "missing wrote",
        "exists out/a at 3; fail ReadThenWrite at 7; ",
    ),
    (
        "func main() -> unit { digest(path(\"out/a\")); write(path(\"out/a\"), \"y\"); }",
        "digest wrote",
        "digest out/a at 3; fail ReadThenWrite at 7; ",
    ),
    (
        "func main() -> unit { write(path(\"out/a\"), \"x\"); read_bytes(path(\"out/a\")); write(path(\"out/a\"), \"y\"); }",
        "wrote file wrote",
        "write out/a bytes(\"78\") at 4; read out/a at 7; fail WroteTwice at 11; ",
    ),
    (
        "func main() -> unit { write(path(\"src/a\"), \"x\") }",
        "wrote",
        "fail BadWrite at 4; ",
    ),
    (
        "func main() -> unit { write(path(\"out\"), \"x\") }",
        "wrote",
        "fail BadWrite at 4; ",
    ),
];

#[test]
fn writes(rt: HostRuntime) -> Result<(), Fail> {
    tell_alike_after(&rt, rt.alloc(), WRITES)
}

const AMONG_OTHER_FORMS: &[(&str, &str, &str)] = &[
    (
        "func main() -> [bool] { [exists(p) for p in list(path(\"src\"))] }",
        "entries there missing",
        "list src at 4; exists src/a at 6; exists src/b at 8; done [true, false] at 8; ",
    ),
    (
        "func main() -> bool { exists(path(\"a\")) && exists(path(\"b\")) }",
        "missing there",
        "exists a at 4; done false at 4; ",
    ),
    (
        "func main() -> bool { exists(path(\"a\")) && exists(path(\"b\")) }",
        "there there",
        "exists a at 4; exists b at 7; done true at 7; ",
    ),
    (
        "func main() -> bool { exists(path(\"a\")) || exists(path(\"b\")) }",
        "there there",
        "exists a at 4; done true at 4; ",
    ),
    (
        "func main() -> text { if exists(path(\"a\")) { get(read(path(\"a\"))) } else { \"none\" } }",
        "there file",
        "exists a at 4; read a at 8; done \"1\" at 8; ",
    ),
    (
        "func main() -> text { if exists(path(\"a\")) { get(read(path(\"a\"))) } else { \"none\" } }",
        "missing",
        "exists a at 4; done \"none\" at 5; ",
    ),
    (
        "func main() -> (text?, bytes?) { (read(path(\"a\")), read_bytes(path(\"b\"))) }",
        "file broken",
        "read a at 4; read b at 7; done (\"1\", bytes(\"ff\")) at 7; ",
    ),
    (
        "func main() -> int { fail int(get(read(path(\"a\")))) }",
        "file",
        "read a at 5; fail Said 1 at 5; ",
    ),
];

#[test]
fn effects_among_other_forms(rt: HostRuntime) -> Result<(), Fail> {
    tell_alike_after(&rt, rt.alloc(), AMONG_OTHER_FORMS)
}

const ANSWERS_OF_ANOTHER_KIND: &[(&str, &str, &str)] = &[
    (
        "func main() -> bool { exists(path(\"s\")) }",
        "file",
        "exists s at 3; fail Unknown at 3; ",
    ),
    (
        "func main() -> text? { read(path(\"s\")) }",
        "there",
        "read s at 3; fail Unknown at 3; ",
    ),
    (
        "func main() -> text? { digest(path(\"s\")) }",
        "absent",
        "digest s at 3; fail Unknown at 3; ",
    ),
    (
        "func main() -> [path] { list(path(\"s\")) }",
        "clash",
        "list s at 3; fail Unknown at 3; ",
    ),
    (
        "func main() -> unit { write(path(\"out/a\"), \"x\") }",
        "ran",
        "write out/a bytes(\"78\") at 4; fail Unknown at 4; ",
    ),
    (
        "func main() -> int { require main() }",
        "ran",
        "main() whole at 1; fail Unknown at 1; ",
    ),
    (
        "func main() -> unit { run main() }",
        "output",
        "main() ran at 1; fail Unknown at 1; ",
    ),
];

#[test]
fn answers_of_another_kind(rt: HostRuntime) -> Result<(), Fail> {
    tell_alike_after(&rt, rt.alloc(), ANSWERS_OF_ANOTHER_KIND)
}
