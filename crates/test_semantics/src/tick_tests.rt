//! Compiled code and the evaluator count the same ticks up to the last one.
use crate::stories::{tell_alike, tells};
use std::alloc::Global;
use std::process::Abort;
use std::test::Fail;

const LOOPS_IN_LOOPS: &[(&str, &str)] = &[(
    "func main() -> int { len([len([y for y in range(0, 1000)]) for x in range(0, 1000)]) }",
    "fail Budget at 1000000; ",
)];

#[test]
fn loops_in_loops_use_up_the_ticks(rt: HostRuntime) -> Result<(), Fail> {
    tell_alike(&rt, rt.alloc(), LOOPS_IN_LOOPS)
}

// A function that counts 999,993 ticks beside those of the lines before its loops.
fn counting(alloc: Global, lines: &str) -> Result<String, Fail> {
    let mut text = String::from_str(alloc, "func main() -> int { ")?;
    text.push_str(lines)?;
    text.push_str(" val a = range(0, 99996);")?;
    for _ in 0..9 {
        text.push_str(" len([x for x in a]);")?;
    }
    text.push_str(" len([x for x in a]) }")?;
    Ok(text)
}

fn tells_of_lines(rt: &impl Abort, alloc: Global, lines: &str, wanted: &str) -> Result<(), Fail> {
    let text = counting(alloc, lines)?;
    tells(rt, alloc, text.as_str(), "", "", wanted)
}

#[test]
fn the_millionth_tick_is_the_last(rt: HostRuntime) -> Result<(), Fail> {
    let alloc = rt.alloc();
    tells_of_lines(
        &rt,
        alloc,
        "1; 1; 1; 1; 1; 1; 1;",
        "done 99996 at 1000000; ",
    )?;
    tells_of_lines(
        &rt,
        alloc,
        "1; 1; 1; 1; 1; 1; 1; 1;",
        "fail Budget at 1000000; ",
    )
}
