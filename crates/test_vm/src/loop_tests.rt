//! Loops, and the limits on ticks, values and tasks.
use crate::tests::{does, each_does};
use std::alloc::Global;
use std::process::Abort;
use std::test::Fail;

const LOOPS: &[(&str, &str)] = &[
    (
        "int@5 int@8 range store@0 int@0 store@1 list each@12 tick load@2 push jump@7 return",
        "done [5, 6, 7] at 3",
    ),
    (
        "list store@0 int@0 store@1 list each@10 tick load@2 push jump@5 return",
        "done [] at 0",
    ),
    (
        "unit store@0 int@0 store@1 each@7 tick jump@4 unit return",
        "fail Unknown at 0",
    ),
    (
        "list store@0 int@1 neg store@1 each@8 tick jump@5 unit return",
        "fail Unknown at 0",
    ),
    (
        "list store@0 each@5 tick jump@2 unit return",
        "fail Unknown at 0",
    ),
];

#[test]
fn a_loop_takes_each_item_of_a_list(rt: HostRuntime) -> Result<(), Fail> {
    each_does(&rt, rt.alloc(), LOOPS)
}

// A list of 1,000 loops, each over 999 items with a tick for each, so 1,000,000 ticks, and then more.
fn long_loop(rt: &impl Abort, alloc: Global, behind: &str, wanted: &str) -> Result<(), Fail> {
    let before =
        "int@0 int@1000 range store@0 int@0 store@1 each@18 tick int@0 int@999 range store@3 int@0 store@4";
    let words = format!(in alloc; "{before} inner@17 tick jump@14 jump@6 {behind}")?;
    does(rt, alloc, words.as_str(), "", wanted)
}

#[test]
fn a_task_has_1_000_000_ticks(rt: HostRuntime) -> Result<(), Fail> {
    let alloc = rt.alloc();
    long_loop(&rt, alloc, "int@7 return", "done 7 at 1000000")?;
    long_loop(&rt, alloc, "tick int@7 return", "fail Budget at 1000000")
}

// A list of 9,005 bytes is put onto another so many times; the answer is how many there are.
fn grown(rt: &impl Abort, alloc: Global, count: u32, wanted: &str) -> Result<(), Fail> {
    let lists = "int@0 int@1000 range store@3 int@0";
    let turns = "range store@0 int@0 store@1 list each@16 tick load@3 push jump@11 len return";
    let words = format!(in alloc; "{lists} int@{count} {turns}")?;
    does(rt, alloc, words.as_str(), "", wanted)
}

#[test]
fn a_list_ends_at_the_item_that_passes_the_limit(rt: HostRuntime) -> Result<(), Fail> {
    let alloc = rt.alloc();
    grown(&rt, alloc, 116, "done 116 at 116")?;
    grown(&rt, alloc, 117, "fail Big at 117")?;
    grown(&rt, alloc, 200, "fail Big at 117")
}

#[test]
fn a_list_of_100_000_items_is_copied_by_a_loop(rt: HostRuntime) -> Result<(), Fail> {
    let words =
        "int@0 int@1000 int@100 mul range store@0 int@0 store@1 list each@14 tick load@2 push jump@9 len return";
    does(&rt, rt.alloc(), words, "", "done 100000 at 100000")
}

// A task is required with a list of 116,505 items and this text.
fn required(rt: &impl Abort, alloc: Global, text: &str, wanted: &str) -> Result<(), Fail> {
    let list = "int@0 int@1000 int@116 mul int@505 add range";
    let words = format!(in alloc; "{list} {text} whole@2 return")?;
    does(rt, alloc, words.as_str(), "output", wanted)
}

#[test]
fn a_required_task_keeps_the_limit(rt: HostRuntime) -> Result<(), Fail> {
    let alloc = rt.alloc();
    required(&rt, alloc, "'123456789012", "f of 2 whole; done 5 at 0")?;
    required(&rt, alloc, "'1234567890123", "fail Big; ")
}
