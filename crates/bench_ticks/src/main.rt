//! Runs `main()` of the pipeline on standard input up to its first effect, and prints what it gave and its ticks.
//! Times are taken from outside, by bench/ticks.
#![tactic(auto)]

mod single;

use single::{FirstStop, Problem, evaluated_to};
use std::io;
use std::io::Read;

fn main(rt: HostRuntime) -> io::Result<()> {
    let mut text = String::new(rt.alloc());
    rt.stdin().read_to_string(&mut text)?;
    match evaluated_to(rt.alloc(), text.as_str()) {
        Ok(came) => print(rt, &came),
        Err(problem) => println!(rt; "{}", problem.name()),
    }
}

fn print(rt: HostRuntime, came: &FirstStop) -> io::Result<()> {
    println!(rt; "{}, {} ticks", came.what.as_str(), came.ticks)
}
