//! Runs a part of the builder on a large input that it makes itself, and prints how many things came out.
//! Times are taken from outside, by bench/leaves.
#![tactic(auto)]

mod graphs;
mod job;
mod measure;
mod texts;

use job::{Job, SUBJECTS, Subject};
use std::{env, io};

fn main(rt: HostRuntime) -> io::Result<()> {
    let words = words(rt)?;
    match Job::read(words.as_slice()) {
        Some(job) => run(rt, job),
        None => println!(rt; "usage: bench_leaves SUBJECT|all chain|fan COUNT"),
    }
}

// The words of the command line, without the program's name.
fn words(rt: HostRuntime) -> io::Result<Vec<String>> {
    let mut words = Vec::new(rt.alloc());
    for word in env::args(&rt)?.skip(1) {
        words.push(word)?;
    }
    Ok(words)
}

fn run(rt: HostRuntime, job: Job) -> io::Result<()> {
    for subject in SUBJECTS {
        if job.takes(subject) {
            measured(rt, job, subject)?;
        }
    }
    Ok(())
}

// One line: the subject, and how many things came out, or what went wrong.
fn measured(rt: HostRuntime, job: Job, subject: Subject) -> io::Result<()> {
    match measure::count_of(rt.alloc(), subject, job.shape, job.count) {
        Ok(count) => println!(rt; "{} {count}", subject.name()),
        Err(fault) => println!(rt; "{} {fault:?}", subject.name()),
    }
}
