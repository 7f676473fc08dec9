//! The program `pie`: the words of its command line, over the current directory and the standard streams.
#![tactic(auto)]

use pie_base::{OutOfMemory, Status};
use pie_cli::run;
use pie_disk::{DirFiles, StdSink, StdSource, explain};
use std::env;
use std::io::ErrorKind;
use std::process::ExitCode;

fn main(rt: HostRuntime) -> ExitCode {
    let status = match words(rt) {
        Ok(words) => run_words(rt, words.as_slice()),
        Err(OutOfMemory) => Status::Memory,
    };
    if let Status::Memory = status {
        explain(rt, "out of memory");
    }
    ExitCode::from(status.code())
}

fn run_words(rt: HostRuntime, words: &[String]) -> Status {
    let mut files = if only_looks(words) {
        DirFiles::new(rt)
    } else {
        DirFiles::for_build(rt)
    };
    let mut input = StdSource::new(rt);
    let mut out = StdSink::new(rt);
    run(rt.alloc(), words, &mut files, &mut input, &mut out)
}

// Whether a command changes no file, so that it may run beside a build.
fn only_looks(words: &[String]) -> bool {
    match words.first() {
        Some(word) => matches!(word.as_str(), "check" | "scan"),
        None => false,
    }
}

// The words of the command line, without the program's name. Words that aren't UTF-8 are no
// command: they are answered as no words are.
fn words(rt: HostRuntime) -> Result<Vec<String>, OutOfMemory> {
    let mut words = Vec::new(rt.alloc());
    let arguments = match env::args(&rt) {
        Ok(arguments) => arguments,
        Err(e) if e.kind() == ErrorKind::OutOfMemory => return Err(OutOfMemory),
        Err(_) => return Ok(words),
    };
    for word in arguments.skip(1) {
        words.push(word)?;
    }
    Ok(words)
}
