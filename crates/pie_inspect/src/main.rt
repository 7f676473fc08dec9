//! The program `pie-inspect`: what a person asks of a project that `pie` builds. It changes no file.
#![tactic(auto)]

use pie_base::{OutOfMemory, Status};
use pie_disk::{DirFiles, StdSink, StdSource, explain};
use pie_doctor::DirLook;
use pie_inspect_cli::run;
use std::env;
use std::io::ErrorKind;
use std::process::ExitCode;

fn main(rt: HostRuntime) -> ExitCode {
    let status = match words(rt) {
        Ok(words) => run_words(rt, words.as_slice()),
        Err(OutOfMemory) => Status::Memory,
    };
    if let Status::Memory = status {
        explain(rt, "out of memory");
    }
    ExitCode::from(status.code())
}

fn run_words(rt: HostRuntime, words: &[String]) -> Status {
    match DirLook::new(rt) {
        Ok(look) => run_looking(rt, words, &look),
        Err(OutOfMemory) => Status::Memory,
    }
}

fn run_looking(rt: HostRuntime, words: &[String], look: &DirLook) -> Status {
    let mut files = DirFiles::new(rt);
    let mut input = StdSource::new(rt);
    let mut out = StdSink::new(rt);
    run(rt.alloc(), words, &mut files, look, &mut input, &mut out)
}

// The words of the command line, without the program's name. Words that aren't UTF-8 ask for nothing.
fn words(rt: HostRuntime) -> Result<Vec<String>, OutOfMemory> {
    let mut words = Vec::new(rt.alloc());
    let arguments = match env::args(&rt) {
        Ok(arguments) => arguments,
        Err(e) if e.kind() == ErrorKind::OutOfMemory => return Err(OutOfMemory),
        Err(_) => return Ok(words),
    };
    for word in arguments.skip(1) {
        words.push(word)?;
    }
    Ok(words)
}
