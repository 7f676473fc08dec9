//! The top call.
ghost use Rattle.std.specs.Prelude.{◌≡◌, true, map, string_bytes, IfSome, OnOk};
ghost use Rattle.pie_inspect_cli.specs.Checked.{Gains, HasChecked, check_words, is_answer};
ghost use Rattle.pie_inspect_cli.specs.inner.Told.{Shows};

use crate::checking::{Told, checked};
use crate::looking::{Lookup, looked_up};
use crate::reasons::{Asked, reasoned};
use crate::request::{Request, request_of};
use pie_base::{OutOfMemory, Status};
use pie_doctor::{Look, examined};
use pie_files::{Files, FilesError, Sink, SinkError, Source};
use pie_input::{LinesError, read_names};
use pie_report::bad_input;
use pie_script::InputFault;
use std::alloc::Global;

const USAGE: &str =
    "usage: pie-inspect check | why [--json] | why TASK | tasks [PREFIX] | who PATH | graph [--dot|--json] | store | doctor | help [COMMAND] | --help | --version\n";

const HELP: &str =
    "pie-inspect tells what a builder knows of the project in the current directory, and changes no file.

usage: pie-inspect check           what stands in the way of a build: the first refusal of pie.pipeline and pie.roots, with a hint
       pie-inspect why [--json]    which tasks a build would run first, for which reasons, and which may follow; its input lists
                                   the paths that may have changed, one a line, as for pie build
       pie-inspect why TASK        what a task of the last build read, required and wrote, and which of it isn't now as it was
       pie-inspect tasks [PREFIX]  the tasks of the last build whose printed form begins with PREFIX
       pie-inspect who PATH        the tasks of the last build that write PATH, read it, or list a folder above it
       pie-inspect graph [--dot]   the last build as a graph: pie-inspect graph | dot -Tsvg >graph.svg
       pie-inspect graph --json    the same as one line of JSON
       pie-inspect store           how large the store of the last build is, its largest records, and the digests of its functions
       pie-inspect doctor          what in this folder a build would answer `files fault` to, and entries that no task sees
       pie-inspect help COMMAND    more about a command, with an example
       pie-inspect --help          this text
       pie-inspect --version

It ends with 0 where it tells that, with 1 where the project is refused, there is no store, PATH is no path, no task of the last build is printed as TASK or doctor found
something, with 2 where the words are none of these, with 3 where a line of the input is no path, with 5 where a file can't be read, with 6 where the input fails, with 7 where
the output fails, and with 8 where it is out of memory.
";

const VERSION: &str = "pie-inspect 0\n";

/// Does what the words ask for, with these files, these looks at the folder, this input and this output, and answers the status that the program ends with. It changes no
/// file: the looks are lent by a shared reference, and none of their calls changes anything. The input is read by `why` alone. Rule: docs/INSPECT.md.
#[tactic(auto, using(crate::proofs::FirstRefusal::has_checked))]
pub fn run<F: Files, L: Look, I: Source, K: Sink>(
    alloc: Global,
    words: &[String],
    files: &mut F,
    look: &L,
    input: &mut I,
    out: &mut K,
) -> Status
    ensures checked { map string_bytes words.now ≡ check_words → is_answer result ≡ true → IfSome (F.holds files.old) (λ d. HasChecked d (K.held out.old) (K.held out.new) result) }
    ensures same { F.holds files.new ≡ F.holds files.old }
{
    match request_of(words) {
        Some(Request::Check) => show_told(out, checked(alloc, files)),
        Some(Request::Tasks(prefix)) => show_told(
            out,
            looked_up(alloc, files, Lookup::Tasks(prefix)),
        ),
        Some(Request::Who(path)) => show_told(out, looked_up(alloc, files, Lookup::Who(path))),
        Some(Request::Graph(is_json)) => show_told(
            out,
            looked_up(alloc, files, Lookup::Graph(is_json)),
        ),
        Some(Request::Why(is_json)) => show_why(alloc, files, input, out, is_json),
        Some(Request::WhyTask(task)) => show_told(out, reasoned(alloc, files, Asked::One(task))),
        Some(Request::Store) => show_told(out, looked_up(alloc, files, Lookup::Store)),
        Some(Request::Doctor) => show_examined(out, doctored(alloc, look)),
        Some(Request::Help) => show(out, HELP, Status::Ok),
        Some(Request::HelpOf(text)) => show(out, text, Status::Ok),
        Some(Request::Version) => show(out, VERSION, Status::Ok),
        None => show(out, USAGE, Status::Usage),
    }
}

// What is found in the folder. The status is that of a refusal where something is.
fn doctored<L: Look>(alloc: Global, look: &L) -> Result<Told, OutOfMemory> {
    let report = examined(alloc, look)?;
    let text = report.told()?;
    let status = if report.is_ok() {
        Status::Ok
    } else {
        Status::Refused
    };
    Ok(Told { text, status })
}

fn show_examined<K: Sink>(out: &mut K, told: Result<Told, OutOfMemory>) -> Status {
    match told {
        Ok(told) => show(out, told.text.as_str(), told.status),
        Err(OutOfMemory) => Status::Memory,
    }
}

// What a build would run where the paths that the input lists may have changed. The input is read first.
fn show_why<F: Files, I: Source, K: Sink>(
    alloc: Global,
    files: &mut F,
    input: &mut I,
    out: &mut K,
    is_json: bool,
) -> Status
    ensures same { F.holds files.new ≡ F.holds files.old }
{
    match read_names(alloc, input) {
        Ok(names) => show_told(
            out,
            reasoned(alloc, files, Asked::All(names.as_slice(), is_json)),
        ),
        Err(LinesError::Bad(fault)) => show_bad(alloc, out, fault),
        Err(LinesError::Failed) => show(out, "the input can't be read\n", Status::Input),
        Err(LinesError::OutOfMemory) => Status::Memory,
    }
}

// Why the input is refused.
fn show_bad<K: Sink>(alloc: Global, out: &mut K, fault: InputFault) -> Status {
    match bad_input(alloc, fault) {
        Ok(text) => show(out, text.as_str(), Status::BadInput),
        Err(OutOfMemory) => Status::Memory,
    }
}

// Prints what is told, or that a file can't be read.
fn show_told<K: Sink>(out: &mut K, told: Result<Told, FilesError>) -> Status
    ensures { is_answer result ≡ true → Shows (K.held out.old) (K.held out.new) told result }
{
    match told {
        Ok(told) => show(out, told.text.as_str(), told.status),
        Err(FilesError::Failed) => show(out, "a file can't be read\n", Status::Files),
        Err(FilesError::OutOfMemory) => Status::Memory,
    }
}

// Prints a text, and answers a status, or that the output failed.
fn show<K: Sink>(out: &mut K, text: &str, status: Status) -> Status
    ensures shown { is_answer result ≡ true → Gains (K.held out.old) (K.held out.new) text.now }
    ensures status { is_answer result ≡ true → result ≡ status }
{
    match put_all(out, text.as_bytes()) {
        Ok(()) => status,
        Err(SinkError::Failed) => Status::Output,
        Err(SinkError::OutOfMemory) => Status::Memory,
    }
}

#[tactic(auto, using(crate::proofs::Printing::begun, crate::proofs::Printing::more, crate::proofs::Printing::ended))]
fn put_all<K: Sink>(out: &mut K, text: &[u8]) -> Result<(), SinkError>
    ensures { OnOk result (Gains (K.held out.old) (K.held out.new) text.now) }
{
    let mut left = text;
    'pieces: while !left.is_empty() {
        let n = out.put(left)?;
        left = &left[n..];
    }
    Ok(())
}
