//! The top call.
ghost use Rattle.std.specs.Prelude.{◌≡◌, ◌≢◌, ◌<◌, ◌≤◌, true, map, string_bytes};
ghost use Rattle.pie_build.specs.Left.{KeepsRest};
ghost use Rattle.pie_files.specs.Faults.{Rose};
ghost use Rattle.pie_files.specs.Streams.{StaysInfallible};
ghost use Rattle.pie_words.specs.Commands.{words_of, texts_of, is_allowed};
ghost use Rattle.pie_words.specs.declared.command.Command.{Command};
ghost use Rattle.pie_cli.specs.Cached.{RunsCached};
ghost use Rattle.pie_cli.specs.Check.{RunsCheck};
ghost use Rattle.pie_cli.specs.Demo.{SaysDemo};
ghost use Rattle.pie_cli.specs.Does.{Does};
ghost use Rattle.pie_cli.specs.Fresh.{RunsFresh};
ghost use Rattle.pie_cli.specs.Replay.{RunsReplay, StepsLeave};
ghost use Rattle.pie_cli.specs.Listed.{RunsByList, RunsSaying};
ghost use Rattle.pie_cli.specs.Run.{is_answer, is_told, Ends, GainsPrefix, IsNoScript, IsUsage, NeedsNoInput, PrintsUsage, Shows, StaysWithin};
ghost use Rattle.pie_cli.specs.Topdown.{RunsTopdown};
ghost use Rattle.pie_cli.specs.inner.ByList.{says_of, ChangesNone, EndsWith, KeepsBy, LeavesWith, RestsBy, StopsRead};
ghost use Rattle.pie_cli.specs.inner.Played.{ChangesWithin, HasNoInput, HasNoScript, Plays};
ghost use Rattle.pie_cli.specs.inner.Unread.{EndsUnread};
ghost use Rattle.pie_replay.specs.Replays.{KeepsOthers};
ghost use Rattle.pie_script.specs.Steps.{plain};
ghost use Rattle.pie_report.specs.Refused.{bad_input_text};

use crate::cached::cached;
use crate::check::check;
use crate::clean::fresh;
use crate::demo::tell_demo;
use crate::finding::topdown;
use crate::incremental::bad_input;
use crate::listed::{ByList, with_list};
use crate::print::print_text;
use crate::script::replay_script;
use crate::told::CommandResult;
use pie_base::{OutOfMemory, Path, Status};
use pie_files::{Files, FilesError, Sink, SinkError, Source};
use pie_input::{LinesError, read_names, read_steps};
use pie_script::{InputFault, Step};
use pie_words::{Command, USAGE, WordsFault, read_words};
use std::alloc::Global;

/// Does what the words say, with these files, this input and this output, and answers the status
/// that the program ends with. Nothing is printed before the build has ended.
/// Rule: docs/BUILDING.md, "Statuses".
#[tactic(auto, using(crate::proofs::Rest::keeps_same))]
pub fn run<F: Files, I: Source, K: Sink>(
    alloc: Global,
    words: &[String],
    files: &mut F,
    input: &mut I,
    out: &mut K,
) -> Status
    ensures does { (command : Command) → is_allowed command ≡ true → texts_of words.now ≡ words_of command
        → Does F.holds F.moment F.left_since F.images F.asked F.faults I.left I.faults command files.old files.new input.old input.new (K.held out.old) (K.held out.new) result }
    ensures usage { IsUsage (texts_of words.now) → PrintsUsage files.old files.new (K.held out.old) (K.held out.new) result }
    ensures rest { StaysWithin (texts_of words.now) → KeepsRest (F.holds files.old) (F.holds files.new) }
    ensures ends { Ends (IsNoScript (texts_of words.now)) (F.faults files.old) (F.faults files.new) (I.faults input.old) (I.faults input.new) (K.faults out.old) (K.faults out.new) (K.held out.old) (K.held out.new) result }
    ensures infallible { StaysInfallible K.infallible K.faults out.old out.new }
    ensures input_infallible { StaysInfallible I.infallible I.faults input.old input.new }
    ensures input { NeedsNoInput (texts_of words.now) → (input.new ≡ input.old) × (result ≢ Status.Input) }
{
    match read_words(alloc, words) {
        Ok(command) => run_command(alloc, command, files, input, out),
        Err(WordsFault::Usage) => show(out, USAGE, Status::Usage),
        Err(WordsFault::OutOfMemory) => Status::Memory,
    }
}

// Does what a command asks for.
#[tactic(auto, using(crate::proofs::Rest::keeps_same))]
fn run_command<F: Files, I: Source, K: Sink>(
    alloc: Global,
    command: Command,
    files: &mut F,
    input: &mut I,
    out: &mut K,
) -> Status
    requires { is_allowed command ≡ true }
    ensures does { Does F.holds F.moment F.left_since F.images F.asked F.faults I.left I.faults command files.old files.new input.old input.new (K.held out.old) (K.held out.new) result }
    ensures rest { ChangesWithin command → KeepsRest (F.holds files.old) (F.holds files.new) }
    ensures ends { Ends (HasNoScript command) (F.faults files.old) (F.faults files.new) (I.faults input.old) (I.faults input.new) (K.faults out.old) (K.faults out.new) (K.held out.old) (K.held out.new) result }
    ensures infallible { StaysInfallible K.infallible K.faults out.old out.new }
    ensures input_infallible { StaysInfallible I.infallible I.faults input.old input.new }
    ensures input { HasNoInput command → (input.new ≡ input.old) × (result ≢ Status.Input) }
{
    match command {
        Command::Check => run_check(alloc, files, out),
        Command::Fresh(json) => run_fresh(alloc, files, out, json),
        Command::Build(json) => run_by_list(alloc, files, input, out, ByList::Build(json)),
        Command::Scan => run_by_list(alloc, files, input, out, ByList::Scan),
        Command::Auto => run_by_list(alloc, files, input, out, ByList::Auto),
        Command::Topdown(json) => run_topdown(alloc, files, out, json),
        Command::Cached => run_cached(alloc, files, out),
        Command::Replay(json) => run_replay(alloc, files, input, out, json),
        Command::Demo(seed, size) => run_demo(alloc, out, seed, size),
    }
}

// A clean build, with its report.
fn run_fresh<F: Files, K: Sink>(alloc: Global, files: &mut F, out: &mut K, json: bool) -> Status
    ensures fresh { RunsFresh F.holds F.moment F.left_since F.images F.asked F.faults json files.old files.new (K.held out.old) (K.held out.new) result }
    ensures rest { KeepsRest (F.holds files.old) (F.holds files.new) }
    ensures ends { EndsUnread (F.faults files.old) (F.faults files.new) (K.faults out.old) (K.faults out.new) (K.held out.old) (K.held out.new) result }
    ensures infallible { StaysInfallible K.infallible K.faults out.old out.new }
{
    match fresh(alloc, files, json) {
        Ok(told) => show_told(out, told),
        Err(FilesError::Failed) => show(out, "files fault\n", Status::Files),
        Err(FilesError::OutOfMemory) => Status::Memory,
    }
}

// A check, with its report.
#[tactic(auto, using(crate::proofs::Rest::keeps_same))]
fn run_check<F: Files, K: Sink>(alloc: Global, files: &mut F, out: &mut K) -> Status
    ensures check { RunsCheck F.holds F.moment F.left_since F.images F.asked F.faults files.old files.new (K.held out.old) (K.held out.new) result }
    ensures rest { KeepsRest (F.holds files.old) (F.holds files.new) }
    ensures ends { EndsUnread (F.faults files.old) (F.faults files.new) (K.faults out.old) (K.faults out.new) (K.held out.old) (K.held out.new) result }
    ensures infallible { StaysInfallible K.infallible K.faults out.old out.new }
{
    match check(alloc, files) {
        Ok(told) => show_told(out, told),
        Err(FilesError::Failed) => show(out, "files fault\n", Status::Files),
        Err(FilesError::OutOfMemory) => Status::Memory,
    }
}

// A command that reads a list of paths, with what it tells. The input is read first.
#[tactic(auto, using(crate::proofs::Rest::keeps_same))]
fn run_by_list<F: Files, I: Source, K: Sink>(
    alloc: Global,
    files: &mut F,
    input: &mut I,
    out: &mut K,
    which: ByList,
) -> Status
    ensures lists { RunsByList (says_of which (F.asked files.old) (F.asked files.new)) F.holds F.faults I.left I.faults files.old files.new input.old input.new (K.held out.old) (K.held out.new) result }
    ensures none { ChangesNone F.holds F.moment F.left_since F.images which files.old files.new }
    ensures stops { StopsRead F.holds F.moment F.left_since F.images which files.old files.new (I.left input.old) (I.left input.new) result }
    ensures rest { KeepsBy which (F.holds files.old) (F.holds files.new) }
    ensures ends { Ends (Unit {0}) (F.faults files.old) (F.faults files.new) (I.faults input.old) (I.faults input.new) (K.faults out.old) (K.faults out.new) (K.held out.old) (K.held out.new) result }
    ensures infallible { StaysInfallible K.infallible K.faults out.old out.new }
    ensures input_infallible { StaysInfallible I.infallible I.faults input.old input.new }
{
    match read_names(alloc, input) {
        Ok(paths) => do_by_list(alloc, files, out, paths.as_slice(), which),
        Err(LinesError::Bad(fault)) => show_bad(alloc, out, fault),
        Err(LinesError::Failed) => show(out, "input fault\n", Status::Input),
        Err(LinesError::OutOfMemory) => Status::Memory,
    }
}

// The same with these paths.
fn do_by_list<F: Files, K: Sink>(
    alloc: Global,
    files: &mut F,
    out: &mut K,
    paths: &[Path],
    which: ByList,
) -> Status
    ensures says { RunsSaying (says_of which (F.asked files.old) (F.asked files.new) paths.now) F.holds F.faults files.old files.new (K.held out.old) (K.held out.new) result }
    ensures none { ChangesNone F.holds F.moment F.left_since F.images which files.old files.new }
    ensures crash { LeavesWith F.holds F.moment F.left_since F.images which paths.now files.old files.new }
    ensures marked { EndsWith F.holds F.images which paths.now files.old files.new }
    ensures durable { is_answer result ≡ true → RestsBy F.holds F.images which files.old files.new }
    ensures rest { KeepsBy which (F.holds files.old) (F.holds files.new) }
    ensures ends { EndsUnread (F.faults files.old) (F.faults files.new) (K.faults out.old) (K.faults out.new) (K.held out.old) (K.held out.new) result }
    ensures infallible { StaysInfallible K.infallible K.faults out.old out.new }
{
    match with_list(alloc, files, paths, which) {
        Ok(told) => show_told(out, told),
        Err(FilesError::Failed) => show(out, "files fault\n", Status::Files),
        Err(FilesError::OutOfMemory) => Status::Memory,
    }
}

// A build without a list, with its report.
fn run_topdown<F: Files, K: Sink>(alloc: Global, files: &mut F, out: &mut K, json: bool) -> Status
    ensures topdown { RunsTopdown F.holds F.moment F.left_since F.images F.faults json files.old files.new (K.held out.old) (K.held out.new) result }
    ensures rest { KeepsRest (F.holds files.old) (F.holds files.new) }
    ensures ends { EndsUnread (F.faults files.old) (F.faults files.new) (K.faults out.old) (K.faults out.new) (K.held out.old) (K.held out.new) result }
    ensures infallible { StaysInfallible K.infallible K.faults out.old out.new }
{
    match topdown(alloc, files, json) {
        Ok(told) => show_told(out, told),
        Err(FilesError::Failed) => show(out, "files fault\n", Status::Files),
        Err(FilesError::OutOfMemory) => Status::Memory,
    }
}

// A build with the record cache, with its report.
fn run_cached<F: Files, K: Sink>(alloc: Global, files: &mut F, out: &mut K) -> Status
    ensures cached { RunsCached F.holds F.moment F.left_since F.images F.faults files.old files.new (K.held out.old) (K.held out.new) result }
    ensures ends { EndsUnread (F.faults files.old) (F.faults files.new) (K.faults out.old) (K.faults out.new) (K.held out.old) (K.held out.new) result }
    ensures infallible { StaysInfallible K.infallible K.faults out.old out.new }
{
    match cached(alloc, files) {
        Ok(told) => show_told(out, told),
        Err(FilesError::Failed) => show(out, "files fault\n", Status::Files),
        Err(FilesError::OutOfMemory) => Status::Memory,
    }
}

// The steps of a script, with the reports of its builds. The input is read first.
fn run_replay<F: Files, I: Source, K: Sink>(
    alloc: Global,
    files: &mut F,
    input: &mut I,
    out: &mut K,
    json: bool,
) -> Status
    ensures replay { RunsReplay F.holds F.moment F.left_since F.images F.asked F.faults I.left I.faults json files.old files.new input.old input.new (K.held out.old) (K.held out.new) result }
    ensures ends { Ends ⊥ (F.faults files.old) (F.faults files.new) (I.faults input.old) (I.faults input.new) (K.faults out.old) (K.faults out.new) (K.held out.old) (K.held out.new) result }
    ensures infallible { StaysInfallible K.infallible K.faults out.old out.new }
    ensures input_infallible { StaysInfallible I.infallible I.faults input.old input.new }
{
    match read_steps(alloc, input) {
        Ok(steps) => play(alloc, files, out, steps.as_slice(), json),
        Err(LinesError::Bad(why)) => show_bad(alloc, out, why),
        Err(LinesError::Failed) => show(out, "input fault\n", Status::Input),
        Err(LinesError::OutOfMemory) => Status::Memory,
    }
}

// These steps, with the reports of their builds.
fn play<F: Files, K: Sink>(
    alloc: Global,
    files: &mut F,
    out: &mut K,
    steps: &[Step],
    json: bool,
) -> Status
    ensures plays { Plays F.holds F.moment F.left_since F.images F.asked F.faults json (map plain steps.now) files.old files.new (K.held out.old) (K.held out.new) result }
    ensures rest { KeepsOthers (map plain steps.now) (F.holds files.old) (F.holds files.new) }
    ensures crash { StepsLeave F.holds F.moment F.left_since F.images (map plain steps.now) files.old files.new }
    ensures output { result ≡ Status.Output → Rose (K.faults out.old) (K.faults out.new) }
    ensures steady { is_told result ≡ true → K.faults out.new ≡ K.faults out.old }
    ensures infallible { StaysInfallible K.infallible K.faults out.old out.new }
{
    match replay_script(alloc, files, steps, json) {
        Ok(told) => show(out, told.text.as_str(), told.status),
        Err(OutOfMemory) => Status::Memory,
    }
}

// A demo in memory, with its summary.
fn run_demo<K: Sink>(alloc: Global, out: &mut K, seed: u64, size: u32) -> Status
    requires some { 0 < size }
    requires few { size ≤ 1000 }
    ensures says { SaysDemo seed size (K.held out.old) (K.held out.new) result }
    ensures output { result ≡ Status.Output → Rose (K.faults out.old) (K.faults out.new) }
    ensures steady { is_told result ≡ true → K.faults out.new ≡ K.faults out.old }
    ensures infallible { StaysInfallible K.infallible K.faults out.old out.new }
{
    match tell_demo(alloc, seed, size) {
        Ok(told) => show_told(out, told),
        Err(OutOfMemory) => Status::Memory,
    }
}

// Why an input is refused.
fn show_bad<K: Sink>(alloc: Global, out: &mut K, fault: InputFault) -> Status
    ensures shown { Shows (K.held out.old) (K.held out.new) (bad_input_text fault) Status.BadInput result }
    ensures prefix { GainsPrefix (K.held out.old) (K.held out.new) (bad_input_text fault) }
    ensures output { result ≡ Status.Output → Rose (K.faults out.old) (K.faults out.new) }
    ensures steady { is_told result ≡ true → K.faults out.new ≡ K.faults out.old }
    ensures infallible { StaysInfallible K.infallible K.faults out.old out.new }
{
    match bad_input(alloc, fault) {
        Ok(told) => show_told(out, told),
        Err(OutOfMemory) => Status::Memory,
    }
}

fn show_told<K: Sink>(out: &mut K, told: CommandResult) -> Status
    requires { is_answer told.status ≡ true }
    ensures shown { Shows (K.held out.old) (K.held out.new) (string_bytes told.text) told.status result }
    ensures prefix { GainsPrefix (K.held out.old) (K.held out.new) (string_bytes told.text) }
    ensures output { result ≡ Status.Output → Rose (K.faults out.old) (K.faults out.new) }
    ensures steady { is_told result ≡ true → K.faults out.new ≡ K.faults out.old }
    ensures infallible { StaysInfallible K.infallible K.faults out.old out.new }
{
    show(out, told.text.as_str(), told.status)
}

// Prints a text, and answers this status where all of it was printed.
fn show<K: Sink>(out: &mut K, text: &str, status: Status) -> Status
    requires { is_told status ≡ true }
    ensures shown { Shows (K.held out.old) (K.held out.new) text.now status result }
    ensures prefix { GainsPrefix (K.held out.old) (K.held out.new) text.now }
    ensures output { result ≡ Status.Output → Rose (K.faults out.old) (K.faults out.new) }
    ensures steady { is_told result ≡ true → K.faults out.new ≡ K.faults out.old }
    ensures infallible { StaysInfallible K.infallible K.faults out.old out.new }
{
    match print_text(out, text.as_bytes()) {
        Ok(()) => status,
        Err(SinkError::Failed) => Status::Output,
        Err(SinkError::OutOfMemory) => Status::Memory,
    }
}
