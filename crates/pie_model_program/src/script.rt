//! A project whose tasks make fixed events, to try the plain program and later bodies on.

ghost use Rattle.std.specs.Prelude.{◌≡◌, ℕ, IfOk, bytes_eq, cond, false, option_map, true};
ghost use Rattle.pie_model.specs.Paths.{kind_of, first_segment, among, kept_names};
ghost use Rattle.pie_model_program.specs.Kinds.{has_slash};
ghost use Rattle.pie_model_program.specs.Script.{event_in, file_in};

use crate::setting::{File, Setting};
use pie_model::bytes::{Bytes, Names};
use pie_model::words::{Answer, Event, FaultKind, Kind};
use std::alloc::{AllocError, Global};

/// What a task does when it has had so many answers.
#[derive(Drop)]
pub struct Line {
    /// The task.
    pub task: Bytes,
    /// How many answers it has had.
    pub answers: usize,
    /// Its event then.
    pub event: Event,
}

/// A project whose tasks make fixed events. Contents are their own hash, and no directory has an entry.
#[derive(Drop)]
pub struct Script {
    /// The events of the tasks.
    pub lines: Vec<Line>,
    /// The source files.
    pub files: Vec<(Bytes, Bytes)>,
    /// How many tasks may be entered.
    pub most_tasks: u64,
    /// How many events a task may make.
    pub most_events: u64,
    /// Where copies are kept.
    pub alloc: Global,
}

/// Whether the first segment of a path is this name.
pub fn starts(path: &[u8], name: &[u8]) -> bool
    ensures { result ≡ bytes_eq (first_segment path.now) name.now }
{
    match path {
        [] => name.is_empty(),
        [first, rest @ ..] => {
            if *first == 47 {
                return name.is_empty();
            }
            match name {
                [] => false,
                [other, more @ ..] => {
                    if *first != *other {
                        return false;
                    }
                    starts(rest, more)
                }
            }
        }
    }
}

/// Whether a path has more than one segment.
pub fn has_more(path: &[u8]) -> bool
    ensures { result ≡ has_slash path.now }
{
    match path {
        [] => false,
        [first, rest @ ..] => {
            if *first == 47 {
                return true;
            }
            has_more(rest)
        }
    }
}

/// Whether a path is one of those that the builder keeps for itself, but for `out`.
fn is_kept(path: &[u8]) -> bool
    ensures { result ≡ among (first_segment path.now) kept_names }
{
    if starts(path, b".pie") {
        return true;
    }
    if starts(path, b"pie.pipeline") {
        return true;
    }
    if starts(path, b"pie.roots") {
        return true;
    }
    false
}

/// The kind by these tests.
fn kind_by_tests(out: bool, more: bool, kept: bool) -> Kind
    ensures { result ≡ cond out (cond more Kind.Out Kind.Kept) (cond kept Kind.Kept Kind.Source) }
{
    match (out, more, kept) {
        (true, true, _) => Kind::Out,
        (true, false, _) => Kind::Kept,
        (false, _, true) => Kind::Kept,
        (false, _, false) => Kind::Source,
    }
}

/// The kind of a path.
pub fn kind_at(path: &[u8]) -> Kind
    ensures { result ≡ kind_of path.now }
{
    let out = starts(path, b"out");
    let more = has_more(path);
    let kept = is_kept(path);
    kind_by_tests(out, more, kept)
}

/// The event of a task when it has had so many answers.
fn event_at(
    alloc: Global,
    lines: &[Line],
    task: &Bytes,
    answers: usize,
) -> Result<Event, AllocError>
    ensures { IfOk result (λ e. e ≡ event_in lines.now task.now answers) }
{
    match lines {
        [] => Ok(Event::Fail(FaultKind::Unknown)),
        [first, rest @ ..] => {
            if task.same(&first.task) && answers == first.answers {
                return copied(alloc, &first.event);
            }
            event_at(alloc, rest, task, answers)
        }
    }
}

/// An equal event.
fn copied(alloc: Global, event: &Event) -> Result<Event, AllocError>
    ensures { IfOk result (λ e. e ≡ event.now) }
{
    match event {
        Event::Done(value) => Ok(Event::Done(value.copy(alloc)?)),
        Event::Fail(kind) => Ok(Event::Fail(copied_kind(alloc, kind)?)),
        Event::LookAt(look, path) => Ok(Event::LookAt(*look, path.copy(alloc)?)),
        Event::ListOf(dir) => Ok(Event::ListOf(dir.copy(alloc)?)),
        Event::Write(path, bytes) => Ok(Event::Write(path.copy(alloc)?, bytes.copy(alloc)?)),
        Event::Require(how, task) => Ok(Event::Require(*how, task.copy(alloc)?)),
    }
}

/// An equal fault.
fn copied_kind(alloc: Global, kind: &FaultKind) -> Result<FaultKind, AllocError>
    ensures { IfOk result (λ k. k ≡ kind.now) }
{
    match kind {
        FaultKind::NotText => Ok(FaultKind::NotText),
        FaultKind::BadPath => Ok(FaultKind::BadPath),
        FaultKind::BadWrite => Ok(FaultKind::BadWrite),
        FaultKind::WroteTwice => Ok(FaultKind::WroteTwice),
        FaultKind::ReadThenWrite => Ok(FaultKind::ReadThenWrite),
        FaultKind::Clash => Ok(FaultKind::Clash),
        FaultKind::Budget => Ok(FaultKind::Budget),
        FaultKind::Big => Ok(FaultKind::Big),
        FaultKind::Overflow => Ok(FaultKind::Overflow),
        FaultKind::Zero => Ok(FaultKind::Zero),
        FaultKind::Null => Ok(FaultKind::Null),
        FaultKind::Said(text) => Ok(FaultKind::Said(text.copy(alloc)?)),
        FaultKind::Range => Ok(FaultKind::Range),
        FaultKind::BadList => Ok(FaultKind::BadList),
        FaultKind::Unknown => Ok(FaultKind::Unknown),
    }
}

/// The file at a path.
fn file_at(
    alloc: Global,
    files: &[(Bytes, Bytes)],
    path: &Bytes,
) -> Result<Option<File>, AllocError>
    ensures { IfOk result (λ f. option_map (λ x. (x.bytes, x.mark)) f ≡ file_in files.now path.now) }
{
    match files {
        [] => Ok(None),
        [first, rest @ ..] => {
            if path.same(&first.0) {
                return Ok(Some(File {
                    bytes: first.1.copy(alloc)?,
                    mark: 0,
                }));
            }
            file_at(alloc, rest, path)
        }
    }
}

impl Setting for Script {
    ghost use Rattle.pie_model_program.specs.Script.{world_of, project_of};

    ghost world = { world_of };

    ghost project = { project_of };

    fn next(&self, task: &Bytes, answers: &[Answer]) -> Result<Event, AllocError> {
        let event = event_at(self.alloc, self.lines.as_slice(), task, answers.len())?;
        Ok(event)
    }

    fn file(&self, path: &Bytes) -> Result<Option<File>, AllocError> {
        let file = file_at(self.alloc, self.files.as_slice(), path)?;
        Ok(file)
    }

    fn listing(&self, _dir: &Bytes) -> Result<Option<Names>, AllocError> {
        Ok(Some(Names::new(self.alloc)))
    }

    fn hash(&self, bytes: &Bytes) -> Result<Bytes, AllocError> {
        let hash = bytes.copy(self.alloc)?;
        Ok(hash)
    }

    fn kind(&self, path: &Bytes) -> Kind {
        kind_at(path.as_slice())
    }

    fn most_tasks(&self) -> u64 {
        self.most_tasks
    }

    fn most_events(&self) -> u64 {
        self.most_events
    }
}
