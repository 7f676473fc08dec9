//! What the plain program is given: what tasks do, the source files, and the limits.

ghost use Rattle.std.specs.Prelude.{◌≡◌, ℕ, IfOk, option_map};
ghost use Rattle.pie_model.specs.Evaluation.{World, Project, listing};
ghost use Rattle.pie_model.specs.Paths.{kind_of};

use pie_model::bytes::{Bytes, Names};
use pie_model::words::{Answer, Event, Kind};
use std::alloc::AllocError;

/// A source file.
#[derive(Drop)]
pub struct File {
    /// Its contents.
    pub bytes: Bytes,
    /// Its mark.
    pub mark: u64,
}

/// A project and the limits, as the plain program asks for them.
pub trait Setting {
    ghost world: { Self → World };

    ghost project: { Self → Project };

    /// What the task does next after these answers.
    fn next(&self, task: &Bytes, answers: &[Answer]) -> Result<Event, AllocError>
        ensures { IfOk result (λ e. e ≡ (project self.now).next task.now answers.now) };

    /// The source file at the path, if there is one.
    fn file(&self, path: &Bytes) -> Result<Option<File>, AllocError>
        ensures { IfOk result (λ f. option_map (λ x. (x.bytes, x.mark)) f ≡ (project self.now).file path.now) };

    /// The entries of the directory, unless they are too many.
    fn listing(&self, dir: &Bytes) -> Result<Option<Names>, AllocError>
        ensures { IfOk result (λ l. l ≡ listing (world self.now) (project self.now) dir.now) };

    /// The hash of contents.
    fn hash(&self, bytes: &Bytes) -> Result<Bytes, AllocError>
        ensures { IfOk result (λ h. h ≡ (world self.now).hash bytes.now) };

    /// The kind of a path.
    fn kind(&self, path: &Bytes) -> Kind
        ensures { result ≡ kind_of path.now };

    /// How many tasks may be entered.
    fn most_tasks(&self) -> u64
        ensures { result ≡ (world self.now).most_tasks };

    /// How many events a task may make.
    fn most_events(&self) -> u64
        ensures { result ≡ (world self.now).most_events };
}
