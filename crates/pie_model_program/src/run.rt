//! Running tasks, event by event, and names kept in lists.

ghost use Rattle.std.specs.Prelude.{◌≡◌, ℕ, [], ◌∷◌, ◌++◌, IfOk, OnOk, Some};

use crate::setting::Setting;
use crate::sight::visible;
use pie_model::bytes::{Bytes, Names};
use pie_model::words::{Answer, FaultKind, How, Look, Outcome, Seen};
use std::alloc::{AllocError, Global};

/// How far a task has come.
#[derive(Drop)]
pub struct Run {
    /// What it was answered.
    pub answers: Vec<Answer>,
    /// Its writes: path and contents.
    pub own: Vec<(Bytes, Bytes)>,
    /// The paths under `out` that it found absent.
    pub absent: Names,
    /// All writes of what it required: task, path and contents.
    pub below: Vec<(Bytes, Bytes, Bytes)>,
    /// The tasks entered so far.
    pub entered: Names,
}

/// An evaluation's outcome, and all that is kept of it.
#[derive(Drop)]
pub struct Summary {
    /// How it ended.
    pub outcome: Outcome,
    /// What it did.
    pub run: Run,
}

impl Run {
    ghost use Rattle.pie_model.specs.Evaluation.{absent_answer, present_answer, output_answer, listing};
    ghost use Rattle.pie_model.specs.Paths.{kind_of};
    ghost use Rattle.pie_model.specs.Verdict.{absent_here};
    ghost use Rattle.pie_model.specs.declared.words.Answer.TheVariants.{Wrote};
    ghost use Rattle.pie_model.specs.declared.words.Seen.TheVariants.{Nothing};
    ghost use Rattle.pie_model_program.specs.Runs.{row_of, turn_of, IsListing, IsLook, IsSight, Misses};
    ghost use Rattle.pie_model_program.specs.Steps.{Goes, with_answer, by_seen, by_listing, by_outcome};
    ghost use Rattle.pie_model_program.specs.Written.{seen_by};

    /// A run that has done nothing, when these tasks are entered.
    pub fn new(alloc: Global, entered: Names) -> Run
        ensures { row_of result ≡ record { answers = []; own = []; absent = []; below = []; entered = entered } }
    {
        Run {
            answers: Vec::new(alloc),
            own: Vec::new(alloc),
            absent: Names::new(alloc),
            below: Vec::new(alloc),
            entered,
        }
    }

    /// One more answer.
    pub fn answer(&mut self, answer: Answer) -> Result<(), AllocError>
        ensures { OnOk result (row_of self.new ≡ with_answer (row_of self.old) answer) }
    {
        self.answers.push(answer)?;
        Ok(())
    }

    /// One more path under `out` that was found absent.
    fn miss<S: Setting>(
        &mut self,
        setting: &S,
        alloc: Global,
        path: &Bytes,
    ) -> Result<(), AllocError>
        ensures { OnOk result (Misses path.now self.old self.new) }
    {
        if setting.kind(path) == pie_model::words::Kind::Out {
            self.absent.push(path.copy(alloc)?)?;
        }
        Ok(())
    }

    /// After a look that saw this.
    fn see<S: Setting>(
        &mut self,
        setting: &S,
        alloc: Global,
        task: &Bytes,
        look: Look,
        path: &Bytes,
        seen: Seen,
    ) -> Result<Option<Outcome>, AllocError>
        ensures { IfOk result (λ o. IsSight (S.world setting.now) task.now look path.now seen self.old o self.new) }
    {
        match seen {
            Seen::Nothing => {
                self.answer(absent(look))?;
                self.miss(setting, alloc, path)?;
                Ok(None)
            }
            Seen::Holds(bytes, _) => {
                self.answer(present(setting, look, bytes)?)?;
                Ok(None)
            }
            Seen::Clashing => Ok(Some(Outcome::Failed(task.copy(alloc)?, FaultKind::Clash))),
        }
    }

    /// A look.
    pub fn look<S: Setting>(
        &mut self,
        setting: &S,
        alloc: Global,
        task: &Bytes,
        look: Look,
        path: &Bytes,
    ) -> Result<Option<Outcome>, AllocError>
        ensures { IfOk result (λ o. IsLook (S.world setting.now) (S.project setting.now) task.now look path.now self.old o self.new) }
    {
        let seen = visible(
            setting,
            alloc,
            self.own.as_slice(),
            self.below.as_slice(),
            path,
        )?;
        self.see(setting, alloc, task, look, path, seen)
    }

    /// A listing.
    pub fn list<S: Setting>(
        &mut self,
        setting: &S,
        alloc: Global,
        task: &Bytes,
        dir: &Bytes,
    ) -> Result<Option<Outcome>, AllocError>
        ensures { IfOk result (λ o. IsListing (S.world setting.now) (S.project setting.now) task.now dir.now self.old o self.new) }
    {
        match setting.listing(dir)? {
            Some(entries) => {
                self.answer(Answer::Entries(entries))?;
                Ok(None)
            }
            None => Ok(Some(Outcome::Failed(task.copy(alloc)?, FaultKind::Big))),
        }
    }

    /// A write.
    pub fn write(&mut self, path: Bytes, bytes: Bytes) -> Result<(), AllocError>
        ensures { OnOk result (row_of self.new ≡ record (with_answer (row_of self.old) Wrote) { own = (row_of self.old).own ++ (path, bytes) ∷ [] }) }
    {
        self.answer(Answer::Wrote)?;
        self.own.push((path, bytes))?;
        Ok(())
    }

    /// After a require whose task ended so.
    pub fn require(&mut self, how: How, outcome: Outcome) -> Result<Option<Outcome>, AllocError>
        ensures { IfOk result (λ o. turn_of o (row_of self.new) ≡ by_outcome how (row_of self.old) outcome) }
    {
        match outcome {
            Outcome::Ended(value) => {
                self.answer(output(how, value))?;
                Ok(None)
            }
            Outcome::Failed(task, kind) => Ok(Some(Outcome::Failed(task, kind))),
            Outcome::Cycled(tasks) => Ok(Some(Outcome::Cycled(tasks))),
            Outcome::Many => Ok(Some(Outcome::Many)),
        }
    }
}

ghost use Rattle.pie_model.specs.Evaluation.{absent_answer, present_answer, output_answer};

/// The answer of a look where nothing is there.
fn absent(look: Look) -> Answer
    ensures { result ≡ absent_answer look }
{
    match look {
        Look::Exists => Answer::Flag(false),
        Look::ByHash => Answer::Contents(None),
        Look::ByMark => Answer::Contents(None),
        Look::Digest => Answer::HashOf(None),
    }
}

/// The answer of a look at these contents.
fn present<S: Setting>(setting: &S, look: Look, bytes: Bytes) -> Result<Answer, AllocError>
    ensures { IfOk result (λ a. a ≡ present_answer (S.world setting.now) bytes look) }
{
    match look {
        Look::Exists => Ok(Answer::Flag(true)),
        Look::ByHash => Ok(Answer::Contents(Some(bytes))),
        Look::ByMark => Ok(Answer::Contents(Some(bytes))),
        Look::Digest => Ok(Answer::HashOf(Some(setting.hash(&bytes)?))),
    }
}

/// The answer of a require whose task ended with this value.
fn output(how: How, value: Bytes) -> Answer
    ensures { result ≡ output_answer value how }
{
    match how {
        How::Whole => Answer::Output(value),
        How::Hashed => Answer::Output(value),
        How::Ran => Answer::Succeeded,
    }
}
