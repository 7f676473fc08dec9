//! The effects: what is asked of the outside, and what its answers give.
ghost use Rattle.std.specs.Prelude.{◌≡◌, OnOk};
ghost use Rattle.pie_value.specs.Tree.{TPath};
ghost use Rattle.pie_value.specs.Values.{tree_of};
ghost use Rattle.pie_operators.specs.Domain.{by_answer, then_do, ticked};
ghost use Rattle.pie_operators.specs.Effects.{asked, fail as spec_fail, noted, observe as spec_observe, require as spec_require};
ghost use Rattle.pie_operators.specs.Effects.{taken as spec_taken, write as spec_write, write_bytes};
ghost use Rattle.pie_parser.specs.Plain.{TEffect, TWrite};
ghost use Rattle.pie_semantics.specs.Meaning.{value_of};
ghost use Rattle.pie_semantics.specs.Words.{effect_of};
ghost use Rattle.pie_semantics_program.specs.Coming.{Comes};

use crate::Evaluator;
use crate::names::Names;
use crate::stop::{Stop, stopped};
use pie_base::{FaultKind, OutOfMemory, Path, Text};
use pie_operators::{Observation, Question, is_content, may_observe, taken};
use pie_parser::{EffectKind, Expr};
use pie_value::{Answer, Blob, Builtin, By, How, Items, Task, Value};

impl Evaluator {
    // A keyword before one expression.
    #[cycle(value)]
    pub(crate) fn effect(
        &mut self,
        kind: EffectKind,
        a: &Expr,
        names: &Names,
    ) -> Result<Value, Stop>
        ensures { Comes tree_of result self.new (value_of (TEffect 0 0 kind a.now) names.now self.old) }
    {
        self.tick()?;
        let a = self.value(a, names)?;
        self.effect_of(kind, a)
    }

    // `write(path, content)`
    #[cycle(value)]
    pub(crate) fn write(
        &mut self,
        path: &Expr,
        content: &Expr,
        names: &Names,
    ) -> Result<Value, Stop>
        ensures { Comes tree_of result self.new (value_of (TWrite 0 0 path.now content.now) names.now self.old) }
    {
        self.tick()?;
        let path = self.value(path, names)?;
        let content = self.value(content, names)?;
        self.written(&path, &content)
    }

    // `fail T(text)`
    #[cycle(value)]
    pub(crate) fn fail(&mut self, text: &Expr, names: &Names) -> Result<Value, Stop>
        ensures { Comes tree_of result self.new (ticked (then_do (value_of text.now names.now) spec_fail) self.old) }
    {
        self.tick()?;
        let text = self.value(text, names)?;
        self.failed(text)
    }

    // What a keyword does with a value.
    fn effect_of(&mut self, kind: EffectKind, a: Value) -> Result<Value, Stop>
        ensures { Comes tree_of result self.new (effect_of kind (tree_of a) self.old) }
    {
        match kind {
            EffectKind::Path => self.path(a),
            EffectKind::Exists => self.observe(Observation::Exists, &a),
            EffectKind::Digest => self.observe(Observation::Digest, &a),
            EffectKind::List => self.observe(Observation::List, &a),
            EffectKind::Read => self.observe(Observation::Read(By::Hash), &a),
            EffectKind::ReadByHash => self.observe(Observation::Read(By::Hash), &a),
            EffectKind::ReadByMark => self.observe(Observation::Read(By::Mark), &a),
        }
    }

    // The path that a text spells.
    fn path(&mut self, text: Value) -> Result<Value, Stop>
        ensures { Comes tree_of result self.new (effect_of EffectKind.Path (tree_of text) self.old) }
    {
        let mut args = Items::new();
        args.push(self.alloc, text)?;
        self.built_in(Builtin::Path, &args)
    }

    // The task says that it fails.
    fn failed(&mut self, text: Value) -> Result<Value, Stop>
        ensures { Comes tree_of result self.new (spec_fail (tree_of text) self.old) }
    {
        match text {
            Value::Text(text) => Err(Stop::Fault(FaultKind::Said(text))),
            _ => Err(Stop::Fault(FaultKind::Unknown)),
        }
    }

    // An observation of a path.
    pub(crate) fn observe(&mut self, what: Observation, path: &Value) -> Result<Value, Stop>
        ensures { Comes tree_of result self.new (spec_observe what (tree_of path.now) self.old) }
    {
        match path {
            Value::Path(path) => self.observe_path(what, path.copy()?),
            _ => Err(Stop::Fault(FaultKind::Unknown)),
        }
    }

    fn observe_path(&mut self, what: Observation, path: Path) -> Result<Value, Stop>
        ensures { Comes tree_of result self.new (spec_observe what (TPath path) self.old) }
    {
        if may_observe(what, &path) {
            self.ask(Question::Observe(what, path))
        } else {
            Err(Stop::Fault(FaultKind::BadList))
        }
    }

    // A write of a text or of bytes.
    fn written(&mut self, path: &Value, content: &Value) -> Result<Value, Stop>
        ensures { Comes tree_of result self.new (spec_write (tree_of path.now) (tree_of content.now) self.old) }
    {
        match (path, content) {
            (Value::Path(path), Value::Text(text)) => {
                let path = path.copy()?;
                let bytes = Vec::from_slice(self.alloc, text.as_str().as_bytes())?;
                let bytes = Blob::shared(self.alloc, bytes)?;
                self.write_bytes(path, bytes)
            }
            (Value::Path(path), Value::Bytes(bytes)) => {
                let path = path.copy()?;
                let bytes = bytes.copy()?;
                self.write_bytes(path, bytes)
            }
            _ => Err(Stop::Fault(FaultKind::Unknown)),
        }
    }

    // A write to an out path that the task has neither written nor observed.
    fn write_bytes(&mut self, path: Path, bytes: Blob) -> Result<Value, Stop>
        ensures { Comes tree_of result self.new (write_bytes path bytes self.old) }
    {
        if !path.under_out() {
            return Err(Stop::Fault(FaultKind::BadWrite));
        }
        if self.wrote.contains(&path) {
            return Err(Stop::Fault(FaultKind::WroteTwice));
        }
        if self.seen.contains(&path) {
            return Err(Stop::Fault(FaultKind::ReadThenWrite));
        }
        self.ask(Question::Write(path, bytes))
    }

    // A task that is required, which has to keep the limits.
    pub(crate) fn require(&mut self, how: How, func: &Text, args: Items) -> Result<Value, Stop>
        ensures { Comes tree_of result self.new (spec_require how func.now args self.old) }
    {
        let task = Task {
            func: func.copy()?,
            args,
        };
        if task.is_small() {
            self.ask(Question::Require(task, how))
        } else {
            Err(Stop::Fault(FaultKind::Big))
        }
    }

    // A question is answered by the first answer that is left.
    fn ask(&mut self, question: Question) -> Result<Value, Stop>
        ensures { Comes tree_of result self.new (asked question self.old) }
    {
        match self.answers.pop_front() {
            None => Err(Stop::Wants(question.into_event())),
            Some(answer) => self.take(question, answer),
        }
    }

    // Takes the answer to a question.
    fn take(&mut self, question: Question, answer: Answer) -> Result<Value, Stop>
        ensures { Comes tree_of result self.new (by_answer (spec_taken question answer) (noted question self.old)) }
    {
        self.note(&question)?;
        self.taken(question, answer)
    }

    #[tactic(auto, using(crate::proofs::Settling::settled))]
    fn taken(&mut self, question: Question, answer: Answer) -> Result<Value, Stop>
        ensures { Comes tree_of result self.new (by_answer (spec_taken question answer) self.old) }
    {
        let value = taken(self.alloc, &question, answer);
        stopped(value)
    }

    // Notes the path that is observed or written.
    fn note(&mut self, question: &Question) -> Result<(), OutOfMemory>
        ensures { OnOk result (self.new ≡ noted question.now self.old) }
    {
        match question {
            Question::Observe(what, path) => {
                if is_content(*what) {
                    self.seen.add(path)?;
                }
                Ok(())
            }
            Question::Write(path, _) => self.wrote.add(path),
            Question::Require(_, _) => Ok(()),
        }
    }
}
