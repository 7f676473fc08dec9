//! Tasks that are entered.
ghost use Rattle.std.specs.Prelude.{◌≡◌, length, IfOk, OnOk};
ghost use Rattle.pie_topdown.specs.inner.Entries.{HasEntered, MayEnter};
ghost use Rattle.pie_topdown.specs.inner.Frames.{MayStart, IsSite};
ghost use Rattle.pie_topdown.specs.inner.Handed.{MayGainTask};
ghost use Rattle.pie_topdown.specs.inner.Right.{EntersSite};
ghost use Rattle.pie_topdown.specs.inner.Steps.{GainsOne};

use crate::builder::Builder;
use pie_base::{MAX_TASKS, OutOfMemory};
use pie_code::Checked;
use pie_graph::TaskNo;
use pie_running::code_of;
use pie_value::Task;

/// Whether a task may be entered.
#[derive(Drop)]
pub(crate) enum Entry<'a> {
    /// It has this code.
    May(&'a Checked),
    /// It is of no function of the pipeline.
    Unknown,
    /// As many tasks were entered as a build may have.
    Full,
}

impl<'a> Builder<'a> {
    /// Whether a task that wasn't entered may be.
    pub(crate) fn entry(&self, task: &Task) -> Entry<'a>
        ensures { MayEnter self.now task.now result }
    {
        if self.ledger.tables.names.as_slice().len() >= MAX_TASKS as usize {
            return Entry::Full;
        }
        match code_of(self.plan.typed, self.plan.code, task) {
            Some(code) => Entry::May(code),
            None => Entry::Unknown,
        }
    }

    /// A task with this code is entered.
    pub(crate) fn enter(&mut self, task: Task, code: &'a Checked) -> Result<TaskNo, OutOfMemory>
        requires { MayGainTask self.old task code.now.params }
        ensures site { OnOk result (IsSite self.new) }
        ensures starts { IfOk result (λ no. MayStart self.new.ledger no.0 code.now.params) }
        ensures number { IfOk result (λ no. no.0 ≡ length self.old.ledger.tables.names) }
        ensures stack { self.new.stack ≡ self.old.stack }
        ensures gains { OnOk result (GainsOne self.old self.new) }
        ensures added { OnOk result (HasEntered self.old task self.new) }
        ensures right { OnOk result (EntersSite self.old task self.new) }
    {
        let no = self.ledger.add(task)?;
        Ok(no)
    }
}
