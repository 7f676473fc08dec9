//! What a build does next, and what waits for it.

use pie_code::Checked;
use pie_graph::TaskNo;
use pie_record::TaskRecord;
use pie_running::{Caller, RunningTask};
use pie_store::Offer;

/// The offers for a task whose own record doesn't stand.
#[derive(Drop)]
pub(crate) enum Rest {
    /// They weren't asked for yet.
    Unasked,
    /// These are still to be tried, in order.
    Asked(Vec<Offer>),
}

/// A record that is held against what is there now.
#[derive(Drop)]
pub(crate) struct Check<'a> {
    pub(crate) no: TaskNo,
    pub(crate) code: &'a Checked,
    pub(crate) rec: TaskRecord,
    /// What it wrote, if it is an offered one; of the task's own record it is there.
    pub(crate) contents: Option<Vec<Vec<u8>>>,
    /// What may be tried where it differs.
    pub(crate) rest: Rest,
    /// Which of its observations comes next.
    pub(crate) at: usize,
    /// The numbers of the tasks that those before it required, in order.
    pub(crate) required: Vec<TaskNo>,
}

/// What a build does next.
#[derive(Drop)]
pub(crate) enum Hand<'a> {
    /// A task was entered that has this code.
    Enters(TaskNo, &'a Checked),
    /// A record is checked.
    Checks(Box<Check<'a>>),
    /// A task runs.
    Runs(RunningTask<'a>),
    /// A task has ended: what waits for it goes on.
    Ended,
}

/// What waits until a required task has ended.
#[derive(Drop)]
pub(crate) enum Frame<'a> {
    /// A check whose next observation is of that task.
    Checks(Box<Check<'a>>),
    /// A task that runs and requires it.
    Waits(Caller<'a>),
}

/// How a step ends.
#[derive(Drop)]
pub(crate) enum Turn<'a> {
    Goes(Hand<'a>),
    /// Nothing waits any more.
    Rests,
    /// One task more was to be entered than a build may have.
    Many,
    /// A task failed, and with it the build.
    Fails,
}
