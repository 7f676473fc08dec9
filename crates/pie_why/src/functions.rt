//! Whether the functions of old tasks are as the store has them.
ghost use Rattle.std.specs.Prelude.{◌≡◌, false, map, slice_index_or, IfOk};
ghost use Rattle.pie_old.specs.inner.Code.{is_same_code};

use crate::reason::FunctionNow;
use pie_base::{OutOfMemory, Text};
use pie_graph::TaskNo;
use pie_old::same_code;
use pie_value::Task;
use std::alloc::Global;

/// Of each old task whether its function is as it was, is in the pipeline, and is known to the store.
#[derive(Drop)]
pub(crate) struct Functions {
    pub(crate) same: Vec<bool>,
    there: Vec<bool>,
    stored: Vec<bool>,
}

impl Functions {
    /// Of these tasks, where these are the functions of the store and of the pipeline, with their digests.
    pub(crate) fn of(
        alloc: Global,
        tasks: &[Task],
        old: &[(Text, [u8; 32])],
        now: &[(Text, [u8; 32])],
    ) -> Result<Functions, OutOfMemory>
        ensures { IfOk result (λ f. f.same.items ≡ map (λ t. is_same_code old.now now.now t.func) tasks.now) }
    {
        let same = same_code(alloc, tasks, old, now)?;
        let there = same_code(alloc, tasks, now, now)?;
        let stored = same_code(alloc, tasks, old, old)?;
        Ok(Functions {
            same,
            there,
            stored,
        })
    }

    /// How the function of a task isn't as it was, if it isn't.
    pub(crate) fn change(&self, no: TaskNo) -> Option<FunctionNow> {
        if flag_of(self.same.as_slice(), no) {
            return None;
        }
        if !flag_of(self.there.as_slice(), no) {
            return Some(FunctionNow::Gone);
        }
        if !flag_of(self.stored.as_slice(), no) {
            return Some(FunctionNow::Unknown);
        }
        Some(FunctionNow::Changed)
    }
}

/// The flag of a task, false past the last.
pub(crate) fn flag_of(flags: &[bool], no: TaskNo) -> bool
    ensures { result ≡ slice_index_or flags.now no.0 false }
{
    match flags.get(no.0 as usize) {
        Some(flag) => *flag,
        None => false,
    }
}
