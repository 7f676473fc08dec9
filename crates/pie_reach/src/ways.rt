//! Where a walk goes from each number.
ghost use Rattle.std.specs.Prelude.{◌≡◌, ℕ, ◌<◌, ◌≤◌, length, IfOk};
ghost use Rattle.pie_graph.specs.Numbers.{numbers};
ghost use Rattle.pie_graph.specs.Rows.{Calls};
ghost use Rattle.pie_reach.specs.inner.Walks.{GoesTo};

use pie_base::{MAX_TASKS, OutOfMemory};
use pie_graph::{TaskNo, TaskRows};
use std::alloc::Global;

/// Where a walk goes from each number.
pub trait Ways {
    ghost size: { Self → ℕ };

    ghost goes: { Self → ℕ → ℕ → Type 0 };

    /// How many numbers there are.
    fn size(&self) -> u32
        ensures size { result ≡ size self.now }
        ensures few { size self.now ≤ MAX_TASKS };

    /// The numbers to which one step leads.
    fn next(&self, alloc: Global, from: TaskNo) -> Result<Vec<TaskNo>, OutOfMemory>
        requires { from.0 < size self.now }
        ensures { IfOk result (λ found. GoesTo (size self.now) (goes self.now) from.0 (numbers found.items)) };
}

/// From a task to those that it requires.
pub struct Down<'a, R: TaskRows>(pub &'a R);

impl<'a, R: TaskRows> Drop for Down<'a, R> {
    fn drop(self) {
        let Down(_) = self;
    }
}

impl<'a, R: TaskRows> Ways for Down<'a, R> {
    ghost size = { λ s. length (R.rows s.0.now) };

    ghost goes = { λ s. Calls (R.rows s.0.now) };

    fn size(&self) -> u32 {
        self.0.count()
    }

    fn next(&self, alloc: Global, from: TaskNo) -> Result<Vec<TaskNo>, OutOfMemory> {
        let found = Vec::from_slice(alloc, self.0.callees(from))?;
        Ok(found)
    }
}

/// From a task to those that require it.
pub struct Up<'a, R: TaskRows>(pub &'a R);

impl<'a, R: TaskRows> Drop for Up<'a, R> {
    fn drop(self) {
        let Up(_) = self;
    }
}

impl<'a, R: TaskRows> Ways for Up<'a, R> {
    ghost size = { λ s. length (R.rows s.0.now) };

    ghost goes = { λ s a b. Calls (R.rows s.0.now) b a };

    fn size(&self) -> u32 {
        self.0.count()
    }

    fn next(&self, alloc: Global, from: TaskNo) -> Result<Vec<TaskNo>, OutOfMemory> {
        let _count = self.0.count();
        let found = self.0.callers(from)?;
        Ok(found)
    }
}
