//! The stack of a walk: each task on it requires the one above.
ghost use Rattle.std.specs.Prelude.{◌≡◌, [], ◌∷◌, List, OnOk, MatchOption};
ghost use Rattle.pie_walk.specs.declared.stack.Entry.{Entry};
ghost use Rattle.pie_walk.specs.States.{below};

use pie_base::OutOfMemory;
use pie_graph::TaskNo;
use std::alloc::Global;
use std::marker::Model;

/// What stands on the stack of a walk.
#[derive(Clone, Copy)]
pub enum Entry {
    /// The task is visited; what it requires before this place, counted from 0, is settled.
    Visit(TaskNo, usize),
    /// The task was taken. On top it goes on, below another one it waits for that one.
    Waits(TaskNo),
}

/// The entries. Contracts see them with the top first.
#[derive(Drop)]
pub(crate) struct Stack {
    entries: Vec<Entry>,
}

impl Model for Stack {
    ghost use Rattle.std.specs.Prelude.{List, reverse};
    ghost use Rattle.pie_walk.specs.declared.stack.Entry.{Entry};

    ghost Value = { List Entry };

    ghost view = { λ s. reverse s.entries.items };
}

impl Stack {
    /// No entries.
    pub(crate) fn new(alloc: Global) -> Stack
        ensures { result ≡ [] }
    {
        Stack {
            entries: Vec::new(alloc),
        }
    }

    /// Puts an entry on top.
    #[tactic(auto, using(crate::proofs::Reversed::reversed_end))]
    pub(crate) fn push(&mut self, entry: Entry) -> Result<(), OutOfMemory>
        ensures { OnOk result (self.new ≡ entry ∷ self.old) }
    {
        self.entries.push(entry)?;
        Ok(())
    }

    /// Takes the top away, if there is one.
    #[tactic(auto, using(crate::proofs::Reversed::reversed_end))]
    pub(crate) fn drop_top(&mut self)
        ensures { self.new ≡ below self.old }
    {
        let _top = self.entries.pop();
    }

    /// The top.
    #[tactic(auto, using(crate::proofs::Reversed::reversed_end))]
    pub(crate) fn top(&self) -> Option<Entry>
        ensures { MatchOption result (self.now ≡ []) (λ e. (es : List Entry) × (self.now ≡ e ∷ es)) }
    {
        self.entries.last().copied()
    }
}
