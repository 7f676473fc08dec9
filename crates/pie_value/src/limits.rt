//! The tests of the limits of a value and of a task.
ghost use Rattle.std.specs.Prelude.{◌≡◌, ◌+◌, length, IsTrue};
ghost use Rattle.pie_value.specs.Tree.{items_of};
ghost use Rattle.pie_value.specs.Values.{tree_of};
ghost use Rattle.pie_value.specs.Size.{capped_64};
ghost use Rattle.pie_value.specs.Canonical.{enc_task, IsEncodable, IsEncodableTask};
ghost use Rattle.pie_value.specs.Limits.{is_small, is_small_task, task_size};

use crate::{Task, Value, depth, size};
use pie_base::{MAX_DEPTH, MAX_VALUE_BYTES};

impl Value {
    /// Whether the value keeps the limits on canonical bytes and on depth; one that doesn't is the fault Big.
    #[tactic(auto, using(crate::proofs::Lengths::encodable_if_small))]
    pub fn is_small(&self) -> bool
        ensures limits { result ≡ is_small (tree_of self.now) }
        ensures encodable { IsTrue result → IsEncodable (tree_of self.now) }
    {
        size(self) <= MAX_VALUE_BYTES && depth(self) <= MAX_DEPTH
    }
}

impl Task {
    /// How many canonical bytes the task has, or the greatest number of 64 bits where there are more.
    #[tactic(auto, using(crate::proofs::Lengths::length_task))]
    pub fn size(&self) -> u64
        ensures size { result ≡ capped_64 (task_size self.now) }
        ensures bytes { result ≡ capped_64 (length (enc_task self.now)) }
    {
        let args = self.args.bytes().saturating_add(8);
        args.saturating_add(self.func.as_str().len() as u64)
    }

    /// Whether the task keeps the limits on canonical bytes and on depth; requiring one that doesn't is the fault Big.
    #[tactic(auto, using(crate::proofs::Lengths::encodable_task_if_small))]
    pub fn is_small(&self) -> bool
        ensures limits { result ≡ is_small_task self.now }
        ensures encodable { IsTrue result → IsEncodableTask self.now }
    {
        self.size() <= MAX_VALUE_BYTES && self.args.deepest() <= MAX_DEPTH
    }
}
