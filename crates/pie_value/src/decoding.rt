//! Reading canonical bytes. Rule: docs/FORMATS.md, "Values". Bytes are read once from the left, so the first
//! fault met is the one at the least place.
ghost use Rattle.std.specs.Prelude.{ℕ, [], take, IfOk};
ghost use Rattle.pie_value.specs.Tree.{Tree};
ghost use Rattle.pie_value.specs.Values.{tree_of};
ghost use Rattle.pie_value.specs.Canonical.{IsCanonical, IsCanonicalTask};
ghost use Rattle.pie_value.specs.inner.Agreement.{ValueAgrees, ValueAgreesOnPrefix, Refuses};
ghost use Rattle.pie_value.specs.Reading.{value_prefix, value_whole, task_prefix};

use crate::reader::Reader;
use crate::{Task, Value, ValueFault};
use std::alloc::Global;

/// The value whose canonical bytes these are.
pub fn decode(alloc: Global, bytes: &[u8]) -> Result<Value, ValueFault>
    ensures answer { ValueAgrees tree_of result [] (value_whole bytes.now) }
    ensures canonical { IfOk result (λ value. IsCanonical (tree_of value) bytes.now) }
    ensures refused { Refuses result → (t : Tree) → ¬ (IsCanonical t bytes.now) }
{
    Reader::whole(alloc, bytes)
}

/// The value whose canonical bytes stand in front, and how many these are. Bytes after them are no fault.
pub fn decode_front(alloc: Global, bytes: &[u8]) -> Result<(Value, usize), ValueFault>
    ensures answer { ValueAgreesOnPrefix tree_of result bytes.now (value_prefix bytes.now) }
    ensures canonical { IfOk result (λ found. IsCanonical (tree_of found.0) (take found.1 bytes.now)) }
    ensures refused { Refuses result → (t : Tree) (n : ℕ) → ¬ (IsCanonical t (take n bytes.now)) }
{
    Reader::value_in_front(alloc, bytes)
}

/// The task whose canonical bytes stand in front, and how many these are. Bytes after them are no fault.
pub fn decode_task_front(alloc: Global, bytes: &[u8]) -> Result<(Task, usize), ValueFault>
    ensures answer { ValueAgreesOnPrefix (λ t. t) result bytes.now (task_prefix bytes.now) }
    ensures canonical { IfOk result (λ found. IsCanonicalTask found.0 (take found.1 bytes.now)) }
    ensures refused { Refuses result → (t : Task) (n : ℕ) → ¬ (IsCanonicalTask t (take n bytes.now)) }
{
    Reader::task_in_front(alloc, bytes)
}
