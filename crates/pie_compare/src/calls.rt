//! Whether observations of required tasks stand.
ghost use Rattle.std.specs.Prelude.{◌≡◌, ◌↔◌, ◌++◌, ◌∷◌, [], IfOk, IsTrue, Some};
ghost use Rattle.sha2.specs.Sha256.{sha256};
ghost use Rattle.pie_value.specs.Canonical.{enc, IsEncodable, IsEncodableTask};
ghost use Rattle.pie_value.specs.Values.{tree_of};
ghost use Rattle.pie_record.specs.inner.Records.{record_of};
ghost use Rattle.pie_tables.specs.Tabled.{IsTables, IsGiven};
ghost use Rattle.pie_compare.specs.inner.Standing.{output_of, output_in, output_stamp, called_stamp};

use crate::present::Present;
use pie_base::OutOfMemory;
use pie_graph::{TaskNo, TaskRows};
use pie_record::{DepKind, Outcome};
use pie_stamp::hash_of;
use pie_value::{Stamp, Value, encode};
use std::alloc::Global;

impl<'a, R: TaskRows> Present<'a, R> {
    /// Whether a required task with this number would have this stamp.
    pub(crate) fn output_stands(
        &self,
        no: TaskNo,
        kind: DepKind,
        stamp: &Stamp,
    ) -> Result<bool, OutOfMemory>
        requires { IsTables self.now.tables.now }
        ensures { IfOk result (λ stands. IsTrue stands ↔ (called_stamp kind (output_in (record_of self.now.tables.now.records no.0)) ≡ Some stamp.now)) }
    {
        match self.tables.records.get(no) {
            Some(rec) => outcome_stands(self.alloc, &rec.outcome, kind, stamp),
            None => Ok(false),
        }
    }
}

fn outcome_stands(
    alloc: Global,
    outcome: &Outcome,
    kind: DepKind,
    stamp: &Stamp,
) -> Result<bool, OutOfMemory>
    requires { IsGiven outcome.now }
    ensures { IfOk result (λ stands. IsTrue stands ↔ (called_stamp kind (output_of outcome.now) ≡ Some stamp.now)) }
{
    match outcome {
        Outcome::Done(output) => is_output_stamp(alloc, kind, output, stamp),
        Outcome::Failed(_) | Outcome::Cycled(_) => Ok(false),
    }
}

// Whether a required task that gave this output has this stamp.
fn is_output_stamp(
    alloc: Global,
    kind: DepKind,
    output: &Value,
    stamp: &Stamp,
) -> Result<bool, OutOfMemory>
    requires { IsEncodable (tree_of output.now) }
    ensures { IfOk result (λ stands. IsTrue stands ↔ (output_stamp kind output.now ≡ Some stamp.now)) }
{
    match (kind, stamp) {
        (DepKind::Require, Stamp::Whole(whole)) => Ok(output.same(whole)),
        (DepKind::RequireHash, Stamp::Hash(hash)) => is_hash_of(alloc, output, hash),
        (DepKind::Run, Stamp::Done) => Ok(true),
        _ => Ok(false),
    }
}

// Whether this is the SHA-256 of the canonical bytes of an output.
fn is_hash_of(alloc: Global, output: &Value, hash: &[u8; 32]) -> Result<bool, OutOfMemory>
    requires { IsEncodable (tree_of output.now) }
    ensures { IfOk result (λ is. IsTrue is ↔ (sha256 (enc (tree_of output.now)) ≡ hash.now)) }
{
    let bytes = encode(alloc, output)?;
    Ok(hash_of(bytes.as_slice()) == *hash)
}
