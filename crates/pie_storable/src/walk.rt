//! A walk over records in the order of a store, and one over roots.
ghost use Rattle.std.specs.Prelude.{◌≡◌, true, false, None, All, IfOk, IfSome};
ghost use Rattle.pie_value.specs.Canonical.{IsEncodableTask};
ghost use Rattle.pie_record.specs.Canonical.{IsStorable};
ghost use Rattle.pie_store.specs.inner.Known.{set_has};
ghost use Rattle.pie_storable.specs.inner.Heights.{AreWalked, HaveRecords, LackRecords, MayFollow};

use crate::heights::Heights;
use indexmap::IndexSet;
use pie_base::OutOfMemory;
use pie_record::TaskRecord;
use pie_value::Task;
use std::alloc::Global;

// The heights of the tasks of records, if each record may stand after those before it.
pub(crate) fn heights_of(
    alloc: Global,
    known: &IndexSet<Vec<u8>>,
    rows: &[TaskRecord],
) -> Result<Option<Heights>, OutOfMemory>
    requires { All IsStorable rows.now }
    ensures walked { IfOk result (λ h. IfSome h (AreWalked (set_has known.now) rows.now)) }
    ensures refused { IfOk result (λ h. h ≡ None → ¬ (MayFollow (set_has known.now) rows.now)) }
{
    let mut heights = Heights::new(alloc);
    for row in rows {
        if !heights.admit(known, row)? {
            return Ok(None);
        }
    }
    Ok(Some(heights))
}

// Whether each of these tasks has a record.
pub(crate) fn have_records(heights: &Heights, tasks: &[Task]) -> Result<bool, OutOfMemory>
    requires { All IsEncodableTask tasks.now }
    ensures all { IfOk result (λ all. all ≡ true → HaveRecords heights.now tasks.now) }
    ensures lacking { IfOk result (λ all. all ≡ false → LackRecords heights.now tasks.now) }
{
    for task in tasks {
        if heights.rank(task)?.is_none() {
            return Ok(false);
        }
    }
    Ok(true)
}
