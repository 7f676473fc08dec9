//! Which tasks observed a file under `out/`.
ghost use Rattle.std.specs.Prelude.{◌≡◌, map, IfOk};
ghost use Rattle.pie_old.specs.inner.Looking.{asks_for_file as specs_asks_for_file, looks_at_out as specs_looks_at_out, looks_out as specs_looks_out};

use pie_base::OutOfMemory;
use pie_record::{Dep, DepKind, DepOn, TaskRecord};
use std::alloc::Global;

/// Which of these tasks observed a file under `out/`.
pub(crate) fn looks_of(alloc: Global, rows: &[TaskRecord]) -> Result<Vec<bool>, OutOfMemory>
    ensures { IfOk result (λ flags. flags.items ≡ map specs_looks_out rows.now) }
{
    let mut flags = Vec::with_capacity(alloc, rows.len())?;
    for rec in rows {
        let looks = looks_out(rec);
        flags.push(looks)?;
    }
    Ok(flags)
}

// Whether the task observed a file under `out/`.
fn looks_out(rec: &TaskRecord) -> bool
    ensures { result ≡ specs_looks_out rec.now }
{
    rec.deps.as_slice().iter().any(|dep| looks_at_out(dep))
}

fn looks_at_out(dep: &Dep) -> bool
    ensures { result ≡ specs_looks_at_out dep.now }
{
    match &dep.what {
        DepOn::File(path) => asks_for_file(dep.kind) && path.under_out(),
        DepOn::Called(_) => false,
    }
}

// Whether an observation of this kind is of one file.
fn asks_for_file(kind: DepKind) -> bool
    ensures { result ≡ specs_asks_for_file kind }
{
    match kind {
        DepKind::Exists | DepKind::ReadHash | DepKind::ReadMark | DepKind::Digest => true,
        _ => false,
    }
}
