//! Whether observations of paths under `out/` stand.
ghost use Rattle.std.specs.Prelude.{◌≡◌, ◌↔◌, length, IfOk, IsTrue, Some};
ghost use Rattle.pie_graph.specs.Numbers.{numbers, AllBelow};
ghost use Rattle.pie_record.specs.inner.Records.{record_of};
ghost use Rattle.pie_compare.specs.inner.Here.{around};
ghost use Rattle.pie_compare.specs.inner.Standing.{write_at as specs_write_at, hash_in, is_of_file as specs_is_of_file, out_stamp};
ghost use Rattle.pie_compare.specs.inner.Standing.{SeenStands, OthersStand, OutStands};

use crate::present::Present;
use pie_base::{OutOfMemory, Path};
use pie_graph::{TaskNo, TaskRows};
use pie_record::DepKind;
use pie_value::Stamp;
use pie_view::{Seen, view};

impl<'a, R: TaskRows> Present<'a, R> {
    /// Whether an observation of a path under `out/` would have this stamp.
    pub(crate) fn out_stands(
        &self,
        required: &[TaskNo],
        kind: DepKind,
        path: &Path,
        stamp: &Stamp,
    ) -> Result<bool, OutOfMemory>
        requires { AllBelow (length (R.rows self.now.rows.now)) (numbers required.now) }
        ensures { IfOk result (λ stands. IsTrue stands ↔ OutStands (around (R.rows self.now.rows.now) self.now) (numbers required.now) kind path.now stamp.now) }
    {
        if !is_of_file(kind) {
            return Ok(false);
        }
        match write_at(self.own, path) {
            Some(hash) => Ok(is_out_stamp(kind, Some(hash), stamp)),
            None => {
                let stands = self.others_stand(required, kind, path, stamp)?;
                Ok(stands)
            }
        }
    }

    // Whether what others wrote there has this stamp.
    fn others_stand(
        &self,
        required: &[TaskNo],
        kind: DepKind,
        path: &Path,
        stamp: &Stamp,
    ) -> Result<bool, OutOfMemory>
        requires { AllBelow (length (R.rows self.now.rows.now)) (numbers required.now) }
        ensures { IfOk result (λ stands. IsTrue stands ↔ OthersStand (around (R.rows self.now.rows.now) self.now) (numbers required.now) kind path.now stamp.now) }
    {
        let seen = view(self.alloc, self.rows, self.no, &[], required, path)?;
        Ok(self.seen_stands(seen, kind, path, stamp))
    }

    fn seen_stands(&self, seen: Seen, kind: DepKind, path: &Path, stamp: &Stamp) -> bool
        ensures { IsTrue result ↔ SeenStands self.now.tables.now kind path.now stamp.now seen }
    {
        match seen {
            Seen::Absent => is_out_stamp(kind, None, stamp),
            Seen::By(no) => is_out_stamp(kind, self.hash_of(no, path), stamp),
            Seen::Clash => false,
        }
    }

    // The hash that the record of a task has for a path.
    fn hash_of(&self, no: TaskNo, path: &Path) -> Option<[u8; 32]>
        ensures { result ≡ hash_in (record_of self.now.tables.now.records no.0) path.now }
    {
        match self.tables.records.get(no) {
            Some(rec) => write_at(rec.writes.as_slice(), path),
            None => None,
        }
    }
}

// The hash of the first of these writes that is of the path.
fn write_at(writes: &[(Path, [u8; 32])], path: &Path) -> Option<[u8; 32]>
    ensures { result ≡ specs_write_at writes.now path.now }
{
    for (at, hash) in writes {
        if *at == *path {
            return Some(*hash);
        }
    }
    None
}

// Whether an observation of this kind is of one file.
fn is_of_file(kind: DepKind) -> bool
    ensures { result ≡ specs_is_of_file kind }
{
    match kind {
        DepKind::Exists | DepKind::ReadHash | DepKind::ReadMark | DepKind::Digest => true,
        DepKind::List | DepKind::Require | DepKind::RequireHash | DepKind::Run => false,
    }
}

// Whether a file under `out/` that has this hash, or isn't there, has this stamp.
fn is_out_stamp(kind: DepKind, hash: Option<[u8; 32]>, stamp: &Stamp) -> bool
    ensures { IsTrue result ↔ (stamp.now ≡ out_stamp kind hash) }
{
    match hash {
        Some(hash) => is_content(kind, hash, stamp),
        None => stamp.same(&Stamp::Absent),
    }
}

fn is_content(kind: DepKind, hash: [u8; 32], stamp: &Stamp) -> bool
    ensures { IsTrue result ↔ (stamp.now ≡ out_stamp kind (Some hash)) }
{
    match kind {
        DepKind::Exists => stamp.same(&Stamp::Present),
        _ => stamp.same(&Stamp::Hash(hash)),
    }
}
