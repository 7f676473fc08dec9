//! What a store says.
ghost use Rattle.std.specs.Prelude.{◌≡◌, IfSome};
ghost use Rattle.pie_store.specs.inner.Ties.{AreTies};

use crate::Ties;
use pie_base::Text;
use pie_record::TaskRecord;
use pie_value::Tasks;
use std::marker::Model;

/// What a store says. Rule: docs/FORMATS.md, "The store".
#[derive(Drop)]
pub struct StoreImage {
    /// 1 or 2.
    pub version: u8,
    /// In version 1 the SHA-256 of the pipeline, in version 2 `None`.
    pub pipeline: Option<[u8; 32]>,
    /// In version 2 the functions of the pipeline, each with its digest; in version 1 none.
    pub funcs: Funcs,
    pub roots: Tasks,
    /// The records by height and task.
    pub rows: Rows,
}

/// Functions, each with its digest. Contracts see the list of them.
#[derive(Drop)]
pub struct Funcs {
    funcs: Vec<(Text, [u8; 32])>,
}

impl Model for Funcs {
    ghost use Rattle.std.specs.Prelude.{List, ℕ};

    ghost Value = { List (List ℕ × List ℕ) };

    ghost view = { λ f. f.funcs.items };
}

impl Funcs {
    pub fn new(funcs: Vec<(Text, [u8; 32])>) -> Funcs
        ensures { result ≡ funcs.items }
    {
        Funcs { funcs }
    }

    pub fn as_slice(&self) -> &[(Text, [u8; 32])]
        ensures { result.now ≡ self.now }
    {
        self.funcs.as_slice()
    }

    pub fn into_vec(self) -> Vec<(Text, [u8; 32])>
        ensures { result.items ≡ self }
    {
        let Funcs { funcs } = self;
        funcs
    }
}

/// Records in order, with their ties where these are known. Contracts see the list of the records.
#[derive(Drop)]
pub struct Rows {
    rows: Vec<TaskRecord>,
    ties: Option<Ties>,
}

impl Model for Rows {
    ghost use Rattle.std.specs.Prelude.{List, IfSome};
    ghost use Rattle.pie_record.specs.declared.task_record.TaskRecord.{TaskRecord};
    ghost use Rattle.pie_record.specs.inner.RecordCodes.{coded_records};

    ghost Value = { List TaskRecord };

    ghost coded = { coded_records };

    ghost use Rattle.pie_store.specs.inner.Ties.{AreTies};

    ghost view = { λ r. r.rows.items };

    ghost invariant = { λ r. IfSome r.ties (AreTies r.rows.items) };
}

impl Rows {
    pub fn new(rows: Vec<TaskRecord>) -> Rows
        ensures { result ≡ rows.items }
    {
        Rows { rows, ties: None }
    }

    pub(crate) fn tied(rows: Vec<TaskRecord>, ties: Ties) -> Rows
        requires { AreTies rows.items ties }
        ensures { result ≡ rows.items }
    {
        Rows {
            rows,
            ties: Some(ties),
        }
    }

    pub fn as_slice(&self) -> &[TaskRecord]
        ensures { result.now ≡ self.now }
    {
        self.rows.as_slice()
    }

    pub fn into_vec(self) -> Vec<TaskRecord>
        ensures { result.items ≡ self }
    {
        let Rows { rows, ties: _ } = self;
        rows
    }

    /// The records, and their ties where these are known.
    pub fn into_parts(self) -> (Vec<TaskRecord>, Option<Ties>)
        ensures rows { result.0.items ≡ self }
        ensures ties { IfSome result.1 (AreTies self) }
    {
        let Rows { rows, ties } = self;
        (rows, ties)
    }
}
