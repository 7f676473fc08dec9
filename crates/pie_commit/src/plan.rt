//! What a commit is to do.
ghost use Rattle.std.specs.Prelude.{◌≡◌, ◌||◌, true, codes, IfOk};
ghost use Rattle.std.specs.List.{list_all};
ghost use Rattle.pie_base.specs.Path.{is_out, same_text};
ghost use Rattle.pie_commit.specs.inner.Plans.{has_own_places, may_be_written, is_sound, is_empty};

use pie_base::{OutOfMemory, Path};
use std::alloc::Global;

/// What becomes of the list of pending names.
#[derive(Drop)]
pub enum Pending {
    /// It stays as it is.
    Keep,
    /// It gets these bytes.
    Put(Vec<u8>),
    /// It is removed.
    Drop,
}

/// What a commit is to do. Its three own paths are those that `new` makes.
/// Rule: docs/BUILDING.md, "The commit".
#[derive(Drop)]
pub struct Plan {
    /// `.pie/open`, which stands while a commit is unfinished.
    pub marker: Path,
    /// `.pie/store`.
    pub place: Path,
    /// `.pie/pending`.
    pub names_place: Path,
    /// The files that go.
    pub removals: Vec<Path>,
    /// The files that are written, with their bytes.
    pub writes: Vec<(Path, Vec<u8>)>,
    pub pending: Pending,
    /// The bytes of the store, where it is written.
    pub store: Option<Vec<u8>>,
}

impl Plan {
    /// A plan of these changes.
    pub fn new(
        alloc: Global,
        removals: Vec<Path>,
        writes: Vec<(Path, Vec<u8>)>,
        pending: Pending,
        store: Option<Vec<u8>>,
    ) -> Result<Plan, OutOfMemory>
        ensures places { IfOk result (λ plan. has_own_places plan ≡ true) }
        ensures removals { IfOk result (λ plan. plan.removals ≡ removals) }
        ensures writes { IfOk result (λ plan. plan.writes ≡ writes) }
        ensures pending { IfOk result (λ plan. plan.pending ≡ pending) }
        ensures store { IfOk result (λ plan. plan.store ≡ store) }
    {
        let marker = Path::known(alloc, ".pie/open")?;
        let place = Path::known(alloc, ".pie/store")?;
        let names_place = Path::known(alloc, ".pie/pending")?;
        Ok(Plan {
            marker,
            place,
            names_place,
            removals,
            writes,
            pending,
            store,
        })
    }

    /// Whether the plan can be committed: its own paths are those that `new` makes, its removals are of kind out,
    /// and each of its writes is of kind out or at `.pie/manifest`.
    pub fn is_sound(&self) -> bool
        ensures { result ≡ is_sound self.now }
    {
        self.has_own_places() && all_out(&self.removals) && all_may_be_written(&self.writes)
    }

    fn has_own_places(&self) -> bool
        ensures { result ≡ has_own_places self.now }
    {
        is_at(&self.marker, ".pie/open")
            && is_at(&self.place, ".pie/store")
            && is_at(&self.names_place, ".pie/pending")
    }

    /// Whether there is nothing to do: no removal, no write, no store, and the pending names stay.
    pub fn is_empty(&self) -> bool
        ensures { result ≡ is_empty self.now }
    {
        self.removals.is_empty()
            && self.writes.is_empty()
            && self.store.is_none()
            && matches!(self.pending, Pending::Keep)
    }
}

fn all_out(paths: &[Path]) -> bool
    ensures { result ≡ list_all is_out paths.now }
{
    paths.iter().all(|path| path.under_out())
}

fn all_may_be_written(writes: &[(Path, Vec<u8>)]) -> bool
    ensures { result ≡ list_all (λ w. may_be_written w.0) writes.now }
{
    writes.iter().all(|write| may_be_written(&write.0))
}

fn may_be_written(path: &Path) -> bool
    ensures { result ≡ may_be_written path.now }
{
    path.under_out() || is_at(path, ".pie/manifest")
}

fn is_at(path: &Path, text: &str) -> bool
    ensures { result ≡ same_text path.now text.now }
{
    path.as_str().as_bytes() == text.as_bytes()
}
