//! What a task sees at a path.
ghost use Rattle.std.specs.Prelude.{◌≡◌, ℕ, List, IfOk, false, is_some, true};
ghost use Rattle.std.specs.Option.{option_map};
ghost use Rattle.pie_base.specs.Path.{is_out, is_source};
ghost use Rattle.pie_files.specs.Reading.{ReadsOnly};
ghost use Rattle.pie_files.specs.declared.files.Call.TheVariants as calls;
ghost use Rattle.pie_running.specs.inner.Asking.{AsksOnly, AsksTwice};
ghost use Rattle.pie_running.specs.inner.Noted.{Noted};
ghost use Rattle.pie_running.specs.inner.Sights.{SeesHeldDigest, SeesHeldPresence, SeesHeldReading, SeesHeldSource, SightSays, Sighted, StampsHeld, hash_in, mark_stamp, provided_sight};
ghost use Rattle.pie_running.specs.inner.Told.{hash_stamp};

use crate::notes::Notes;
use pie_base::{OutOfMemory, Path};
use pie_files::{Files, FilesError, Found, Within};
use pie_stamp::hash_of;
use pie_value::{By, Stamp};
use std::alloc::Global;

/// What a task sees at a path under `out/`.
#[derive(Clone, Copy)]
pub enum Provided<'b> {
    /// Neither the task nor one that it required wrote there.
    Nothing,
    /// The content that was written there.
    Content(&'b [u8]),
    /// Two of the tasks that it required wrote there.
    Clash,
}

/// What is shown of paths under `out/` to the tasks of a build.
pub trait Shows {
    /// These notes are of a task of the build.
    ghost knows: { Self → Noted → Type 0 };

    /// A task with these notes sees this at a path under `out/`.
    ghost sees: { Self → Noted → List ℕ → Sighted → Type 0 };

    /// What a task with these notes sees at a path under `out/`.
    fn shown<'b>(&'b self, notes: &Notes, path: &Path) -> Result<Provided<'b>, OutOfMemory>
        requires { knows self.now notes.now }
        ensures { IfOk result (λ p. sees self.now notes.now path.now (provided_sight p)) };
}

/// What a task sees that reads, at any path.
#[derive(Drop)]
pub enum Sight {
    File(Option<Found>),
    /// A source of more bytes than a value may hold, by its stamp. None of them is handed out.
    Long(Stamp),
    Clash,
}

/// The most bytes that a value may hold: its canonical bytes are five more.
const MAX_CONTENT_BYTES: usize = 1_048_571;

/// What a task sees that reads a path so. Only a source path is asked of the files: once, and once more for its stamp where it is too long.
#[tactic(auto, using(pie_files::proofs::Reading::reads, crate::proofs::Asking::asks, crate::proofs::Asking::asks_few, crate::proofs::Asking::asks_as))]
pub(crate) fn reading<S: Shows, F: Files>(
    alloc: Global,
    shows: &S,
    notes: &Notes,
    path: &Path,
    by: By,
    files: &mut F,
) -> Result<Sight, FilesError>
    requires { S.knows shows.now notes.now }
    ensures asks { AsksTwice F.asked (is_source path.now) (calls.Read path.now) files.old files.new }
    ensures reads { ReadsOnly F.holds F.moment F.left_since F.images F.faults files.old files.new result }
    ensures sees { IfOk result (λ s. SeesHeldReading (F.holds files.old) by path.now (S.sees shows.now notes.now path.now) s) }
{
    if path.under_out() {
        return Ok(copied(alloc, shows, notes, path, by)?);
    }
    if path.is_source() {
        let seen = source(path, by, files)?;
        return Ok(seen);
    }
    Ok(Sight::File(None))
}

// A source, as a task sees it that reads it so.
#[tactic(auto, using(pie_files::proofs::Reading::reads, crate::proofs::Asking::asks, crate::proofs::Asking::asks_few, crate::proofs::Asking::asks_more))]
fn source<F: Files>(path: &Path, by: By, files: &mut F) -> Result<Sight, FilesError>
    requires { is_out path.now ≡ false }
    ensures asks { AsksTwice F.asked true (calls.Read path.now) files.old files.new }
    ensures reads { ReadsOnly F.holds F.moment F.left_since F.images F.faults files.old files.new result }
    ensures sees { IfOk result (SeesHeldSource (F.holds files.old) by path.now) }
{
    match files.read_within(path, MAX_CONTENT_BYTES)? {
        Within::Absent => Ok(Sight::File(None)),
        Within::Whole(found) => Ok(Sight::File(Some(found))),
        Within::Long => Ok(Sight::Long(stamp_there(path, by, files)?)),
    }
}

// The stamp of a source that a task reads so. By mark its bytes aren't asked for, by hash they needn't fit into memory.
#[tactic(auto, using(pie_files::proofs::Reading::reads, crate::proofs::Asking::asks))]
fn stamp_there<F: Files>(path: &Path, by: By, files: &mut F) -> Result<Stamp, FilesError>
    requires { is_out path.now ≡ false }
    ensures asks { AsksOnly F.asked true (calls.Read path.now) files.old files.new }
    ensures reads { ReadsOnly F.holds F.moment F.left_since F.images F.faults files.old files.new result }
    ensures stamp { IfOk result (StampsHeld (F.holds files.old) by path.now) }
{
    match by {
        By::Mark => {
            let mark = files.mark(path)?;
            Ok(stamp_by_mark(mark))
        }
        By::Hash | By::Raw => {
            let hash = files.digest(path)?;
            Ok(stamp_by_hash(hash))
        }
    }
}

fn stamp_by_mark(mark: Option<u64>) -> Stamp
    ensures { result ≡ mark_stamp mark }
{
    match mark {
        Some(mark) => Stamp::Mark(mark),
        None => Stamp::Absent,
    }
}

/// The stamp of a file with this SHA-256, or of none.
pub(crate) fn stamp_by_hash(hash: Option<[u8; 32]>) -> Stamp
    ensures { result ≡ hash_stamp hash }
{
    match hash {
        Some(hash) => Stamp::Hash(hash),
        None => Stamp::Absent,
    }
}

// What a task sees at a path under `out/`, in memory of its own.
fn copied<S: Shows>(
    alloc: Global,
    shows: &S,
    notes: &Notes,
    path: &Path,
    _by: By,
) -> Result<Sight, OutOfMemory>
    requires { S.knows shows.now notes.now }
    ensures sees { IfOk result (λ s. SightSays _by path.now s (S.sees shows.now notes.now path.now)) }
{
    match shows.shown(notes, path)? {
        Provided::Nothing => Ok(Sight::File(None)),
        Provided::Content(content) => Ok(Sight::File(Some(Found {
            bytes: content.to_vec(alloc)?,
            mark: 0,
        }))),
        Provided::Clash => Ok(Sight::Clash),
    }
}

/// Whether a task sees a file at a path, or `None` where two tasks wrote it.
#[tactic(auto, using(pie_files::proofs::Reading::reads, crate::proofs::Asking::asks))]
pub(crate) fn presence<S: Shows, F: Files>(
    shows: &S,
    notes: &Notes,
    path: &Path,
    files: &mut F,
) -> Result<Option<bool>, FilesError>
    requires { S.knows shows.now notes.now }
    ensures asks { AsksOnly F.asked (is_source path.now) (calls.Read path.now) files.old files.new }
    ensures reads { ReadsOnly F.holds F.moment F.left_since F.images F.faults files.old files.new result }
    ensures sees { IfOk result (λ p. SeesHeldPresence (F.holds files.old) path.now (S.sees shows.now notes.now path.now) p) }
{
    if path.under_out() {
        return Ok(is_provided(shows.shown(notes, path)?));
    }
    if !path.is_source() {
        return Ok(Some(false));
    }
    let there = files.exists(path)?;
    Ok(Some(there))
}

/// The SHA-256 of what a task sees at a path, or `None` where two tasks wrote it.
#[tactic(auto, using(pie_files::proofs::Reading::reads, crate::proofs::Asking::asks))]
pub(crate) fn digest<S: Shows, F: Files>(
    shows: &S,
    notes: &Notes,
    path: &Path,
    files: &mut F,
) -> Result<Option<Option<[u8; 32]>>, FilesError>
    requires { S.knows shows.now notes.now }
    ensures asks { AsksOnly F.asked (is_source path.now) (calls.Read path.now) files.old files.new }
    ensures reads { ReadsOnly F.holds F.moment F.left_since F.images F.faults files.old files.new result }
    ensures sees { IfOk result (λ h. SeesHeldDigest (F.holds files.old) path.now (S.sees shows.now notes.now path.now) h) }
{
    if path.under_out() {
        return Ok(provided_digest(shows.shown(notes, path)?));
    }
    if !path.is_source() {
        return Ok(Some(None));
    }
    let hash = files.digest(path)?;
    Ok(Some(hash))
}

fn provided_digest(provided: Provided) -> Option<Option<[u8; 32]>>
    ensures { result ≡ option_map hash_in (provided_sight provided.entry) }
{
    match provided {
        Provided::Nothing => Some(None),
        Provided::Content(content) => Some(Some(hash_of(content))),
        Provided::Clash => None,
    }
}

fn is_provided(provided: Provided) -> Option<bool>
    ensures { result ≡ option_map is_some (provided_sight provided.entry) }
{
    match provided {
        Provided::Nothing => Some(false),
        Provided::Content(_) => Some(true),
        Provided::Clash => None,
    }
}
